//! Who asked for locks of some types while they held others of them, and the facts of that.

ghost use Rattle.std.specs.Prelude.{◌≡◌, ◌++◌, ◌∷◌, [], IfOk, OnOk, map};
ghost use Rattle.wit_grades.specs.Reading.{shown};
ghost use Rattle.wit_tellings.specs.Facts.{at_place, by_deed, by_further, fact_of, facts, had_of};
ghost use Rattle.wit_tellings.specs.Facts.{is_among, is_between, last_of, manner_of, place_of, since, teller_of};
ghost use Rattle.wit_tellings.specs.Facts.{tellers, tellers_at, tellers_between, tellers_of, until_when, who};
ghost use Rattle.wit_tellings.specs.Heard.{heard};

use crate::asking::{Asking, Deed};
use crate::tellings::Tellings;
use std::alloc::{AllocError, Global};
use wit_alarms::{Fact, Had, Manner, Single, ThreadNo};
use wit_recorded::{Besides, How, PairLock};

/// A thread tells so often at most of the same two locks, and once more when it has made another thread.
/// So from this time on it needn't have told of the last one.
pub const TELLINGS: u32 = 7;

/// A thread asked for one lock while it held another one.
#[derive(Debug, Drop)]
pub struct Teller {
    /// The held lock.
    pub held: PairLock,
    /// It was acquired while the lock was held that is asked for.
    pub under: bool,
    /// The lock that is asked for.
    pub asked: PairLock,
    /// In which way.
    pub how: How,
    /// What was held besides each time.
    pub besides: Besides,
    /// When it did so; `None` of a third thread, which stands for all further ones.
    pub deed: Option<Deed>,
    /// The thread, as the kernel counts.
    pub thread: u32,
    /// Where it was done first, by the recording's number; 0 where that isn't known.
    pub place: u32,
}

impl Tellings {
    /// All that did so with locks of these types, by the numbers of the recording.
    ///
    /// # Errors
    /// Want of memory alone.
    pub fn tellers(&self, alloc: Global, types: &[u32]) -> Result<Vec<Teller>, AllocError>
        ensures { IfOk result (λ all. all.items ≡ tellers (heard self.now) types.now) }
    {
        let mut all = Vec::new(alloc);
        for place in 0..self.asked.len() {
            self.put_tellers(&mut all, alloc, types, place)?;
        }
        Ok(all)
    }

    fn put_tellers(
        &self,
        to: &mut Vec<Teller>,
        alloc: Global,
        types: &[u32],
        place: usize,
    ) -> Result<(), AllocError>
        ensures { OnOk result (to.new.items ≡ to.old.items
            ++ at_place (tellers_at types.now) self.now.asked.entries place) }
    {
        match self.asked.get_index(place) {
            Some((_, asking)) => put_between(to, alloc, types, asking),
            None => Ok(()),
        }
    }

    /// The facts of these.
    ///
    /// # Errors
    /// Want of memory alone.
    pub fn facts(&self, alloc: Global, tellers: &[Teller]) -> Result<Vec<Fact>, AllocError>
        ensures { IfOk result (λ all. map shown all.items ≡ facts (heard self.now) tellers.now) }
    {
        let mut all = Vec::new(alloc);
        let mut rest = tellers;
        while let Some((teller, others)) = rest.split_first() {
            self.put_fact(&mut all, alloc, teller)?;
            rest = others;
        }
        Ok(all)
    }

    fn put_fact(&self, to: &mut Vec<Fact>, alloc: Global, teller: &Teller) -> Result<(), AllocError>
        ensures { OnOk result (map shown to.new.items
            ≡ map shown to.old.items ++ fact_of (heard self.now) teller.now ∷ []) }
    {
        let fact = self.fact_of(alloc, teller)?;
        to.push(fact)?;
        Ok(())
    }

    fn fact_of(&self, alloc: Global, teller: &Teller) -> Result<Fact, AllocError>
        ensures { IfOk result (λ fact. shown fact ≡ fact_of (heard self.now) teller.now) }
    {
        Ok(Fact {
            held: had_of(teller.held),
            under: teller.under,
            asked: had_of(teller.asked),
            manner: manner_of(teller.how),
            besides: hads_of(alloc, teller.besides.locks())?,
            thread: self.who(teller),
            first: since(teller.deed),
            last: self.until_when(teller.deed),
        })
    }

    /// The thread, where it is known which one it is.
    pub fn who(&self, teller: &Teller) -> Option<ThreadNo>
        ensures { result ≡ who (heard self.now) teller.now teller.now.deed }
    {
        match teller.deed {
            Some(_) => self.thread_known(teller.thread),
            None => None,
        }
    }

    /// When it did so last, where it told of that; else the greatest number.
    pub fn until_when(&self, deed: Option<Deed>) -> u32
        ensures { result ≡ until_when (heard self.now) deed }
    {
        match deed {
            Some(deed) => self.last_of(deed),
            None => u32::MAX,
        }
    }

    // When it did so last, where it told of that.
    fn last_of(&self, deed: Deed) -> u32
        ensures { result ≡ last_of (heard self.now) deed }
    {
        if self.lost || TELLINGS <= deed.last {
            u32::MAX
        } else {
            deed.last
        }
    }
}

// Those of two locks, where both are of these types.
fn put_between(
    to: &mut Vec<Teller>,
    alloc: Global,
    types: &[u32],
    asking: &Asking,
) -> Result<(), AllocError>
    ensures { OnOk result (to.new.items
        ≡ to.old.items ++ tellers_between types.now asking.now) }
{
    if is_between(types, asking) {
        put_tellers_of(to, alloc, asking)
    } else {
        Ok(())
    }
}

fn is_between(types: &[u32], asking: &Asking) -> bool
    ensures { result ≡ is_between types.now asking.now }
{
    is_among(types, asking.held.of) && is_among(types, asking.asked.of)
}

fn is_among(numbers: &[u32], number: u32) -> bool
    ensures { result ≡ is_among numbers.now number }
{
    numbers.iter().any(|other| *other == number)
}

fn put_tellers_of(to: &mut Vec<Teller>, alloc: Global, asking: &Asking) -> Result<(), AllocError>
    ensures { OnOk result (to.new.items ≡ to.old.items ++ tellers_of asking.now) }
{
    put_by_deed(to, alloc, asking, asking.one)?;
    put_by_deed(to, alloc, asking, asking.other)?;
    put_by_further(to, alloc, asking)
}

fn put_by_deed(
    to: &mut Vec<Teller>,
    alloc: Global,
    asking: &Asking,
    deed: Option<Deed>,
) -> Result<(), AllocError>
    ensures { OnOk result (to.new.items ≡ to.old.items ++ by_deed asking.now deed) }
{
    match deed {
        Some(known) => {
            let teller = teller_of(alloc, asking, Some(known), known.thread, known.place)?;
            to.push(teller)?;
            Ok(())
        }
        None => Ok(()),
    }
}

fn put_by_further(to: &mut Vec<Teller>, alloc: Global, asking: &Asking) -> Result<(), AllocError>
    ensures { OnOk result (to.new.items
        ≡ to.old.items ++ by_further asking.now asking.now.further) }
{
    match asking.further {
        Some(thread) => {
            let teller = teller_of(alloc, asking, None, thread, place_of(asking.one))?;
            to.push(teller)?;
            Ok(())
        }
        None => Ok(()),
    }
}

fn teller_of(
    alloc: Global,
    asking: &Asking,
    deed: Option<Deed>,
    thread: u32,
    place: u32,
) -> Result<Teller, AllocError>
    ensures { IfOk result (λ teller. teller ≡ teller_of asking.now deed thread place) }
{
    Ok(Teller {
        held: asking.held,
        under: asking.under,
        asked: asking.asked,
        how: asking.how,
        besides: asking.besides.copy(alloc)?,
        deed,
        thread,
        place,
    })
}

fn place_of(deed: Option<Deed>) -> u32
    ensures { result ≡ place_of deed }
{
    match deed {
        Some(deed) => deed.place,
        None => 0,
    }
}

fn had_of(lock: PairLock) -> Had
    ensures { result ≡ had_of lock }
{
    Had {
        lock: Single(lock.serial),
        mode: lock.mode,
    }
}

fn hads_of(alloc: Global, locks: &[PairLock]) -> Result<Vec<Had>, AllocError>
    ensures { IfOk result (λ hads. hads.items ≡ map had_of locks.now) }
{
    let mut hads = Vec::new(alloc);
    put_hads(&mut hads, locks)?;
    Ok(hads)
}

fn put_hads(to: &mut Vec<Had>, locks: &[PairLock]) -> Result<(), AllocError>
    ensures { OnOk result (to.new.items ≡ to.old.items ++ map had_of locks.now) }
{
    match locks {
        [] => Ok(()),
        [lock, others @ ..] => {
            to.push(had_of(*lock))?;
            put_hads(to, others)
        }
    }
}

// Again and again is until it is had.
fn manner_of(how: How) -> Manner
    ensures { result ≡ manner_of how }
{
    match how {
        How::ForATime => Manner::Timed,
        How::AsAWaitEnds => Manner::EndsWait,
        How::Plainly | How::Repeatedly => Manner::Plain,
    }
}

/// When it did so first; 0 where that isn't known.
pub fn since(deed: Option<Deed>) -> u32
    ensures { result ≡ since deed }
{
    match deed {
        Some(deed) => deed.first,
        None => 0,
    }
}
