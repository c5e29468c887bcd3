//! What is known of two locks, of which one was asked for while the other was held.

ghost use Rattle.std.specs.Prelude.{◌≡◌, ◌==◌, ◌++◌, IfOk, OnOk, find};
ghost use Rattle.std.specs.Option.{option_copied};
ghost use Rattle.wit_recorded.specs.declared.lines.PairLock.{PairLock};
ghost use Rattle.wit_tellings.specs.Heard.{again, begun, common, deed_of, is_by, last_known, later, met};
ghost use Rattle.wit_tellings.specs.Heard.{or_this, with_deed, with_thread};

use std::alloc::{AllocError, Global};
use wit_model::Mode;
use wit_recorded::{Besides, How, Pair, PairLock};

/// A thread that did so, and when: how many threads had been made and joined by then.
#[derive(Clone, Copy, Debug, PartialEq, Eq, Hash)]
pub struct Deed {
    /// The thread, as the kernel counts.
    pub thread: u32,
    /// When it did so first.
    pub first: u32,
    /// When it told of that last.
    pub last: u32,
    /// Where it did so first, by the recording's number.
    pub place: u32,
}

/// The one lock was asked for while the other was held.
#[derive(Debug, Drop)]
pub struct Asking {
    /// The held lock.
    pub held: PairLock,
    /// It was acquired while the lock was held that is asked for.
    pub under: bool,
    /// The lock that is asked for.
    pub asked: PairLock,
    /// In which way.
    pub how: How,
    /// What was held besides each time: shared where it ever was.
    pub besides: Besides,
    /// The first thread that did so,
    pub one: Option<Deed>,
    /// and the second.
    pub other: Option<Deed>,
    /// A third one; there may be others.
    pub further: Option<u32>,
}

impl Asking {
    /// What is known when it was told first.
    pub fn begun(pair: Pair) -> Asking
        ensures { result ≡ begun pair }
    {
        let deed = deed_of(&pair);
        let further = pair.further;
        let mut asking = Asking {
            held: pair.held,
            under: pair.under,
            asked: pair.asked,
            how: pair.how,
            besides: pair.besides,
            one: None,
            other: None,
            further: None,
        };
        asking.note(deed, further);
        asking
    }

    /// What is known when it was told again.
    ///
    /// # Errors
    /// Want of memory alone.
    pub fn again(&self, alloc: Global, pair: &Pair) -> Result<Asking, AllocError>
        ensures { IfOk result (λ asking. asking ≡ again self.now pair.now) }
    {
        let besides = common(alloc, self.besides.locks(), pair.besides.locks())?;
        let mut asking = Asking {
            held: last_known(self.held, pair.held),
            under: self.under,
            asked: last_known(self.asked, pair.asked),
            how: self.how,
            besides: Besides::new(besides),
            one: self.one,
            other: self.other,
            further: self.further,
        };
        asking.note(deed_of(pair), pair.further);
        Ok(asking)
    }

    fn note(&mut self, deed: Deed, further: bool)
        ensures { self.new ≡ with_thread self.old deed further }
    {
        self.note_deed(deed, further);
        if further {
            self.further = self.further.or(Some(deed.thread));
        }
    }

    fn note_deed(&mut self, deed: Deed, further: bool)
        ensures { self.new ≡ with_deed self.old deed further }
    {
        if is_by(deed.thread, self.one) {
            self.one = later(deed.last, self.one);
        } else if is_by(deed.thread, self.other) {
            self.other = later(deed.last, self.other);
        } else if self.one.is_some() {
            self.other = or_this(self.other, deed, further);
        } else {
            self.one = or_this(self.one, deed, further);
        }
    }
}

fn deed_of(pair: &Pair) -> Deed
    ensures { result ≡ deed_of pair.now }
{
    Deed {
        thread: pair.thread,
        first: pair.when,
        last: pair.when,
        place: pair.place,
    }
}

fn is_by(thread: u32, known: Option<Deed>) -> bool
    ensures { result ≡ is_by thread known }
{
    match known {
        None => false,
        Some(deed) => deed.thread == thread,
    }
}

fn later(now: u32, known: Option<Deed>) -> Option<Deed>
    ensures { result ≡ later now known }
{
    match known {
        None => None,
        Some(deed) => Some(Deed {
            last: deed.last.max(now),
            ..deed
        }),
    }
}

// Where nobody is known yet, this thread is, if it is none of the further ones.
fn or_this(known: Option<Deed>, deed: Deed, further: bool) -> Option<Deed>
    ensures { result ≡ or_this known deed further }
{
    match known {
        None => { if further { None } else { Some(deed) } }
        Some(known) => Some(known),
    }
}

// Its number in the recording is the last one that it had.
fn last_known(old: PairLock, new: PairLock) -> PairLock
    ensures { result ≡ last_known old new }
{
    if new.number == 0 { old } else { new }
}

// What is in both, as shared where it is in one of them.
fn common(
    alloc: Global,
    besides: &[PairLock],
    told: &[PairLock],
) -> Result<Vec<PairLock>, AllocError>
    ensures { IfOk result (λ locks. locks.items ≡ common besides.now told.now) }
{
    let mut locks = Vec::new(alloc);
    put_common(&mut locks, besides, told)?;
    Ok(locks)
}

fn put_common(
    to: &mut Vec<PairLock>,
    besides: &[PairLock],
    told: &[PairLock],
) -> Result<(), AllocError>
    ensures { OnOk result (to.new.items ≡ to.old.items ++ common besides.now told.now) }
{
    match besides {
        [] => Ok(()),
        [lock, others @ ..] => {
            put_met(to, *lock, same_in(told, *lock))?;
            put_common(to, others, told)
        }
    }
}

fn same_in(told: &[PairLock], lock: PairLock) -> Option<&PairLock>
    ensures { option_copied result ≡ find (λ (x : PairLock). x.serial == lock.serial) told.now }
{
    told.iter().find(|x| x.serial == lock.serial)
}

fn put_met(
    to: &mut Vec<PairLock>,
    lock: PairLock,
    same: Option<&PairLock>,
) -> Result<(), AllocError>
    ensures { OnOk result (to.new.items ≡ to.old.items ++ met lock (option_copied same.entry)) }
{
    let Some(same) = same else {
        return Ok(());
    };
    let mode = if lock.mode.is_exclusive() && same.mode.is_exclusive() {
        Mode::Exclusive
    } else {
        Mode::Shared
    };
    to.push(PairLock { mode, ..*same })?;
    Ok(())
}
