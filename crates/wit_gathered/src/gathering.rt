//! Gathering, line by line.

ghost use Rattle.std.specs.Prelude.{◌≡◌, ◌+◌, ◌<◌, ◌^◌, None, IfOk, IfSome, OnOk, length, slice_get};
ghost use Rattle.std.specs.Option.{option_copied};
ghost use Rattle.wit_traced.specs.Acquiring as lockdep;
ghost use Rattle.wit_traced.specs.Doings.{doing};
ghost use Rattle.wit_traced.specs.Tellings.{telling};
ghost use Rattle.wit_gathered.specs.Gathering.{acquiring, acquiring_class, acquiring_lock};
ghost use Rattle.wit_gathered.specs.Gathering.{acquiring_mutex, acting, asking_first, asking_for};
ghost use Rattle.wit_gathered.specs.Gathering.{asking_interrupt, coming, entering};
ghost use Rattle.wit_gathered.specs.Gathering.{gathered, getting_mutex, has_it, hold_of, holding};
ghost use Rattle.wit_gathered.specs.Gathering.{is_early, is_hard};
ghost use Rattle.wit_gathered.specs.Gathering.{is_interrupt, is_probe, is_soft, last_place, leaving};
ghost use Rattle.wit_gathered.specs.Gathering.{letting_go, losing, masked_more, masks_all};
ghost use Rattle.wit_gathered.specs.Gathering.{may_be_hard, may_be_soft, nothing_gathered};
ghost use Rattle.wit_gathered.specs.Gathering.{noting_acquired, noting_held, noting_preemption};
ghost use Rattle.wit_gathered.specs.Gathering.{parts_readers, passing_over, pending_at, pending_with};
ghost use Rattle.wit_gathered.specs.Gathering.{reads_again, releases_mutex, releasing, same_pending};
ghost use Rattle.wit_gathered.specs.Gathering.{step_of, tries, unspun, waiting};
ghost use Rattle.wit_gathered.specs.Gathering.{with_place, with_telling, without_at};
ghost use Rattle.wit_gathered.specs.Names.{number_in};
ghost use Rattle.wit_gathered.specs.Reading.{symbol_read, with_line, with_mutex_line};
ghost use Rattle.wit_traced.specs.SymbolLines.{symbol_of};

use crate::holds::{Hold, add_hold, has_own, release, release_unseen, same_context};
use crate::names::{Names, number};
use crate::requests::{Requests, Step};
use crate::types::{Type, Types, does_sleep};
use indexmap::{IndexMap, IndexSet};
use std::alloc::{AllocError, Global};
use wit_traced::{
    Acquired, Action, Call, Context, Deed, Kind, Masked, MutexDeed, Preemption, Reading, Told,
    mutex_told, symbol_of, told_of,
};

/// So many functions at most that haven't returned, and locks of which something is noted. Beyond that
/// the oldest of the first is forgotten, and all of the second.
const MOST_PENDING: usize = 4096;

const MOST_NOTED: usize = 65_536;

/// What is gathered.
#[derive(Clone, Copy, Debug, PartialEq, Eq)]
pub struct Settings {
    /// An interrupt stands for a lock.
    pub interrupts: bool,
    /// Recursive readers are apart from writers.
    pub readers: bool,
}

/// What was counted.
#[derive(Clone, Copy, Debug, PartialEq, Eq)]
pub struct Counts {
    /// Lines that tell nothing.
    pub passed: u64,
    /// Lines that tell that events are missing.
    pub lost: u64,
    /// Releases of what nobody was seen to hold.
    pub unheld: u64,
}

/// A function that hasn't returned.
#[derive(Clone, Copy, Debug)]
struct Pending {
    context: Context,
    call: Call,
    lock: u64,
}

/// An acquisition.
#[derive(Clone, Copy, Debug)]
struct Taken {
    context: Context,
    masked: Masked,
    lock: u64,
    number: usize,
    place: usize,
    reading: Reading,
    tried: bool,
    nested: bool,
    /// Its recursive readers may be apart.
    parted: bool,
}

/// What was gathered so far.
#[derive(Drop)]
pub struct Gathering {
    alloc: Global,
    settings: Settings,
    pub counts: Counts,
    held: Vec<Hold>,
    pending: Vec<Pending>,
    pub types: Types,
    places: Names,
    pub requests: Requests,
    /// The type of each lock that was acquired.
    acquired: IndexMap<u64, usize>,
    /// The locks that lockdep passes over.
    passed_over: IndexSet<u64>,
    /// Whether a task was seen in which preemption is off.
    counts_preemption: bool,
    /// Whether an interrupt held a lock.
    pub hard: bool,
    pub soft: bool,
}

impl Gathering {
    /// Nothing yet.
    pub fn new(alloc: Global, settings: Settings) -> Gathering
        ensures { gathered result ≡ nothing_gathered settings }
    {
        Gathering {
            alloc,
            settings,
            counts: Counts {
                passed: 0,
                lost: 0,
                unheld: 0,
            },
            held: Vec::new(alloc),
            pending: Vec::new(alloc),
            types: Types::new(alloc),
            places: IndexSet::new(alloc),
            requests: Requests::new(alloc),
            acquired: IndexMap::new(alloc),
            passed_over: IndexSet::new(alloc),
            counts_preemption: false,
            hard: false,
            soft: false,
        }
    }

    /// Takes what a line tells.
    ///
    /// # Errors
    /// Want of memory alone.
    pub fn take(&mut self, line: &[u8]) -> Result<(), AllocError>
        ensures { OnOk result (gathered self.new ≡ with_line (gathered self.old) line.now) }
    {
        match told_of(line) {
            Some(told) => self.take_told(told),
            None => self.take_symbol(line),
        }
    }

    /// The place with a number.
    pub fn place(&self, number: usize) -> Option<&[u8]>
        ensures { option_copied result ≡ slice_get (gathered self.now).places number }
    {
        match self.places.get_index(number) {
            Some(place) => Some(place.as_slice()),
            None => None,
        }
    }

    /// Takes what a line tells of a program's mutexes.
    ///
    /// # Errors
    /// Want of memory alone.
    pub fn take_mutex(&mut self, line: &[u8]) -> Result<(), AllocError>
        ensures { OnOk result (gathered self.new ≡ with_mutex_line (gathered self.old) line.now) }
    {
        match mutex_told(line) {
            Some(told) => self.take_told(told),
            None => {
                self.pass();
                Ok(())
            }
        }
    }

    fn take_told(&mut self, told: Told<'_>) -> Result<(), AllocError>
        ensures { OnOk result (gathered self.new
            ≡ with_telling (gathered self.old) (telling told.entry)) }
    {
        match told {
            Told::Does(context, masked, preemption, action) => {
                self.note_preemption(context, preemption, &action);
                self.act(context, masked, action)
            }
            Told::Lost => {
                self.lose();
                Ok(())
            }
            Told::Remark => Ok(()),
        }
    }

    fn take_symbol(&mut self, line: &[u8]) -> Result<(), AllocError>
        ensures { OnOk result (gathered self.new
            ≡ symbol_read (gathered self.old) (symbol_of line.now)) }
    {
        match symbol_of(line) {
            Some(Some(symbol)) => self.types.add_symbol(symbol),
            Some(None) => Ok(()),
            None => {
                self.pass();
                Ok(())
            }
        }
    }

    // The line tells nothing.
    fn pass(&mut self)
        ensures { gathered self.new ≡ gathered self.old }
    {
        self.counts.passed = self.counts.passed.saturating_add(1);
    }

    // Kprobes miss releases. Where a kernel counts how often preemption was turned off, as it is by each
    // lock that spins, a task in which it is on holds none of these.
    fn note_preemption(&mut self, context: Context, preemption: Preemption, action: &Action<'_>)
        ensures { gathered self.new
            ≡ noting_preemption (gathered self.old) context preemption (doing action.now) }
    {
        if !is_probe(action) || is_interrupt(context) {
            return;
        }
        match preemption {
            Preemption::Off => self.counts_preemption = true,
            Preemption::On => {
                if self.counts_preemption {
                    self.let_spinning_go(context);
                }
            }
            Preemption::Untold => {}
        }
    }

    fn let_spinning_go(&mut self, context: Context)
        ensures { gathered self.new ≡ unspun (gathered self.old) context }
    {
        let types = &self.types;
        self.held.retain(|one| !(same_context(one.context, context)
            && types.is_spinning(one.step.of)));
    }

    // Events are missing: nothing is known of what is held.
    fn lose(&mut self)
        ensures { gathered self.new ≡ losing (gathered self.old) }
    {
        self.counts.lost = self.counts.lost.saturating_add(1);
        self.held.clear();
        self.pending.clear();
        self.acquired.clear();
    }

    fn act(
        &mut self,
        context: Context,
        masked: Masked,
        action: Action<'_>,
    ) -> Result<(), AllocError>
        ensures { OnOk result (gathered self.new
            ≡ acting (gathered self.old) context masked (doing action.entry)) }
    {
        match action {
            Action::Enters(call, lock, place) => self.enter(context, masked, call, lock, place),
            Action::Returns(call, gives, place) => self.leave(context, masked, call, gives, place),
            Action::Acquires(acquired) => self.acquire_class(context, masked, &acquired),
            Action::PassesOver(lock) => self.pass_over(lock),
            Action::Releases(lock, place) => self.release(context, masked, lock, place, true),
            Action::Does(deed, lock, place) => {
                if releases_mutex(deed) {
                    self.release(context, masked, lock, place, false)
                } else {
                    self.acquire_mutex(context, deed, lock, place)
                }
            }
        }
    }

    fn pass_over(&mut self, lock: u64) -> Result<(), AllocError>
        ensures { OnOk result (gathered self.new ≡ passing_over (gathered self.old) lock) }
    {
        if self.passed_over.len() >= MOST_NOTED {
            self.passed_over.clear();
        }
        self.passed_over.insert(lock)?;
        Ok(())
    }

    fn enter(
        &mut self,
        context: Context,
        masked: Masked,
        call: Call,
        lock: u64,
        place: &[u8],
    ) -> Result<(), AllocError>
        ensures { OnOk result (gathered self.new
            ≡ entering (gathered self.old) context masked call lock place.now call.deed) }
    {
        match call.deed {
            Deed::Releases => self.release(context, masked, lock, place, false),
            Deed::Acquires => self.acquire_lock(context, masked, call, lock, place),
            Deed::MayEnd | Deed::Tries => add_pending(
                &mut self.pending,
                Pending {
                    context,
                    call,
                    lock,
                },
            ),
        }
    }

    fn leave(
        &mut self,
        context: Context,
        masked: Masked,
        call: Call,
        gives: bool,
        place: &[u8],
    ) -> Result<(), AllocError>
        ensures { OnOk result (gathered self.new
            ≡ leaving (gathered self.old) context masked call gives place.now) }
    {
        match take_pending(&mut self.pending, context, call) {
            Some(pending) if has_it(tries(call.deed), gives) => {
                self.acquire_lock(context, masked, call, pending.lock, place)
            }
            _ => Ok(()),
        }
    }

    fn acquire_lock(
        &mut self,
        context: Context,
        masked: Masked,
        call: Call,
        lock: u64,
        place: &[u8],
    ) -> Result<(), AllocError>
        ensures { OnOk result (gathered self.new
            ≡ acquiring_lock (gathered self.old) context masked call lock place.now) }
    {
        release_unseen(&mut self.held, context, lock);
        let number = self.types.of_lock(lock, call, place)?;
        let place = self.place_number(place)?;
        self.acquire(&Taken {
            context,
            masked: masked_more(masked, call.masks),
            lock,
            number,
            place,
            reading: call.reading,
            tried: tries(call.deed),
            nested: false,
            parted: parts_readers(call.kind),
        })
    }

    fn acquire_class(
        &mut self,
        context: Context,
        masked: Masked,
        acquired: &Acquired<'_>,
    ) -> Result<(), AllocError>
        ensures { OnOk result (gathered self.new
            ≡ acquiring_class (gathered self.old) context masked (lockdep.acquiring acquired.now)) }
    {
        let number = self.types.of_class(acquired, is_early(context, masked))?;
        let place = self.place_number(acquired.place)?;
        self.note_acquired(acquired.lock, number)?;
        self.acquire(&Taken {
            context,
            masked,
            lock: acquired.lock,
            number,
            place,
            reading: acquired.reading,
            tried: acquired.tried,
            nested: acquired.nested,
            parted: !does_sleep(acquired.kind),
        })
    }

    // A mutex of a program.
    fn acquire_mutex(
        &mut self,
        context: Context,
        deed: MutexDeed,
        lock: u64,
        place: &[u8],
    ) -> Result<(), AllocError>
        ensures { OnOk result (gathered self.new
            ≡ acquiring_mutex (gathered self.old) context deed lock place.now) }
    {
        let number = self.types.of_mutex(lock)?;
        let place = self.place_number(place)?;
        match deed {
            MutexDeed::Asks => {
                let step = Step {
                    of: Type::Of(number),
                    place,
                    tried: false,
                };
                self.ask(context, step, false)
            }
            MutexDeed::Gets => self.get_mutex(context, false, lock, number, place),
            MutexDeed::Tries => self.get_mutex(context, true, lock, number, place),
            MutexDeed::Releases => Ok(()),
        }
    }

    fn get_mutex(
        &mut self,
        context: Context,
        tried: bool,
        lock: u64,
        number: usize,
        place: usize,
    ) -> Result<(), AllocError>
        ensures { OnOk result (gathered self.new
            ≡ getting_mutex (gathered self.old) context tried lock number place) }
    {
        self.note_acquired(lock, number)?;
        self.acquire(&Taken {
            context,
            masked: Masked::All,
            lock,
            number,
            place,
            reading: Reading::Writes,
            tried,
            nested: false,
            parted: false,
        })
    }

    fn note_acquired(&mut self, lock: u64, number: usize) -> Result<(), AllocError>
        ensures { OnOk result (gathered self.new
            ≡ noting_acquired (gathered self.old) lock number) }
    {
        if self.acquired.len() >= MOST_NOTED {
            self.acquired.clear();
        }
        self.acquired.insert(lock, number)?;
        Ok(())
    }

    #[tactic(auto, unfolding(crate::specs::Gathering::acquiring))]
    fn acquire(&mut self, taken: &Taken) -> Result<(), AllocError>
        ensures { OnOk result (gathered self.new ≡ acquiring (gathered self.old) taken.now) }
    {
        let hold = hold_of(&self.settings, taken);
        self.ask_first(taken)?;
        self.note_held(taken.context, hold.step);
        self.hold(hold)?;
        self.may_come(taken.context, taken.masked, taken.place)
    }

    fn hold(&mut self, one: Hold) -> Result<(), AllocError>
        ensures { OnOk result (gathered self.new ≡ holding (gathered self.old) one) }
    {
        add_hold(&mut self.held, one)
    }

    // Who tries doesn't wait, nor who reads again what it reads.
    fn ask_first(&mut self, taken: &Taken) -> Result<(), AllocError>
        ensures { OnOk result (gathered self.new ≡ asking_first (gathered self.old) taken.now) }
    {
        let again = reads_again(taken.reading);
        if taken.tried || again && has_own(&self.held, taken.context, taken.lock) {
            return Ok(());
        }
        self.ask_for(taken, self.settings.readers && taken.parted && !again)
    }

    // Who isn't a recursive reader waits for these, too.
    fn ask_for(&mut self, taken: &Taken, for_readers: bool) -> Result<(), AllocError>
        ensures { OnOk result (gathered self.new
            ≡ waiting (gathered self.old) taken.now for_readers) }
    {
        if for_readers {
            self.ask(taken.context, step_of(taken, true), taken.nested)?;
        }
        self.ask(taken.context, step_of(taken, false), taken.nested)
    }

    fn ask(&mut self, context: Context, asked: Step, nested: bool) -> Result<(), AllocError>
        ensures { OnOk result (gathered self.new
            ≡ asking_for (gathered self.old) context asked nested) }
    {
        let interrupts = self.settings.interrupts;
        self.requests
            .ask(&self.held, context, interrupts, asked, nested)
    }

    fn note_held(&mut self, context: Context, step: Step)
        ensures { gathered self.new ≡ noting_held (gathered self.old) context step }
    {
        self.types.note_held(step.of);
        self.hard = self.hard || is_hard(context);
        self.soft = self.soft || is_soft(context);
    }

    // What may come while locks are held is asked for.
    fn may_come(&mut self, context: Context, masked: Masked, place: usize) -> Result<(), AllocError>
        ensures { OnOk result (gathered self.new
            ≡ coming (gathered self.old) context masked place) }
    {
        if !self.settings.interrupts {
            return Ok(());
        }
        if may_be_hard(context, masked) {
            self.ask_interrupt(Type::Hardirq, context, place)?;
        }
        if may_be_soft(context, masked) {
            self.ask_interrupt(Type::Softirq, context, place)?;
        }
        Ok(())
    }

    fn ask_interrupt(&mut self, of: Type, context: Context, place: usize) -> Result<(), AllocError>
        ensures { OnOk result (gathered self.new
            ≡ asking_interrupt of (gathered self.old) context place) }
    {
        let tried = false;
        self.ask(context, Step { of, place, tried }, false)
    }

    fn release(
        &mut self,
        context: Context,
        masked: Masked,
        lock: u64,
        place: &[u8],
        exact: bool,
    ) -> Result<(), AllocError>
        ensures { OnOk result (gathered self.new
            ≡ releasing (gathered self.old) context masked lock place.now exact) }
    {
        let place = self.place_number(place)?;
        self.may_come(context, masked, place)?;
        self.let_go(context, lock, exact, place)
    }

    fn let_go(
        &mut self,
        context: Context,
        lock: u64,
        exact: bool,
        place: usize,
    ) -> Result<(), AllocError>
        ensures { OnOk result (gathered self.new
            ≡ letting_go (gathered self.old) context lock exact place) }
    {
        if release(&mut self.held, context, lock) || self.passed_over.contains(&lock) {
            return Ok(());
        }
        self.counts.unheld = self.counts.unheld.saturating_add(1);
        match self.acquired.get(&lock).copied() {
            Some(number) if exact => self.requests.keep_twice(Step {
                of: Type::Of(number),
                place,
                tried: false,
            }),
            _ => Ok(()),
        }
    }

    fn place_number(&mut self, place: &[u8]) -> Result<usize, AllocError>
        ensures number { IfOk result (λ n. n ≡ number_in (gathered self.old).places place.now) }
        ensures noted { OnOk result (gathered self.new ≡ with_place (gathered self.old) place.now) }
    {
        number(self.alloc, &mut self.places, place)
    }
}

// So many at most: for a further one the oldest is forgotten.
fn add_pending(pending: &mut Vec<Pending>, one: Pending) -> Result<(), AllocError>
    ensures { OnOk result (pending.new.items ≡ pending_with pending.old.items one) }
{
    if pending.len() >= MOST_PENDING {
        pending.remove(0);
    }
    pending.push(one)?;
    Ok(())
}

// Takes out the newest call of a function by a context that hasn't returned.
fn take_pending(pending: &mut Vec<Pending>, context: Context, call: Call) -> Option<Pending>
    ensures taken { result ≡ pending_at pending.old.items
        (last_place (same_pending context call) 0 None pending.old.items) }
    ensures left { pending.new.items ≡ without_at pending.old.items
        (last_place (same_pending context call) 0 None pending.old.items) }
{
    match place_pending(pending, 0, None, context, call) {
        Some(place) => {
            let one = pending[place];
            pending.remove(place);
            Some(one)
        }
        None => None,
    }
}

// Its place, counted from a number.
fn place_pending(
    pending: &[Pending],
    first: usize,
    found: Option<usize>,
    context: Context,
    call: Call,
) -> Option<usize>
    requires room { first + length pending.now < 2 ^ 64 }
    requires found { IfSome found (λ n. n < first + length pending.now) }
    ensures place { result ≡ last_place (same_pending context call) first found pending.now }
    ensures within { IfSome result (λ n. n < first + length pending.now) }
{
    match pending {
        [] => found,
        [one, others @ ..] => {
            let found = match is_pending(one, context, call) {
                true => Some(first),
                false => found,
            };
            place_pending(others, first + 1, found, context, call)
        }
    }
}

fn is_pending(one: &Pending, context: Context, call: Call) -> bool
    ensures { result ≡ same_pending context call one.now }
{
    same_context(one.context, context) && one.call.is(call)
}

// Whether a probed function is entered or returns.
fn is_probe(action: &Action<'_>) -> bool
    ensures { result ≡ is_probe (doing action.now) }
{
    match action {
        Action::Enters(..) | Action::Returns(..) => true,
        Action::Acquires(_) | Action::PassesOver(_) | Action::Releases(..) | Action::Does(..) =>
            false,
    }
}

fn is_interrupt(context: Context) -> bool
    ensures { result ≡ is_interrupt context }
{
    is_hard(context) || is_soft(context)
}

fn is_hard(context: Context) -> bool
    ensures { result ≡ is_hard context }
{
    match context {
        Context::Hardirq(_) => true,
        Context::Softirq(_) | Context::Task(_) | Context::Idle(_) => false,
    }
}

fn is_soft(context: Context) -> bool
    ensures { result ≡ is_soft context }
{
    match context {
        Context::Softirq(_) => true,
        Context::Hardirq(_) | Context::Task(_) | Context::Idle(_) => false,
    }
}

fn reads_again(reading: Reading) -> bool
    ensures { result ≡ reads_again reading }
{
    match reading {
        Reading::Again => true,
        Reading::Writes | Reading::Reads => false,
    }
}

fn tries(deed: Deed) -> bool
    ensures { result ≡ tries deed }
{
    match deed {
        Deed::Tries => true,
        Deed::Acquires | Deed::MayEnd | Deed::Releases => false,
    }
}

// Whether a function that returned has the lock, by whether it gives another number than 0.
fn has_it(tries: bool, gives: bool) -> bool
    ensures { result ≡ has_it tries gives }
{
    if tries { gives } else { !gives }
}

fn parts_readers(kind: Kind) -> bool
    ensures { result ≡ parts_readers kind }
{
    match kind {
        Kind::SpinsForReaders => true,
        Kind::Spins | Kind::Sleeps | Kind::Map => false,
    }
}

fn releases_mutex(deed: MutexDeed) -> bool
    ensures { result ≡ releases_mutex deed }
{
    match deed {
        MutexDeed::Releases => true,
        MutexDeed::Asks | MutexDeed::Gets | MutexDeed::Tries => false,
    }
}

// Whether nothing may sleep there, as far as a line tells.
fn is_early(context: Context, masked: Masked) -> bool
    ensures { result ≡ is_early context masked }
{
    is_interrupt(context) || masks_all(masked)
}

// A recursive reader of a lock whose readers may be apart holds what is theirs.
fn hold_of(settings: &Settings, taken: &Taken) -> Hold
    ensures { result ≡ hold_of settings.now taken.now }
{
    let readers = settings.readers && taken.parted && reads_again(taken.reading);
    Hold {
        context: taken.context,
        lock: taken.lock,
        reading: taken.reading,
        step: step_of(taken, readers),
    }
}

// The type that is held or asked for, or that of its recursive readers.
fn step_of(taken: &Taken, readers: bool) -> Step
    ensures { result ≡ step_of taken.now readers }
{
    Step {
        of: if readers {
            Type::ReadersOf(taken.number)
        } else {
            Type::Of(taken.number)
        },
        place: taken.place,
        tried: taken.tried,
    }
}

fn masks_all(masked: Masked) -> bool
    ensures { result ≡ masks_all masked }
{
    match masked {
        Masked::All => true,
        Masked::Softirqs | Masked::Nothing => false,
    }
}

// What can't come, by a line and by what its function masks.
fn masked_more(masked: Masked, more: Masked) -> Masked
    ensures { result ≡ masked_more masked more }
{
    match (masked, more) {
        (Masked::All, _) | (_, Masked::All) => Masked::All,
        (Masked::Softirqs, _) | (_, Masked::Softirqs) => Masked::Softirqs,
        (Masked::Nothing, Masked::Nothing) => Masked::Nothing,
    }
}

fn may_be_hard(context: Context, masked: Masked) -> bool
    ensures { result ≡ may_be_hard context masked }
{
    !(is_hard(context) || masks_all(masked))
}

fn may_be_soft(context: Context, masked: Masked) -> bool
    ensures { result ≡ may_be_soft context masked }
{
    match masked {
        Masked::Nothing => !is_interrupt(context),
        Masked::Softirqs | Masked::All => false,
    }
}
