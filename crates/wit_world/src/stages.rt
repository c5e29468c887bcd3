//! Where a seat stands in its sequence of steps.

ghost use Rattle.std.specs.Prelude.{◌≡◌, ℕ, Bool, if◌then◌else◌};
ghost use Rattle.wit_model.specs.declared.calls.Call.TheVariants.{Note, NoteTry, GiveUp, Upgrade};
ghost use Rattle.wit_model.specs.declared.locks.Site.{Site};
ghost use Rattle.wit_model.specs.World.Scenes.{mode_asked};
ghost use Rattle.wit_model.specs.World.Stages.{is_over, is_same_mode, stage_passed, call_follows};
ghost use Rattle.wit_world.specs.Stages.{stage_of, is_forgotten, is_lowered};

use wit_model::{Call, LockNo, Mode, Request};

/// What a seat did last in its latest sequence of steps.
#[derive(Clone, Copy, Debug)]
pub enum Stage {
    /// The sequence is over.
    Over,
    /// It asked for a lock.
    Asked(Request),
    /// It got the lock that it asked for.
    Taken(LockNo),
    /// It got a lock by a try, in this mode.
    Tried(LockNo, Mode),
    /// It called unlock. The flag tells whether the lock need not be freed.
    Forgot(LockNo, bool),
    /// Its share became exclusive.
    Raised(LockNo),
    /// It called downgrade. The flag tells whether its share need not be turned.
    Lowered(LockNo, bool),
}

impl Stage {
    /// Whether the sequence may end here.
    #[inline(always)]
    pub fn is_over(self) -> bool
        ensures { result ≡ is_over (stage_of self) }
    {
        match self {
            Stage::Over => true,
            Stage::Forgot(_, may_keep) => may_keep,
            Stage::Lowered(_, passed) => passed,
            _ => false,
        }
    }

    /// Whether the seat asked for this lock just now.
    #[inline(always)]
    pub fn has_asked_for(self, lock: LockNo) -> bool
        ensures { (held : ℕ → Bool) → result ≡ call_follows (GiveUp lock) held (stage_of self) }
    {
        match self {
            Stage::Asked(request) => request.lock.0 == lock.0,
            _ => false,
        }
    }

    /// Whether it is to note this lock, where it holds the lock that it asked for by the record, or
    /// doesn't.
    #[inline(always)]
    pub fn may_note(self, lock: LockNo, holds: bool) -> bool
        ensures { result ≡ call_follows (Note lock) (λ _. holds) (stage_of self) }
    {
        match self {
            Stage::Asked(request) => request.lock.0 == lock.0 && holds,
            Stage::Taken(taken) => taken.0 == lock.0,
            _ => false,
        }
    }

    /// Whether it got this lock by a try in this mode just now.
    pub fn has_tried(self, lock: LockNo, mode: Mode) -> bool
        ensures { (held : ℕ → Bool) (site : Site)
            → result ≡ call_follows (NoteTry lock mode site) held (stage_of self) }
    {
        match self {
            Stage::Tried(tried, with) => tried.0 == lock.0 && is_same_mode(with, mode),
            _ => false,
        }
    }

    /// Whether its share of this lock became exclusive just now.
    pub fn has_raised(self, lock: LockNo) -> bool
        ensures { (held : ℕ → Bool) → result ≡ call_follows (Upgrade lock) held (stage_of self) }
    {
        match self {
            Stage::Raised(raised) => raised.0 == lock.0,
            _ => false,
        }
    }

    /// Whether it called unlock for this lock just now.
    #[inline(always)]
    pub fn has_forgotten(self, lock: LockNo) -> bool
        ensures { result ≡ is_forgotten lock.0 (stage_of self) }
    {
        match self {
            Stage::Forgot(forgotten, _) => forgotten.0 == lock.0,
            _ => false,
        }
    }

    /// Whether it called downgrade for this lock just now.
    pub fn has_lowered(self, lock: LockNo) -> bool
        ensures { result ≡ is_lowered lock.0 (stage_of self) }
    {
        match self {
            Stage::Lowered(lowered, _) => lowered.0 == lock.0,
            _ => false,
        }
    }

    /// The mode in which it asked for a lock.
    #[inline(always)]
    pub fn mode_asked(self) -> Mode
        ensures { result ≡ mode_asked (stage_of self) }
    {
        match self {
            Stage::Asked(request) => request.mode,
            _ => Mode::Exclusive,
        }
    }

    /// Whether a call may come next, where the seat holds the lock that it asked for by the record,
    /// or doesn't.
    #[inline(always)]
    pub fn may_call(self, call: &Call, holds: bool) -> bool
        ensures { result ≡ call_follows call.now (λ _. holds) (stage_of self) }
    {
        match call {
            Call::Note(lock) => self.may_note(*lock, holds),
            Call::NoteTry(lock, mode, _) => self.has_tried(*lock, *mode),
            Call::GiveUp(lock) => self.has_asked_for(*lock),
            Call::Upgrade(lock) => self.has_raised(*lock),
            _ => self.is_over(),
        }
    }
}

/// Where a seat stands after a call that was passed over.
#[inline(always)]
pub fn stage_passed(call: &Call) -> Stage
    ensures { stage_of result ≡ stage_passed call.now }
{
    match call {
        Call::Unlock(lock, _) => Stage::Forgot(*lock, true),
        Call::Downgrade(lock) => Stage::Lowered(*lock, true),
        _ => Stage::Over,
    }
}

/// The one or the other stage.
#[inline(always)]
pub fn either(first: bool, one: Stage, other: Stage) -> Stage
    ensures { stage_of result ≡ (if first then stage_of one else stage_of other) }
{
    if first { one } else { other }
}

fn is_same_mode(mode: Mode, other: Mode) -> bool
    ensures { result ≡ is_same_mode mode other }
{
    match mode {
        Mode::Exclusive => other.is_exclusive(),
        Mode::Shared => !other.is_exclusive(),
    }
}
