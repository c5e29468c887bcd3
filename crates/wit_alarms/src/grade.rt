//! The grade of facts: whether threads can wait for one another so, and if not, what keeps them from
//! it.

ghost use Rattle.std.specs.Prelude.{◌≡◌, true, IfNone, IfOk, IfSome};
ghost use Rattle.wit_alarms.specs.Facts.{closes, no_reasons, NoneCloses};
ghost use Rattle.wit_alarms.specs.Grades.{all_but, IsCause, IsGrade};
ghost use Rattle.wit_alarms.specs.Searching.{IsEnough};

use crate::facts::{Fact, Lives, Reasons};
use crate::pruning::on_circles;
use crate::search::Search;
use std::alloc::{AllocError, Global};

/// What keeps threads from waiting for one another in a circle.
#[derive(Clone, Copy, Debug, PartialEq, Eq, Hash)]
pub enum Reason {
    /// One thread would have to wait twice at once.
    OneThread,
    /// Both threads held one lock, not both as readers.
    Gate,
    /// Who asks as a reader doesn't wait for readers.
    Readers,
    /// Who asks with a time limit doesn't wait for good.
    Limit,
    /// The threads aren't there at the same time, when they do so.
    Apart,
    /// Who asks as a wait for a condition ends had the lock when that began.
    Waits,
}

/// Why no circle of facts closes.
#[derive(Debug, Drop)]
pub enum Cause {
    /// No single locks make a circle.
    TypesAlone,
    /// This reason alone keeps the facts of these places from closing one.
    Kept(Reason, Vec<usize>),
    /// Several reasons keep the facts of these places from closing a circle, and so it is of each
    /// circle.
    Several(Vec<usize>),
}

/// What facts say of the threads.
#[derive(Debug, Drop)]
pub enum Grade {
    /// The facts of these places close a circle: each thread holds what its fact says, and waits for
    /// the next one.
    Same(Vec<usize>),
    /// No circle closes.
    Never(Cause),
    /// No circle of these facts closes, but facts are missing.
    NotKnown,
}

impl Reasons {
    /// Each reason counts.
    pub const ALL: Reasons = Reasons {
        one_thread: true,
        gate: true,
        readers: true,
        timed: true,
        apart: true,
        waits: true,
    };

    /// No reason counts.
    pub const NONE: Reasons = Reasons {
        one_thread: false,
        gate: false,
        readers: false,
        timed: false,
        apart: false,
        waits: false,
    };

    /// All reasons but this one count.
    pub fn all_but(reason: Reason) -> Reasons
        ensures { result ≡ all_but reason }
    {
        let mut why = Reasons::ALL;
        match reason {
            Reason::OneThread => why.one_thread = false,
            Reason::Gate => why.gate = false,
            Reason::Readers => why.readers = false,
            Reason::Limit => why.timed = false,
            Reason::Apart => why.apart = false,
            Reason::Waits => why.waits = false,
        }
        why
    }
}

// The one reason that keeps a circle from closing, if there is such a reason. One thread comes last:
// a circle of several threads is more to be feared. This one closes where no reason counts.
fn only_reason(
    alloc: Global,
    facts: &[Fact],
    lives: &Lives,
    live: &[usize],
    some: Vec<usize>,
) -> Result<Cause, AllocError>
    requires enough { IsEnough facts.now live.now }
    requires closes { closes no_reasons lives.now facts.now some.items ≡ true }
    ensures { IfOk result (IsCause lives.now facts.now) }
{
    let reasons = [
        Reason::Limit,
        Reason::Gate,
        Reason::Readers,
        Reason::Waits,
        Reason::Apart,
        Reason::OneThread,
    ];
    for reason in reasons {
        let search = Search {
            why: Reasons::all_but(reason),
            lives,
            facts,
            live,
        };
        match search.find(alloc)? {
            Some(circle) => return Ok(Cause::Kept(reason, circle)),
            None => {}
        }
    }
    Ok(Cause::Several(some))
}

// Why no circle closes.
fn cause_of(
    alloc: Global,
    facts: &[Fact],
    lives: &Lives,
    live: &[usize],
) -> Result<Cause, AllocError>
    requires { IsEnough facts.now live.now }
    ensures { IfOk result (IsCause lives.now facts.now) }
{
    let search = Search {
        why: Reasons::NONE,
        lives,
        facts,
        live,
    };
    match search.find(alloc)? {
        Some(some) => only_reason(alloc, facts, lives, live, some),
        None => Ok(Cause::TypesAlone),
    }
}

/// A circle that closes for all that these reasons say, if there is one among the facts, however
/// long: the places of its facts.
///
/// # Errors
/// Only where a growth was refused.
pub fn circle_of(
    alloc: Global,
    why: Reasons,
    facts: &[Fact],
    lives: &Lives,
) -> Result<Option<Vec<usize>>, AllocError>
    ensures found { IfOk result (λ found. IfSome found (λ circle.
        closes why lives.now facts.now circle.items ≡ true)) }
    ensures none { IfOk result (λ found. IfNone found (NoneCloses why lives.now facts.now)) }
{
    let live = on_circles(alloc, facts)?;
    let search = Search {
        why,
        lives,
        facts,
        live: &live,
    };
    search.find(alloc)
}

/// The grade of facts: a circle that closes, if there is one among them, however long; else why none
/// does. Where they aren't all the facts that there are, it isn't known instead.
///
/// # Errors
/// Only where a growth was refused.
pub fn grade_of(
    alloc: Global,
    facts: &[Fact],
    lives: &Lives,
    are_all: bool,
) -> Result<Grade, AllocError>
    ensures { IfOk result (IsGrade lives.now facts.now are_all) }
{
    let live = on_circles(alloc, facts)?;
    let search = Search {
        why: Reasons::ALL,
        lives,
        facts,
        live: &live,
    };
    if let Some(circle) = search.find(alloc)? {
        return Ok(Grade::Same(circle));
    }
    if !are_all {
        return Ok(Grade::NotKnown);
    }
    Ok(Grade::Never(cause_of(alloc, facts, lives, &live)?))
}
