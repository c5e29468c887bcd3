//! What C is told as numbers: the last report, the orders that it goes against, and held locks.

ghost use Rattle.std.specs.Prelude.{◌≡◌, ◌∷◌, ◌++◌, map, IfOk, OnOk};
ghost use Rattle.wit_model.specs.declared.calls.Reply.TheVariants.{Reversal, Duplicate};
ghost use Rattle.wit_model.specs.Trace.Paths.{type_numbers};
ghost use Rattle.wit_c.specs.Structures.{type_told, class_told, lock_told, no_lock, maybe_told};
ghost use Rattle.wit_c.specs.Structures.{newest_seat, no_report, reply_told, answer_told};
ghost use Rattle.wit_c.specs.Structures.{order_told, origin_site, steps_told, instance_told};

use crate::numbers::{class_number, heading_number, mode_number, origin_number};
use std::alloc::{AllocError, Global};
use wit_core::Verifier;
use wit_model::{
    Class, Conflict, Doubling, Fault, FileNo, Heading, Instance, LockAt, LockNo, Origin, Reply,
    Site, TypeNo,
};

/// A lock at a place; all zeroes where there is none.
#[repr(C)]
#[derive(Clone, Copy)]
pub struct LockTold {
    /// Its number.
    pub lock: u32,
    /// The number of its type.
    pub type_no: u32,
    /// The number of its class.
    pub class: u32,
    /// The number of the file in which it was acquired or is asked for.
    pub file: u32,
    /// The line there.
    pub line: u32,
}

/// A report; all zeroes where there is none.
#[repr(C)]
#[derive(Clone, Copy)]
pub struct ReportTold {
    /// The number of the heading, which says what rule a reversal breaks.
    pub heading: u32,
    /// Who made the call.
    pub seat: u32,
    /// The held lock.
    pub held: LockTold,
    /// The lock that is asked for.
    pub asked: LockTold,
    /// An older held lock of the type that is asked for, where there is one.
    pub third: LockTold,
}

/// A direct order between two types.
#[repr(C)]
#[derive(Clone, Copy)]
pub struct OrderTold {
    /// The type whose locks are acquired first.
    pub first: u32,
    /// The type whose locks are acquired under them.
    pub second: u32,
    /// The number of what it comes from.
    pub origin: u32,
    /// The number of the file, where it comes from a request.
    pub file: u32,
    /// The line there.
    pub line: u32,
}

/// A held lock.
#[repr(C)]
#[derive(Clone, Copy)]
pub struct HeldTold {
    /// Where it was acquired.
    pub at: LockTold,
    /// 1 where it is held exclusively, and else 0.
    pub exclusive: u32,
    /// How often it was acquired again.
    pub count: u32,
}

const NO_LOCK: LockTold = LockTold {
    lock: 0,
    type_no: 0,
    class: 0,
    file: 0,
    line: 0,
};

const NO_REPORT: ReportTold = ReportTold {
    heading: 0,
    seat: 0,
    held: NO_LOCK,
    asked: NO_LOCK,
    third: NO_LOCK,
};

/// The type of a lock; 0 for a number that was never given.
pub fn type_of(verifier: &Verifier, lock: LockNo) -> TypeNo
    ensures { result.0 ≡ type_told verifier.now lock.0 }
{
    verifier.type_of(lock).unwrap_or(TypeNo(0))
}

fn class_of(verifier: &Verifier, type_no: TypeNo) -> u32
    ensures { result ≡ class_told verifier.now type_no.0 }
{
    class_number(verifier.class_of(type_no).unwrap_or(Class::SleepMutex))
}

fn lock_told(verifier: &Verifier, at: LockAt) -> LockTold
    ensures { result ≡ lock_told verifier.now at }
{
    let type_no = type_of(verifier, at.lock);
    LockTold {
        lock: at.lock.0,
        type_no: u32::from(type_no.0),
        class: class_of(verifier, type_no),
        file: u32::from(at.site.file.0),
        line: at.site.line,
    }
}

fn maybe_told(verifier: &Verifier, at: Option<LockAt>) -> LockTold
    ensures { result ≡ maybe_told verifier.now at }
{
    match at {
        Some(at) => lock_told(verifier, at),
        None => NO_LOCK,
    }
}

// Whose call the log has as its newest.
fn newest_seat(verifier: &Verifier) -> u32
    ensures { result ≡ newest_seat verifier.now.history }
{
    match verifier.history().last() {
        Some(entry) => u32::from(entry.seat.0),
        None => 0,
    }
}

/// What an answer reports.
pub fn answer_told(verifier: &Verifier, answer: &Result<Reply, Fault>) -> ReportTold
    ensures { result ≡ answer_told verifier.now answer.now }
{
    match answer {
        Ok(reply) => reply_told(verifier, reply),
        Err(_) => NO_REPORT,
    }
}

fn reply_told(verifier: &Verifier, reply: &Reply) -> ReportTold
    ensures { result ≡ reply_told verifier.now reply.now }
{
    match reply {
        Reply::Reversal(conflict) => reversal_told(verifier, conflict.get()),
        Reply::Duplicate(doubling) => duplicate_told(verifier, doubling.get()),
        Reply::Exhausted => ReportTold {
            seat: newest_seat(verifier),
            ..NO_REPORT
        },
        _ => NO_REPORT,
    }
}

fn reversal_told(verifier: &Verifier, conflict: &Conflict) -> ReportTold
    ensures { result ≡ reply_told verifier.now (Reversal conflict.now) }
{
    ReportTold {
        heading: heading_number(conflict.heading),
        seat: newest_seat(verifier),
        held: lock_told(verifier, conflict.held),
        asked: lock_told(verifier, conflict.asked),
        third: maybe_told(verifier, conflict.older),
    }
}

fn duplicate_told(verifier: &Verifier, doubling: &Doubling) -> ReportTold
    ensures { result ≡ reply_told verifier.now (Duplicate doubling.now) }
{
    ReportTold {
        seat: newest_seat(verifier),
        held: lock_told(verifier, doubling.last),
        asked: lock_told(verifier, doubling.asked),
        ..NO_REPORT
    }
}

fn origin_site(origin: Option<Origin>) -> Site
    ensures { result ≡ origin_site origin }
{
    match origin {
        Some(Origin::At(site)) => site,
        _ => Site {
            file: FileNo(0),
            line: 0,
        },
    }
}

fn order_told(verifier: &Verifier, first: TypeNo, second: TypeNo) -> OrderTold
    ensures { result ≡ order_told verifier.now first.0 second.0 }
{
    let origin = verifier.origin(first, second);
    let site = origin_site(origin);
    OrderTold {
        first: u32::from(first.0),
        second: u32::from(second.0),
        origin: origin_number(origin),
        file: u32::from(site.file.0),
        line: site.line,
    }
}

/// The orders between neighbours of a path.
///
/// # Errors
/// Want of memory alone.
pub fn steps_told(
    alloc: Global,
    verifier: &Verifier,
    path: &[TypeNo],
) -> Result<Vec<OrderTold>, AllocError>
    ensures { IfOk result (λ steps. steps.items
        ≡ steps_told verifier.now (type_numbers path.now)) }
{
    let mut steps = Vec::new(alloc);
    if let [first, others @ ..] = path {
        add_steps(&mut steps, verifier, *first, others)?;
    }
    Ok(steps)
}

fn add_steps(
    steps: &mut Vec<OrderTold>,
    verifier: &Verifier,
    first: TypeNo,
    others: &[TypeNo],
) -> Result<(), AllocError>
    ensures { OnOk result (steps.new.items ≡ steps.old.items
        ++ steps_told verifier.now (first.0 ∷ type_numbers others.now)) }
{
    let mut parent = first;
    for child in others {
        steps.push(order_told(verifier, parent, *child))?;
        parent = *child;
    }
    Ok(())
}

fn instance_told(verifier: &Verifier, held: Instance) -> HeldTold
    ensures { result ≡ instance_told verifier.now held }
{
    let at = LockAt {
        lock: held.lock,
        site: held.site,
    };
    HeldTold {
        at: lock_told(verifier, at),
        exclusive: mode_number(held.mode),
        count: u32::from(held.count),
    }
}

/// Adds these held locks.
///
/// # Errors
/// Want of memory alone.
pub fn add_held(
    all: &mut Vec<HeldTold>,
    verifier: &Verifier,
    held: &[Instance],
) -> Result<(), AllocError>
    ensures { OnOk result (all.new.items ≡ all.old.items
        ++ map (instance_told verifier.now) held.now) }
{
    for instance in held {
        all.push(instance_told(verifier, *instance))?;
    }
    Ok(())
}
