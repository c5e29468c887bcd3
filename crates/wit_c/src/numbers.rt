//! The numbers by which C is answered, and those that it gives.

ghost use Rattle.std.specs.Prelude.{◌≡◌, ◌≤◌, pos};
ghost use Rattle.wit_c.specs.Numbers.{empty_place, full_place, no_such, number_of, fault_number};
ghost use Rattle.wit_c.specs.Numbers.{reply_number, answer_number, file_number, assert_number};
ghost use Rattle.wit_c.specs.Numbers.{asserted_number, count_number, counted_number, watch_number};
ghost use Rattle.wit_c.specs.Numbers.{class_number, mode_number, heading_number, origin_number};
ghost use Rattle.wit_c.specs.Numbers.{report_number};
ghost use Rattle.wit_c.specs.Numbers.{mode_in, class_in, watch_in, lock_in, site_in, holding_in};

use wit_model::{
    AssertAnswer, Class, Fault, FileNo, Heading, Instance, LockNo, Mode, Origin, Reply, Site, Watch,
};

/// There is no verifier in the place.
pub const EMPTY_PLACE: i64 = -100;

/// There is a verifier in the place already.
pub const FULL_PLACE: i64 = -101;

/// An argument stands for nothing.
pub const NO_SUCH: i64 = -102;

/// The number of an answer.
#[inline(always)]
pub fn answer_number(answer: &Result<Reply, Fault>) -> i64
    ensures { result ≡ answer_number answer.now }
{
    match answer {
        Ok(reply) => reply_number(reply),
        Err(fault) => fault_number(*fault),
    }
}

fn reply_number(reply: &Reply) -> i64
    ensures { result ≡ reply_number reply.now }
{
    match reply {
        Reply::Made(lock) => lock.0 as i64,
        Reply::Pass => 0,
        Reply::Done => 1,
        Reply::Adopted(_, _) => 2,
        Reply::AdoptedAll(_) => 2,
        Reply::Silent(_, _) => 3,
        Reply::Reversal(_) => 4,
        Reply::Duplicate(_) => 5,
        Reply::Recorded => 6,
        Reply::Exhausted => 7,
        Reply::Unrecorded => 8,
        Reply::Unlocked => 9,
        Reply::Known => 10,
        Reply::Ignored => 11,
    }
}

/// The number of a fault, below 0: that of F6 is -6.
pub fn fault_number(fault: Fault) -> i64
    ensures { result ≡ fault_number fault }
{
    match fault {
        Fault::UnknownSeat => -1,
        Fault::UnknownLock => -2,
        Fault::ClassMismatch => -3,
        Fault::TypesFull => -4,
        Fault::LocksFull => -5,
        Fault::SleepUnderSpin => -6,
        Fault::SharedOfExclusive => -7,
        Fault::ExclusiveOfShared => -8,
        Fault::Recursed => -9,
        Fault::RecursionTooDeep => -10,
        Fault::NotLocked => -11,
        Fault::SharedUnlock => -12,
        Fault::ExclusiveUnlock => -13,
        Fault::ForbiddenUnlock => -14,
        Fault::NotUpgradable => -15,
        Fault::UpgradeOfExclusive => -16,
        Fault::UpgradeRecursed => -17,
        Fault::DowngradeOfShared => -18,
        Fault::DowngradeRecursed => -19,
        Fault::WrongOrder => -20,
        Fault::SameType => -21,
        Fault::KindMismatch => -22,
        Fault::Busy => -23,
        Fault::Pending => -24,
        Fault::NotRequested => -25,
        Fault::LogFull => -26,
        Fault::OutOfMemory => -27,
        Fault::GateRefused => -28,
        Fault::BadName => -29,
        Fault::WatchOff => -30,
        Fault::ModeNotAllowed => -31,
        Fault::FilesFull => -32,
        Fault::UnknownFile => -33,
        Fault::RawNotFree => -35,
        Fault::StepOrder => -36,
    }
}

/// The number of a file, or of the fault.
pub fn file_number(answer: Result<FileNo, Fault>) -> i64
    ensures { result ≡ file_number answer }
{
    match answer {
        Ok(file) => file.0 as i64,
        Err(fault) => fault_number(fault),
    }
}

/// What an assertion comes to, as a number.
pub fn asserted_number(answer: Result<AssertAnswer, Fault>) -> i64
    ensures { result ≡ asserted_number answer }
{
    match answer {
        Ok(AssertAnswer::Holds) => 0,
        Ok(AssertAnswer::Skipped) => 1,
        Ok(AssertAnswer::Invalid) => 2,
        Ok(AssertAnswer::IsLocked) => 3,
        Ok(AssertAnswer::IsNotLocked) => 4,
        Ok(AssertAnswer::IsNotExclusive) => 5,
        Ok(AssertAnswer::IsExclusive) => 6,
        Ok(AssertAnswer::IsNotRecursed) => 7,
        Ok(AssertAnswer::IsRecursed) => 8,
        Err(fault) => fault_number(fault),
    }
}

/// A count.
pub fn count_number(count: usize) -> i64
    ensures { result ≡ count_number count }
{
    count.min(i64::MAX as usize) as i64
}

/// A count, or the number of the fault.
pub fn counted_number(answer: Result<usize, Fault>) -> i64
    ensures { result ≡ counted_number answer }
{
    match answer {
        Ok(count) => count_number(count),
        Err(fault) => fault_number(fault),
    }
}

/// How much is watched, as a number.
pub fn watch_number(watch: Watch) -> i64
    ensures { result ≡ watch_number watch }
{
    match watch {
        Watch::Off => -1,
        Watch::Quiet => 0,
        Watch::On => 1,
    }
}

/// A class.
pub fn class_number(class: Class) -> u32
    ensures { result ≡ class_number class }
{
    match class {
        Class::SleepMutex => 0,
        Class::SpinMutex => 1,
        Class::Rw => 2,
        Class::Sx => 3,
    }
}

/// 1 where a lock is held exclusively, and else 0.
pub fn mode_number(mode: Mode) -> u32
    ensures { result ≡ mode_number mode }
{
    match mode {
        Mode::Shared => 0,
        Mode::Exclusive => 1,
    }
}

/// Which rule a reversal breaks.
pub fn heading_number(heading: Heading) -> u32
    ensures { result ≡ heading_number heading }
{
    match heading {
        Heading::Order => 0,
        Heading::Sleepable => 1,
        Heading::Giant => 2,
    }
}

/// Where an order comes from; 0 where there is none.
pub fn origin_number(origin: Option<Origin>) -> u32
    ensures { result ≡ origin_number origin }
{
    match origin {
        None => 0,
        Some(Origin::Listed) => 1,
        Some(Origin::Defined) => 2,
        Some(Origin::At(_)) => 3,
    }
}

/// By which reply something was reported; 0 where nothing was.
pub fn report_number(answer: &Result<Reply, Fault>) -> i64
    ensures { result ≡ report_number answer.now }
{
    match answer {
        Ok(Reply::Reversal(_)) => 4,
        Ok(Reply::Duplicate(_)) => 5,
        Ok(Reply::Exhausted) => 7,
        _ => 0,
    }
}

/// How a lock is held.
#[inline(always)]
pub fn mode_in(exclusive: bool) -> Mode
    ensures { result ≡ mode_in exclusive }
{
    if exclusive {
        Mode::Exclusive
    } else {
        Mode::Shared
    }
}

/// The class with this number.
pub fn class_in(number: u8) -> Option<Class>
    ensures { result ≡ class_in number }
{
    match number {
        0 => Some(Class::SleepMutex),
        1 => Some(Class::SpinMutex),
        2 => Some(Class::Rw),
        3 => Some(Class::Sx),
        _ => None,
    }
}

/// The level with this number.
pub fn watch_in(number: i32) -> Option<Watch>
    ensures { result ≡ watch_in number }
{
    if number == -1 {
        Some(Watch::Off)
    } else if number == 0 {
        Some(Watch::Quiet)
    } else if number == 1 {
        Some(Watch::On)
    } else {
        None
    }
}

/// A lock that may be named: 0 is none.
pub fn lock_in(number: u32) -> Option<LockNo>
    ensures { result ≡ lock_in number }
{
    match number {
        0 => None,
        _ => Some(LockNo(number)),
    }
}

/// A place in the watched program.
#[inline(always)]
pub fn site_in(file: u16, line: u32) -> Site
    ensures { result ≡ site_in file line }
{
    Site {
        file: FileNo(file),
        line,
    }
}

/// How a lock is held, as far as an assertion looks; `None` where it isn't.
pub fn holding_in(held: bool, exclusive: bool, count: u16) -> Option<Instance>
    ensures { result ≡ holding_in held exclusive count }
{
    if !held {
        return None;
    }
    Some(Instance {
        lock: LockNo(0),
        mode: mode_in(exclusive),
        norelease: false,
        count,
        site: site_in(0, 0),
    })
}
