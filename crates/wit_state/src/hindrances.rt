//! What keeps a log from being clean.

ghost use Rattle.std.specs.Prelude.{◌≡◌};
ghost use Rattle.wit_state.specs.Clean.{check_hindrance, first_hindrance};
ghost use Rattle.wit_state.specs.Clean.{hindrance_of, init_hindrance, main_hindrance};

use bitflags::Flags;
use wit_core::Verifier;
use wit_model::{Call, Class, Entry, LockFlags, NewLock, OpFlags, Profile, Request};

/// What keeps a log from being clean.
#[derive(Clone, Copy, Debug, PartialEq, Eq, Hash)]
pub enum Hindrance {
    /// A pair of type names may be taken in either order.
    Blessed,
    /// A lock, or a request, allows a second lock of a type.
    Doubled,
    /// A lock is Giant.
    Giant,
    /// A request teaches no order.
    Untaught,
    /// A lock was tried, where a request is compared with the last held lock alone.
    Tried,
    /// Less than everything is watched.
    Unwatched,
    /// Something was reported, and nothing else keeps it.
    Reported,
}

/// What keeps the log of a verifier from being clean, where something does: the first call that does,
/// or that something was reported.
pub fn main_hindrance(verifier: &Verifier) -> Hindrance
    ensures { result ≡ main_hindrance verifier.now }
{
    if verifier.blesses() {
        return Hindrance::Blessed;
    }
    match first_hindrance(verifier.profile(), verifier.history()) {
        Some(hindrance) => hindrance,
        None => Hindrance::Reported,
    }
}

// That of the first call that has one, of the log of a verifier of this profile.
fn first_hindrance(profile: Profile, log: &[Entry]) -> Option<Hindrance>
    ensures { result ≡ first_hindrance profile log.now }
{
    let mut rest = log;
    while let Some((entry, others)) = rest.split_first() {
        if let Some(hindrance) = hindrance_of(profile, &entry.call) {
            return Some(hindrance);
        }
        rest = others;
    }
    None
}

/// How a call keeps the log of a verifier of this profile from being clean, whatever it is answered;
/// `None` where it doesn't.
pub fn hindrance_of(profile: Profile, call: &Call) -> Option<Hindrance>
    ensures { result ≡ hindrance_of profile call.now }
{
    match call {
        Call::Init(lock) => init_hindrance(lock.get()),
        Call::Check(request) => check_hindrance(request),
        Call::NoteTry(_, _, _) => match profile {
            Profile::Plain => Some(Hindrance::Tried),
            Profile::AllHeld => None,
        },
        Call::SetWatch(watch) => {
            if watch.is_on() {
                None
            } else {
                Some(Hindrance::Unwatched)
            }
        }
        _ => None,
    }
}

/// Whether the call that was logged last keeps the log from being clean, whatever it was answered.
pub fn ends_hindered(verifier: &Verifier) -> bool {
    match verifier.history().last() {
        Some(entry) => hindrance_of(verifier.profile(), &entry.call).is_some(),
        None => false,
    }
}

fn init_hindrance(lock: &NewLock) -> Option<Hindrance>
    ensures { result ≡ init_hindrance lock.now }
{
    if lock.flags.contains(LockFlags::DUPOK) {
        return Some(Hindrance::Doubled);
    }
    if lock.class == Class::SleepMutex && lock.type_name().as_str() == "Giant" {
        return Some(Hindrance::Giant);
    }
    None
}

fn check_hindrance(request: &Request) -> Option<Hindrance>
    ensures { result ≡ check_hindrance request.now }
{
    if !request.ops.contains(OpFlags::NEWORDER) {
        return Some(Hindrance::Untaught);
    }
    if request.ops.contains(OpFlags::DUPOK) {
        return Some(Hindrance::Doubled);
    }
    None
}
