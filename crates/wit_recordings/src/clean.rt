//! Whether a log is clean: the premise of the laws.

ghost use Rattle.std.specs.Prelude.{◌≡◌, ◌&&◌, not, reverse};
ghost use Rattle.wit_model.specs.Rules.Clean.{is_clean, is_clean_call, is_clean_entry};
ghost use Rattle.wit_model.specs.Rules.History.{is_report};
ghost use Rattle.wit_model.specs.Rules.Locks.{has_flag};
ghost use Rattle.wit_model.specs.Rules.Types.{is_giant_type, type_name_of};

use bitflags::Flags;
use wit_model::{Call, Class, Entry, LockFlags, NewLock, OpFlags, Profile, Reply};

/// Whether a log, as `Verifier::history` of `wit_core` gives it, is clean where its verifier is of
/// this profile: nothing was reported, everything was watched throughout, each check might teach an
/// order, no lock and no request allows a second lock of a type, no lock is Giant, and nothing was
/// tried, unless requests are compared with all held locks. That, and that no pair is blessed, is
/// what the laws ask of a recording.
pub fn is_clean(profile: Profile, log: &[Entry]) -> bool
    ensures { result ≡ is_clean profile (reverse log.now) }
{
    log.iter().all(|entry| is_clean_entry(profile, entry))
}

fn is_clean_entry(profile: Profile, entry: &Entry) -> bool
    ensures { result ≡ is_clean_entry profile entry.now }
{
    is_clean_call(profile, &entry.call) && !is_report(&entry.reply)
}

/// Whether a call leaves a log clean, if it isn't answered by a report.
pub fn is_clean_call(profile: Profile, call: &Call) -> bool
    ensures { result ≡ is_clean_call profile call.now }
{
    match call {
        Call::Init(lock) => may_be_made(lock.get()),
        Call::Check(request) => {
            request.ops.contains(OpFlags::NEWORDER) && !request.ops.contains(OpFlags::DUPOK)
        }
        Call::NoteTry(_, _, _) => matches!(profile, Profile::AllHeld),
        Call::SetWatch(watch) => watch.is_on(),
        _ => true,
    }
}

// Whether a lock may be made so: it allows no second lock of its type, and isn't Giant.
fn may_be_made(lock: &NewLock) -> bool
    ensures { result ≡ (not (has_flag lock.now.flags.0 0x02)
        && not (is_giant_type lock.now.class (type_name_of lock.now))) }
{
    !lock.flags.contains(LockFlags::DUPOK) && !is_giant(lock)
}

fn is_giant(lock: &NewLock) -> bool
    ensures { result ≡ is_giant_type lock.now.class (type_name_of lock.now) }
{
    lock.class == Class::SleepMutex && lock.type_name().as_str() == "Giant"
}

fn is_report(reply: &Reply) -> bool
    ensures { result ≡ is_report reply.now }
{
    matches!(
        reply,
        Reply::Reversal(_) | Reply::Duplicate(_) | Reply::Exhausted
    )
}
