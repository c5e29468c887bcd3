//! How many held locks a seat is warned of. Nothing here takes memory.

ghost use Rattle.std.specs.Prelude.{◌≡◌, ◌-◌, ◌^◌, ◌<◌, true, false, List, length, filter, not};
ghost use Rattle.std.specs.Prelude.{slice_get};
ghost use Rattle.wit_model.specs.declared.locks.Instance.{Instance};
ghost use Rattle.wit_model.specs.declared.sizes.TheConstants.Limits.{MOST_SEATS};
ghost use Rattle.wit_model.specs.Rules.Numbers.{IsNumber, IsGiven};
ghost use Rattle.wit_model.specs.Rules.Chunks.{IsList, chain_of, list_of};
ghost use Rattle.wit_model.specs.Rules.Verdict.{Basis, type_held, is_giant, is_sleepable};
ghost use Rattle.wit_model.specs.Rules.Warnings.{is_lock_named, is_allowed, counted_spin, warning};
ghost use Rattle.wit_held.specs.Warned.{AreTyped, is_last_named};

use bitflags::Flags;
use wit_model::chunks::{Lists, list_of};
use wit_model::{Instance, LockNo, SeatNo, WarnFlags, Watch};

/// What is known of the types of held locks.
pub trait LockTypes {
    ghost basis: { Self → Basis };

    /// Whether the type of a held lock is Giant (locking(9)).
    fn type_is_giant(&self, held: Instance) -> bool
        requires { IsGiven (basis self.now).lock_types held.lock.0 }
        ensures { result ≡ is_giant (basis self.now) (type_held (basis self.now) held) };

    /// Whether a holder of locks of its type may sleep (sx(9)).
    fn type_is_sleepable(&self, held: Instance) -> bool
        requires { IsGiven (basis self.now).lock_types held.lock.0 }
        ensures { result ≡ is_sleepable (basis self.now) (type_held (basis self.now) held) };
}

/// How many held locks a seat, one of 256, is warned of, where it should hold none (`witness_warn`
/// of witness(4)): none where not everything is watched. Counted are its locks of the sleep kind,
/// but for the named one, Giant under `GIANTOK`, and sleepable ones under `SLEEPOK`; and all of the
/// spin kind, unless the named one is the only lock that would be counted.
pub fn warn_count<L: Lists, T: LockTypes>(
    lists: &L,
    types: &T,
    seat: SeatNo,
    watch: Watch,
    named: Option<LockNo>,
    flags: WarnFlags,
) -> usize
    requires seat { IsNumber MOST_SEATS seat.0 }
    requires lists { IsList (L.chunks lists.now) (list_of true seat.0) }
    requires typed { AreTyped (T.basis types.now)
        (chain_of (L.chunks lists.now) (list_of false seat.0)) }
    ensures { result ≡ length (warning (T.basis types.now) watch named flags
        (chain_of (L.chunks lists.now) (list_of false seat.0))
        (chain_of (L.chunks lists.now) (list_of true seat.0))) }
{
    if !watch.is_on() {
        return 0;
    }
    let sleep = count_sleep(lists, types, list_of(seat, false), named, flags);
    sleep + count_spin(lists, list_of(seat, true), named, sleep)
}

// How many locks of the sleep kind aren't allowed.
fn count_sleep<L: Lists, T: LockTypes>(
    lists: &L,
    types: &T,
    list: u16,
    named: Option<LockNo>,
    flags: WarnFlags,
) -> usize
    requires list { IsList (L.chunks lists.now) list }
    requires typed { AreTyped (T.basis types.now) (chain_of (L.chunks lists.now) list) }
    ensures value { result ≡ length
        (filter (λ (held : Instance). not (is_allowed (T.basis types.now) named flags held))
        (chain_of (L.chunks lists.now) list)) }
    ensures few { result < 2 ^ 32 }
{
    let mut counted = lists.len(list);
    let mut spot = lists.newest(list);
    while let Some(at) = spot {
        counted -= allowed_in(lists.group(list, at), types, named, flags);
        spot = lists.older(list, at);
    }
    counted
}

// How many locks of a chunk are allowed.
fn allowed_in<T: LockTypes>(
    chunk: &[Instance],
    types: &T,
    named: Option<LockNo>,
    flags: WarnFlags,
) -> usize
    requires { AreTyped (T.basis types.now) chunk.now }
    ensures { result ≡ length (filter (is_allowed (T.basis types.now) named flags) chunk.now) }
{
    let mut allowed = 0;
    for held in chunk {
        if is_allowed(types, named, flags, *held) {
            allowed += 1;
        }
    }
    allowed
}

/// Whether a lock of the sleep kind may be held where none should be: the named one, Giant under
/// `GIANTOK`, or a sleepable one under `SLEEPOK`.
pub fn is_allowed<T: LockTypes>(
    types: &T,
    named: Option<LockNo>,
    flags: WarnFlags,
    held: Instance,
) -> bool
    requires { IsGiven (T.basis types.now).lock_types held.lock.0 }
    ensures { result ≡ is_allowed (T.basis types.now) named flags held }
{
    is_named(named, held)
        || flags.contains(WarnFlags::GIANTOK) && types.type_is_giant(held)
        || flags.contains(WarnFlags::SLEEPOK) && types.type_is_sleepable(held)
}

// How many locks of the spin kind are counted beside so many of the sleep kind.
fn count_spin<L: Lists>(lists: &L, list: u16, named: Option<LockNo>, sleep: usize) -> usize
    requires { IsList (L.chunks lists.now) list }
    ensures value { (counted : List Instance) → sleep ≡ length counted
        → result ≡ length (counted_spin named counted (chain_of (L.chunks lists.now) list)) }
    ensures few { result < 2 ^ 32 }
{
    let spin = lists.len(list);
    if sleep == 0 && spin == 1 && is_last_named(lists, list, named) {
        return 0;
    }
    spin
}

// Whether the newest lock of a list is the named one.
fn is_last_named<L: Lists>(lists: &L, list: u16, named: Option<LockNo>) -> bool
    requires { IsList (L.chunks lists.now) list }
    ensures { result ≡ is_last_named named
        (slice_get (chain_of (L.chunks lists.now) list)
        (length (chain_of (L.chunks lists.now) list) - 1)) }
{
    match lists.last(list) {
        Some(last) => is_named(named, last),
        None => false,
    }
}

/// Whether this is the lock that a call names, if it names one.
pub fn is_named(named: Option<LockNo>, held: Instance) -> bool
    ensures { result ≡ is_lock_named named held }
{
    match named {
        Some(lock) => held.lock.0 == lock.0,
        None => false,
    }
}
