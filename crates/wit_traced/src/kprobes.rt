//! Events of kprobes on the functions of locks: `k_NAME: (..) a=LOCK ip=PLACE` where NAME is entered, and
//! `r_NAME: (PLACE <- ..) r=NUMBER` where it returns.

ghost use Rattle.std.specs.Prelude.{◌≡◌, nat_eq};
ghost use Rattle.std.specs.List.{list_all};
ghost use Rattle.std.specs.Option.{option_map};
ghost use Rattle.wit_traced.specs.Doings.{doing};
ghost use Rattle.wit_traced.specs.Kprobes.{call_named, deed_named, entered, entered_with, is_sleeping};
ghost use Rattle.wit_traced.specs.Kprobes.{is_zero, kind_named, masks_before, masks_named, probed};
ghost use Rattle.wit_traced.specs.Kprobes.{reading_named, reading_of, returned, returned_with};
ghost use Rattle.wit_traced.specs.Kprobes.{without_lines};

use crate::contexts::Masked;
use crate::events::{Action, Call, Deed, Kind, Reading};
use crate::numbers::hexadecimal;
use crate::pieces::{
    before, begins, behind, behind_first, has, place, rest, trimmed_start, without,
};

/// What an event tells, where it is of such a function.
pub fn probed(event: &[u8]) -> Option<Action<'_>>
    ensures { option_map doing result ≡ probed event.now }
{
    if begins(b"k_", event) {
        entered(rest(rest(event)))
    } else if begins(b"r_", event) {
        returned(rest(rest(event)))
    } else {
        None
    }
}

fn entered(text: &[u8]) -> Option<Action<'_>>
    ensures { option_map doing result ≡ entered text.now }
{
    let (name, behind_name) = before(b':', text);
    let call = call_named(without_lines(name))?;
    entered_with(call, behind(b") a=", behind_name)?)
}

fn entered_with(call: Call, fields: &[u8]) -> Option<Action<'_>>
    ensures { option_map doing result ≡ entered_with call fields.now }
{
    let (lock, fields) = before(b' ', fields);
    let from = behind_first(b" ip=", fields)?;
    let lock = hexadecimal(lock)?;
    Some(Action::Enters(call, lock, place(before(b' ', from).0)))
}

fn returned(text: &[u8]) -> Option<Action<'_>>
    ensures { option_map doing result ≡ returned text.now }
{
    let (name, behind_name) = before(b':', text);
    let call = call_named(without_lines(name))?;
    returned_with(call, behind_first(b"(", trimmed_start(rest(behind_name)))?)
}

fn returned_with(call: Call, inner: &[u8]) -> Option<Action<'_>>
    ensures { option_map doing result ≡ returned_with call inner.now }
{
    let (to, _) = before(b' ', before(b')', inner).0);
    let given = behind(b") r=", inner)?;
    Some(Action::Returns(call, !is_zero(before(b' ', given).0), place(to)))
}

// A name without the underscores before it.
fn without_lines(name: &[u8]) -> &[u8]
    ensures { result.now ≡ without_lines name.now }
{
    without(b"_", without(b"_", name))
}

fn is_zero(number: &[u8]) -> bool
    ensures { result ≡ is_zero number.now }
{
    are_zeros(without(b"0x", number))
}

fn are_zeros(digits: &[u8]) -> bool
    ensures { result ≡ list_all (nat_eq 48) digits.now }
{
    match digits {
        [] => true,
        [digit, others @ ..] => *digit == b'0' && are_zeros(others),
    }
}

/// What a function does, by its name.
pub fn call_named(name: &[u8]) -> Option<Call>
    ensures { result ≡ call_named name.now }
{
    let kind = kind_named(name)?;
    let deed = deed_named(name)?;
    Some(Call {
        deed,
        kind,
        reading: reading_named(kind, name),
        masks: masks_named(deed, name),
    })
}

fn kind_named(name: &[u8]) -> Option<Kind>
    ensures { result ≡ kind_named name.now }
{
    if begins(b"raw_spin", name) {
        return Some(Kind::Spins);
    }
    if begins(b"raw_read", name) || begins(b"raw_write", name) {
        return Some(Kind::SpinsForReaders);
    }
    if is_sleeping(name) {
        return Some(Kind::Sleeps);
    }
    None
}

fn is_sleeping(name: &[u8]) -> bool
    ensures { result ≡ is_sleeping name.now }
{
    begins(b"mutex_", name)
        || begins(b"rt_mutex_", name)
        || begins(b"rt_spin_", name)
        || begins(b"down_read", name)
        || begins(b"down_write", name)
        || begins(b"up_read", name)
        || begins(b"up_write", name)
        || begins(b"percpu_", name)
}

// A semaphore that is downgraded is held on.
fn deed_named(name: &[u8]) -> Option<Deed>
    ensures { result ≡ deed_named name.now }
{
    if has(b"unlock", name) || begins(b"up_", name) || has(b"_up_", name) {
        return Some(Deed::Releases);
    }
    if has(b"downgrade", name) {
        return None;
    }
    if has(b"try", name) {
        return Some(Deed::Tries);
    }
    if has(b"interruptible", name) || has(b"killable", name) {
        return Some(Deed::MayEnd);
    }
    Some(Deed::Acquires)
}

fn reading_named(kind: Kind, name: &[u8]) -> Reading
    ensures { result ≡ reading_named kind name.now }
{
    if has(b"read", name) {
        reading_of(kind)
    } else {
        Reading::Writes
    }
}

fn reading_of(kind: Kind) -> Reading
    ensures { result ≡ reading_of kind }
{
    match kind {
        Kind::SpinsForReaders => Reading::Again,
        Kind::Spins | Kind::Sleeps | Kind::Map => Reading::Reads,
    }
}

// The probe is hit before the function masks them.
fn masks_named(deed: Deed, name: &[u8]) -> Masked
    ensures { result ≡ masks_named deed name.now }
{
    match deed {
        Deed::Releases => Masked::Nothing,
        Deed::Acquires | Deed::MayEnd | Deed::Tries => masks_before(name),
    }
}

fn masks_before(name: &[u8]) -> Masked
    ensures { result ≡ masks_before name.now }
{
    if has(b"_irq", name) {
        Masked::All
    } else if has(b"_bh", name) {
        Masked::Softirqs
    } else {
        Masked::Nothing
    }
}
