//! What babeltrace2 prints of the pthread wrapper of LTTng:
//! `.. lttng_ust_pthread:pthread_mutex_CALL: .. vtid = N .. { mutex = LOCK, status = N }`, with the place by
//! its source line, its function, its file or its address.

ghost use Rattle.std.specs.Prelude.{◌≡◌};
ghost use Rattle.std.specs.Option.{option_copied, option_map};
ghost use Rattle.wit_traced.specs.Lttng.{deed_by_status, deed_done, deed_of, mutex_fields, mutex_named};
ghost use Rattle.wit_traced.specs.Lttng.{mutex_told, named_of, place_of, quoted_behind, unless_empty, word_behind};
ghost use Rattle.wit_traced.specs.Tellings.{telling};

use crate::contexts::{Context, Masked, Preemption};
use crate::events::{Action, MutexDeed, Told};
use crate::numbers::{decimal, hexadecimal};
use crate::pieces::{before, behind};

/// What a line tells: nothing where it is none of these, or a call failed.
pub fn mutex_told(bytes: &[u8]) -> Option<Told<'_>>
    ensures { option_map telling result ≡ mutex_told bytes.now }
{
    mutex_named(named_of(bytes)?)
}

// What stands behind the name of the wrapper.
#[tactic(auto, unfolding(crate::specs::Lttng::named_of))]
fn named_of(bytes: &[u8]) -> Option<&[u8]>
    ensures { option_copied result ≡ named_of bytes.now }
{
    behind(b"lttng_ust_pthread:pthread_mutex_", bytes)
}

fn mutex_named(named: &[u8]) -> Option<Told<'_>>
    ensures { option_map telling result ≡ mutex_named named.now }
{
    let (call, fields) = before(b':', named);
    mutex_fields(fields, deed_of(call, fields)?)
}

fn mutex_fields(fields: &[u8], deed: MutexDeed) -> Option<Told<'_>>
    ensures { option_map telling result ≡ mutex_fields fields.now deed }
{
    let thread = decimal(word_behind(b"vtid = ", fields)?)?;
    let lock = hexadecimal(word_behind(b"mutex = ", fields)?)?;
    let place = place_of(fields)?;
    Some(Told::Does(
        Context::Task(thread),
        Masked::All,
        Preemption::Untold,
        Action::Does(deed, lock, place),
    ))
}

// A call that failed does nothing.
fn deed_of(call: &[u8], fields: &[u8]) -> Option<MutexDeed>
    ensures { result ≡ deed_of call.now fields.now }
{
    if call == b"lock_req".as_slice() {
        return Some(MutexDeed::Asks);
    }
    deed_by_status(call, word_behind(b"status = ", fields)?)
}

fn deed_by_status(call: &[u8], status: &[u8]) -> Option<MutexDeed>
    ensures { result ≡ deed_by_status call.now status.now }
{
    if status == b"0".as_slice() {
        deed_done(call)
    } else {
        None
    }
}

fn deed_done(call: &[u8]) -> Option<MutexDeed>
    ensures { result ≡ deed_done call.now }
{
    if call == b"lock_acq".as_slice() {
        Some(MutexDeed::Gets)
    } else if call == b"trylock".as_slice() {
        Some(MutexDeed::Tries)
    } else if call == b"unlock".as_slice() {
        Some(MutexDeed::Releases)
    } else {
        None
    }
}

// The word behind a name, without the comma.
fn word_behind<'a>(name: &[u8], fields: &'a [u8]) -> Option<&'a [u8]>
    ensures { option_copied result ≡ word_behind name.now fields.now }
{
    let (word, _) = before(b' ', behind(name, fields)?);
    Some(before(b',', word).0)
}

fn quoted_behind<'a>(name: &[u8], fields: &'a [u8]) -> Option<&'a [u8]>
    ensures { option_copied result ≡ quoted_behind name.now fields.now }
{
    let (word, _) = before(b'"', behind(name, fields)?);
    unless_empty(word)
}

fn unless_empty(word: &[u8]) -> Option<&[u8]>
    ensures { option_copied result ≡ unless_empty word.now }
{
    if word.is_empty() { None } else { Some(word) }
}

// Its source line, its function, its file or its address.
fn place_of(fields: &[u8]) -> Option<&[u8]>
    ensures { option_copied result ≡ place_of fields.now }
{
    quoted_behind(b"src = \"", fields)
        .or(quoted_behind(b"func = \"", fields))
        .or(quoted_behind(b"bin = \"", fields))
        .or(word_behind(b"ip = ", fields))
        .or(Some(b"?"))
}
