//! What lockdep is told: the lines `la: ` and `lr: ` with all of it, and the tracepoints `lock_acquire`
//! and `lock_release`, which tell the name of a class alone.

ghost use Rattle.std.specs.Prelude.{◌≡◌, ◌≤◌, ◌<◌, ℕ, codes, length};
ghost use Rattle.std.specs.Option.{option_map};
ghost use Rattle.wit_traced.specs.Acquiring.{acquiring};
ghost use Rattle.wit_traced.specs.Doings.{doing};
ghost use Rattle.wit_traced.specs.Lockdep.{acquired, acquired_by_name, acquired_named, acquired_reading};
ghost use Rattle.wit_traced.specs.Lockdep.{acquired_trying, acquiring_by, field, field_of, is_nothing};
ghost use Rattle.wit_traced.specs.Lockdep.{is_passed_over, is_rcu, is_zero_digit, kind_of};
ghost use Rattle.wit_traced.specs.Lockdep.{named_acquiring, no_values, quoted_field, reading_of};
ghost use Rattle.wit_traced.specs.Lockdep.{released, released_by_name, told_lockdep, told_release};
ghost use Rattle.wit_traced.specs.Lockdep.{told_with_fields, values, values_in, values_of, with_value};
ghost use Rattle.wit_traced.specs.Pieces.{behind_first};

use crate::events::{Acquired, Action, Kind, Reading};
use crate::numbers::hexadecimal;
use crate::pieces::{
    before, begins, behind, behind_first, has, place, rest, trimmed_start, without,
};

/// What an event tells, where it is of lockdep.
pub fn told_lockdep(event: &[u8]) -> Option<Action<'_>>
    ensures { option_map doing result ≡ told_lockdep event.now }
{
    match behind_first(b"lock_acquire:", event) {
        Some(text) => acquired_by_name(trimmed_start(text)),
        None => told_release(event),
    }
}

fn told_release(event: &[u8]) -> Option<Action<'_>>
    ensures { option_map doing result
        ≡ told_release event.now (behind_first (codes "lock_release:") event.now) }
{
    match behind_first(b"lock_release:", event) {
        Some(text) => released_by_name(trimmed_start(text)),
        None => told_with_fields(event),
    }
}

fn told_with_fields(event: &[u8]) -> Option<Action<'_>>
    ensures { option_map doing result ≡ told_with_fields event.now }
{
    if !has(b"map=", event) {
        return None;
    }
    match behind(b"la: ", event) {
        Some(text) => acquired(&fields_of(text)),
        None => released(&fields_of(behind(b"lr: ", event)?)),
    }
}

// ---- by the name of a class alone

fn released_by_name(text: &[u8]) -> Option<Action<'_>>
    ensures { option_map doing result ≡ released_by_name text.now }
{
    let (lock, _) = before(b' ', text);
    let lock = hexadecimal(lock)?;
    Some(Action::Releases(lock, b"lock_release"))
}

// `LOCK try read NAME`, with `try` and `read` where they hold.
fn acquired_by_name(text: &[u8]) -> Option<Action<'_>>
    ensures { option_map doing result ≡ acquired_by_name text.now }
{
    let (lock, text) = before(b' ', text);
    let lock = hexadecimal(lock)?;
    Some(acquired_trying(lock, rest(text)))
}

fn acquired_trying(lock: u64, text: &[u8]) -> Action<'_>
    ensures { doing result ≡ acquired_trying lock text.now }
{
    let tried = begins(b"try ", text);
    acquired_reading(lock, tried, without(b"try ", text))
}

fn acquired_reading(lock: u64, tried: bool, text: &[u8]) -> Action<'_>
    ensures { doing result ≡ acquired_reading lock tried text.now }
{
    let reads = begins(b"read ", text);
    acquired_named(lock, tried, reads, without(b"read ", text))
}

fn acquired_named(lock: u64, tried: bool, reads: bool, name: &[u8]) -> Action<'_>
    ensures { doing result ≡ acquired_named lock tried reads name.now }
{
    if is_rcu(name) {
        Action::PassesOver(lock)
    } else {
        Action::Acquires(named_acquired(lock, tried, reads, name))
    }
}

fn named_acquired(lock: u64, tried: bool, reads: bool, name: &[u8]) -> Acquired<'_>
    ensures { acquiring result ≡ named_acquiring lock tried reads name.now }
{
    Acquired {
        lock,
        key: b"",
        subclass: b"0",
        name,
        kind: Kind::Sleeps,
        reading: if reads {
            Reading::Reads
        } else {
            Reading::Writes
        },
        tried,
        nested: false,
        place: b"lock_acquire",
    }
}

fn is_rcu(name: &[u8]) -> bool
    ensures { result ≡ is_rcu name.now }
{
    begins(b"rcu_read_lock", name) || begins(b"rcu_callback", name)
}

// ---- with all fields

fn released<'a>(fields: &Fields<'a>) -> Option<Action<'a>>
    ensures { option_map doing result ≡ released (values fields.now) }
{
    let lock = hexadecimal(fields.map)?;
    Some(Action::Releases(lock, place(fields.ip)))
}

fn acquired<'a>(fields: &Fields<'a>) -> Option<Action<'a>>
    ensures { option_map doing result ≡ acquired (values fields.now) }
{
    let lock = hexadecimal(fields.map)?;
    if is_passed_over(fields) {
        Some(Action::PassesOver(lock))
    } else {
        Some(Action::Acquires(acquired_by(fields, lock)))
    }
}

// RCU's, and those that lockdep doesn't check.
fn is_passed_over(fields: &Fields<'_>) -> bool
    ensures { result ≡ is_passed_over (values fields.now) }
{
    fields.wt == b"1".as_slice() || fields.chk == b"0".as_slice() || is_rcu(fields.name)
}

fn acquired_by<'a>(fields: &Fields<'a>, lock: u64) -> Acquired<'a>
    ensures { acquiring result ≡ acquiring_by (values fields.now) lock }
{
    Acquired {
        lock,
        key: if is_nothing(fields.key) {
            fields.map
        } else {
            fields.key
        },
        subclass: fields.sub,
        name: fields.name,
        kind: kind_of(fields.wt),
        reading: reading_of(fields.rd),
        tried: !is_nothing(fields.tries),
        nested: !is_nothing(fields.nest),
        place: place(fields.ip),
    }
}

#[tactic(auto, unfolding(crate::specs::Lockdep::reading_of))]
fn reading_of(number: &[u8]) -> Reading
    ensures { result ≡ reading_of number.now }
{
    match number {
        b"" | b"0" => Reading::Writes,
        b"2" => Reading::Again,
        _ => Reading::Reads,
    }
}

// By the wait type: 2 spins, 3 and 4 sleep, and 0 has none.
#[tactic(auto, unfolding(crate::specs::Lockdep::kind_of))]
fn kind_of(wait_type: &[u8]) -> Kind
    ensures { result ≡ kind_of wait_type.now }
{
    match wait_type {
        b"2" => Kind::Spins,
        b"0" | b"" => Kind::Map,
        _ => Kind::Sleeps,
    }
}

// Whether it is the number 0, or missing.
fn is_nothing(number: &[u8]) -> bool
    ensures { result ≡ is_nothing number.now }
{
    match number {
        [] => true,
        [digit, others @ ..] => is_zero_digit(*digit) && is_nothing(others),
    }
}

fn is_zero_digit(digit: u8) -> bool
    ensures { result ≡ is_zero_digit digit }
{
    digit == b'0' || digit == b'x'
}

/// The fields of an event, each `KEY=VALUE`; a value in quotation marks may have spaces.
#[derive(Clone, Copy, Debug)]
struct Fields<'a> {
    map: &'a [u8],
    sub: &'a [u8],
    tries: &'a [u8],
    rd: &'a [u8],
    chk: &'a [u8],
    nest: &'a [u8],
    key: &'a [u8],
    wt: &'a [u8],
    ip: &'a [u8],
    name: &'a [u8],
}

fn fields_of(text: &[u8]) -> Fields<'_>
    ensures { values result ≡ values_of text.now }
{
    let none = Fields {
        map: b"",
        sub: b"",
        tries: b"",
        rd: b"",
        chk: b"",
        nest: b"",
        key: b"",
        wt: b"",
        ip: b"",
        name: b"",
    };
    fields_in(none, text)
}

// With the fields of the text, whatever their number is.
fn fields_in<'a>(fields: Fields<'a>, text: &'a [u8]) -> Fields<'a>
    ensures { (most : ℕ) → length text.now ≤ most
        → values result ≡ values_in most (values fields.entry) text.now }
{
    match text {
        [] => fields,
        [_, ..] => {
            let field = field_of(text);
            fields_in(with_value(fields, field.key, field.value), field.behind)
        }
    }
}

#[tactic(auto, unfolding(crate::specs::Lockdep::with_value))]
fn with_value<'a>(fields: Fields<'a>, key: &[u8], value: &'a [u8]) -> Fields<'a>
    ensures { values result ≡ with_value (values fields.entry) key.now value.now }
{
    match key {
        b"map" => Fields {
            map: value,
            ..fields
        },
        b"sub" => Fields {
            sub: value,
            ..fields
        },
        b"try" => Fields {
            tries: value,
            ..fields
        },
        b"rd" => Fields {
            rd: value,
            ..fields
        },
        b"chk" => Fields {
            chk: value,
            ..fields
        },
        b"nest" => Fields {
            nest: value,
            ..fields
        },
        b"key" => Fields {
            key: value,
            ..fields
        },
        b"wt" => Fields {
            wt: value,
            ..fields
        },
        b"ip" => Fields {
            ip: value,
            ..fields
        },
        b"name" => Fields {
            name: value,
            ..fields
        },
        _ => fields,
    }
}

/// The first field of a text, and what stands behind it.
#[derive(Clone, Copy, Debug)]
struct Field<'a> {
    key: &'a [u8],
    value: &'a [u8],
    behind: &'a [u8],
}

// A word without an equals sign is a key with no value.
fn field_of(text: &[u8]) -> Field<'_>
    requires { 0 < length text.now }
    ensures field { field result ≡ field_of text.now }
    ensures shorter { length result.behind.now < length text.now }
{
    let (word, behind_word) = before(b' ', text);
    let (key, value) = before(b'=', word);
    if begins(b"=\"", value) {
        return quoted_field(key, text.split_at(key.len()).1);
    }
    Field {
        key,
        value: rest(value),
        behind: rest(behind_word),
    }
}

fn quoted_field<'a>(key: &'a [u8], text: &'a [u8]) -> Field<'a>
    requires { 0 < length text.now }
    ensures field { field result ≡ quoted_field key.now text.now }
    ensures shorter { length result.behind.now < length text.now }
{
    let (value, behind) = before(b'"', rest(rest(text)));
    Field {
        key,
        value,
        behind: rest(behind),
    }
}
