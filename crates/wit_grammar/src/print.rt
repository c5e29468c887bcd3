//! Printing a line.

ghost use Rattle.std.specs.Prelude.{◌≡◌, [], ◌++◌, ◌∷◌, IfOk, IfErr};
ghost use Rattle.std.specs.Fmt.{decimal};
ghost use Rattle.wit_model.specs.Trace.Spelling.{keyword_text, number_if_any, spelling};
ghost use Rattle.wit_model.specs.declared.lines.Line.TheVariants.{Header, Order, Bless, Init};
ghost use Rattle.wit_model.specs.declared.lines.Line.TheVariants.{Assert, Warn, Define};
ghost use Rattle.wit_model.specs.declared.lines.Line.TheVariants as lines;
ghost use Rattle.wit_grammar.specs.Lines.{IsPrelude, IsSpelled};
ghost use Rattle.wit_model.specs.declared.faults.Fault.TheVariants.{OutOfMemory};

use crate::keywords::keyword_text;
use crate::print_lock_lines::spell_on_lock;
use crate::put::{
    level_text, put_call, put_count, put_flags, put_lock, put_name, put_number, put_types,
    put_word, version_text,
};
use std::alloc::{AllocError, Global};
use wit_fields::letters;
use wit_model::{
    Fault, Keyword, Line, LockAssert, LockNo, Name, NewLock, SeatNo, TypeList, Version, WarnFlags,
    Watch,
};

/// The spelling of a line, without a line feed.
///
/// # Errors
/// `OutOfMemory` alone.
pub fn print_line(alloc: Global, line: &Line) -> Result<Vec<u8>, Fault>
    requires { IsSpelled line.now }
    ensures ok { IfOk result (λ bytes. bytes.items ≡ spelling line.now) }
    ensures err { IfErr result (λ fault. fault ≡ OutOfMemory) }
{
    Ok(spell(alloc, line)?)
}

fn spell(alloc: Global, line: &Line) -> Result<Vec<u8>, AllocError>
    ensures { IfOk result (λ bytes. bytes.items ≡ spelling line.now) }
{
    match line {
        Line::Header { .. } | Line::Profile | Line::Order { .. } | Line::Bless { .. } => {
            spell_prelude(alloc, line)
        }
        Line::Init { seat, lock } => spell_init(alloc, *seat, lock),
        Line::OnLock(line) => spell_on_lock(alloc, line),
        Line::Assert {
            seat,
            lock,
            asserted,
        } => spell_assert(alloc, *seat, *lock, *asserted),
        Line::Warn { seat, lock, flags } => spell_warn(alloc, *seat, *lock, *flags),
        Line::Define {
            seat,
            first,
            second,
        } => spell_define(alloc, *seat, *first, *second),
        Line::Watch { seat, watch } => spell_watch(alloc, *seat, *watch),
    }
}

/// The lines before the calls.
fn spell_prelude(alloc: Global, line: &Line) -> Result<Vec<u8>, AllocError>
    requires { IsPrelude line.now }
    ensures { IfOk result (λ bytes. bytes.items ≡ spelling line.now) }
{
    match line {
        Line::Header {
            version,
            seats,
            types,
            locks,
            chunks,
        } => spell_header(alloc, *version, *seats, *types, *locks, *chunks),
        Line::Profile => spell_profile(alloc),
        Line::Order { list } => spell_order(alloc, list),
        Line::Bless { first, second } => spell_bless(alloc, first, second),
        _ => unreachable!(),
    }
}

fn spell_header(
    alloc: Global,
    version: Version,
    seats: u32,
    types: u32,
    locks: u32,
    chunks: u32,
) -> Result<Vec<u8>, AllocError>
    ensures { IfOk result (λ bytes. bytes.items
        ≡ spelling (Header version seats types locks chunks)) }
{
    let mut out = Vec::from_slice(alloc, keyword_text(Keyword::Header))?;
    put_word(&mut out, version_text(version))?;
    put_count(&mut out, b"seats", seats)?;
    put_count(&mut out, b"types", types)?;
    put_count(&mut out, b"locks", locks)?;
    put_count(&mut out, b"chunks", chunks)?;
    Ok(out)
}

fn spell_profile(alloc: Global) -> Result<Vec<u8>, AllocError>
    ensures { IfOk result (λ bytes. bytes.items ≡ spelling lines.Profile) }
{
    let mut out = Vec::from_slice(alloc, keyword_text(Keyword::Profile))?;
    put_word(&mut out, b"all")?;
    Ok(out)
}

fn spell_order(alloc: Global, list: &TypeList) -> Result<Vec<u8>, AllocError>
    ensures { IfOk result (λ bytes. bytes.items ≡ spelling (Order list.now)) }
{
    let mut out = Vec::from_slice(alloc, keyword_text(Keyword::Order))?;
    put_types(&mut out, list.types())?;
    Ok(out)
}

fn spell_bless(alloc: Global, first: &Name, second: &Name) -> Result<Vec<u8>, AllocError>
    ensures { IfOk result (λ bytes. bytes.items ≡ spelling (Bless first.now second.now)) }
{
    let mut out = Vec::from_slice(alloc, keyword_text(Keyword::Bless))?;
    put_name(&mut out, first)?;
    put_name(&mut out, second)?;
    Ok(out)
}

fn spell_init(alloc: Global, seat: SeatNo, lock: &NewLock) -> Result<Vec<u8>, AllocError>
    ensures { IfOk result (λ bytes. bytes.items ≡ spelling (Init seat lock.now)) }
{
    let mut out = call_of_seat(alloc, Keyword::Init, seat)?;
    put_lock(&mut out, lock)?;
    Ok(out)
}

/// The keyword and the seat of a call.
fn call_of_seat(alloc: Global, keyword: Keyword, seat: SeatNo) -> Result<Vec<u8>, AllocError>
    ensures { IfOk result (λ bytes. bytes.items ≡ keyword_text keyword ++ 32 ∷ decimal seat.0) }
{
    let mut out = Vec::from_slice(alloc, keyword_text(keyword))?;
    put_number(&mut out, u32::from(seat.0))?;
    Ok(out)
}

/// The keyword, the seat and the lock of a call.
pub(crate) fn call_on_lock(
    alloc: Global,
    keyword: Keyword,
    seat: SeatNo,
    lock: LockNo,
) -> Result<Vec<u8>, AllocError>
    ensures { IfOk result (λ bytes. bytes.items
        ≡ keyword_text keyword ++ 32 ∷ (decimal seat.0 ++ 32 ∷ decimal lock.0)) }
{
    let mut out = Vec::new(alloc);
    put_call(&mut out, keyword, seat, lock)?;
    Ok(out)
}

fn spell_assert(
    alloc: Global,
    seat: SeatNo,
    lock: LockNo,
    asserted: LockAssert,
) -> Result<Vec<u8>, AllocError>
    ensures { IfOk result (λ bytes. bytes.items ≡ spelling (Assert seat lock asserted)) }
{
    let mut out = call_on_lock(alloc, Keyword::Assert, seat, lock)?;
    put_flags(&mut out, letters::ASSERTION, asserted.0)?;
    Ok(out)
}

fn spell_warn(
    alloc: Global,
    seat: SeatNo,
    lock: Option<LockNo>,
    flags: WarnFlags,
) -> Result<Vec<u8>, AllocError>
    ensures { IfOk result (λ bytes. bytes.items ≡ spelling (Warn seat lock flags)) }
{
    let mut out = call_of_seat(alloc, Keyword::Warn, seat)?;
    put_number(&mut out, number_if_any(lock))?;
    put_flags(&mut out, letters::WARNING, flags.0)?;
    Ok(out)
}

fn spell_define(
    alloc: Global,
    seat: SeatNo,
    first: LockNo,
    second: LockNo,
) -> Result<Vec<u8>, AllocError>
    ensures { IfOk result (λ bytes. bytes.items ≡ spelling (Define seat first second)) }
{
    let mut out = call_on_lock(alloc, Keyword::Define, seat, first)?;
    put_number(&mut out, second.0)?;
    Ok(out)
}

fn spell_watch(alloc: Global, seat: SeatNo, watch: Watch) -> Result<Vec<u8>, AllocError>
    ensures { IfOk result (λ bytes. bytes.items ≡ spelling (lines.Watch seat watch)) }
{
    let mut out = call_of_seat(alloc, Keyword::Watch, seat)?;
    put_word(&mut out, level_text(watch))?;
    Ok(out)
}

/// The number of a lock, 0 where none is named.
fn number_if_any(lock: Option<LockNo>) -> u32
    ensures { result ≡ number_if_any lock }
{
    match lock {
        None => 0,
        Some(lock) => lock.0,
    }
}
