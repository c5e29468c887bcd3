//! Lines by their first word. Each of the frequent ones has a function of its own: nothing asks
//! again what it is, and a line pays for no other's locals.

ghost use Rattle.std.specs.Prelude.{◌≡◌, IfOk, Some};
ghost use Rattle.wit_model.specs.declared.lines.Keyword.TheVariants as keyword;
ghost use Rattle.wit_model.specs.declared.lines.Line.TheVariants.{OnLock};
ghost use Rattle.wit_model.specs.declared.lines.LockLine.TheVariants.{Check};
ghost use Rattle.wit_model.specs.declared.lines.Verb.TheVariants.{Note};
ghost use Rattle.wit_model.specs.Trace.Reading.{line_of};
ghost use Rattle.wit_grammar.specs.Lines.{Begins};

use crate::line_reader::LineReader;
use std::alloc::{AllocError, Global};
use wit_grammar::{
    Begun, CheckFields, begin_line, behind_check, behind_free, behind_lock, behind_take,
    behind_unlock, check_fields, free_fields, lock_line, note_fields, take_fields, unlock_fields,
};
use wit_model::{Call, Keyword, LockLine, RawStep, Request, Site, Verb};
use wit_stream::Step;

/// Reads a line of the first version.
///
/// # Errors
/// Want of memory alone.
#[inline(always)]
pub fn read_line<R: LineReader>(
    reader: &mut R,
    alloc: Global,
    view: R::View,
    number: u64,
    bytes: &[u8],
    text: &mut Vec<u8>,
) -> Result<Step, AllocError>
    requires { R.may view reader.old number bytes.now text.old.items }
    ensures { IfOk result (R.has view reader.old number bytes.now reader.new text.new.items) }
{
    if let Some(rest) = behind_lock(bytes) {
        return note_line(reader, alloc, view, number, bytes, rest, text);
    }
    if let Some(rest) = behind_unlock(bytes) {
        return unlock_line(reader, alloc, view, number, bytes, rest, text);
    }
    if let Some(rest) = behind_check(bytes) {
        return check_line(reader, alloc, view, number, bytes, rest, text);
    }
    other_line(reader, alloc, view, number, bytes, begin_line(bytes), text)
}

/// Reads a line of the second version, whose frequent lines are steps of locks too.
///
/// # Errors
/// Want of memory alone.
#[inline(always)]
pub fn read_step_line<R: LineReader>(
    reader: &mut R,
    alloc: Global,
    view: R::View,
    number: u64,
    bytes: &[u8],
    text: &mut Vec<u8>,
) -> Result<Step, AllocError>
    requires { R.may view reader.old number bytes.now text.old.items }
    ensures { IfOk result (R.has view reader.old number bytes.now reader.new text.new.items) }
{
    if let Some(rest) = behind_take(bytes) {
        return take_line(reader, alloc, view, number, bytes, rest, text);
    }
    if let Some(rest) = behind_free(bytes) {
        return free_line(reader, alloc, view, number, bytes, rest, text);
    }
    read_line(reader, alloc, view, number, bytes, text)
}

// A line that begins with `check`.
#[inline(never)]
fn check_line<R: LineReader>(
    reader: &mut R,
    alloc: Global,
    view: R::View,
    number: u64,
    bytes: &[u8],
    rest: &[u8],
    text: &mut Vec<u8>,
) -> Result<Step, AllocError>
    requires ready { R.may view reader.old number bytes.now text.old.items }
    requires begun { Begins (Some (keyword.Check, rest)) (line_of bytes.now) }
    ensures { IfOk result (R.has view reader.old number bytes.now reader.new text.new.items) }
{
    let Some(fields) = check_fields(reader.recent_file(), rest) else {
        let begun = Some((Keyword::Check, rest));
        return reader.read_any(alloc, view, number, bytes, begun, text);
    };
    let Some(file) = fields.number else {
        return check_elsewhere(reader, alloc, view, number, bytes, fields, text);
    };
    let site = Site {
        file,
        line: fields.line,
    };
    let request = Request {
        lock: fields.lock,
        site,
        mode: fields.mode,
        ops: fields.ops,
    };
    let call = Call::Check(request);
    reader.read_call(alloc, view, number, bytes, fields.seat, call, text)
}

// A check in another file than the last one.
#[inline(always)]
fn check_elsewhere<R: LineReader>(
    reader: &mut R,
    alloc: Global,
    view: R::View,
    number: u64,
    bytes: &[u8],
    fields: CheckFields<'_>,
    text: &mut Vec<u8>,
) -> Result<Step, AllocError>
    requires ready { R.may view reader.old number bytes.now text.old.items }
    requires found { line_of bytes.now ≡ Some (OnLock (Check fields.seat fields.lock fields.mode
        fields.ops fields.file.now fields.line)) }
    ensures { IfOk result (R.has view reader.old number bytes.now reader.new text.new.items) }
{
    let line = LockLine::Check {
        seat: fields.seat,
        lock: fields.lock,
        mode: fields.mode,
        ops: fields.ops,
        file: fields.file,
        line: fields.line,
    };
    reader.read_on_lock(alloc, view, number, bytes, line, text)
}

// A line that begins with `unlock`.
#[inline(never)]
fn unlock_line<R: LineReader>(
    reader: &mut R,
    alloc: Global,
    view: R::View,
    number: u64,
    bytes: &[u8],
    rest: &[u8],
    text: &mut Vec<u8>,
) -> Result<Step, AllocError>
    requires ready { R.may view reader.old number bytes.now text.old.items }
    requires begun { Begins (Some (keyword.Unlock, rest)) (line_of bytes.now) }
    ensures { IfOk result (R.has view reader.old number bytes.now reader.new text.new.items) }
{
    let Some((seat, lock, mode)) = unlock_fields(rest) else {
        let begun = Some((Keyword::Unlock, rest));
        return reader.read_any(alloc, view, number, bytes, begun, text);
    };
    let call = Call::Unlock(lock, mode);
    reader.read_call(alloc, view, number, bytes, seat, call, text)
}

// A line that begins with `lock`.
#[inline(never)]
fn note_line<R: LineReader>(
    reader: &mut R,
    alloc: Global,
    view: R::View,
    number: u64,
    bytes: &[u8],
    rest: &[u8],
    text: &mut Vec<u8>,
) -> Result<Step, AllocError>
    requires ready { R.may view reader.old number bytes.now text.old.items }
    requires begun { Begins (Some (keyword.Plain Note, rest)) (line_of bytes.now) }
    ensures { IfOk result (R.has view reader.old number bytes.now reader.new text.new.items) }
{
    let Some((seat, lock)) = note_fields(rest) else {
        let begun = Some((Keyword::Plain(Verb::Note), rest));
        return reader.read_any(alloc, view, number, bytes, begun, text);
    };
    reader.read_call(alloc, view, number, bytes, seat, Call::Note(lock), text)
}

// A line that begins with `take`.
#[inline(never)]
fn take_line<R: LineReader>(
    reader: &mut R,
    alloc: Global,
    view: R::View,
    number: u64,
    bytes: &[u8],
    rest: &[u8],
    text: &mut Vec<u8>,
) -> Result<Step, AllocError>
    requires ready { R.may view reader.old number bytes.now text.old.items }
    requires begun { Begins (Some (keyword.Take, rest)) (line_of bytes.now) }
    ensures { IfOk result (R.has view reader.old number bytes.now reader.new text.new.items) }
{
    let Some((seat, lock)) = take_fields(rest) else {
        let begun = Some((Keyword::Take, rest));
        return reader.read_any(alloc, view, number, bytes, begun, text);
    };
    let step = RawStep::Take;
    let line = LockLine::Step { seat, lock, step };
    reader.read_on_lock(alloc, view, number, bytes, line, text)
}

// A line that begins with `free`.
#[inline(never)]
fn free_line<R: LineReader>(
    reader: &mut R,
    alloc: Global,
    view: R::View,
    number: u64,
    bytes: &[u8],
    rest: &[u8],
    text: &mut Vec<u8>,
) -> Result<Step, AllocError>
    requires ready { R.may view reader.old number bytes.now text.old.items }
    requires begun { Begins (Some (keyword.Free, rest)) (line_of bytes.now) }
    ensures { IfOk result (R.has view reader.old number bytes.now reader.new text.new.items) }
{
    let Some((seat, lock)) = free_fields(rest) else {
        let begun = Some((Keyword::Free, rest));
        return reader.read_any(alloc, view, number, bytes, begun, text);
    };
    let step = RawStep::Free;
    let line = LockLine::Step { seat, lock, step };
    reader.read_on_lock(alloc, view, number, bytes, line, text)
}

// Any other line.
#[inline(never)]
fn other_line<R: LineReader>(
    reader: &mut R,
    alloc: Global,
    view: R::View,
    number: u64,
    bytes: &[u8],
    begun: Option<Begun<'_>>,
    text: &mut Vec<u8>,
) -> Result<Step, AllocError>
    requires ready { R.may view reader.old number bytes.now text.old.items }
    requires begun { Begins begun (line_of bytes.now) }
    ensures { IfOk result (R.has view reader.old number bytes.now reader.new text.new.items) }
{
    match lock_line(begun) {
        Some(line) => reader.read_on_lock(alloc, view, number, bytes, line, text),
        None => reader.read_any(alloc, view, number, bytes, begun, text),
    }
}
