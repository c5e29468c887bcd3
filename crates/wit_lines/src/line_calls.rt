//! What call a line makes.

ghost use Rattle.std.specs.Prelude.{◌≡◌, IfOk};
ghost use Rattle.std.specs.Option.{option_copied};
ghost use Rattle.wit_model.specs.Trace.LineCalls.{call_of, verb_call};
ghost use Rattle.wit_grammar.specs.Lines.{as_line};
ghost use Rattle.wit_lines.specs.LineCalls.{as_call, at_number, file_named};

use std::alloc::{AllocError, Global};
use wit_grammar::borrowed;
use wit_model::{
    Boxed, Call, FileNo, Line, LockAssert, LockLine, LockNo, RawStep, Request, SeatNo, Site, Verb,
    WarnFlags,
};

/// What a line has a verifier do.
#[derive(Drop)]
pub enum LineCall {
    /// A seat makes a call, which is logged.
    Logs(SeatNo, Call),
    /// A seat asserts something of a lock.
    Asserts(SeatNo, LockNo, LockAssert),
    /// A seat is warned of the locks that it holds.
    Warns(SeatNo, Option<LockNo>, WarnFlags),
    /// A seat does something to a lock itself, of which a verifier isn't told.
    Steps(SeatNo, LockNo, RawStep),
    /// Nothing: the line stands before the calls.
    NoCall,
}

/// The file that a line names, if it names one: its call has the file's number.
pub fn file_of(line: &Line) -> Option<&str>
    ensures { option_copied result ≡ file_named (call_of line.now) }
{
    match line {
        Line::OnLock(LockLine::Check { file, .. }) => Some(file.as_str()),
        Line::OnLock(LockLine::Try { file, .. }) => Some(file.as_str()),
        _ => None,
    }
}

/// The file that a line on a lock names, if it names one.
#[inline(always)]
pub fn file_on_lock<'a>(line: &LockLine<&'a str>) -> Option<&'a str>
    ensures { option_copied result ≡ file_named (call_of (as_line line.now)) }
{
    match *line {
        LockLine::Check { file, .. } | LockLine::Try { file, .. } => Some(file),
        LockLine::Unlock { .. } | LockLine::Plain { .. } | LockLine::Step { .. } => None,
    }
}

/// What a line has a verifier do, where the file that it names has this number.
///
/// # Errors
/// Want of memory alone.
pub fn call_of(alloc: Global, line: Line, file: FileNo) -> Result<LineCall, AllocError>
    ensures { IfOk result (λ made. as_call made ≡ at_number (call_of line) file.0) }
{
    match line {
        Line::Header { .. } | Line::Profile | Line::Order { .. } | Line::Bless { .. } => {
            Ok(LineCall::NoCall)
        }
        Line::Init { seat, lock } => {
            let lock = Boxed::new(alloc, lock)?;
            Ok(LineCall::Logs(seat, Call::Init(lock)))
        }
        Line::OnLock(line) => Ok(lock_call(borrowed(&line), file)),
        Line::Assert {
            seat,
            lock,
            asserted,
        } => Ok(LineCall::Asserts(seat, lock, asserted)),
        Line::Warn { seat, lock, flags } => Ok(LineCall::Warns(seat, lock, flags)),
        Line::Define {
            seat,
            first,
            second,
        } => Ok(LineCall::Logs(seat, Call::DefineOrder(first, second))),
        Line::Watch { seat, watch } => Ok(LineCall::Logs(seat, Call::SetWatch(watch))),
    }
}

/// What a line on a lock has a verifier do, where the file that it names has this number.
#[inline(always)]
pub fn lock_call(line: LockLine<&str>, file: FileNo) -> LineCall
    ensures { as_call result ≡ at_number (call_of (as_line line.entry)) file.0 }
{
    match line {
        LockLine::Check {
            seat,
            lock,
            mode,
            ops,
            line,
            ..
        } => {
            let site = Site { file, line };
            let request = Request {
                lock,
                site,
                mode,
                ops,
            };
            LineCall::Logs(seat, Call::Check(request))
        }
        LockLine::Try {
            seat,
            lock,
            mode,
            line,
            ..
        } => LineCall::Logs(seat, Call::NoteTry(lock, mode, Site { file, line })),
        LockLine::Unlock { seat, lock, mode } => LineCall::Logs(seat, Call::Unlock(lock, mode)),
        LockLine::Plain { verb, seat, lock } => LineCall::Logs(seat, verb_call(verb, lock)),
        LockLine::Step { seat, lock, step } => LineCall::Steps(seat, lock, step),
    }
}

#[inline(always)]
fn verb_call(verb: Verb, lock: LockNo) -> Call
    ensures { result ≡ verb_call verb lock }
{
    match verb {
        Verb::Note => Call::Note(lock),
        Verb::GiveUp => Call::GiveUp(lock),
        Verb::Destroy => Call::Destroy(lock),
        Verb::Upgrade => Call::Upgrade(lock),
        Verb::Downgrade => Call::Downgrade(lock),
        Verb::NoRelease => Call::NoRelease(lock),
        Verb::ReleaseOk => Call::ReleaseOk(lock),
    }
}
