//! A log as a trace.

use std::alloc::Global;
use std::io::Write;
use wit_core::Verifier;
use wit_grammar::{print_line, spelled};
use wit_model::{
    Call, Entry, Fault, FileName, FileNo, Line, LockLine, LockNo, Request, SeatNo, Verb, Version,
};

/// Writes the trace whose calls are those of a log, in the profile that it has. A writer that fails is told by what is missing.
///
/// # Errors
/// Want of memory.
pub(crate) fn print_history<W: Write>(
    alloc: Global,
    verifier: &Verifier,
    header: &Line,
    all_held: bool,
    output: &mut W,
) -> Result<(), Fault> {
    put(alloc, header, output)?;
    if all_held {
        put(alloc, &Line::Profile, output)?;
    }
    for entry in verifier.history() {
        put(alloc, &line_of(alloc, verifier, entry)?, output)?;
    }
    Ok(())
}

/// The first line of a trace.
pub(crate) fn header(seats: u32, types: u32, locks: u32, chunks: u32) -> Line {
    Line::Header {
        version: Version::One,
        seats,
        types,
        locks,
        chunks,
    }
}

fn put<W: Write>(alloc: Global, line: &Line, output: &mut W) -> Result<(), Fault> {
    // All lines of a log can be: one that couldn't would be missing.
    if !spelled(line) {
        return Ok(());
    }
    let text = print_line(alloc, line)?;
    let _ = output.write_all(text.as_slice());
    let _ = output.write_all(b"\n");
    Ok(())
}

// The line that makes the call of an entry.
fn line_of(alloc: Global, verifier: &Verifier, entry: &Entry) -> Result<Line, Fault> {
    let seat = entry.seat;
    Ok(match &entry.call {
        Call::Init(lock) => Line::Init {
            seat,
            lock: lock.get().copy(alloc)?,
        },
        Call::SetWatch(watch) => Line::Watch {
            seat,
            watch: *watch,
        },
        Call::DefineOrder(first, second) => Line::Define {
            seat,
            first: *first,
            second: *second,
        },
        call => Line::OnLock(lock_line_of(alloc, verifier, seat, call)?),
    })
}

fn lock_line_of(
    alloc: Global,
    verifier: &Verifier,
    seat: SeatNo,
    call: &Call,
) -> Result<LockLine<FileName>, Fault> {
    Ok(match call {
        Call::Check(request) => check_line(alloc, verifier, seat, request)?,
        Call::NoteTry(lock, mode, site) => LockLine::Try {
            seat,
            lock: *lock,
            mode: *mode,
            file: file_of(alloc, verifier, site.file)?,
            line: site.line,
        },
        Call::Unlock(lock, mode) => LockLine::Unlock {
            seat,
            lock: *lock,
            mode: *mode,
        },
        call => {
            let (verb, lock) = verb_of(call);
            LockLine::Plain { verb, seat, lock }
        }
    })
}

fn check_line(
    alloc: Global,
    verifier: &Verifier,
    seat: SeatNo,
    request: &Request,
) -> Result<LockLine<FileName>, Fault> {
    Ok(LockLine::Check {
        seat,
        lock: request.lock,
        mode: request.mode,
        ops: request.ops,
        file: file_of(alloc, verifier, request.site.file)?,
        line: request.site.line,
    })
}

fn file_of(alloc: Global, verifier: &Verifier, file: FileNo) -> Result<FileName, Fault> {
    let name = verifier.file_name(file).unwrap_or("unknown");
    Ok(FileName::new(alloc, name)?)
}

// Those calls that a line says by its first word. The others don't come here.
fn verb_of(call: &Call) -> (Verb, LockNo) {
    match call {
        Call::Note(lock) => (Verb::Note, *lock),
        Call::GiveUp(lock) => (Verb::GiveUp, *lock),
        Call::Destroy(lock) => (Verb::Destroy, *lock),
        Call::Upgrade(lock) => (Verb::Upgrade, *lock),
        Call::Downgrade(lock) => (Verb::Downgrade, *lock),
        Call::NoRelease(lock) => (Verb::NoRelease, *lock),
        Call::ReleaseOk(lock) => (Verb::ReleaseOk, *lock),
        _ => (Verb::Note, LockNo(0)),
    }
}
