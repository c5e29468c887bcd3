//! The calls of lines.

use wit_model::{Call, FileName, FileNo, Line, LockLine, LockNo, Request, SeatNo, Site, Verb};

/// The file that a line names.
pub(crate) fn file_of(line: &Line) -> Option<&str> {
    match line {
        Line::OnLock(LockLine::Check { file, .. }) => Some(file.as_str()),
        Line::OnLock(LockLine::Try { file, .. }) => Some(file.as_str()),
        _ => None,
    }
}

/// Who makes the call of a line, and the call; a lock isn't made so.
pub(crate) fn call_of(line: &Line, file: FileNo) -> Option<(SeatNo, Call)> {
    match line {
        Line::OnLock(line) => call_on_lock(line, file),
        Line::Define {
            seat,
            first,
            second,
        } => Some((*seat, Call::DefineOrder(*first, *second))),
        Line::Watch { seat, watch } => Some((*seat, Call::SetWatch(*watch))),
        _ => None,
    }
}

fn call_on_lock(line: &LockLine<FileName>, file: FileNo) -> Option<(SeatNo, Call)> {
    match line {
        LockLine::Check {
            seat,
            lock,
            mode,
            ops,
            line,
            ..
        } => {
            let request = Request {
                lock: *lock,
                site: Site { file, line: *line },
                mode: *mode,
                ops: *ops,
            };
            Some((*seat, Call::Check(request)))
        }
        LockLine::Try {
            seat,
            lock,
            mode,
            line,
            ..
        } => {
            let site = Site { file, line: *line };
            Some((*seat, Call::NoteTry(*lock, *mode, site)))
        }
        LockLine::Unlock { seat, lock, mode } => Some((*seat, Call::Unlock(*lock, *mode))),
        LockLine::Plain { verb, seat, lock } => Some((*seat, verb_call(*verb, *lock))),
        LockLine::Step { .. } => None,
    }
}

fn verb_call(verb: Verb, lock: LockNo) -> Call {
    match verb {
        Verb::Note => Call::Note(lock),
        Verb::GiveUp => Call::GiveUp(lock),
        Verb::Destroy => Call::Destroy(lock),
        Verb::Upgrade => Call::Upgrade(lock),
        Verb::Downgrade => Call::Downgrade(lock),
        Verb::NoRelease => Call::NoRelease(lock),
        Verb::ReleaseOk => Call::ReleaseOk(lock),
    }
}
