//! What may be asked of a verifier, each as often as it takes.

use crate::lines::call_of;
use std::alloc::Global;
use wit_core::Verifier;
use wit_model::{
    Call, Fault, FileNo, Line, LockAssert, LockNo, NewLock, Reply, SeatNo, TypeNo, WarnFlags,
};
use wit_report::{
    all_locks, assert_text, circle_text, graph, locks_of, report_text, type_list, warn_text,
};

/// Something that is asked of a verifier.
#[derive(Clone, Copy)]
pub(crate) enum Act<'a> {
    /// A file is named.
    File(&'a str),
    /// A lock is made.
    Init(SeatNo, &'a NewLock),
    /// The call of a line is prepared.
    Prepare(&'a Line, FileNo),
    /// The call of a line is made, with the file that it names.
    Call(&'a Line, FileNo),
    /// The text of a reply.
    Report(&'a Reply),
    /// The text of an assertion.
    Assert(SeatNo, LockNo, LockAssert),
    /// The text of a warning.
    Warn(SeatNo, Option<LockNo>, WarnFlags),
    /// The text of the orders.
    Graph,
    /// The text of what all seats hold.
    Locks,
    /// The text of a circle.
    Circle,
    /// The text of the types.
    Types,
    /// The text of what a seat holds.
    LocksOf(SeatNo),
    /// How many types lie between two.
    Path(TypeNo, TypeNo),
}

/// What comes of it.
#[derive(Drop)]
pub(crate) enum Answer {
    /// A file's number.
    File(FileNo),
    /// The reply to a call.
    Reply(Reply),
    /// A text.
    Text(String),
    /// How long a path is.
    Steps(Option<usize>),
}

impl Act<'_> {
    /// What it is called.
    pub(crate) fn name(self) -> &'static str {
        match self {
            Act::File(_) => "file",
            Act::Init(_, _) => "init",
            Act::Prepare(_, _) => "prepare",
            Act::Call(_, _) => "call",
            Act::Report(_) => "report_text",
            Act::Assert(_, _, _) => "assert_text",
            Act::Warn(_, _, _) => "warn_text",
            Act::Graph => "graph",
            Act::Locks => "all_locks",
            Act::Circle => "wait_circle",
            Act::Types => "type_list",
            Act::LocksOf(_) => "locks_of",
            Act::Path(_, _) => "path",
        }
    }
}

/// Asks it.
///
/// # Errors
/// Those of the call that it makes.
pub(crate) fn make(alloc: Global, verifier: &mut Verifier, act: Act<'_>) -> Result<Answer, Fault> {
    match act {
        Act::File(name) => Ok(Answer::File(verifier.file(name)?)),
        Act::Init(seat, lock) => {
            let type_name = match &lock.type_name {
                Some(name) => Some(name.as_str()),
                None => None,
            };
            let name = lock.name.as_str();
            let made = verifier.init(seat, name, type_name, lock.class, lock.flags)?;
            Ok(Answer::Reply(Reply::Made(made)))
        }
        Act::Prepare(line, file) => Ok(Answer::Reply(prepare(verifier, line, file)?)),
        Act::Call(line, file) => match call_of(line, file) {
            Some((seat, call)) => Ok(Answer::Reply(verifier.call(seat, call)?)),
            None => Err(Fault::GateRefused),
        },
        act => Ok(match act {
            Act::Path(from, to) => Answer::Steps(verifier.path(from, to)?.map(|way| way.len())),
            act => Answer::Text(text_of(alloc, verifier, act)?),
        }),
    }
}

fn prepare(verifier: &mut Verifier, line: &Line, file: FileNo) -> Result<Reply, Fault> {
    match call_of(line, file) {
        Some((seat, Call::Check(request))) => verifier.prepare(seat, &Call::Check(request)),
        Some((seat, Call::DefineOrder(first, second))) => {
            verifier.prepare(seat, &Call::DefineOrder(first, second))
        }
        _ => Ok(Reply::Pass),
    }
}

fn text_of(alloc: Global, verifier: &Verifier, act: Act<'_>) -> Result<String, Fault> {
    match act {
        Act::Report(reply) => report_text(alloc, verifier, reply),
        Act::Assert(seat, lock, asserted) => {
            let answer = verifier.assert_lock(seat, lock, asserted)?;
            assert_text(alloc, verifier, lock, answer)
        }
        Act::Warn(seat, lock, flags) => {
            let _count = verifier.warn(seat, lock, flags)?;
            warn_text(alloc, verifier, seat, lock, flags)
        }
        Act::Graph => graph(alloc, verifier),
        Act::Locks => all_locks(alloc, verifier),
        Act::Types => type_list(alloc, verifier),
        Act::LocksOf(seat) => locks_of(alloc, verifier, seat),
        _ => {
            let circle = verifier.wait_circle()?;
            circle_text(alloc, verifier, circle.as_deref())
        }
    }
}
