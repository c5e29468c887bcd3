//! What is told of a soak.

use crate::plan::Plan;
use crate::print::{header, print_history};
use crate::threads::Soaked;
use crate::worker::{List, Made, Tally};
use crate::{CHUNKS, LOCKS, TYPES};
use std::alloc::Global;
use std::io::Write;
use wit_core::Verifier;
use wit_model::{Call, Fault, SeatNo};
use wit_report::report_text;

/// Writes the log as a trace, its reports and the counts, as the plan wants it. Whether nothing was
/// wrong.
///
/// # Errors
/// Want of memory.
pub(crate) fn tell<W: Write, E: Write>(
    alloc: Global,
    plan: Plan,
    soaked: &Soaked,
    output: &mut W,
    complaints: &mut E,
) -> Result<bool, Fault> {
    let verifier = &soaked.verifier;
    if plan.traces {
        let line = header(u32::from(plan.threads) + 1, TYPES, LOCKS, CHUNKS);
        print_history(alloc, verifier, &line, plan.is_all_held(), output)?;
        for entry in verifier.history() {
            let text = report_text(alloc, verifier, &entry.reply)?;
            let _ = complaints.write_all(text.as_bytes());
        }
    }
    let mut good = soaked.looked_on;
    if !good {
        let _ = writeln!(
            complaints,
            "an observer went back, or goes on behind the close"
        );
    }
    let (mut refused, mut memory) = (0u64, 0u64);
    for (seat, tally) in &soaked.tallies {
        refused = refused.saturating_add(tally.refused);
        memory = memory.saturating_add(tally.memory);
        if let Some(wrong) = tally.wrong {
            good = false;
            let _ = writeln!(complaints, "seat {}: {wrong}", seat.0);
        }
        let logged = list_of(verifier, *seat);
        if logged != tally.list {
            good = false;
            let (found, made) = (logged.calls, tally.list.calls);
            let _ = writeln!(
                complaints,
                "seat {}: {found} entries of {made}, or others",
                seat.0
            );
        }
    }
    if plan.traces {
        tell_questions(&soaked.tallies, complaints);
        let (entries, reports) = (verifier.history().len(), verifier.reports());
        let orders = verifier.orders().len();
        let _ = writeln!(
            complaints,
            "soak: {entries} entries, {orders} orders, {reports} reports, {refused} refused, {memory} for memory"
        );
    } else {
        let _ = writeln!(output, "soaked");
    }
    Ok(good)
}

// How often each seat was answered what the log doesn't keep, a line for each.
fn tell_questions<E: Write>(tallies: &[(SeatNo, Tally)], complaints: &mut E) {
    for (seat, tally) in tallies {
        let (seat, questions) = (seat.0, tally.questions);
        let _ = writeln!(complaints, "answered {seat}: {questions:?}");
    }
}

// Those of a seat's entries that its thread counts.
fn list_of(verifier: &Verifier, seat: SeatNo) -> List {
    let mut list = List::default();
    for entry in verifier.history() {
        if entry.seat == seat {
            match &entry.call {
                Call::Check(request) => list.add(Made::Check, request.lock),
                Call::Note(lock) => list.add(Made::Note, *lock),
                Call::NoteTry(lock, ..) => list.add(Made::Try, *lock),
                Call::GiveUp(lock) => list.add(Made::GiveUp, *lock),
                Call::Unlock(lock, _) => list.add(Made::Unlock, *lock),
                _ => {}
            }
        }
    }
    list
}

/// The status: 0 where nothing was wrong, 1 where something was, 4 where memory ran out.
pub(crate) fn tell_end<E: Write>(told: Result<bool, Fault>, complaints: &mut E) -> u8 {
    match told {
        Ok(true) => 0,
        Ok(false) => 1,
        Err(Fault::OutOfMemory) => {
            let _ = writeln!(complaints, "soak: out of memory");
            4
        }
        Err(fault) => {
            let _ = writeln!(complaints, "soak: {fault}");
            1
        }
    }
}
