//! What is forecast of each report: a schedule, or words that say why there is none.

ghost use Rattle.std.specs.Prelude.{ℕ, List, IfOk, IfSome, OnOk};
ghost use Rattle.wit_model.specs.Trace.Moving.{with_feeds};
ghost use Rattle.wit_forecast.specs.Forecasts.{AreAnswers, IsAnswer, IsOutcome};
ghost use Rattle.wit_forecast.specs.Owners.{lines_in};

use crate::answers::Answer;
use crate::circles::all_holders;
use crate::outcomes::{Outcome, put_line, put_number, words_of};
use crate::reading::{Report, Trace};
use crate::requests::all_requests;
use crate::rests::rests_of;
use crate::schedules::Source;
use crate::searching::Search;
use std::alloc::{AllocError, Global};
use wit_core::Verifier;

/// What is forecast of each report of a trace that has these lines, in their sequence.
///
/// # Errors
/// Want of memory alone.
pub fn answers_of(
    alloc: Global,
    lines: &[Vec<u8>],
    trace: &Trace,
) -> Result<Vec<Answer>, AllocError>
    ensures { IfOk result (λ answers.
        AreAnswers (with_feeds (lines_in lines.now)) answers.items) }
{
    let mut answers = Vec::new(alloc);
    let Some(world) = trace.world() else {
        return Ok(answers);
    };
    if trace.head > lines.len() {
        return Ok(answers);
    }
    let (_prelude, body) = lines.split_at(trace.head);
    let rests = rests_of(alloc, body, &trace.deeds)?;
    let verifier = world.verifier();
    let requests = all_requests(alloc, &trace.deeds, verifier.seats())?;
    let holders = all_holders(alloc, &requests, greatest_lock(trace))?;
    let active = active_seats(alloc, trace, verifier.seats())?;
    let search = Search {
        source: Source {
            lines,
            head: trace.head,
            deeds: &trace.deeds,
            seats: verifier.seats(),
        },
        verifier,
        requests: &requests,
        holders: &holders,
        active: &active,
        rests: &rests,
        is_watched: trace.is_watched,
    };
    let mut number: u64 = 0;
    for report in &trace.reports {
        number = number.saturating_add(1);
        let outcome = search.outcome_of(alloc, report)?;
        add(
            &mut answers,
            words_of_report(alloc, verifier, trace.head, number, report, &outcome)?,
        )?;
        add(&mut answers, schedule_in(outcome))?;
    }
    Ok(answers)
}

// The greatest number of a lock that is named.
fn greatest_lock(trace: &Trace) -> u32 {
    let mut greatest = 0;
    for deed in &trace.deeds {
        greatest = deed.greatest.max(greatest);
    }
    greatest
}

// Which seats do something, by their numbers.
fn active_seats(alloc: Global, trace: &Trace, seats: u16) -> Result<Vec<bool>, AllocError> {
    let mut active = Vec::new(alloc);
    for _seat in 0..=seats {
        active.push(false)?;
    }
    for deed in &trace.deeds {
        if let Some(is_active) = active.get_mut(usize::from(deed.seat.0)) {
            *is_active = true;
        }
    }
    Ok(active)
}

// The words of a report: its number, that of its request's line, and what came of the search.
fn words_of_report(
    alloc: Global,
    verifier: &Verifier,
    head: usize,
    number: u64,
    report: &Report,
    outcome: &Outcome,
) -> Result<Option<Answer>, AllocError>
    ensures { (trace : List ℕ) → IfOk result (λ found. IfSome found (IsAnswer trace)) }
{
    let Some(words) = words_of(alloc, verifier, head, outcome)? else {
        return Ok(None);
    };
    let mut line = String::new(alloc);
    put_number(alloc, &mut line, number)?;
    line.push_str(", line ")?;
    put_line(alloc, &mut line, head, report.place)?;
    line.push_str(": ")?;
    line.push_str(&words)?;
    Ok(Some(Answer::Words(line)))
}

// Adds an answer, if there is one.
fn add(answers: &mut Vec<Answer>, answer: Option<Answer>) -> Result<(), AllocError>
    ensures { (trace : List ℕ) → AreAnswers trace answers.old.items
        → IfSome answer (IsAnswer trace) → OnOk result (AreAnswers trace answers.new.items) }
{
    match answer {
        Some(answer) => {
            answers.push(answer)?;
            Ok(())
        }
        None => Ok(()),
    }
}

// The schedule of an outcome, if it has one.
fn schedule_in(outcome: Outcome) -> Option<Answer>
    ensures { (trace : List ℕ) → IsOutcome trace outcome → IfSome result (IsAnswer trace) }
{
    match outcome {
        Outcome::Hangs(text) => Some(Answer::Schedule(text)),
        Outcome::Meets(text) => Some(Answer::Errands(text)),
        Outcome::Alone(text, _copies) => Some(Answer::Copies(text)),
        Outcome::Barred(_place) => None,
        Outcome::Gate(_lock) => None,
        Outcome::Readers | Outcome::Types | Outcome::Untold | Outcome::Undecided => None,
    }
}
