//! Whether a text is a schedule of a trace: what is sought is told only after that.

ghost use Rattle.std.specs.Prelude.{◌≡◌, ◌++◌, true, drop, IfOk, IfSome, OnOk};
ghost use Rattle.wit_model.specs.Trace.Moving.{with_feeds};
ghost use Rattle.wit_forecast.specs.Errands.{AreRests};
ghost use Rattle.wit_forecast.specs.Forecasts.{EndsInCircle, IsMeeting, IsSchedule};
ghost use Rattle.wit_forecast.specs.Owners.{lines_in};

use crate::errands::{Claim, all_follow, first_makings, opens};
use crate::owners::all_begin;
use crate::reading::Trace;
use std::alloc::{AllocError, Global};
use wit_trace::{View, replay};

/// The text of a schedule of a trace, of which so many lines are the prelude: these chosen lines after
/// it. `None` where they don't reorder the trace, or don't end in a circle.
///
/// # Errors
/// Want of memory alone.
pub fn schedule_text(
    alloc: Global,
    lines: &[Vec<u8>],
    head: usize,
    chosen: &[Vec<u8>],
) -> Result<Option<Vec<u8>>, AllocError>
    ensures { IfOk result (λ found. IfSome found (λ text.
        IsSchedule (with_feeds (lines_in lines.now)) text.items)) }
{
    if head > lines.len() {
        return Ok(None);
    }
    let (prelude, body) = lines.split_at(head);
    if !all_begin(alloc, chosen, body)? {
        return Ok(None);
    }
    circle_text(alloc, prelude, &[], chosen)
}

/// What a schedule of errands alone is made of.
#[derive(Clone, Copy)]
pub struct Plan<'a> {
    /// Its prelude.
    pub opening: &'a [Vec<u8>],
    /// How many of the trace's lines that make locks stand after it.
    pub makings: u32,
    /// The errands by turns.
    pub chosen: &'a [Vec<u8>],
    /// Whose errands they are.
    pub claims: &'a [Claim],
    /// Whether each is its seat's own.
    pub own_alone: bool,
}

/// The text of a schedule of errands alone of a trace, of which so many lines are the prelude. `None`
/// where the chosen lines aren't errands as the plan says, or don't end in a circle.
///
/// # Errors
/// Want of memory alone.
pub fn meeting_text(
    alloc: Global,
    lines: &[Vec<u8>],
    head: usize,
    rests: &[Option<u16>],
    plan: &Plan<'_>,
) -> Result<Option<Vec<u8>>, AllocError>
    requires { AreRests rests.now (drop head lines.now) }
    ensures { IfOk result (λ found. IfSome found (λ text.
        IsMeeting plan.now.own_alone (with_feeds (lines_in lines.now)) text.items)) }
{
    if head > lines.len() {
        return Ok(None);
    }
    let (prelude, body) = lines.split_at(head);
    if !opens(plan.opening, prelude) {
        return Ok(None);
    }
    if !all_follow(alloc, body, rests, plan.chosen, plan.claims, plan.own_alone)? {
        return Ok(None);
    }
    let made = first_makings(alloc, body, plan.makings)?;
    circle_text(alloc, plan.opening, &made, plan.chosen)
}

// The text of a trace of these lines, where it ends in a circle.
fn circle_text(
    alloc: Global,
    prelude: &[Vec<u8>],
    made: &[Vec<u8>],
    chosen: &[Vec<u8>],
) -> Result<Option<Vec<u8>>, AllocError>
    ensures ends { IfOk result (λ found. IfSome found (λ text. EndsInCircle text.items)) }
    ensures text { IfOk result (λ found. IfSome found (λ text.
        text.items ≡ with_feeds (lines_in prelude.now ++ (lines_in made.now ++ lines_in chosen.now)))) }
{
    let mut text = Vec::new(alloc);
    put_lines(&mut text, prelude)?;
    put_lines(&mut text, made)?;
    put_lines(&mut text, chosen)?;
    if !is_watched(alloc, &[prelude, made, chosen])? || !has_circle(alloc, &text)? {
        return Ok(None);
    }
    Ok(Some(text))
}

// Puts lines, each with its line feed.
fn put_lines(text: &mut Vec<u8>, lines: &[Vec<u8>]) -> Result<(), AllocError>
    ensures { OnOk result (text.new.items ≡ text.old.items ++ with_feeds (lines_in lines.now)) }
{
    let mut rest = lines;
    while let Some((line, others)) = rest.split_first() {
        text.extend_from_slice(line)?;
        text.push(b'\n')?;
        rest = others;
    }
    Ok(())
}

fn has_circle(alloc: Global, text: &[u8]) -> Result<bool, AllocError>
    ensures { IfOk result (λ b. b ≡ true → EndsInCircle text.now) }
{
    let mut reader = text;
    let mut shown = Vec::new(alloc);
    match replay(alloc, &mut reader, &mut shown, View::Circle) {
        Ok(summary) => Ok(summary.circle && summary.bad.is_none()),
        Err(_) => Err(AllocError),
    }
}

// Whether each line of these lists has its place, and nothing goes unrecorded.
fn is_watched(alloc: Global, lists: &[&[Vec<u8>]]) -> Result<bool, AllocError> {
    let mut trace = Trace::new(alloc);
    let mut number: u64 = 0;
    for lines in lists {
        for line in *lines {
            number = number.saturating_add(1);
            trace.enter(alloc, number, line)?;
        }
    }
    Ok(trace.world().is_some() && trace.is_watched)
}
