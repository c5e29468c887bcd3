//! The columns that each line of a trace begins with: the task and its number, the processor in brackets,
//! the flags, which may be missing, and the time with a colon. The name of a task may have spaces, dashes
//! and brackets.

ghost use Rattle.std.specs.Prelude.{◌≡◌, ◌≤◌, drop, length, take};
ghost use Rattle.std.specs.Option.{option_copied, option_map};
ghost use Rattle.wit_traced.specs.Heads.{IsBracket, bare_task, columns, columns_behind, columns_of, ends_time};
ghost use Rattle.wit_traced.specs.Heads.{head_from, head_of, head_parted, is_of_time, is_time};
ghost use Rattle.wit_traced.specs.Heads.{task_number, with_flags};

use crate::contexts::{Context, Masked, Preemption, context_of, masked_of, preemption_of};
use crate::numbers::decimal;
use crate::pieces::{before, before_last, behind_last, rest, trimmed_end, trimmed_start};

/// What the columns say, and what stands behind them.
#[derive(Clone, Copy, Debug)]
pub struct Head<'a> {
    pub context: Context,
    pub masked: Masked,
    pub preemption: Preemption,
    pub event: &'a [u8],
}

/// The columns of a line, where it has them.
pub fn head_of(bytes: &[u8]) -> Option<Head<'_>>
    ensures { option_map columns result ≡ head_of bytes.now }
{
    head_from(bytes, 0)
}

// Of the brackets from a place on, the first with which the columns read counts.
fn head_from(bytes: &[u8], at: usize) -> Option<Head<'_>>
    requires { at ≤ length bytes.now }
    ensures { option_map columns result ≡ head_from (take at bytes.now) (drop at bytes.now) }
{
    let place = bracket_from(bytes, at);
    let (task, others) = bytes.split_at(place);
    match others {
        [] => None,
        [_, text @ ..] => match head_parted(task, text) {
            Some(head) => Some(head),
            None => head_from(bytes, place + 1),
        },
    }
}

// Where the next bracket stands from a place on, or the length.
fn bracket_from(bytes: &[u8], at: usize) -> usize
    requires { at ≤ length bytes.now }
    ensures within { (at ≤ result) × (result ≤ length bytes.now) }
    ensures bracket { IsBracket (drop result bytes.now) }
    ensures head { head_from (take at bytes.now) (drop at bytes.now)
        ≡ head_from (take result bytes.now) (drop result bytes.now) }
{
    let (_, others) = bytes.split_at(at);
    match others {
        [] | [b'[', ..] => at,
        [_, ..] => bracket_from(bytes, at + 1),
    }
}

// The columns, of which these stand before the processor's bracket, and these behind it.
fn head_parted<'a>(task: &[u8], text: &'a [u8]) -> Option<Head<'a>>
    ensures { option_map columns result ≡ head_parted task.now text.now }
{
    let (processor, text) = before(b']', text);
    let processor = decimal(processor)?;
    let task = task_number(trimmed_end(task))?;
    columns_behind(task, processor, trimmed_start(rest(text)))
}

fn columns_behind(task: u64, processor: u64, text: &[u8]) -> Option<Head<'_>>
    ensures { option_map columns result ≡ columns_behind task processor text.now }
{
    let (first, others) = before(b' ', text);
    if is_time(first) {
        return Some(columns_of(task, processor, b"", rest(others)));
    }
    with_flags(task, processor, first, trimmed_start(others))
}

fn with_flags<'a>(task: u64, processor: u64, flags: &[u8], text: &'a [u8]) -> Option<Head<'a>>
    ensures { option_map columns result ≡ with_flags task processor flags.now text.now }
{
    let (time, event) = before(b' ', text);
    if is_time(time) {
        Some(columns_of(task, processor, flags, rest(event)))
    } else {
        None
    }
}

fn columns_of<'a>(task: u64, processor: u64, flags: &[u8], event: &'a [u8]) -> Head<'a>
    ensures { columns result ≡ columns_of task processor flags.now event.now }
{
    Head {
        context: context_of(task, processor, flags),
        masked: masked_of(flags),
        preemption: preemption_of(flags),
        event,
    }
}

// The number behind the name of a task.
fn task_number(column: &[u8]) -> Option<u64>
    ensures { result ≡ task_number column.now }
{
    decimal(behind_last(b'-', bare_task(column)?)?)
}

// Without the number of its process, which may follow in parentheses.
fn bare_task(column: &[u8]) -> Option<&[u8]>
    ensures { option_copied result ≡ bare_task column.now }
{
    if column.ends_with(b")") {
        Some(trimmed_end(before_last(b'(', column)?))
    } else {
        Some(column)
    }
}

// Digits and points, and a colon.
fn is_time(word: &[u8]) -> bool
    ensures { result ≡ is_time word.now }
{
    match word {
        [] => false,
        [first, others @ ..] => first.is_ascii_digit() && ends_time(others),
    }
}

fn ends_time(word: &[u8]) -> bool
    ensures { result ≡ ends_time word.now }
{
    match word {
        [] => false,
        [last] => *last == b':',
        [byte, others @ ..] => is_of_time(*byte) && ends_time(others),
    }
}

fn is_of_time(byte: u8) -> bool
    ensures { result ≡ is_of_time byte }
{
    byte.is_ascii_digit() || byte == b'.'
}
