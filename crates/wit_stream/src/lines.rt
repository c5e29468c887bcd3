//! Lines and their ends.

ghost use Rattle.std.specs.Prelude.{◌≡◌, ◌+◌, ◌<◌, ◌≤◌, ℕ, List, false, [], ◌++◌, length, take};
ghost use Rattle.std.specs.Prelude.{slice_index, IfOk, OnOk, MatchOption};
ghost use Rattle.wit_model.specs.declared.lines.Cause.TheVariants.{Long};
ghost use Rattle.wit_stream.specs.Machine.{Follows, BreaksAt};
ghost use Rattle.wit_stream.specs.Text.{HasNoFeed};
ghost use Rattle.wit_stream.specs.Stream.{OutputFrom};

use crate::machine::{Machine, Step};
use crate::summary::Summary;
use memchr::memchr;
use std::alloc::{AllocError, Global};
use wit_grammar::LONGEST;
use wit_model::{Boxed, Cause};

/// The place of the first line feed.
pub fn feed_in(bytes: &[u8]) -> Option<usize>
    ensures { MatchOption result (HasNoFeed bytes.now) (λ len.
        (len < length bytes.now) × HasNoFeed (take len bytes.now)
        × (slice_index bytes.now len ≡ 10)) }
{
    memchr(b'\n', bytes)
}

/// A whole line goes to the machine, with what was begun of it before; one that stands whole in the
/// reader's buffer isn't copied.
///
/// # Errors
/// Want of memory alone.
pub fn whole_line<M: Machine>(
    alloc: Global,
    machine: &mut M,
    number: u64,
    begun: &mut Vec<u8>,
    rest: &[u8],
    text: &mut Vec<u8>,
) -> Result<Step, AllocError>
    requires room { M.reports machine.old < number }
    requires empty { text.old.items ≡ [] }
    requires plain { HasNoFeed (begun.old.items ++ rest.now) }
    requires plain_rest { HasNoFeed rest.now }
    requires short { length begun.old.items + length rest.now ≤ LONGEST }
    ensures step { IfOk result (Follows (M.allows (M.shows_by machine.old))
        machine.old machine.new number (begun.old.items ++ rest.now) text.new.items) }
    ensures kept { IfOk result (λ s. M.shows_by machine.new ≡ M.shows_by machine.old) }
    ensures counted { IfOk result (λ s. M.reports machine.new ≤ M.reports machine.old + 1) }
    ensures none { OnOk result (begun.new.items ≡ []) }
{
    if begun.is_empty() {
        return machine.line(alloc, number, rest, text);
    }
    begun.extend_from_slice(rest)?;
    let step = machine.line(alloc, number, begun, text)?;
    begun.clear();
    Ok(step)
}

/// The input ends, behind what was begun of a line. The last text is put into this one.
///
/// # Errors
/// Want of memory alone.
#[cold]
#[inline(never)]
pub fn at_end<M: Machine>(
    alloc: Global,
    machine: &mut M,
    number: u64,
    begun: &[u8],
    text: &mut Vec<u8>,
) -> Result<Boxed<Summary>, AllocError>
    requires room { M.reports machine.old < number }
    requires plain { HasNoFeed begun.now }
    requires short { length begun.now ≤ LONGEST }
    ensures { IfOk result (OutputFrom (M.allows (M.shows_by machine.old))
        machine.old number begun.now text.new.items) }
{
    let (last, summary) = last_line(alloc, machine, number, begun)?;
    *text = last;
    Boxed::new(alloc, summary)
}

fn last_line<M: Machine>(
    alloc: Global,
    machine: &mut M,
    number: u64,
    begun: &[u8],
) -> Result<(Vec<u8>, Summary), AllocError>
    requires room { M.reports machine.old < number }
    requires plain { HasNoFeed begun.now }
    requires short { length begun.now ≤ LONGEST }
    ensures { IfOk result (λ r. OutputFrom (M.allows (M.shows_by machine.old))
        machine.old number begun.now r.0.items r.1) }
{
    if begun.is_empty() {
        machine.end(alloc, number)
    } else {
        machine.broken(alloc, number, begun, Cause::Cut)
    }
}

/// The reading ends at a line that is too long, of which this was begun. The last text is put into
/// this one.
///
/// # Errors
/// Want of memory alone.
#[cold]
#[inline(never)]
pub fn at_long<M: Machine>(
    alloc: Global,
    machine: &mut M,
    number: u64,
    begun: &[u8],
    text: &mut Vec<u8>,
) -> Result<Boxed<Summary>, AllocError>
    requires { M.reports machine.old < number }
    ensures { IfOk result (λ s. (lines : List (List ℕ)) (tail : List ℕ)
        → BreaksAt Long begun.now lines tail
        → M.allows (M.shows_by machine.old) machine.old number lines tail text.new.items s) }
{
    let (last, summary) = machine.broken(alloc, number, begun, Cause::Long)?;
    *text = last;
    Boxed::new(alloc, summary)
}

/// Whether the next look may have to wait for the reader, where these bytes are shown after a line.
/// It need not where they have the end of a line, or more bytes than a line may have. If the look
/// before might have had to wait, nothing is kept that is to be written. If the line tells nothing
/// either, the answer serves nobody: then it is yes, and nothing is looked for.
pub fn may_wait(waited: bool, step: &Step, text: &[u8], shown: &[u8]) -> bool
    ensures { result ≡ false → HasNoFeed shown.now → LONGEST < length shown.now }
{
    match step {
        Step::Goes if waited && text.is_empty() => true,
        _ => shown.len() <= LONGEST && feed_in(shown).is_none(),
    }
}
