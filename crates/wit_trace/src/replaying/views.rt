//! What a view shows.

ghost use Rattle.std.specs.Prelude.{◌≡◌, [], IfOk, IfErr};
ghost use Rattle.wit_model.specs.declared.faults.Fault.TheVariants.{OutOfMemory};
ghost use Rattle.wit_lines.specs.Shown.{shown_of, IsShownAtEnd};
ghost use Rattle.wit_lines.specs.declared.view.View.TheVariants.{Circle, Clean, State};

use crate::replaying::driven::Driven;
use std::alloc::Global;
use wit_lines::View;
use wit_model::Fault;
use wit_report::{all_locks, circle_text, graph};
use wit_state::{clean_text, is_clean_so_far, state_text};

/// What is shown of the text that is told of a line.
pub fn shown(alloc: Global, view: View, told: Vec<u8>) -> Vec<u8>
    ensures { result.items ≡ shown_of view told.items }
{
    match view {
        View::Reports | View::State => told,
        View::Graph | View::Locks | View::Circle | View::Clean => Vec::new(alloc),
    }
}

/// Puts what is shown of that into a text that has nothing.
#[inline(always)]
pub fn show(alloc: Global, view: View, told: Vec<u8>, text: &mut Vec<u8>)
    requires { text.old.items ≡ [] }
    ensures { text.new.items ≡ shown_of view told.items }
{
    // So it is of most lines.
    if told.is_empty() {
        return;
    }
    *text = shown(alloc, view, told);
}

/// What is shown after the whole trace, and whether that is something to act upon. `against` is the
/// line that keeps the log from being clean.
///
/// # Errors
/// `OutOfMemory` alone.
pub fn last_text<D: Driven>(
    alloc: Global,
    view: View,
    driven: &D,
    against: u64,
) -> Result<(Vec<u8>, bool), Fault>
    ensures ok { IfOk result (λ r. IsShownAtEnd view (D.story driven.now) (D.waits driven.now)
        r.0.items r.1) }
    ensures err { IfErr result (λ e. e ≡ OutOfMemory) }
{
    match view {
        View::Reports => Ok((Vec::new(alloc), false)),
        View::Graph => Ok((graph(alloc, driven.verifier())?.into_bytes(), false)),
        View::Locks => Ok((all_locks(alloc, driven.verifier())?.into_bytes(), false)),
        View::Circle => last_circle(alloc, driven),
        View::State => last_state(alloc, driven, against),
        View::Clean => last_clean(alloc, driven, against),
    }
}

fn last_circle<D: Driven>(alloc: Global, driven: &D) -> Result<(Vec<u8>, bool), Fault>
    ensures ok { IfOk result (λ r. IsShownAtEnd Circle (D.story driven.now) (D.waits driven.now)
        r.0.items r.1) }
    ensures err { IfErr result (λ e. e ≡ OutOfMemory) }
{
    let circle = driven.circle()?;
    let text = circle_text(alloc, driven.verifier(), circle.as_deref())?;
    Ok((text.into_bytes(), circle.is_some()))
}

fn last_state<D: Driven>(alloc: Global, driven: &D, against: u64) -> Result<(Vec<u8>, bool), Fault>
    ensures ok { IfOk result (λ r. IsShownAtEnd State (D.story driven.now)
        (D.waits driven.now) r.0.items r.1) }
    ensures err { IfErr result (λ e. e ≡ OutOfMemory) }
{
    let seats = driven.circle()?;
    let text = state_text(alloc, driven.verifier(), against, seats.as_deref())?;
    Ok((text.into_bytes(), seats.is_some()))
}

fn last_clean<D: Driven>(alloc: Global, driven: &D, against: u64) -> Result<(Vec<u8>, bool), Fault>
    ensures ok { IfOk result (λ r. IsShownAtEnd Clean (D.story driven.now)
        (D.waits driven.now) r.0.items r.1) }
    ensures err { IfErr result (λ e. e ≡ OutOfMemory) }
{
    let text = clean_text(alloc, driven.verifier(), against)?;
    Ok((text.into_bytes(), !is_clean_so_far(driven.verifier())))
}
