//! What a line of ftrace tells.

ghost use Rattle.std.specs.Prelude.{◌≡◌};
ghost use Rattle.std.specs.Option.{option_map};
ghost use Rattle.wit_traced.specs.Doings.{doing};
ghost use Rattle.wit_traced.specs.Lines.{action_of, event_remark, remark_of, told_of};
ghost use Rattle.wit_traced.specs.Tellings.{telling};

use crate::events::{Action, Told};
use crate::heads::head_of;
use crate::kprobes::probed;
use crate::lockdep::told_lockdep;
use crate::pieces::{begins, has};

/// What a line tells: nothing where it is none of these.
#[tactic(auto, unfolding(crate::specs::Lines::told_of))]
pub fn told_of(bytes: &[u8]) -> Option<Told<'_>>
    ensures { option_map telling result ≡ told_of bytes.now }
{
    match head_of(bytes) {
        Some(head) => match action_of(head.event) {
            Some(action) => Some(Told::Does(head.context, head.masked, head.preemption, action)),
            None => event_remark(head.event),
        },
        None => remark_of(bytes),
    }
}

fn action_of(event: &[u8]) -> Option<Action<'_>>
    ensures { option_map doing result ≡ action_of event.now }
{
    match probed(event) {
        Some(action) => Some(action),
        None => told_lockdep(event),
    }
}

// A wait and its end, which no order needs, and the head of a stack.
fn event_remark<'a>(event: &[u8]) -> Option<Told<'a>>
    ensures { option_map telling result ≡ event_remark event.now }
{
    if begins(b"lock_acquired:", event)
        || begins(b"lock_contended:", event)
        || begins(b"<stack trace>", event)
    {
        return Some(Told::Remark);
    }
    None
}

// `CPU:N [LOST n EVENTS]`, what begins with `#`, and a step of a stack.
fn remark_of<'a>(bytes: &[u8]) -> Option<Told<'a>>
    ensures { option_map telling result ≡ remark_of bytes.now }
{
    if has(b"LOST", bytes) && has(b"EVENTS", bytes) {
        return Some(Told::Lost);
    }
    if bytes.is_empty() || begins(b"#", bytes) || begins(b" => ", bytes) {
        return Some(Told::Remark);
    }
    None
}
