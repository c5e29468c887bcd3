//! The way in: a program that is run with a shared verifier.

ghost use Rattle.std.specs.Prelude.{◌≡◌, ℕ, ◌≤◌, [], IfOk, IfErr, length, replicate};
ghost use Rattle.wit_model.specs.Rules.State.{Start};
ghost use Rattle.wit_shared.specs.declared.opening.Reason.TheVariants.{OutOfMemory};
ghost use Rattle.wit_shared.specs.declared.opening.TheConstants.{MOST_OBSERVERS};
ghost use Rattle.wit_shared.specs.Opening.{why_refused};
ghost use Rattle.wit_shared.specs.Publishing.{adoptions};

use crate::opening::{OpenedVerifier, Reason, Unopened};
use crate::shared::Shared;
use std::alloc::Global;
use std::marker::Brand;
use std::sync::Wait;
use wit_core::Verifier;
use wit_observers::Observer;
use wit_seats::Room;

/// What wasn't run, with its verifier, both as they were.
#[derive(Drop)]
pub struct Refused<S> {
    /// The verifier.
    pub verifier: Verifier,
    /// The program.
    pub program: S,
    /// Why.
    pub reason: Reason,
}

/// What a program does with a shared verifier, whatever names it. `R` is what its threads run on.
pub trait Program<R> {
    /// What it comes to.
    type Out;

    // Whether it is for a verifier that began so, and for so many observers.
    ghost suits: { Self → Start → ℕ → Type 0 };

    // What is known of what it comes to.
    ghost done: { Self → Self.Out → Type 0 };

    /// Runs it with a shared verifier and observers that suit it. Each of these knows the listed
    /// orders. In the end it closes the verifier or abandons it.
    fn run<J: Room + Send + Sync>(
        self,
        rt: &R,
        shared: Shared<J>,
        observers: Vec<Observer<J>>,
    ) -> Self::Out
        requires suits { suits self J.start (length observers.items) }
        requires listed { observers.items
            ≡ replicate (length observers.items) (adoptions J.start []) }
        ensures { done self result };
}

// Runs a program with a verifier that this type names.
fn run_as<J: Room + Send + Sync, R: Wait, S: Program<R>>(
    rt: &R,
    opened: OpenedVerifier,
    observers: u16,
    program: S,
) -> Result<S::Out, Refused<S>>
    requires name { (opened.story.start ≡ J.start) × (opened.table ≡ J.table)
        × (opened.list ≡ J.list) }
    requires few { observers ≤ MOST_OBSERVERS }
    requires suits { S.suits program opened.story.start observers }
    ensures ok { IfOk result (λ out. S.done program out) }
    ensures err { IfErr result (λ r. (r.verifier ≡ opened.story) × (r.program ≡ program)
        × (r.reason ≡ OutOfMemory)) }
{
    match opened.named::<J, R>(rt, observers) {
        Ok((shared, observers)) => Ok(program.run::<J>(rt, shared, observers)),
        Err(Unopened { verifier, reason }) => Err(Refused {
            verifier,
            program,
            reason,
        }),
    }
}

/// Runs a program with a verifier that has logged nothing, shared, and with this many observers,
/// `MOST_OBSERVERS` at most, both of which suit it.
///
/// # Errors
/// `HasEntries` where it has, else `OutOfMemory`; the verifier and the program come back.
pub fn share<R: Wait, S: Program<R>>(
    alloc: Global,
    rt: &R,
    verifier: Verifier,
    observers: u16,
    program: S,
) -> Result<S::Out, Refused<S>>
    requires few { observers ≤ MOST_OBSERVERS }
    requires suits { S.suits program verifier.start observers }
    ensures ok { IfOk result (λ out. S.done program out) }
    ensures err { IfErr result (λ r. (r.verifier ≡ verifier) × (r.program ≡ program)
        × (r.reason ≡ why_refused verifier.history)) }
{
    match OpenedVerifier::new(alloc, verifier) {
        Ok(opened) => run_as::<Brand, R, S>(rt, opened, observers, program),
        Err(Unopened { verifier, reason }) => Err(Refused {
            verifier,
            program,
            reason,
        }),
    }
}
