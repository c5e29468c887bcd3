//! Threads that take locks of all classes at random, with gates that refuse now and then, watch
//! levels that are turned, orders that are defined, locks that are made and destroyed, and
//! observers that learn and ask. Each makes all calls of the shared verifier once before. When they
//! have ended, each seat's list is compared with what its thread did. At every fifth seed the
//! verifier compares a request with all locks that its seat holds.
//!
//! With the words `THREADS LOCKS ROUNDS SEED` it writes the log as a trace, and its reports to
//! standard error: `tools/try-soak` has the trace replayed, which must tell the same, and counts
//! what each thread made. Behind the reports standard error has what each was answered that isn't
//! logged, and the counts in its last line.
#![tactic(auto)]

ghost use Rattle.std.specs.Prelude.{◌≤◌};

mod gates;
mod holding;
mod locks;
mod observing;
mod plan;
mod print;
mod random;
mod rounds;
mod taking;
mod telling;
mod threads;
mod walking;
mod worker;

use crate::plan::Plan;
use crate::telling::{tell, tell_end};
use crate::threads::{Soaked, run};
use std::alloc::Global;
use std::marker::Brand;
use std::process::ExitCode;
use std::sync::Wait;
use std::thread::Threads;
use wit_core::Verifier;
use wit_model::{Fault, Limits};
use wit_shared::{OpenedVerifier, Reason};

/// How many types, locks, chunks and entries there may be.
pub(crate) const TYPES: u32 = 64;

pub(crate) const LOCKS: u32 = 65_536;

pub(crate) const CHUNKS: u32 = 4_096;

pub(crate) const ENTRIES: u32 = 16_777_216;

fn main(rt: HostRuntime) -> ExitCode {
    let alloc = rt.alloc();
    let plan = Plan::of_words(&rt);
    let (mut output, mut complaints) = (rt.stdout(), rt.stderr());
    let told = match soak(&rt, alloc, plan) {
        Ok(soaked) => tell(alloc, plan, &soaked, &mut output, &mut complaints),
        Err(fault) => Err(fault),
    };
    ExitCode::from(tell_end(told, &mut complaints))
}

fn soak<R: Threads + Wait + Sync>(rt: &R, alloc: Global, plan: Plan) -> Result<Soaked, Fault>
    requires { plan.threads ≤ 255 }
{
    let seats = u32::from(plan.threads) + 1;
    let Some(limits) = Limits::new(seats, TYPES, LOCKS, CHUNKS, ENTRIES) else {
        return Err(Fault::UnknownSeat);
    };
    let (lists, blessed) = (Vec::new(alloc), Vec::new(alloc));
    let made = if plan.is_all_held() {
        Verifier::new_all_held(alloc, limits, lists, blessed)
    } else {
        Verifier::new(alloc, limits, lists, blessed)
    };
    let verifier = match made {
        Ok(verifier) => verifier,
        Err(refused) => return Err(refused.fault),
    };
    match OpenedVerifier::new(alloc, verifier) {
        Ok(opened) => run::<Brand, R>(rt, alloc, opened, plan),
        Err(refused) => Err(match refused.reason {
            Reason::HasEntries => Fault::UnknownSeat,
            Reason::OutOfMemory => Fault::OutOfMemory,
        }),
    }
}
