//! The demonstration as a whole.

ghost use Rattle.std.specs.Prelude.{◌≡◌, ◌⊎◌, IfOk, IfErr};
ghost use Rattle.wit_demo.specs.Demonstration.{IsCutShort, IsEnded, IsTold, demo_start};

use crate::telling::tell;
use crate::threads::run;
use std::alloc::Global;
use std::io::Write;
use std::marker::Brand;
use std::sync::Wait;
use std::thread::Threads;
use wit_core::Verifier;
use wit_model::{Cause, Fault, Limits};
use wit_shared::{OpenedVerifier, Reason};
use wit_stream::{ReplayError, Summary};

/// Shows what the verifier does for threads: four of them take a mutex `A` and then a mutex `B` a
/// hundred times, and when they have ended one seat takes `B` and then `A`. Then the reports are
/// written, and how many calls, orders and reports there were.
///
/// A fault of a call ends it as a bad line 0, with nothing written.
///
/// # Errors
/// `Memory` where memory runs out, with nothing written, and `Write` where the writer fails, with a
/// beginning written.
pub fn demo<R: Threads + Wait + Sync, W: Write>(
    rt: &R,
    alloc: Global,
    output: &mut W,
) -> Result<Summary, ReplayError>
    ensures ok { IfOk result (λ summary.
        IsTold (W.contents output.old) (W.contents output.new) summary
        ⊎ IsEnded (W.contents output.old) (W.contents output.new) summary) }
    ensures err { IfErr result (IsCutShort (W.contents output.old) (W.contents output.new)) }
{
    match show(rt, alloc) {
        Ok(verifier) => tell(alloc, &verifier, output),
        Err(Fault::OutOfMemory) => Err(ReplayError::Memory),
        Err(fault) => Ok(Summary {
            calls: 0,
            reports: 0,
            circle: false,
            bad: Some((0, Cause::Fault(fault))),
        }),
    }
}

fn show<R: Threads + Wait + Sync>(rt: &R, alloc: Global) -> Result<Verifier, Fault>
    ensures { IfOk result (λ v. v.start ≡ demo_start) }
{
    let Some(limits) = Limits::new(6, 2, 2, 12, 4096) else {
        unreachable!()
    };
    let verifier = match Verifier::new(alloc, limits, Vec::new(alloc), Vec::new(alloc)) {
        Ok(verifier) => verifier,
        Err(refused) => return Err(refused.fault),
    };
    match OpenedVerifier::new(alloc, verifier) {
        Ok(opened) => run::<Brand, R>(rt, alloc, opened),
        Err(refused) => Err(match refused.reason {
            Reason::HasEntries => unreachable!(),
            Reason::OutOfMemory => Fault::OutOfMemory,
        }),
    }
}
