//! The trace of what was gathered.

ghost use Rattle.std.specs.Prelude.{◌≡◌, IfOk, OnOk};
ghost use Rattle.wit_gathered.specs.Gathering.{gathered};
ghost use Rattle.wit_gathered.specs.Naming.{names};
ghost use Rattle.wit_import.specs.Telling.{told, told_all};
ghost use Rattle.wit_kernel.specs.Acquisitions.{asking, events_in, held_events, kept_events};
ghost use Rattle.wit_kernel.specs.Acquisitions.{request_events, trying};
ghost use Rattle.wit_kernel.specs.Outputs.{trace_text};

use crate::acquisitions::{acquisition, released};
use std::alloc::{AllocError, Global};
use wit_gathered::{Gathering, Kept, Naming, Request, Step};
use wit_import::{Acquisition, Counts, Event, Teller};

/// The trace of what was gathered, and what was counted. It is one of the events of each request: what is
/// held is acquired, the lock is asked for, all is let go.
///
/// # Errors
/// Want of memory alone.
#[tactic(auto, using(wit_import::proofs::Further::text_told_all))]
pub fn trace_of(alloc: Global, gathering: &Gathering) -> Result<(Vec<u8>, Counts), AllocError>
    ensures { IfOk result (λ r. r.0.items ≡ trace_text (gathered gathering.now)) }
{
    let naming = Naming::new(alloc, gathering)?;
    let mut teller = Teller::new(alloc)?;
    tell_all(
        alloc,
        &mut teller,
        gathering,
        &naming,
        gathering.requests.kept.as_slice(),
    )?;
    let (text, mut counts) = teller.into_trace();
    counts.passed = gathering.counts.passed;
    counts.lost = gathering.counts.lost;
    counts.unheld = gathering.counts.unheld;
    Ok((text, counts))
}

#[tactic(auto, using(wit_import::proofs::Further::told_all_append))]
fn tell_all(
    alloc: Global,
    teller: &mut Teller,
    gathering: &Gathering,
    naming: &Naming,
    all: &[Kept],
) -> Result<(), AllocError>
    ensures { OnOk result (told teller.new ≡ told_all (told teller.old)
        (events_in (names naming.now) (gathered gathering.now).places all.now)) }
{
    match all {
        [] => Ok(()),
        [kept, others @ ..] => {
            tell_kept(alloc, teller, gathering, naming, kept)?;
            tell_all(alloc, teller, gathering, naming, others)
        }
    }
}

fn tell_kept(
    alloc: Global,
    teller: &mut Teller,
    gathering: &Gathering,
    naming: &Naming,
    kept: &Kept,
) -> Result<(), AllocError>
    ensures { OnOk result (told teller.new ≡ told_all (told teller.old)
        (kept_events (names naming.now) (gathered gathering.now).places kept.now)) }
{
    match kept {
        Kept::Asks(request) => tell_request(alloc, teller, gathering, naming, request),
        Kept::Twice(step) => match released(alloc, gathering, naming, step)? {
            Some(of) => teller.tell(alloc, Event::Twice(of)),
            None => Ok(()),
        },
    }
}

// Nobody waits for what nobody ever held: that is not asked for.
#[tactic(auto, using(wit_import::proofs::Further::told_all_append))]
fn tell_request(
    alloc: Global,
    teller: &mut Teller,
    gathering: &Gathering,
    naming: &Naming,
    request: &Request,
) -> Result<(), AllocError>
    ensures { OnOk result (told teller.new ≡ told_all (told teller.old)
        (request_events (names naming.now) (gathered gathering.now).places request.now)) }
{
    let asked = request.asked();
    if !naming.is_held(asked.of) {
        return Ok(());
    }
    tell_held(alloc, teller, gathering, naming, request.held())?;
    let asked = acquisition(alloc, gathering, naming, &asked)?;
    tell_asked(alloc, teller, asked)?;
    teller.tell(alloc, Event::Loses)
}

fn tell_asked(
    alloc: Global,
    teller: &mut Teller,
    asked: Option<Acquisition>,
) -> Result<(), AllocError>
    ensures { OnOk result (told teller.new ≡ told_all (told teller.old) (asking asked)) }
{
    match asked {
        Some(asked) => teller.tell(alloc, Event::Asks(asked)),
        None => Ok(()),
    }
}

// What is held was asked for by requests of its own: here it is tried.
fn tell_held(
    alloc: Global,
    teller: &mut Teller,
    gathering: &Gathering,
    naming: &Naming,
    held: &[Step],
) -> Result<(), AllocError>
    ensures { OnOk result (told teller.new ≡ told_all (told teller.old)
        (held_events (names naming.now) (gathered gathering.now).places held.now)) }
{
    match held {
        [] => Ok(()),
        [step, others @ ..] => {
            let tried = acquisition(alloc, gathering, naming, step)?;
            tell_tried(alloc, teller, tried)?;
            tell_held(alloc, teller, gathering, naming, others)
        }
    }
}

fn tell_tried(
    alloc: Global,
    teller: &mut Teller,
    tried: Option<Acquisition>,
) -> Result<(), AllocError>
    ensures { OnOk result (told teller.new ≡ told_all (told teller.old) (trying tried)) }
{
    match tried {
        Some(tried) => teller.tell(alloc, Event::Tries(tried)),
        None => Ok(()),
    }
}
