//! Errors in the use of locks.

ghost use Rattle.std.specs.Prelude.{◌≡◌, ◌++◌, OnOk};
ghost use Rattle.wit_recorded.specs.Reading.{misuse_text};
ghost use Rattle.wit_findings.specs.Objects.{Adds, line_text};
ghost use Rattle.wit_findings.specs.Reports.{error_tokens, misused_members, type_of_lock};
ghost use Rattle.wit_findings.specs.Told.{told};

use crate::objects::{finding, put_count, put_line, put_text, type_number};
use crate::recording::Recording;
use json::Writer;
use std::alloc::{AllocError, Global};
use wit_model::{LockNo, SeatNo};
use wit_recorded::Misuse;
use wit_report::type_words;

/// Adds an error in the use of a lock, which has this number in the recording; and who made it, and
/// where.
///
/// # Errors
/// Want of memory alone.
pub fn put_error(
    text: &mut Vec<u8>,
    alloc: Global,
    known: &Recording,
    line: u64,
    what: Misuse,
    seat: SeatNo,
    lock: LockNo,
    place: u32,
) -> Result<(), AllocError>
    ensures { OnOk result (text.new.items ≡ text.old.items
        ++ line_text (error_tokens (told known.now) line what seat.0 lock.0 place)) }
{
    let mut json = finding(alloc, known.process, "error", line)?;
    put_text(&mut json, "what", misuse_text(what))?;
    put_count(&mut json, "seat", u64::from(seat.0))?;
    put_count(&mut json, "thread", u64::from(known.thread_of(seat)))?;
    put_misused(&mut json, known, lock, place)?;
    json.end_object()?;
    put_line(text, json)
}

#[tactic(auto, unfolding(crate::specs::Reports::misused_members))]
fn put_misused(
    json: &mut Writer,
    known: &Recording,
    lock: LockNo,
    place: u32,
) -> Result<(), AllocError>
    ensures { Adds result json.old json.new (misused_members (told known.now) lock.0 place) }
{
    put_count(json, "lock", u64::from(lock.0))?;
    put_text(json, "type", type_of_lock(known, lock))?;
    put_count(json, "place", u64::from(place))
}

fn type_of_lock(known: &Recording, lock: LockNo) -> &str
    ensures { result.now ≡ type_of_lock (told known.now) lock.0 }
{
    let of = type_number(&known.verifier, known.lock(lock));
    type_words(&known.verifier, of)
}

fn misuse_text(what: Misuse) -> &'static str
    ensures { result.now ≡ misuse_text what }
{
    match what {
        Misuse::Ended => "ended",
        Misuse::Destroyed => "destroyed",
        Misuse::Freed => "freed",
        Misuse::Remade => "remade",
        Misuse::Waited => "waited",
        Misuse::Reread => "reread",
        Misuse::Again => "again",
        Misuse::Foreign => "foreign",
    }
}
