//! The header of a migrated trace.

ghost use Rattle.std.specs.Prelude.{◌≡◌, ℕ, List, [], ◌∷◌, IfOk};
ghost use Rattle.wit_model.specs.declared.lines.Line.TheVariants.{Header};
ghost use Rattle.wit_model.specs.declared.lines.Version.TheVariants as version;
ghost use Rattle.wit_model.specs.Trace.Moving.{with_feeds, moving_entered};
ghost use Rattle.wit_model.specs.Trace.Moving as moving;
ghost use Rattle.wit_model.specs.Trace.Spelling.{spelling};
ghost use Rattle.wit_migrate.specs.Migrates.{MovesAsDue, moved_to};

use crate::migrating::Migrating;
use crate::texts::one_line;
use std::alloc::{AllocError, Global};
use wit_grammar::{LineError, print_line};
use wit_lines::new_prelude;
use wit_model::{Cause, Limits, Line, Version};

/// The header comes first, and is written with the number of the second version, which it may not
/// have.
///
/// # Errors
/// `Bad` where the line is no header, is one of the second version, or its sizes are beyond the
/// limits; `Memory`.
pub fn start(alloc: Global, machine: &mut Migrating, line: Line) -> Result<Vec<u8>, LineError>
    requires { moved_to machine.old ≡ moving.Unmoved }
    ensures { (number : ℕ) (bytes : List ℕ)
        → MovesAsDue (moving_entered moving.Unmoved number bytes line)
        moving.Unmoved (moved_to machine.new) result }
{
    let Line::Header {
        version,
        seats,
        types,
        locks,
        chunks,
    } = line
    else {
        return Err(LineError::SYNTAX);
    };
    if version == Version::Two {
        return Err(LineError::Bad(Cause::Version));
    }
    let Some(limits) = Limits::new(seats, types, locks, chunks, Limits::MOST_ENTRIES) else {
        return Err(LineError::Bad(Cause::Limit));
    };
    let text = second_header(alloc, seats, types, locks, chunks)?;
    let prelude = new_prelude(alloc, version, limits);
    let kept = Vec::new(alloc);
    *machine = Migrating::Keeping { prelude, kept };
    Ok(text)
}

// The line of a header of the second version.
fn second_header(
    alloc: Global,
    seats: u32,
    types: u32,
    locks: u32,
    chunks: u32,
) -> Result<Vec<u8>, AllocError>
    ensures { IfOk result (λ text. text.items
        ≡ with_feeds (spelling (Header version.Two seats types locks chunks) ∷ [])) }
{
    let header = Line::Header {
        version: Version::Two,
        seats,
        types,
        locks,
        chunks,
    };
    match print_line(alloc, &header) {
        Ok(line) => one_line(alloc, &line),
        // It fails for want of memory alone.
        Err(_) => Err(AllocError),
    }
}
