//! Lines behind one another.

ghost use Rattle.std.specs.Prelude.{◌≡◌, ◌++◌, ◌∷◌, [], IfOk, OnOk};
ghost use Rattle.wit_model.specs.Trace.Moving.{with_feeds};
ghost use Rattle.wit_migrate.specs.Migrates.{kept_bytes};

use std::alloc::{AllocError, Global};

/// One text, and another behind it.
///
/// # Errors
/// Want of memory alone.
pub fn join(text: Vec<u8>, more: &[u8]) -> Result<Vec<u8>, AllocError>
    ensures { IfOk result (λ all. all.items ≡ text.items ++ more.now) }
{
    let mut text = text;
    text.extend_from_slice(more)?;
    Ok(text)
}

/// A line behind others, with its line feed.
///
/// # Errors
/// Want of memory alone.
#[inline(always)]
pub fn put_line(text: &mut Vec<u8>, line: &[u8]) -> Result<(), AllocError>
    ensures { OnOk result (text.new.items ≡ text.old.items ++ (line.now ++ 10 ∷ [])) }
{
    text.extend_from_slice(line)?;
    text.push(b'\n')?;
    Ok(())
}

/// A line alone.
///
/// # Errors
/// Want of memory alone.
pub fn one_line(alloc: Global, line: &[u8]) -> Result<Vec<u8>, AllocError>
    ensures { IfOk result (λ text. text.items ≡ with_feeds (line.now ∷ [])) }
{
    line_in(Vec::new(alloc), line)
}

/// A line alone, in the room of a text that has nothing.
///
/// # Errors
/// Want of memory alone.
#[inline(always)]
pub fn line_in(room: Vec<u8>, line: &[u8]) -> Result<Vec<u8>, AllocError>
    requires { room.items ≡ [] }
    ensures { IfOk result (λ text. text.items ≡ with_feeds (line.now ∷ [])) }
{
    let mut text = room;
    put_line(&mut text, line)?;
    Ok(text)
}

/// Lines, each with its line feed.
///
/// # Errors
/// Want of memory alone.
pub fn whole_lines(alloc: Global, lines: &[Vec<u8>]) -> Result<Vec<u8>, AllocError>
    ensures { IfOk result (λ text. text.items ≡ with_feeds (kept_bytes lines.now)) }
{
    let mut text = Vec::new(alloc);
    for line in lines {
        put_line(&mut text, line)?;
    }
    Ok(text)
}
