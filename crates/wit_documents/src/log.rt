//! A log in the making: all of it is there before the first byte of it is written.

ghost use Rattle.std.specs.Prelude.{◌≢◌, ◌+◌, ◌*◌, ◌<◌, ◌≤◌, length, Err};
ghost use Rattle.wit_documents.specs.declared.document.DocumentError.TheVariants.{Memory};

use crate::document::DocumentError;
use std::alloc::{AllocError, Global};
use std::io::Write;

// So much is written at once.
const ROOM: usize = 65536;

// The greatest depth that is kept in one byte: no text of JSON has a byte below a space but line feeds.
const DEPTH_MOST: usize = 31;

static SPACES: [u8; 62] = [b' '; 62];

/// Texts of JSON, one behind the other. More than half of such a text are spaces before its lines: of a line feed and
/// the spaces behind it there is one byte, which is how many pairs of spaces these are.
#[derive(Drop)]
pub(crate) struct Log {
    pieces: Vec<Vec<u8>>,
    room: Vec<u8>,
}

impl Log {
    /// None yet, with room for what is written at once.
    ///
    /// # Errors
    /// Want of memory alone, as of the next one.
    pub(crate) fn new(alloc: Global) -> Result<Log, AllocError> {
        Ok(Log {
            pieces: Vec::new(alloc),
            room: Vec::with_capacity(alloc, ROOM)?,
        })
    }

    /// Adds a text, of which so many bytes are left out at its beginning.
    pub(crate) fn add(
        &mut self,
        alloc: Global,
        text: Vec<u8>,
        left_out: usize,
    ) -> Result<(), AllocError> {
        if let Some(rest) = text.as_slice().get(left_out..) {
            let mut piece = Vec::with_capacity(alloc, squeezed_length(rest))?;
            squeeze(&mut piece, rest)?;
            self.pieces.push(piece)?;
        }
        Ok(())
    }

    /// Writes all of it. No memory is needed for that.
    ///
    /// # Errors
    /// `Write` where it can't be written.
    pub(crate) fn write<W: Write>(self, output: &mut W) -> Result<(), DocumentError>
        ensures { result ≢ Err Memory }
    {
        let Log { pieces, mut room } = self;
        for piece in &pieces {
            put_piece(&mut room, piece.as_slice(), output)?;
        }
        hand_over(&mut room, output)
    }
}

// How many bytes are kept of the text.
fn squeezed_length(text: &[u8]) -> usize {
    let (mut at, mut length): (usize, usize) = (0, 0);
    while at < text.len() {
        at = kept_of(text, at).1;
        length = length.saturating_add(1);
    }
    length
}

// Adds the text as it is kept.
fn squeeze(to: &mut Vec<u8>, text: &[u8]) -> Result<(), AllocError> {
    let mut at = 0;
    while at < text.len() {
        let (byte, next) = kept_of(text, at);
        to.push(byte)?;
        at = next;
    }
    Ok(())
}

// The byte that is kept of what stands there, and where the next one begins.
fn kept_of(text: &[u8], at: usize) -> (u8, usize)
    requires { at < length text.now }
    ensures behind { at < result.1 }
    ensures within { result.1 ≤ length text.now }
{
    if text[at] != b'\n' {
        return (text[at], at + 1);
    }
    let depth = depth_at(text, at + 1);
    (depth as u8, at + 1 + 2 * depth)
}

// How many pairs of spaces stand there.
fn depth_at(text: &[u8], at: usize) -> usize
    requires { at ≤ length text.now }
    ensures most { result ≤ DEPTH_MOST }
    ensures within { at + 2 * result ≤ length text.now }
{
    let rest = &text[at..];
    for depth in 0..DEPTH_MOST {
        if 2 * depth + 2 > rest.len() || rest[2 * depth] != b' ' || rest[2 * depth + 1] != b' ' {
            return depth;
        }
    }
    DEPTH_MOST
}

// Adds a text to what is written next, each byte as what it stands for.
fn put_piece<W: Write>(
    room: &mut Vec<u8>,
    piece: &[u8],
    output: &mut W,
) -> Result<(), DocumentError>
    ensures { result ≢ Err Memory }
{
    let mut from = 0;
    for at in 0..piece.len() {
        let depth = piece[at] as usize;
        if depth <= DEPTH_MOST {
            put(room, &piece[from..at], output)?;
            put(room, b"\n", output)?;
            put(room, &SPACES[..2 * depth], output)?;
            from = at + 1;
        }
    }
    put(room, &piece[from..], output)
}

// Adds bytes to what is written next. What has no room there is written at once.
fn put<W: Write>(room: &mut Vec<u8>, bytes: &[u8], output: &mut W) -> Result<(), DocumentError>
    ensures { result ≢ Err Memory }
{
    if room.len().saturating_add(bytes.len()) > ROOM {
        hand_over(room, output)?;
    }
    match room.extend_from_slice(bytes) {
        Ok(()) => Ok(()),
        Err(_) => {
            hand_over(room, output)?;
            written(output.write_all(bytes))
        }
    }
}

// Writes what there is, which is forgotten.
fn hand_over<W: Write>(room: &mut Vec<u8>, output: &mut W) -> Result<(), DocumentError>
    ensures { result ≢ Err Memory }
{
    written(output.write_all(room.as_slice()))?;
    room.clear();
    Ok(())
}

fn written(outcome: std::io::Result<()>) -> Result<(), DocumentError>
    ensures { result ≢ Err Memory }
{
    match outcome {
        Ok(()) => Ok(()),
        Err(_) => Err(DocumentError::Write),
    }
}
