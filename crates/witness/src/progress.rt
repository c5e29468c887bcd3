//! How much of the input was read, told on a terminal.

ghost use Rattle.std.specs.Prelude.{◌≡◌};

use std::io::{Read, Result, Write};

/// After so many bytes it is told again.
const STEP: u64 = 16 * 1024 * 1024;

/// A reader that tells how much was read. It gives what the reader in it gives.
#[derive(Drop)]
pub struct Progress<R, N> {
    reader: R,
    /// Where it is told, if at all.
    notes: Option<N>,
    bytes: u64,
    told: u64,
}

impl<R: Read, N: Write> Progress<R, N> {
    /// Tells of this reader, if there is somewhere to tell it.
    pub fn new(reader: R, notes: Option<N>) -> Progress<R, N>
        ensures { result.reader ≡ reader }
    {
        Progress {
            reader,
            notes,
            bytes: 0,
            told: 0,
        }
    }

    // After so many bytes more. None are more at the end.
    fn tell(&mut self, count: usize)
        ensures { self.new.reader ≡ self.old.reader }
    {
        self.bytes = self.bytes.saturating_add(count as u64);
        let Some(notes) = &mut self.notes else {
            return;
        };
        if count == 0 {
            if self.told > 0 {
                let _ = notes.write_all(b"\n");
                self.told = 0;
            }
        } else if self.bytes.saturating_sub(self.told) >= STEP {
            self.told = self.bytes;
            let millions = self.bytes / 1_000_000;
            let _ = write!(notes, "\rwitness: {millions} MB read");
        }
    }
}

impl<R: Read, N: Write> Read for Progress<R, N> {
    ghost remaining = { λ p. R.remaining p.reader };

    fn read(&mut self, buf: &mut [u8]) -> Result<usize> {
        let outcome = self.reader.read(buf);
        if let Ok(count) = &outcome {
            self.tell(*count);
        }
        outcome
    }
}
