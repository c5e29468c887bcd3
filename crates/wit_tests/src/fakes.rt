//! Readers and writers that fail, or move few bytes at a time.

use std::alloc::Global;
use std::cell::Cell;
use std::io;
use std::io::{BufRead, ErrorKind, Read, Write};

/// Shows a few bytes at each look, and fails at one.
#[derive(Drop)]
pub struct Drip<'a> {
    /// What hasn't been taken yet.
    pub rest: &'a [u8],
    /// How many bytes a look shows at most.
    pub step: usize,
    /// How often it was looked at.
    pub looks: usize,
    /// The look that fails, counted from 1.
    pub fails_at: Option<usize>,
}

impl Drip<'_> {
    /// Shows so many bytes at each look.
    pub fn new(rest: &[u8], step: usize) -> Drip<'_> {
        Drip {
            rest,
            step,
            looks: 0,
            fails_at: None,
        }
    }
}

impl Read for Drip<'_> {
    fn read(&mut self, _buf: &mut [u8]) -> io::Result<usize> {
        Err(io::Error::from(ErrorKind::Unsupported))
    }
}

impl BufRead for Drip<'_> {
    fn fill_buf(&mut self) -> io::Result<&[u8]> {
        self.looks = self.looks.saturating_add(1);
        if self.fails_at == Some(self.looks) {
            return Err(io::Error::from(ErrorKind::Interrupted));
        }
        Ok(&self.rest[..self.step.min(self.rest.len())])
    }

    fn consume(&mut self, amount: usize) {
        self.rest = &self.rest[amount.min(self.rest.len())..];
    }
}

/// Takes a few bytes at each write, and fails or takes none at one.
#[derive(Drop)]
pub struct Funnel {
    /// What was taken.
    pub bytes: Vec<u8>,
    /// How many bytes a write takes at most.
    pub step: usize,
    /// How often it was written to.
    pub writes: usize,
    /// The write that fails, counted from 1.
    pub fails_at: Option<usize>,
    /// The write that takes no byte, counted from 1.
    pub blocks_at: Option<usize>,
}

impl Funnel {
    /// Takes so many bytes at each write.
    pub fn new(alloc: Global, step: usize) -> Funnel {
        Funnel {
            bytes: Vec::new(alloc),
            step,
            writes: 0,
            fails_at: None,
            blocks_at: None,
        }
    }
}

impl Write for Funnel {
    fn write(&mut self, buf: &[u8]) -> io::Result<usize> {
        self.writes = self.writes.saturating_add(1);
        if self.fails_at == Some(self.writes) {
            return Err(io::Error::from(ErrorKind::Interrupted));
        }
        if self.blocks_at == Some(self.writes) {
            return Ok(0);
        }
        let len = self.step.min(buf.len());
        if self.bytes.extend_from_slice(&buf[..len]).is_err() {
            return Err(io::Error::from(ErrorKind::OutOfMemory));
        }
        Ok(len)
    }

    fn flush(&mut self) -> io::Result<()> {
        Ok(())
    }
}

/// Shows a few bytes at each look, and counts the looks at which another writer's seen bytes aren't
/// those that are due.
#[derive(Drop)]
pub struct Watched<'a> {
    /// What hasn't been taken yet.
    pub rest: &'a [u8],
    /// How many bytes a look shows at most.
    pub step: usize,
    /// How many bytes the writer has shown.
    pub seen: &'a Cell<usize>,
    /// From where so many bytes are left, which ever fewer are, so many bytes are due.
    pub dues: [(usize, usize); 2],
    /// How many looks found other bytes shown than those due.
    pub late: usize,
}

impl Read for Watched<'_> {
    fn read(&mut self, _buf: &mut [u8]) -> io::Result<usize> {
        Err(io::Error::from(ErrorKind::Unsupported))
    }
}

impl BufRead for Watched<'_> {
    fn fill_buf(&mut self) -> io::Result<&[u8]> {
        let [(first, one), (second, both)] = self.dues;
        let due = if self.rest.len() <= second {
            both
        } else if self.rest.len() <= first {
            one
        } else {
            0
        };
        if self.seen.get() != due {
            self.late = self.late.saturating_add(1);
        }
        Ok(&self.rest[..self.rest.len().min(self.step)])
    }

    fn consume(&mut self, amount: usize) {
        self.rest = &self.rest[amount.min(self.rest.len())..];
    }
}

/// Holds what is written back until it is flushed, which may fail.
#[derive(Drop)]
pub struct Held<'a> {
    /// How many bytes were written.
    pub held: usize,
    /// How many of them were flushed.
    pub seen: &'a Cell<usize>,
    /// How often it was flushed.
    pub flushes: usize,
    /// Whether each flush fails.
    pub fails: bool,
}

impl Write for Held<'_> {
    fn write(&mut self, buf: &[u8]) -> io::Result<usize> {
        self.held = self.held.saturating_add(buf.len());
        Ok(buf.len())
    }

    fn flush(&mut self) -> io::Result<()> {
        self.flushes = self.flushes.saturating_add(1);
        if self.fails {
            return Err(io::Error::from(ErrorKind::Interrupted));
        }
        self.seen.set(self.held);
        Ok(())
    }
}
