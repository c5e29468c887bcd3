//! What becomes of a line.

ghost use Rattle.std.specs.Prelude.{◌≡◌};
ghost use Rattle.wit_merge.specs.Lines.{after_content, after_count, after_line, after_order};
ghost use Rattle.wit_merge.specs.Lines.{after_runs, counts_opened, nothing_merged};
ghost use Rattle.wit_merge.specs.Merging.{Enters, merged};
ghost use Rattle.wit_merge.specs.Reading.{counted_words, order_words, runs_words};

use crate::flaws::{Flaw, MergeError};
use crate::reading::{counted_words, is_runs, order_words, runs_words};
use crate::rows::{Rows, count, enter};
use crate::standing::{Part, Standing};
use indexmap::IndexMap;
use std::alloc::Global;

// A file of one run begins.
const FILE: &[u8] = b"\tfile";

// A file begins whose counts follow.
const COUNTED: &[u8] = b"\tcounted";

// The counts follow.
const COUNTS: &[u8] = b"\tcounts";

/// What was read.
#[derive(Drop)]
pub struct Merging {
    /// The orders.
    pub rows: Rows,
    /// Where the reading stands.
    pub standing: Standing,
}

impl Merging {
    /// Nothing yet.
    pub fn new(alloc: Global) -> Merging
        ensures { merged result ≡ nothing_merged }
    {
        Merging {
            rows: IndexMap::new(alloc),
            standing: Standing::OUTSIDE,
        }
    }

    /// Takes a line.
    ///
    /// # Errors
    /// `Bad` where it isn't what the file may have there.
    pub fn take(&mut self, alloc: Global, bytes: &[u8]) -> Result<(), MergeError>
        ensures { Enters (after_line (merged self.old) bytes.now) (merged self.new) result }
    {
        if bytes == FILE {
            self.standing = self.standing.begun(Part::Orders);
            return Ok(());
        }
        if bytes == COUNTED {
            self.standing = self.standing.begun(Part::Counted);
            return Ok(());
        }
        if bytes == COUNTS {
            return self.open_counts();
        }
        self.take_content(alloc, bytes)
    }

    fn open_counts(&mut self) -> Result<(), MergeError>
        ensures { Enters (counts_opened (merged self.old)) (merged self.new) result }
    {
        match self.standing.part {
            Part::Counted => {
                self.standing.part = Part::Opened;
                Ok(())
            }
            _ => Err(MergeError::Bad(Flaw::Order)),
        }
    }

    // A line of a file itself.
    fn take_content(&mut self, alloc: Global, bytes: &[u8]) -> Result<(), MergeError>
        ensures { Enters (after_content (merged self.old) bytes.now) (merged self.new) result }
    {
        match self.standing.part {
            Part::Outside => {
                self.standing = self.standing.begun(Part::Orders);
                self.take_order(alloc, bytes)
            }
            Part::Orders | Part::Counted => self.take_order(alloc, bytes),
            Part::Opened if is_runs(bytes) => self.take_runs(bytes),
            Part::Opened => {
                self.standing.part = Part::Free;
                self.take_count(bytes)
            }
            Part::Free | Part::Ranged => self.take_count(bytes),
        }
    }

    fn take_order(&mut self, alloc: Global, bytes: &[u8]) -> Result<(), MergeError>
        ensures { Enters (after_order (merged self.old) (order_words bytes.now)) (merged self.new)
            result }
    {
        let (key, origin) = order_words(bytes)?;
        enter(alloc, &mut self.rows, self.standing, key, origin)?;
        Ok(())
    }

    fn take_runs(&mut self, bytes: &[u8]) -> Result<(), MergeError>
        ensures { Enters (after_runs (merged self.old) (runs_words bytes.now)) (merged self.new)
            result }
    {
        match runs_words(bytes)? {
            Some(runs) => {
                self.standing.most = runs;
                self.standing.part = Part::Ranged;
                Ok(())
            }
            None => Err(MergeError::Bad(Flaw::Runs)),
        }
    }

    fn take_count(&mut self, bytes: &[u8]) -> Result<(), MergeError>
        ensures { Enters (after_count (merged self.old) (counted_words bytes.now))
            (merged self.new) result }
    {
        let (told, key) = counted_words(bytes)?;
        if self.standing.exceeds(told) {
            return Err(MergeError::Bad(Flaw::More));
        }
        let is_met = count(&mut self.rows, self.standing, key, told);
        self.standing = self.standing.with_count(told, is_met);
        Ok(())
    }
}
