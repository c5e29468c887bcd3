//! The ways by which seats come to their requests.

use crate::deeds::Act;
use std::alloc::{AllocError, Global};

// Longer ways aren't compared.
const LONGEST: usize = 64;

/// What a seat did to the shares of locks since it had nothing. Two requests of a seat with one way
/// can be come to beside the same errands of others.
#[derive(Debug, Drop)]
pub struct Way {
    acts: Vec<Act>,
    is_whole: bool,
}

impl Way {
    /// Nothing was done.
    pub fn new(alloc: Global) -> Way {
        Way {
            acts: Vec::new(alloc),
            is_whole: true,
        }
    }

    /// Nothing is done from here on.
    pub fn clear(&mut self) {
        self.acts.clear();
        self.is_whole = true;
    }

    /// Adds what is done.
    ///
    /// # Errors
    /// Want of memory alone.
    pub fn add(&mut self, act: Act) -> Result<(), AllocError> {
        match act {
            Act::Gets(..) | Act::Tries(..) | Act::Frees(_) | Act::Turns(..) => {}
            Act::Makes | Act::Asks(..) | Act::Other => return Ok(()),
        }
        if self.acts.len() < LONGEST {
            self.acts.push(act)?;
        } else {
            self.is_whole = false;
        }
        Ok(())
    }

    /// Whether they are known to be one way.
    pub fn is_same(&self, other: &Way) -> bool {
        self.is_whole && other.is_whole && self.acts == other.acts
    }

    /// A copy of it.
    ///
    /// # Errors
    /// Want of memory alone.
    pub fn copied(&self, alloc: Global) -> Result<Way, AllocError> {
        Ok(Way {
            acts: Vec::from_slice(alloc, &self.acts)?,
            is_whole: self.is_whole,
        })
    }
}
