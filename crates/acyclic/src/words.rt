//! The words of the process.

use std::env::FillError;
use std::rt::Env;

/// Whether there are words behind the program's name, which isn't looked at.
pub fn has_words<R: Env>(rt: &R) -> bool {
    !matches!(rt.arg(1, &mut []), Err(FillError::NotPresent))
}
