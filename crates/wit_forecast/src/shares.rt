//! The shares of locks that a seat has.

use crate::deeds::Act;
use std::alloc::{AllocError, Global};
use wit_model::{LockNo, Mode};

/// A lock of which a seat has shares.
#[derive(Clone, Copy, Debug, PartialEq, Eq, Drop)]
pub struct Share {
    /// The lock.
    pub lock: LockNo,
    /// In which mode.
    pub mode: Mode,
    /// How many.
    pub count: u32,
}

/// Whether two seats can't have these at once: one lock, which one of them has exclusively.
pub fn exclude(one: &Share, other: &Share) -> bool {
    one.lock == other.lock && (one.mode.is_exclusive() || other.mode.is_exclusive())
}

/// Whether there is a share of this lock.
pub fn has_share(shares: &[Share], lock: LockNo) -> bool {
    shares.iter().any(|share| share.lock == lock)
}

/// What is had after a deed.
///
/// # Errors
/// Want of memory alone.
pub fn change(shares: &mut Vec<Share>, act: Act) -> Result<(), AllocError> {
    match act {
        Act::Gets(lock, mode) | Act::Tries(lock, mode) => get(shares, lock, mode)?,
        Act::Frees(lock) => free(shares, lock),
        Act::Turns(lock, mode) => turn(shares, lock, mode),
        Act::Makes | Act::Asks(..) | Act::Other => {}
    }
    Ok(())
}

fn get(shares: &mut Vec<Share>, lock: LockNo, mode: Mode) -> Result<(), AllocError> {
    for share in shares.iter_mut() {
        if share.lock == lock {
            share.mode = mode;
            share.count = share.count.saturating_add(1);
            return Ok(());
        }
    }
    let count = 1;
    shares.push(Share { lock, mode, count })?;
    Ok(())
}

fn free(shares: &mut Vec<Share>, lock: LockNo) {
    for share in shares.iter_mut() {
        if share.lock == lock {
            share.count = share.count.saturating_sub(1);
        }
    }
    shares.retain(|share| share.count > 0);
}

fn turn(shares: &mut Vec<Share>, lock: LockNo, mode: Mode) {
    for share in shares.iter_mut() {
        if share.lock == lock {
            share.mode = mode;
        }
    }
}

/// A copy of them.
///
/// # Errors
/// Want of memory alone.
pub fn copied(alloc: Global, shares: &[Share]) -> Result<Vec<Share>, AllocError> {
    Vec::from_slice(alloc, shares)
}
