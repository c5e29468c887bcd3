//! How who must wait for a gate does so.

use crate::word::{InTurn, Turn, Word};
use crossbeam_utils::Backoff;
use std::sync::{Condvar, Mutex, Wait};
use wit_model::Mode;

/// How who must wait for a gate does so. A gate looks at its word again after each wait, so nothing
/// is promised of one.
pub trait Waiting {
    /// Nobody waits yet.
    fn new(turn: Turn) -> Self;

    /// The turn to take steps on the word. It may wait for the others to leave theirs.
    fn turn<R: Wait>(&self, rt: &R) -> InTurn<'_>;

    /// Waits for a while, or until the word lets somebody in so. The turn comes back.
    fn wait<'a, R: Wait>(
        &'a self,
        rt: &R,
        turn: InTurn<'a>,
        word: &Word,
        mode: Mode,
        patience: &Backoff,
    ) -> InTurn<'a>;

    /// All who wait look again. The caller has changed the word in its turn.
    fn wake(&self);
}

/// Who waits sleeps until a ticket comes back.
#[derive(Drop)]
pub struct Sleeping {
    // Each step on the word is taken while this is held. So none comes between a look and a sleep.
    turn: Mutex<Turn>,
    freed: Condvar,
}

impl Waiting for Sleeping {
    fn new(turn: Turn) -> Sleeping {
        Sleeping {
            turn: Mutex::new(turn),
            freed: Condvar::new(),
        }
    }

    fn turn<R: Wait>(&self, rt: &R) -> InTurn<'_> {
        InTurn::Locked(self.turn.lock(rt))
    }

    fn wait<'a, R: Wait>(
        &'a self,
        rt: &R,
        turn: InTurn<'a>,
        word: &Word,
        mode: Mode,
        _patience: &Backoff,
    ) -> InTurn<'a> {
        match turn {
            InTurn::Locked(turn) => {
                InTurn::Locked(self.freed.wait_while(rt, turn, |_| is_shut(word, mode)))
            }
            InTurn::Open(turn) => InTurn::Open(turn),
        }
    }

    fn wake(&self) {
        self.freed.notify_all();
    }
}

// Whether a word that lets nobody in so may come to do so.
fn is_shut(word: &Word, mode: Mode) -> bool {
    let met = word.look();
    match mode {
        Mode::Shared => met.is_exclusive(),
        Mode::Exclusive => !met.is_free(),
    }
}

/// Who waits tries again, ever less often.
#[derive(Drop)]
pub struct Spinning {
    turn: Turn,
}

impl Waiting for Spinning {
    fn new(turn: Turn) -> Spinning {
        Spinning { turn }
    }

    fn turn<R: Wait>(&self, _rt: &R) -> InTurn<'_> {
        InTurn::Open(&self.turn)
    }

    fn wait<'a, R: Wait>(
        &'a self,
        _rt: &R,
        turn: InTurn<'a>,
        _word: &Word,
        _mode: Mode,
        patience: &Backoff,
    ) -> InTurn<'a> {
        patience.snooze();
        turn
    }

    fn wake(&self) {}
}
