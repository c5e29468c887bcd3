//! What is known of a log by who keeps it, and by a seat.

use std::collections::LinkedList;
use wit_model::{Entry, FileNo};

/// What who keeps a log knows: its entries, newest first, the files named, in the order of their
/// numbers from 1, and how many seats were handed out. No value of it is made.
pub struct Journal {
    /// The entries, newest first.
    pub entries: LinkedList<Entry>,
    /// The files, in the order of their numbers.
    pub files: LinkedList<LinkedList<u8>>,
    /// How many seats were handed out.
    pub handed: u64,
}

/// What a seat knows: its own entries and how the log began when it last looked, both newest first,
/// and the files that it was given, newest first. No value of it is made.
pub struct SeatKnowledge {
    /// Its number.
    pub seat: u64,
    /// Its own entries, newest first.
    pub own: LinkedList<Entry>,
    /// The log as it last saw it, newest entry first.
    pub seen: LinkedList<Entry>,
    /// The files that it was given, with their numbers, newest first.
    pub given: LinkedList<(FileNo, LinkedList<u8>)>,
}

/// What a card of the table stands for: the log, or a seat, or both while a seat's call is under
/// way.
pub struct CardView {
    pub journal: Option<Journal>,
    pub holder: Option<SeatKnowledge>,
}
