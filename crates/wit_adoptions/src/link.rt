//! What is written in the book.

use std::collections::LinkedList;
use wit_model::Adoption;

/// Some orders, added behind one end of a list, which then has another end. No value of it is made.
pub struct ListLink {
    /// The end behind which they were added.
    pub end: u64,
    /// The end since.
    pub next: u64,
    /// The orders, oldest first.
    pub orders: LinkedList<Adoption>,
}
