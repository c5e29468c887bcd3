//! Graphs of the orders of processes, each once.

use json::{Scratch, Value};
use std::alloc::{AllocError, Global};
use std::hash::{FoldHasher, Hasher};
use wit_documents::reading::{truth, words};
use wit_documents::{Items, Outline};

/// The processes that have orders which no process of the same program before them has.
#[derive(Drop)]
pub(crate) struct Graphs {
    found: Vec<Graph>,
}

// A process by its number, and the hash of its program and its orders: only graphs with one hash are compared.
#[derive(Clone, Copy, Drop)]
struct Graph {
    number: usize,
    hash: u64,
}

impl Graphs {
    /// None yet.
    pub(crate) fn new(alloc: Global) -> Graphs {
        Graphs {
            found: Vec::new(alloc),
        }
    }

    /// How many there are.
    pub(crate) fn len(&self) -> usize {
        self.found.len()
    }

    /// Adds the process of that number, if it has such orders. Whether it has.
    ///
    /// # Errors
    /// Want of memory alone, as of all that follow.
    pub(crate) fn add(
        &mut self,
        alloc: Global,
        processes: Items<'_>,
        number: usize,
        process: &Outline<'_>,
    ) -> Result<bool, AllocError> {
        if process.list("orders").is_empty() {
            return Ok(false);
        }
        let hash = hash_of(alloc, process)?;
        for graph in &self.found {
            if graph.hash == hash
                && are_equal(alloc, &processes.outline(alloc, graph.number)?, process)?
            {
                return Ok(false);
            }
        }
        self.found.push(Graph { number, hash })?;
        Ok(true)
    }
}

fn hash_of(alloc: Global, process: &Outline<'_>) -> Result<u64, AllocError> {
    let orders = process.list("orders");
    let mut scratch = Scratch::new(alloc);
    let mut hasher = FoldHasher::default();
    hasher.write(process.words("program").as_bytes());
    for number in 0..orders.len() {
        let order = orders.read(alloc, number, &mut scratch)?;
        hasher.write(words(&order, "from").as_bytes());
        hasher.write(words(&order, "to").as_bytes());
        hasher.write(if truth(&order, "reversal") {
            b"1"
        } else {
            b"0"
        });
    }
    Ok(hasher.finish())
}

// Whether the processes are of one program, and have the same orders.
fn are_equal(alloc: Global, one: &Outline<'_>, other: &Outline<'_>) -> Result<bool, AllocError> {
    let (left, right) = (one.list("orders"), other.list("orders"));
    if one.words("program") != other.words("program") || left.len() != right.len() {
        return Ok(false);
    }
    let (mut left_scratch, mut right_scratch) = (Scratch::new(alloc), Scratch::new(alloc));
    for number in 0..left.len() {
        let order = left.read(alloc, number, &mut left_scratch)?;
        if !is_equal(&order, &right.read(alloc, number, &mut right_scratch)?) {
            return Ok(false);
        }
    }
    Ok(true)
}

fn is_equal(one: &Value<'_>, other: &Value<'_>) -> bool {
    words(one, "from") == words(other, "from")
        && words(one, "to") == words(other, "to")
        && truth(one, "reversal") == truth(other, "reversal")
}
