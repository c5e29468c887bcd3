//! Chunks one after another: those of a list, newest first, or the free ones.

ghost use Rattle.std.specs.Prelude.{◌≡◌, ℕ, ◌+◌, ◌-◌, ◌<◌, ◌≤◌, None, Some, IfSome, length};
ghost use Rattle.wit_model.specs.declared.sizes.TheConstants.Limits.{MOST_CHUNKS};
ghost use Rattle.wit_pool.specs.Chunks.{IsAt, IsLed, HasChunkAt, chunk_at, content, next_of};
ghost use Rattle.wit_pool.specs.Chains.{IsLinked, IsFreed, IsReady, Passes};

use crate::cells::{Cells, Link};
use crate::chunk::{Chunk, Next, lead, link_to, read, write};
use crate::group::Group;
use wit_model::chunks::CHUNK;

/// So many chunks, which links lead through from the first on.
#[derive(Clone, Copy)]
pub struct Chain {
    pub(crate) head: Option<Next>,
    pub(crate) count: usize,
}

/// The free chunks, and how many places hold none yet. Where no chunk is free, the last of these
/// places gets one.
pub fn ready(
    cells: &mut Cells<Chunk>,
    first: Link<Chunk>,
    free: Chain,
    unmade: usize,
) -> (Chain, usize)
    requires first { first.ptr ≡ cells.old.at }
    requires size { unmade ≤ length cells.old.slots }
    requires few { unmade ≤ MOST_CHUNKS }
    ensures at { cells.new.at ≡ cells.old.at }
    ensures ready { IsReady cells.old.at cells.old.slots cells.new.slots free unmade result }
{
    if free.head.is_some() || unmade == 0 {
        return (free, unmade);
    }
    let place = unmade - 1;
    let at = link_to(cells, first, place as u16);
    let group = Group::empty();
    write(cells, at, Chunk { next: None, group });
    let one = Chain {
        head: Some(at),
        count: 1,
    };
    (one, place)
}

/// The newest chunk of a list, where it has room for one more.
pub fn open_chunk(cells: &Cells<Chunk>, chain: Chain) -> Option<Next>
    requires { IsLinked cells.now.at cells.now.slots chain }
    ensures newest { IfSome result (λ at. chain.head ≡ Some at) }
    ensures short { IfSome result (λ at.
        length (content (chunk_at cells.now.slots at.place)) < 5) }
    ensures full { result ≡ None → IfSome chain.head (λ at.
        5 ≤ length (content (chunk_at cells.now.slots at.place))) }
{
    match chain.head {
        Some(at) => {
            if read(cells, at).group.len() < CHUNK {
                Some(at)
            } else {
                None
            }
        }
        None => None,
    }
}

/// The first free chunk becomes the newest of a list: that list, and the free ones.
pub fn take_free(cells: &mut Cells<Chunk>, at: Next, chain: Chain, free: Chain) -> (Chain, Chain)
    requires there { IsAt cells.old.at cells.old.slots at }
    requires few { chain.count ≤ MOST_CHUNKS }
    requires some { 1 ≤ free.count }
    ensures at { cells.new.at ≡ cells.old.at }
    ensures slots { IsLed cells.old.slots cells.new.slots at.place chain.head }
    ensures chain { (result.0.head ≡ Some at) × (result.0.count ≡ chain.count + 1) }
    ensures free { (result.1.head ≡ next_of (chunk_at cells.old.slots at.place))
        × (result.1.count ≡ free.count - 1) }
{
    let next = read(cells, at).next;
    lead(cells, at, chain.head);
    let longer = Chain {
        head: Some(at),
        count: chain.count + 1,
    };
    let shorter = Chain {
        head: next,
        count: free.count - 1,
    };
    (longer, shorter)
}

/// A chunk of a list becomes the first free one: that list, and the free ones.
pub fn free_chunk(
    cells: &mut Cells<Chunk>,
    at: Next,
    newer: Option<Next>,
    chain: Chain,
    free: Chain,
) -> (Chain, Chain)
    requires there { IsAt cells.old.at cells.old.slots at }
    requires newer { IfSome newer (IsAt cells.old.at cells.old.slots) }
    requires some { 1 ≤ chain.count }
    requires few { free.count ≤ MOST_CHUNKS }
    ensures at { cells.new.at ≡ cells.old.at }
    ensures slots { IsFreed cells.old.slots cells.new.slots at.place newer chain.head free.head
        result.0.head }
    ensures chain { result.0.count ≡ chain.count - 1 }
    ensures free { (result.1.head ≡ Some at) × (result.1.count ≡ free.count + 1) }
{
    let next = read(cells, at).next;
    let head = pass(cells, newer, chain.head, next);
    lead(cells, at, free.head);
    let shorter = Chain {
        head,
        count: chain.count - 1,
    };
    let longer = Chain {
        head: Some(at),
        count: free.count + 1,
    };
    (shorter, longer)
}

// Where a list begins, once the next newer chunk, or the list itself, leads past a chunk to the
// next older one.
fn pass(
    cells: &mut Cells<Chunk>,
    newer: Option<Next>,
    head: Option<Next>,
    next: Option<Next>,
) -> Option<Next>
    requires { IfSome newer (IsAt cells.old.at cells.old.slots) }
    ensures at { cells.new.at ≡ cells.old.at }
    ensures slots { Passes cells.old.slots cells.new.slots newer next head result }
    ensures there { (place : ℕ) → HasChunkAt cells.old.slots place
        → HasChunkAt cells.new.slots place }
{
    match newer {
        Some(newer) => {
            lead(cells, newer, next);
            head
        }
        None => next,
    }
}
