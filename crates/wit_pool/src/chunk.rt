//! Chunks, and how they are linked.

ghost use Rattle.std.specs.Prelude.{◌≡◌, ℕ, ◌<◌, ◌++◌, [], ◌∷◌, Some, IfSome};
ghost use Rattle.std.specs.Prelude.{length, slice_set};
ghost use Rattle.std.specs.Borrow.{sem};
ghost use Rattle.std.specs.Option.{option_map};
ghost use Rattle.std.specs.List.{remove};
ghost use Rattle.wit_pool.specs.Chunks.{Leads, IsAt, IsRegrouped, IsLed};
ghost use Rattle.wit_pool.specs.Chunks.{chunk_at, content, next_place};
ghost use Rattle.wit_pool.specs.Lending.{LendsChunk};

use crate::cells::{Cells, Link};
use crate::group::Group;
use wit_model::Instance;

/// A link to a chunk, and which place of the block the chunk has. It owns nothing.
#[derive(Clone, Copy)]
pub struct Next {
    ptr: *mut Chunk,
    // As wide as the pointer: a link is copied in two words then, without the bytes between fields.
    pub(crate) place: usize,
}

unsafe impl Send for Next {}

unsafe impl Sync for Next {}

impl Next {
    fn to(link: Link<Chunk>, place: usize) -> Next
        ensures { (result.ptr ≡ link.ptr) × (result.place ≡ place) }
    {
        Next {
            ptr: link.ptr,
            place,
        }
    }

    fn link(self) -> Link<Chunk>
        ensures { result.ptr ≡ self.ptr }
    {
        Link { ptr: self.ptr }
    }
}

/// A chunk: what it holds, and the next older chunk of its list, or the next free one.
#[derive(Clone, Copy)]
pub struct Chunk {
    pub(crate) next: Option<Next>,
    pub(crate) group: Group,
}

/// A link to the chunk that has this place.
pub fn link_to(cells: &Cells<Chunk>, first: Link<Chunk>, place: u16) -> Next
    requires first { first.ptr ≡ cells.now.at }
    requires place { place < length cells.now.slots }
    ensures leads { Leads cells.now.at result }
    ensures place { result.place ≡ place }
{
    let place = place as usize;
    Next::to(cells.link(first, place), place)
}

/// A link to the chunk that has this place, where there is one.
pub fn link_beside(cells: &Cells<Chunk>, first: Link<Chunk>, place: Option<u16>) -> Option<Next>
    requires first { first.ptr ≡ cells.now.at }
    requires place { IfSome place (λ p. p < length cells.now.slots) }
    ensures leads { IfSome result (Leads cells.now.at) }
    ensures place { option_map next_place result ≡ place }
{
    match place {
        Some(place) => Some(link_to(cells, first, place)),
        None => None,
    }
}

/// The chunk at the end of a link.
pub fn read(cells: &Cells<Chunk>, at: Next) -> &Chunk
    requires { IsAt cells.now.at cells.now.slots at }
    ensures { chunk_at cells.now.slots at.place ≡ Some result.now }
{
    cells.get(at.link())
}

// The chunk at the end of a link, to be changed where it lies: a chunk is too large to be copied
// for each lock.
fn read_mut(cells: &mut Cells<Chunk>, at: Next) -> &mut Chunk
    requires { IsAt cells.old.at cells.old.slots at }
    ensures* writes_back { sem 𝓛 (LendsChunk cells.entry at.place result) }
    ensures value { chunk_at cells.old.slots at.place ≡ Some result.now }
{
    cells.get_mut(at.link())
}

/// Puts a chunk at the end of a link.
pub fn write(cells: &mut Cells<Chunk>, at: Next, chunk: Chunk)
    requires leads { Leads cells.old.at at }
    requires place { at.place < length cells.old.slots }
    ensures at { cells.new.at ≡ cells.old.at }
    ensures slots { cells.new.slots ≡ slice_set cells.old.slots at.place (Some chunk) }
{
    cells.put(at.link(), chunk);
}

/// Lets a chunk lead elsewhere.
pub fn lead(cells: &mut Cells<Chunk>, at: Next, next: Option<Next>)
    requires { IsAt cells.old.at cells.old.slots at }
    ensures at { cells.new.at ≡ cells.old.at }
    ensures slots { IsLed cells.old.slots cells.new.slots at.place next }
{
    let chunk = read_mut(cells, at);
    chunk.next = next;
}

/// Puts a lock at the end of a chunk.
pub fn put(cells: &mut Cells<Chunk>, at: Next, instance: Instance)
    requires there { IsAt cells.old.at cells.old.slots at }
    requires short { length (content (chunk_at cells.old.slots at.place)) < 5 }
    ensures at { cells.new.at ≡ cells.old.at }
    ensures slots { IsRegrouped cells.old.slots cells.new.slots at.place
        (content (chunk_at cells.old.slots at.place) ++ instance ∷ []) }
{
    let chunk = read_mut(cells, at);
    chunk.group.push(instance);
}

/// Writes a lock over one in a chunk.
pub fn put_at(cells: &mut Cells<Chunk>, at: Next, index: usize, instance: Instance)
    requires there { IsAt cells.old.at cells.old.slots at }
    requires index { index < length (content (chunk_at cells.old.slots at.place)) }
    ensures at { cells.new.at ≡ cells.old.at }
    ensures slots { IsRegrouped cells.old.slots cells.new.slots at.place
        (slice_set (content (chunk_at cells.old.slots at.place)) index instance) }
{
    let chunk = read_mut(cells, at);
    chunk.group.write(index, instance);
}

/// Takes a lock out of a chunk. How many are left.
pub fn take_out(cells: &mut Cells<Chunk>, at: Next, index: usize) -> usize
    requires there { IsAt cells.old.at cells.old.slots at }
    requires index { index < length (content (chunk_at cells.old.slots at.place)) }
    ensures at { cells.new.at ≡ cells.old.at }
    ensures slots { IsRegrouped cells.old.slots cells.new.slots at.place
        (remove (content (chunk_at cells.old.slots at.place)) index) }
    ensures left { result ≡ length (remove (content (chunk_at cells.old.slots at.place)) index) }
{
    let chunk = read_mut(cells, at);
    chunk.group.remove(index);
    chunk.group.len()
}
