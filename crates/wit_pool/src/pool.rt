//! Lists in chunks of one block.

ghost use Rattle.std.specs.Prelude.{◌≡◌, ◌≤◌, ◌*◌, length, IfOk, IfErr};
ghost use Rattle.wit_model.specs.declared.faults.Fault.TheVariants.{OutOfMemory};
ghost use Rattle.wit_model.specs.declared.sizes.TheConstants.Limits.{MOST_CHUNKS, MOST_SEATS};
ghost use Rattle.wit_model.specs.Rules.Chunks.{IsNew};
ghost use Rattle.wit_model.specs.Rules.Numbers.{IsNumber};

use crate::cells::{Cells, Deed, Link, allocate, deallocate};
use crate::chain::{Chain, free_chunk, open_chunk, ready, take_free};
use crate::chunk::{Chunk, link_beside, link_to, put, put_at, read, take_out};
use std::alloc::{AllocError, Allocator, Global};
use std::marker::Model;
use std_alloc::room::may_hold;
use wit_model::chunks::{Lists, Spot};
use wit_model::{Fault, Instance};

/// Lists of held locks in chunks of one block, which is all their room from the beginning.
pub struct Pool<A: Allocator = Global> {
    // Each list's chunks, newest first.
    chains: Vec<Chain, A>,
    // The free chunks.
    free: Chain,
    // The places below this one hold no chunk yet: one is made only where no other is free, so room
    // that nobody needs is never written to.
    unmade: usize,
    // The block's first place, and how many places it has.
    first: Link<Chunk>,
    count: usize,
    cells: Cells<Chunk>,
    deed: Deed<Chunk, A>,
    alloc: A,
}

impl<A: Allocator> Model for Pool<A> {
    ghost use Rattle.wit_model.specs.Rules.Chunks.{Chunks};

    ghost Value = { Chunks };

    ghost use Rattle.wit_pool.specs.Kept.{chunks_in, AreKept};

    ghost view = { chunks_in };

    ghost invariant = { AreKept };
}

impl<A: Allocator> Drop for Pool<A> {
    fn drop(self) {
        let Pool {
            chains: _,
            free: _,
            unmade: _,
            first,
            count,
            cells,
            deed,
            alloc,
        } = self;
        deallocate(&alloc, first, count, cells, deed);
    }
}

impl<A: Allocator> Pool<A> {
    /// Lists that hold nothing, numbered from 1, and so many free chunks: 1 to 512 lists, 1 to
    /// 65,536 chunks. All the room that the other calls will need is taken here.
    ///
    /// # Errors
    /// `OutOfMemory` alone.
    pub fn new(alloc: A, chunks: u32, lists: u16) -> Result<Pool<A>, Fault>
    where
        A: Copy,
        requires chunks { IsNumber MOST_CHUNKS chunks }
        requires lists { IsNumber (2 * MOST_SEATS) lists }
        ensures ok { IfOk result (IsNew chunks lists) }
        ensures err { IfErr result (λ e. e ≡ OutOfMemory) }
    {
        Ok(Pool::make(alloc, chunks, lists)?)
    }

    /// How many lists there are.
    pub fn lists(&self) -> usize
        ensures { result ≡ length self.now.groups }
    {
        self.chains.len()
    }

    fn make(alloc: A, chunks: u32, lists: u16) -> Result<Pool<A>, AllocError>
    where
        A: Copy,
        requires { chunks ≤ MOST_CHUNKS }
        ensures { IfOk result (IsNew chunks lists) }
    {
        let count = chunks as usize;
        if !may_hold::<Chunk>(count) {
            return Err(AllocError);
        }
        let empty = Chain {
            head: None,
            count: 0,
        };
        let chains = Vec::from_elem(alloc, empty, lists as usize)?;
        let (first, cells, deed) = allocate(&alloc, count)?;
        Ok(Pool {
            chains,
            free: empty,
            unmade: count,
            first,
            count,
            cells,
            deed,
            alloc,
        })
    }
}

impl<A: Allocator> Lists for Pool<A> {
    ghost chunks = { λ s. s };

    fn push(&mut self, list: u16, instance: Instance) -> bool {
        let list = list as usize - 1;
        let chain = self.chains[list];
        match open_chunk(&self.cells, chain) {
            Some(at) => {
                put(&mut self.cells, at, instance);
                true
            }
            None => {
                let (free, unmade) = ready(&mut self.cells, self.first, self.free, self.unmade);
                self.free = free;
                self.unmade = unmade;
                match free.head {
                    Some(at) => {
                        let (chain, free) = take_free(&mut self.cells, at, chain, free);
                        put(&mut self.cells, at, instance);
                        self.chains[list] = chain;
                        self.free = free;
                        true
                    }
                    None => false,
                }
            }
        }
    }

    fn newest(&self, list: u16) -> Option<Spot> {
        let chain = self.chains[list as usize - 1];
        match chain.head {
            Some(at) => Some(Spot {
                group: chain.count - 1,
                chunk: at.place as u16,
                newer: None,
            }),
            None => None,
        }
    }

    fn older(&self, list: u16, spot: Spot) -> Option<Spot> {
        let at = link_to(&self.cells, self.first, spot.chunk);
        match read(&self.cells, at).next {
            Some(next) => Some(Spot {
                group: spot.group - 1,
                chunk: next.place as u16,
                newer: Some(spot.chunk),
            }),
            None => None,
        }
    }

    fn group(&self, list: u16, spot: Spot) -> &[Instance] {
        let at = link_to(&self.cells, self.first, spot.chunk);
        read(&self.cells, at).group.locks()
    }

    fn replace_in(&mut self, list: u16, spot: Spot, index: usize, instance: Instance) {
        let at = link_to(&self.cells, self.first, spot.chunk);
        put_at(&mut self.cells, at, index, instance);
    }

    fn remove_in(&mut self, list: u16, spot: Spot, index: usize) {
        let list = list as usize - 1;
        let chain = self.chains[list];
        let at = link_to(&self.cells, self.first, spot.chunk);
        if take_out(&mut self.cells, at, index) == 0 && chain.count > 1 {
            let newer = link_beside(&self.cells, self.first, spot.newer);
            let (chain, free) = free_chunk(&mut self.cells, at, newer, chain, self.free);
            self.chains[list] = chain;
            self.free = free;
        }
    }

    fn free_chunks(&self) -> usize {
        self.unmade + self.free.count
    }
}
