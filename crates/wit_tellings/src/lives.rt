//! What is known of threads.

ghost use Rattle.std.specs.Prelude.{◌≡◌, ◌++◌, IfOk, OnOk};
ghost use Rattle.wit_tellings.specs.Facts.{at_place, is_other, is_reused, join_known, joinings, life_of};
ghost use Rattle.wit_tellings.specs.Facts.{makings, thread_known};
ghost use Rattle.wit_tellings.specs.Heard.{heard};

use crate::tellings::{Making, Tellings};
use std::alloc::{AllocError, Global};
use wit_alarms::{Join, Life, Lives, ThreadNo};

impl Tellings {
    // Whether the kernel gave the number to a second thread, too.
    fn is_reused(&self, thread: u32) -> bool
        ensures { result ≡ is_reused (heard self.now) thread }
    {
        is_other(self.lives.get(&thread).copied())
    }

    /// The thread, where it is known which one it is.
    pub fn thread_known(&self, thread: u32) -> Option<ThreadNo>
        ensures { result ≡ thread_known (heard self.now) thread }
    {
        if thread == 0 || self.is_reused(thread) {
            return None;
        }
        Some(ThreadNo(thread))
    }

    /// What is known of when threads were made and joined.
    ///
    /// # Errors
    /// Want of memory alone.
    pub fn lives(&self, alloc: Global) -> Result<Lives, AllocError>
        ensures made { IfOk result (λ lives. lives.made.items ≡ makings (heard self.now)) }
        ensures joined { IfOk result (λ lives. lives.joined.items ≡ joinings (heard self.now)) }
    {
        Ok(Lives {
            made: self.makings(alloc)?,
            joined: self.joinings(alloc)?,
        })
    }

    fn makings(&self, alloc: Global) -> Result<Vec<Life>, AllocError>
        ensures { IfOk result (λ made. made.items ≡ makings (heard self.now)) }
    {
        let mut made = Vec::new(alloc);
        for place in 0..self.lives.len() {
            self.put_making(&mut made, place)?;
        }
        Ok(made)
    }

    fn put_making(&self, to: &mut Vec<Life>, place: usize) -> Result<(), AllocError>
        ensures { OnOk result (to.new.items ≡ to.old.items
            ++ at_place (life_of (heard self.now)) self.now.lives.entries place) }
    {
        match self.lives.get_index(place) {
            Some((thread, making)) => self.put_life(to, *thread, *making),
            None => Ok(()),
        }
    }

    fn put_life(&self, to: &mut Vec<Life>, thread: u32, making: Making) -> Result<(), AllocError>
        ensures { OnOk result (to.new.items
            ≡ to.old.items ++ life_of (heard self.now) (thread, making)) }
    {
        if making.maker == 0 || self.is_reused(thread) || self.is_reused(making.maker) {
            return Ok(());
        }
        to.push(Life {
            thread: ThreadNo(thread),
            maker: ThreadNo(making.maker),
            made_at: making.made_at,
        })?;
        Ok(())
    }

    fn joinings(&self, alloc: Global) -> Result<Vec<Join>, AllocError>
        ensures { IfOk result (λ joined. joined.items ≡ joinings (heard self.now)) }
    {
        let mut joined = Vec::new(alloc);
        let mut rest = self.joins.as_slice();
        while let Some((join, others)) = rest.split_first() {
            self.put_join(&mut joined, *join)?;
            rest = others;
        }
        Ok(joined)
    }

    fn put_join(&self, to: &mut Vec<Join>, join: Join) -> Result<(), AllocError>
        ensures { OnOk result (to.new.items ≡ to.old.items ++ join_known (heard self.now) join) }
    {
        if self.is_reused(join.thread.0) || self.is_reused(join.by.0) {
            return Ok(());
        }
        to.push(join)?;
        Ok(())
    }
}

fn is_other(known: Option<Making>) -> bool
    ensures { result ≡ is_other known }
{
    match known {
        None => false,
        Some(making) => making.is_reused,
    }
}
