//! What one chunk holds.

ghost use Rattle.std.specs.Prelude.{◌≡◌, ◌<◌, ◌≤◌, ◌++◌, [], ◌∷◌};
ghost use Rattle.std.specs.Prelude.{length, take, slice_set};
ghost use Rattle.std.specs.List.{remove};

use wit_model::{FileNo, Instance, LockNo, Mode, Site};

/// Up to five held locks, oldest first.
#[derive(Clone, Copy)]
pub struct Group {
    // How many of the items are held locks: the first ones.
    held: usize,
    items: [Instance; 5],
    // Makes a chunk 128 bytes, with which checks behind a thousand held locks were measured to take
    // a twentieth less time than with 112.
    spare: [u64; 2],
    ghost short: { held ≤ 5 },
    ghost whole: { length items ≡ 5 },
}

impl Group {
    /// No lock.
    pub fn empty() -> Group
        ensures { take result.held result.items ≡ [] }
    {
        let nobody = Instance {
            lock: LockNo(0),
            mode: Mode::Shared,
            norelease: false,
            count: 0,
            site: Site {
                file: FileNo(0),
                line: 0,
            },
        };
        Group {
            held: 0,
            items: [nobody; 5],
            spare: [0, 0],
        }
    }

    /// How many there are.
    pub fn len(&self) -> usize
        ensures { result ≡ length (take self.now.held self.now.items) }
    {
        self.held
    }

    /// All of them.
    pub fn locks(&self) -> &[Instance]
        ensures { result.now ≡ take self.now.held self.now.items }
    {
        &self.items[..self.held]
    }

    /// Puts one more at the end.
    pub fn push(&mut self, instance: Instance)
        requires { length (take self.old.held self.old.items) < 5 }
        ensures { take self.new.held self.new.items
            ≡ take self.old.held self.old.items ++ instance ∷ [] }
    {
        self.items[self.held] = instance;
        self.held += 1;
    }

    /// Writes another one over the one at this place.
    pub fn write(&mut self, index: usize, instance: Instance)
        requires { index < length (take self.old.held self.old.items) }
        ensures { take self.new.held self.new.items
            ≡ slice_set (take self.old.held self.old.items) index instance }
    {
        self.items[index] = instance;
    }

    /// Takes the one at this place out: the later ones move down.
    pub fn remove(&mut self, index: usize)
        requires { index < length (take self.old.held self.old.items) }
        ensures { take self.new.held self.new.items
            ≡ remove (take self.old.held self.old.items) index }
    {
        self.items.copy_within(index + 1..self.held, index);
        self.held -= 1;
    }
}
