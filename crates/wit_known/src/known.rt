//! What is known of types, locks and orders.

ghost use Rattle.std.specs.Prelude.{◌≡◌, ◌<◌, ◌≤◌, ◌++◌, [], ◌∷◌, true, false, map, length, Ok};
ghost use Rattle.std.specs.Prelude.{OnOk, OnErr, IfOk, IfErr};
ghost use Rattle.wit_model.specs.declared.faults.Fault.TheVariants.{OutOfMemory};
ghost use Rattle.wit_model.specs.declared.locks.Lock.{Lock};
ghost use Rattle.wit_model.specs.Rules.Files.{is_known_file, file_answer, files_after};
ghost use Rattle.wit_model.specs.Rules.Locks.{lock_at};
ghost use Rattle.wit_model.specs.Rules.Numbers.{with_changed, IsGiven};
ghost use Rattle.wit_model.specs.Rules.Refusals.{IsRefusal};
ghost use Rattle.wit_model.specs.Rules.State.{found_after};
ghost use Rattle.wit_matrix.specs.Relation.{HasSameFound};
ghost use Rattle.wit_known.specs.Live.{is_flagged, live_count};
ghost use Rattle.wit_known.specs.Known.{nothing_known, learnt, with_lock, IsApt, IsRoomFor};
ghost use Rattle.wit_known.specs.Known.{IsAdmitted};

use crate::locks::Locks;
use crate::orders::Orders;
use std::alloc::{AllocError, Global};
use std::marker::Model;
use wit_model::{
    Adoption, Fault, FileNo, Limits, Lock, LockNo, NewLock, Origin, Reply, Request, TypeNo,
};
use wit_table::Table;

/// What is known of types, files, locks and orders.
#[derive(Drop)]
pub struct Known {
    /// The types, the source files, and the pairs of type names that may be taken in either order.
    pub names: Table,
    /// The locks that were made.
    pub locks: Locks,
    /// Whether each lock is live, in the order of the locks: no more once it is destroyed.
    pub live: Vec<bool>,
    /// The orders and the pairs found in violation.
    pub orders: Orders,
}

impl Model for Known {
    ghost use Rattle.wit_known.specs.Known.{Facts};

    ghost Value = { Facts };

    ghost use Rattle.wit_known.specs.Remembered.{facts_in, IsSized};

    ghost view = { facts_in };

    ghost invariant = { IsSized };
}

impl Known {
    /// Nothing is known; there may be this many types (1 to 1,023).
    ///
    /// # Errors
    /// `OutOfMemory` alone.
    pub fn new(alloc: Global, types: u32) -> Result<Known, Fault>
        requires positive { 0 < types }
        requires within { types ≤ Limits.MOST_TYPES }
        ensures ok { IfOk result (λ k. k
            ≡ record {
              known = nothing_known;
              live = [];
              files = [];
              most_types = types;
              spare = k.spare;
            }) }
        ensures err { IfErr result (λ e. e ≡ OutOfMemory) }
    {
        Ok(Known {
            names: Table::new(alloc, types, Limits::MOST_FILES)?,
            locks: Locks::new(alloc),
            live: Vec::new(alloc),
            orders: Orders::new(alloc, types)?,
        })
    }

    /// The types, the files and the blessed pairs.
    pub fn names(&self) -> &Table
        ensures types { result.now.types ≡ self.now.known.types }
        ensures files { result.now.files ≡ self.now.files }
        ensures blessed { result.now.blessed ≡ self.now.known.blessed }
    {
        &self.names
    }

    /// The locks that were made.
    pub fn locks(&self) -> &Locks
        ensures { result.now.locks ≡ self.now.known.locks }
    {
        &self.locks
    }

    /// The type of each lock, in the order of the locks' numbers.
    pub fn lock_types(&self) -> &[TypeNo]
        ensures { result.now ≡ map (λ (lock : Lock). lock.type_no) self.now.known.locks }
    {
        self.locks.types()
    }

    /// Whether a lock is live.
    pub fn is_live(&self, lock: LockNo) -> bool
        ensures { result ≡ is_flagged self.now.live lock.0 }
    {
        if lock.0 == 0 {
            return false;
        }
        match self.live.get(lock.0 as usize - 1) {
            Some(live) => *live,
            None => false,
        }
    }

    /// How many locks of a type are live.
    pub fn live(&self, number: TypeNo) -> u32
        requires { IsGiven self.now.known.types number.0 }
        ensures { result ≡ live_count self.now.known.locks self.now.live number.0 }
    {
        self.names.live(number)
    }

    /// The orders and the pairs found in violation.
    pub fn orders(&self) -> &Orders
        ensures orders { result.now.orders ≡ self.now.known.orders }
        ensures found { result.now.found ≡ self.now.known.found }
        ensures size { result.now.size ≡ self.now.most_types }
    {
        &self.orders
    }
}

impl Known {
    /// Names a file: `Table::file`.
    ///
    /// # Errors
    /// In this order: `BadName`, `FilesFull`, `OutOfMemory`; the files are then as before.
    pub fn file(&mut self, name: &str) -> Result<FileNo, Fault>
        ensures ok { IfOk result (λ f. file_answer name.now Limits.MOST_FILES self.old.files ≡ Ok f.0) }
        ensures entered { OnOk result
            (self.new ≡ record self.old { files = files_after name.now self.old.files }) }
        ensures err { IfErr result (IsRefusal (file_answer name.now Limits.MOST_FILES self.old.files)) }
        ensures absent { IfErr result (λ e. e ≡ OutOfMemory
            → is_known_file name.now self.old.files ≡ false) }
        ensures unchanged { OnErr result (self.new ≡ self.old) }
    {
        self.names.file(name)
    }

    /// Makes room for what a reply tells, where it tells of orders.
    ///
    /// # Errors
    /// Want of memory alone.
    pub fn make_room(&mut self, reply: &Reply) -> Result<(), AllocError>
        ensures same { self.new ≡ record self.old { spare = self.new.spare } }
        ensures grows { self.old.spare ≤ self.new.spare }
        ensures ok { OnOk result (IsRoomFor reply.now self.new.spare) }
    {
        match reply {
            Reply::Adopted(_, _) => self.orders.make_room(1),
            Reply::AdoptedAll(orders) => self.orders.make_room(orders.get().pairs().len()),
            _ => Ok(()),
        }
    }

    /// Learns what the reply to a request tells: the orders behind held locks, or a pair of types
    /// found in violation. It takes no memory.
    pub fn learn(&mut self, request: Request, reply: &Reply)
        requires apt { IsApt self.old.most_types self.old.known reply.now }
        requires room { IsRoomFor reply.now self.old.spare }
        ensures found { HasSameFound self.new.known.found
            (found_after self.old.known.locks reply.now self.old.known.found) }
        ensures rest { self.new ≡ record self.old {
          known = record (learnt self.old.known request reply.now) {
            found = self.new.known.found;
          };
          spare = self.new.spare;
        } }
    {
        match reply {
            Reply::Adopted(parent, child) => self.orders.adopt(Adoption {
                parent: *parent,
                child: *child,
                origin: Origin::At(request.site),
            }),
            Reply::AdoptedAll(orders) => self.orders.adopt_all(orders.get().pairs(), request.site),
            Reply::Silent(held, asked) => self.orders.find(*held, *asked),
            Reply::Duplicate(doubling) => {
                let asked = self.locks.type_of(doubling.get().asked.lock);
                self.orders.find(asked, asked);
            }
            Reply::Reversal(conflict) => {
                let conflict = conflict.get();
                let held = self.locks.type_of(conflict.held.lock);
                let asked = self.locks.type_of(conflict.asked.lock);
                self.orders.find(held, asked);
            }
            _ => {}
        }
    }

    /// Enters a live lock whose type is known or can be enrolled, and its type where that is new.
    /// The type has fewer than 65,536 live locks.
    ///
    /// # Errors
    /// `OutOfMemory` alone; nothing is entered then.
    pub fn add_lock(&mut self, made: NewLock) -> Result<(), Fault>
        requires admitted { IsAdmitted self.old made }
        requires few { length self.old.known.locks < Limits.MOST_LOCKS }
        ensures ok { OnOk result (self.new
            ≡ record self.old {
              known = with_lock self.old.known made;
              live = self.old.live ++ true ∷ [];
            }) }
        ensures err { OnErr result (self.new ≡ self.old) }
        ensures memory { IfErr result (λ e. e ≡ OutOfMemory) }
    {
        self.locks.make_room()?;
        self.live.reserve(1)?;
        let type_no = self.names.enroll_name(made.type_name(), made.class)?;
        self.locks.push(Lock { type_no, made });
        self.live.push_reserved(true);
        // Called for its clause that each type has a count.
        let _types = self.names.len();
        self.names.retain(type_no);
        Ok(())
    }

    /// Takes a live lock of a known type from the live ones. Its number, name and type stay.
    pub fn destroy(&mut self, lock: LockNo)
        requires live { is_flagged self.old.live lock.0 ≡ true }
        requires typed { IsGiven self.old.known.types
            (lock_at self.old.known.locks lock.0).type_no.0 }
        ensures { self.new ≡ record self.old { live = with_changed self.old.live lock.0 false } }
    {
        let type_no = self.locks.type_of(lock);
        // Called for its clause that each type has a count.
        let _types = self.names.len();
        self.names.release(type_no);
        self.live[lock.0 as usize - 1] = false;
    }
}
