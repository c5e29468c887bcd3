//! Types: a class of lockdep by its key, its subclass and its name, a static lock, or a place that
//! acquires locks. Places that acquire one lock are of one type.

ghost use Rattle.std.specs.Prelude.{◌≡◌, [], IfOk, OnOk, slice_get, unwrap_or, if◌then◌else◌};
ghost use Rattle.std.specs.Map.{lookup};
ghost use Rattle.wit_traced.specs.Acquiring.{acquiring};
ghost use Rattle.wit_gathered.specs.Types.{as_one, class_text, does_sleep, first_of, is_spinning};
ghost use Rattle.wit_gathered.specs.Types.{joined, known, learnt, new_facts, nothing_known, noting};
ghost use Rattle.wit_gathered.specs.Types.{numbered, of_class, of_lock, of_lock_met, of_mutex};
ghost use Rattle.wit_gathered.specs.Types.{of_new_lock, one_renamed, place_text, renamed, same_lock, with_held};
ghost use Rattle.wit_gathered.specs.Types.{with_learnt, with_symbol};
ghost use Rattle.wit_gathered.specs.Merging.{both, merged};
ghost use Rattle.wit_gathered.specs.Symbols.{name_at};

use crate::holds::is_writing;
use crate::names::{Names, number, place_of};
use crate::statics::{Statics, put_hexadecimal};
use indexmap::{IndexMap, IndexSet};
use std::alloc::{AllocError, Global};
use wit_traced::{Acquired, Call, Kind, Reading, Symbol, has};

/// A type, so far.
#[derive(Clone, Copy, Debug, PartialEq, Eq, Hash)]
pub enum Type {
    /// What a hard interrupt holds.
    Hardirq,
    /// What a soft interrupt holds.
    Softirq,
    /// The type with this number.
    Of(usize),
    /// What its recursive readers hold, where it has such.
    ReadersOf(usize),
}

/// What tells one type from another.
#[derive(Clone, Copy, Debug, PartialEq, Eq)]
pub enum Origin {
    /// What lockdep is told of it: its text is the key, the subclass and the name, parted by spaces.
    Lockdep,
    /// The symbol of a static lock, behind a mark.
    Static,
    /// The place that acquires it, behind a mark.
    Place,
    /// A mutex of a program: its address.
    Mutex,
}

/// What was told of a type.
#[derive(Clone, Copy, Debug)]
pub struct Facts {
    pub origin: Origin,
    /// Who waits for it spins.
    pub spins: bool,
    /// Who waits for it sleeps.
    pub sleeps: bool,
    /// It spins and has readers, or is taken where nothing may sleep: its readers are apart then.
    pub has_readers: bool,
    /// It was held, by others than recursive readers.
    pub held: bool,
    /// It was held by these.
    pub held_by_readers: bool,
}

/// The types that were told of.
#[derive(Drop)]
pub struct Types {
    alloc: Global,
    /// What tells them apart.
    pub texts: Names,
    pub facts: Vec<Facts>,
    /// For each the first type that it is one with: its own number, or a smaller one.
    firsts: Vec<usize>,
    /// The type of each lock, and whether a symbol names it.
    of_locks: IndexMap<(u64, bool), (usize, bool)>,
    statics: Statics,
    /// What is looked for.
    text: Vec<u8>,
}

impl Types {
    /// None yet.
    pub fn new(alloc: Global) -> Types
        ensures { known result ≡ nothing_known }
    {
        Types {
            alloc,
            texts: IndexSet::new(alloc),
            facts: Vec::new(alloc),
            firsts: Vec::new(alloc),
            of_locks: IndexMap::new(alloc),
            statics: Statics::new(alloc),
            text: Vec::new(alloc),
        }
    }

    /// Adds a symbol.
    ///
    /// # Errors
    /// Want of memory alone.
    pub fn add_symbol(&mut self, symbol: Symbol<'_>) -> Result<(), AllocError>
        ensures { OnOk result (known self.new
            ≡ with_symbol (known self.old) symbol.entry.address symbol.entry.name.now) }
    {
        self.statics.add(symbol)
    }

    /// The number of the class that lockdep is told of. Whether nothing may sleep there is known of an
    /// interrupt, and where none can come.
    ///
    /// # Errors
    /// Want of memory alone.
    pub fn of_class(&mut self, acquired: &Acquired<'_>, early: bool) -> Result<usize, AllocError>
        ensures { IfOk result (λ n. (known self.new, n)
            ≡ of_class (known self.old) (acquiring acquired.now) early) }
    {
        self.put_class(acquired)?;
        let number = self.number(Origin::Lockdep)?;
        let early = early || has(b"seqcount", acquired.name);
        self.learn(number, acquired.kind, acquired.reading, early);
        Ok(number)
    }

    fn put_class(&mut self, acquired: &Acquired<'_>) -> Result<(), AllocError>
        ensures known { OnOk result (known self.new ≡ known self.old) }
        ensures text { OnOk result (self.new.text.items ≡ class_text (acquiring acquired.now)) }
    {
        self.text.clear();
        self.text.extend_from_slice(acquired.key)?;
        self.text.push(b' ')?;
        self.text.extend_from_slice(acquired.subclass)?;
        self.text.push(b' ')?;
        self.text.extend_from_slice(acquired.name)
    }

    /// The number of the type of a lock that a probed function acquires at a place.
    ///
    /// # Errors
    /// Want of memory alone.
    pub fn of_lock(&mut self, lock: u64, call: Call, place: &[u8]) -> Result<usize, AllocError>
        ensures { IfOk result (λ n. (known self.new, n)
            ≡ of_lock (known self.old) lock call place.now) }
    {
        let number = self.of_lock_met(lock, does_sleep(call.kind), place)?;
        self.learn(number, call.kind, call.reading, false);
        Ok(number)
    }

    fn of_lock_met(&mut self, lock: u64, sleeps: bool, place: &[u8]) -> Result<usize, AllocError>
        ensures { IfOk result (λ n. (known self.new, n)
            ≡ of_lock_met (known self.old) lock sleeps place.now
            (lookup (same_lock (lock, sleeps)) (known self.old).of_locks)) }
    {
        match self.met(lock, sleeps) {
            Some((number, true)) => Ok(number),
            Some((number, false)) => {
                let at = self.of_place(sleeps, place)?;
                self.join(number, at);
                Ok(at)
            }
            None => self.of_new_lock(lock, sleeps, place),
        }
    }

    // What is noted of a lock.
    fn met(&self, lock: u64, sleeps: bool) -> Option<(usize, bool)>
        ensures { result ≡ lookup (same_lock (lock, sleeps)) (known self.now).of_locks }
    {
        self.of_locks.get(&(lock, sleeps)).copied()
    }

    /// The number of the type of a program's mutex: each is one by itself.
    ///
    /// # Errors
    /// Want of memory alone.
    pub fn of_mutex(&mut self, lock: u64) -> Result<usize, AllocError>
        ensures { IfOk result (λ n. (known self.new, n) ≡ of_mutex (known self.old) lock) }
    {
        self.text.clear();
        self.text.extend_from_slice(b"mutex@")?;
        put_hexadecimal(self.alloc, &mut self.text, lock)?;
        let number = self.number(Origin::Mutex)?;
        self.learn(number, Kind::Spins, Reading::Writes, false);
        Ok(number)
    }

    fn of_new_lock(&mut self, lock: u64, sleeps: bool, place: &[u8]) -> Result<usize, AllocError>
        ensures { IfOk result (λ n. (known self.new, n)
            ≡ of_new_lock (known self.old) lock sleeps place.now
            (name_at (known self.old).symbols lock)) }
    {
        self.text.clear();
        self.text.push(mark_static(sleeps))?;
        let named = self.statics.put_symbol(lock, &mut self.text)?;
        let number = if named {
            self.number(Origin::Static)?
        } else {
            self.of_place(sleeps, place)?
        };
        self.note_lock(lock, sleeps, number, named)?;
        Ok(number)
    }

    fn note_lock(
        &mut self,
        lock: u64,
        sleeps: bool,
        number: usize,
        named: bool,
    ) -> Result<(), AllocError>
        ensures { OnOk result ((known self.new, number)
            ≡ noting lock sleeps named (known self.old, number)) }
    {
        self.of_locks.insert((lock, sleeps), (number, named))?;
        Ok(())
    }

    fn of_place(&mut self, sleeps: bool, place: &[u8]) -> Result<usize, AllocError>
        ensures { IfOk result (λ n. (known self.new, n)
            ≡ numbered (known self.old) Origin.Place (place_text sleeps place.now)) }
    {
        self.text.clear();
        self.text.push(mark_place(sleeps))?;
        self.text.extend_from_slice(place)?;
        self.number(Origin::Place)
    }

    // The number of the type that the text tells from others.
    fn number(&mut self, origin: Origin) -> Result<usize, AllocError>
        ensures { IfOk result (λ n. (known self.new, n)
            ≡ numbered (known self.old) origin self.old.text.items) }
    {
        if let Some(number) = place_of(&self.texts, self.text.as_slice()) {
            return Ok(number);
        }
        let place = number(self.alloc, &mut self.texts, self.text.as_slice())?;
        self.firsts.push(place)?;
        self.facts.push(new_facts(origin))?;
        Ok(place)
    }

    fn learn(&mut self, number: usize, kind: Kind, reading: Reading, early: bool)
        ensures { known self.new ≡ with_learnt (known self.old) number kind reading early }
    {
        if let Some(facts) = self.facts.get(number).copied() {
            self.facts[number] = learnt(facts, kind, reading, early);
        }
    }

    /// Notes that a type is held.
    pub fn note_held(&mut self, of: Type)
        ensures { known self.new ≡ with_held (known self.old) of }
    {
        match of {
            Type::Of(number) => {
                if let Some(facts) = self.facts.get(number).copied() {
                    self.facts[number] = Facts {
                        held: true,
                        ..facts
                    };
                }
            }
            Type::ReadersOf(number) => {
                if let Some(facts) = self.facts.get(number).copied() {
                    self.facts[number] = Facts {
                        held_by_readers: true,
                        ..facts
                    };
                }
            }
            Type::Hardirq | Type::Softirq => {}
        }
    }

    /// Whether who waits for it spins, as far as it was told.
    pub fn is_spinning(&self, of: Type) -> bool
        ensures { result ≡ is_spinning (known self.now) of }
    {
        match of {
            Type::Of(number) | Type::ReadersOf(number) => match self.facts.get(number) {
                Some(facts) => facts.spins && !facts.sleeps,
                None => false,
            },
            Type::Hardirq | Type::Softirq => false,
        }
    }

    /// The first type that is one with this.
    pub fn root(&self, number: usize) -> usize
        ensures { result ≡ first_of (known self.now).firsts number }
    {
        self.firsts.get(number).copied().unwrap_or(number)
    }

    /// What tells a type from others.
    pub fn text(&self, number: usize) -> &[u8]
        ensures { result.now ≡ unwrap_or (slice_get (known self.now).texts number) [] }
    {
        match self.texts.get_index(number) {
            Some(text) => text.as_slice(),
            None => b"",
        }
    }

    /// What was told of the types that are one with the first of them, of which this was told.
    pub fn merged(&self, first: usize, facts: Facts) -> Facts
        ensures { result ≡ merged first facts (known self.now).firsts (known self.now).facts }
    {
        merged(first, facts, self.firsts.as_slice(), self.facts.as_slice())
    }

    // From here on two types are one.
    fn join(&mut self, one: usize, other: usize)
        ensures { (known self.new, other) ≡ as_one one (known self.old, other) }
    {
        let one = self.root(one);
        let other = self.root(other);
        if one < other {
            rename(self.firsts.as_mut_slice(), other, one);
        } else if one != other {
            rename(self.firsts.as_mut_slice(), one, other);
        }
    }
}

fn merged(first: usize, so_far: Facts, firsts: &[usize], facts: &[Facts]) -> Facts
    ensures { result ≡ merged first so_far firsts.now facts.now }
{
    match firsts {
        [] => so_far,
        [number, firsts @ ..] => match facts {
            [] => so_far,
            [one, facts @ ..] => {
                let so_far = if *number == first {
                    both(so_far, *one)
                } else {
                    so_far
                };
                merged(first, so_far, firsts, facts)
            }
        },
    }
}

fn both(one: Facts, other: Facts) -> Facts
    ensures { result ≡ both one other }
{
    Facts {
        origin: one.origin,
        spins: one.spins || other.spins,
        sleeps: one.sleeps || other.sleeps,
        has_readers: one.has_readers || other.has_readers,
        held: one.held || other.held,
        held_by_readers: one.held_by_readers || other.held_by_readers,
    }
}

fn rename(firsts: &mut [usize], from: usize, to: usize)
    ensures { firsts.new ≡ renamed from to firsts.old }
{
    for at in 0..firsts.len() {
        firsts[at] = one_renamed(from, to, firsts[at]);
    }
}

fn one_renamed(from: usize, to: usize, first: usize) -> usize
    ensures { result ≡ one_renamed from to first }
{
    if first == from { to } else { first }
}

// What is known of a type that was not met before.
fn new_facts(origin: Origin) -> Facts
    ensures { result ≡ new_facts origin }
{
    Facts {
        origin,
        spins: false,
        sleeps: false,
        has_readers: false,
        held: false,
        held_by_readers: false,
    }
}

// What is known of it after an acquisition.
fn learnt(facts: Facts, kind: Kind, reading: Reading, early: bool) -> Facts
    ensures { result ≡ learnt kind reading early facts }
{
    match kind {
        Kind::Sleeps => Facts {
            sleeps: true,
            ..facts
        },
        Kind::Spins => Facts {
            spins: true,
            has_readers: facts.has_readers || !is_writing(reading),
            ..facts
        },
        Kind::SpinsForReaders => Facts {
            spins: true,
            has_readers: true,
            ..facts
        },
        Kind::Map => Facts {
            has_readers: facts.has_readers || early,
            ..facts
        },
    }
}

/// Whether who waits for such a lock sleeps.
pub fn does_sleep(kind: Kind) -> bool
    ensures { result ≡ does_sleep kind }
{
    match kind {
        Kind::Sleeps => true,
        Kind::Spins | Kind::SpinsForReaders | Kind::Map => false,
    }
}

// Static locks and places that sleep, and those that spin, are types apart.
fn mark_static(sleeps: bool) -> u8
    ensures { result ≡ (if sleeps then 61 else 33) }
{
    if sleeps { b'=' } else { b'!' }
}

fn mark_place(sleeps: bool) -> u8
    ensures { result ≡ (if sleeps then 64 else 126) }
{
    if sleeps { b'@' } else { b'~' }
}
