//! The names and classes of types, once all lines are read.

ghost use Rattle.std.specs.Prelude.{◌≡◌, ◌≤◌, ◌++◌, IfOk, OnOk, Some, drop, length, slice_get};
ghost use Rattle.wit_gathered.specs.Gathering.{gathered};
ghost use Rattle.wit_gathered.specs.Naming.{base_name, class_and_name, class_name, class_of};
ghost use Rattle.wit_gathered.specs.Naming.{clean, cleaned, full_name, is_held};
ghost use Rattle.wit_gathered.specs.Naming.{mutex_named, name_by_times, names, names_of, none_named, place_name};
ghost use Rattle.wit_gathered.specs.Naming.{readers_held, so_far, times_given, type_named};
ghost use Rattle.wit_gathered.specs.Naming.{with_first, with_given, with_other, with_type, with_types};
ghost use Rattle.wit_gathered.specs.Naming.{writers_held};
ghost use Rattle.wit_gathered.specs.Types.{known};

use crate::gathering::Gathering;
use crate::names::{Names, number};
use crate::types::{Facts, Origin, Type, Types};
use indexmap::IndexSet;
use std::alloc::{AllocError, Global};
use std::marker::Model;
use wit_traced::{before, begins, rest};

/// The class of a type, as a trace has it.
#[derive(Clone, Copy, Debug, PartialEq, Eq)]
pub enum LockClass {
    Mutex,
    Readers,
    Sleeping,
}

/// A type that is told.
#[derive(Debug, Drop)]
pub struct Named {
    pub class: LockClass,
    pub name: Vec<u8>,
}

// A name is cut to so many bytes, and has room for what stands behind it then.
const LONGEST: usize = 50;

/// What was told of a type and of those that are one with it, and their name.
#[derive(Debug, Drop)]
struct Entry {
    facts: Facts,
    name: Vec<u8>,
}

impl Model for Entry {
    ghost use Rattle.wit_gathered.specs.Entries.{Named as NamedFacts};

    ghost Value = { NamedFacts };

    ghost view = { λ e. record { facts = e.facts; name = e.name.items } };
}

/// The types by their numbers.
#[derive(Drop)]
pub struct Naming {
    alloc: Global,
    entries: Vec<Entry>,
    hard: bool,
    soft: bool,
}

impl Naming {
    /// Names what was gathered.
    ///
    /// # Errors
    /// Want of memory alone.
    pub fn new(alloc: Global, gathering: &Gathering) -> Result<Naming, AllocError>
        ensures { IfOk result (λ naming. names naming ≡ names_of (gathered gathering.now)) }
    {
        let types = &gathering.types;
        let mut maker = Maker::new(alloc);
        maker.add_types(types, 0)?;
        Ok(Naming {
            alloc,
            entries: maker.into_entries(),
            hard: gathering.hard,
            soft: gathering.soft,
        })
    }

    /// Whether somebody held it, or what else goes by its name.
    pub fn is_held(&self, of: Type) -> bool
        ensures { result ≡ is_held (names self.now) of }
    {
        match of {
            Type::Hardirq => self.hard,
            Type::Softirq => self.soft,
            Type::Of(number) => match self.entries.get(number) {
                Some(entry) => entry.is_held_by_writers(),
                None => false,
            },
            Type::ReadersOf(number) => match self.entries.get(number) {
                Some(entry) => entry.is_held_by_readers(),
                None => false,
            },
        }
    }

    /// The class and the name of a type.
    ///
    /// # Errors
    /// Want of memory alone.
    pub fn named(&self, of: Type) -> Result<Named, AllocError>
        ensures { IfOk result (λ n. (n.class, n.name.items) ≡ type_named (names self.now) of) }
    {
        match of {
            Type::Hardirq => self.mutex(b"<hardirq>"),
            Type::Softirq => self.mutex(b"<softirq>"),
            Type::Of(number) => self.entry_named(number, false),
            Type::ReadersOf(number) => self.entry_named(number, true),
        }
    }

    fn mutex(&self, name: &[u8]) -> Result<Named, AllocError>
        ensures { IfOk result (λ n. (n.class, n.name.items) ≡ mutex_named name.now) }
    {
        Ok(Named {
            class: LockClass::Mutex,
            name: Vec::from_slice(self.alloc, name)?,
        })
    }

    fn entry_named(&self, number: usize, readers: bool) -> Result<Named, AllocError>
        ensures { IfOk result (λ n. (n.class, n.name.items)
            ≡ class_and_name readers (slice_get (names self.now).named number)) }
    {
        match self.entries.get(number) {
            Some(entry) => entry.named(self.alloc, readers),
            None => self.mutex(b"?"),
        }
    }
}

impl Entry {
    fn is_held_by_writers(&self) -> bool
        ensures { result ≡ writers_held (Some self.now) }
    {
        self.facts.held || !self.facts.has_readers && self.facts.held_by_readers
    }

    fn is_held_by_readers(&self) -> bool
        ensures { result ≡ readers_held (Some self.now) }
    {
        self.facts.held_by_readers || !self.facts.has_readers && self.facts.held
    }

    fn named(&self, alloc: Global, readers: bool) -> Result<Named, AllocError>
        ensures { IfOk result (λ n. (n.class, n.name.items) ≡ class_and_name readers (Some self.now)) }
    {
        let mut name = Vec::from_slice(alloc, self.name.as_slice())?;
        if readers && self.facts.has_readers {
            name.extend_from_slice(b"(read)")?;
        }
        let class = class_of(&self.facts);
        Ok(Named { class, name })
    }

    fn copied(&self, alloc: Global) -> Result<Entry, AllocError>
        ensures { IfOk result (λ e. e ≡ self.now) }
    {
        Ok(Entry {
            facts: self.facts,
            name: Vec::from_slice(alloc, self.name.as_slice())?,
        })
    }
}

fn class_of(facts: &Facts) -> LockClass
    ensures { result ≡ class_of facts.now }
{
    if facts.has_readers {
        LockClass::Readers
    } else if facts.spins {
        LockClass::Mutex
    } else {
        LockClass::Sleeping
    }
}

/// Names in the making.
#[derive(Drop)]
struct Maker {
    alloc: Global,
    /// The names that were given, and for each how often.
    given: Names,
    times: Vec<usize>,
    entries: Vec<Entry>,
}

impl Maker {
    fn new(alloc: Global) -> Maker
        ensures { so_far result ≡ none_named }
    {
        Maker {
            alloc,
            given: IndexSet::new(alloc),
            times: Vec::new(alloc),
            entries: Vec::new(alloc),
        }
    }

    fn into_entries(self) -> Vec<Entry>
        ensures { result.items ≡ (so_far self).named }
    {
        self.entries
    }

    // The types from a number on.
    fn add_types(&mut self, types: &Types, from: usize) -> Result<(), AllocError>
        requires { from ≤ length (known types.now).facts }
        ensures { OnOk result (so_far self.new ≡ with_types (known types.now) (so_far self.old) from
            (drop from (known types.now).facts)) }
    {
        let (_, facts) = types.facts.as_slice().split_at(from);
        match facts {
            [] => Ok(()),
            [one, ..] => {
                self.add_type(types, from, *one)?;
                self.add_types(types, from + 1)
            }
        }
    }

    fn add_type(&mut self, types: &Types, number: usize, facts: Facts) -> Result<(), AllocError>
        ensures { OnOk result (so_far self.new
            ≡ with_type (known types.now) (so_far self.old) number facts) }
    {
        let first = types.root(number);
        if first != number {
            return self.add_other(first);
        }
        let base = base_name(self.alloc, facts.origin, types.text(number))?;
        self.add_first(types.merged(number, facts), base.as_slice())
    }

    fn add_other(&mut self, first: usize) -> Result<(), AllocError>
        ensures { OnOk result (so_far self.new
            ≡ with_other (so_far self.old) (slice_get (so_far self.old).named first)) }
    {
        let copy = match self.entries.get(first) {
            Some(entry) => entry.copied(self.alloc)?,
            None => return Ok(()),
        };
        self.entries.push(copy)?;
        Ok(())
    }

    fn add_first(&mut self, facts: Facts, base: &[u8]) -> Result<(), AllocError>
        ensures { OnOk result (so_far self.new ≡ with_first (so_far self.old) facts base.now) }
    {
        let times = self.give(base)?;
        let name = name_by_times(self.alloc, base, times)?;
        self.entries.push(Entry { facts, name })?;
        Ok(())
    }

    // Gives a name, and says how often it was given then.
    fn give(&mut self, name: &[u8]) -> Result<usize, AllocError>
        ensures times { IfOk result (λ n. n ≡ times_given (so_far self.old).given name.now) }
        ensures given { OnOk result (so_far self.new ≡ with_given (so_far self.old) name.now) }
    {
        let number = number(self.alloc, &mut self.given, name)?;
        match self.times.get(number).copied() {
            Some(times) => {
                let times = times.saturating_add(1);
                self.times[number] = times;
                Ok(times)
            }
            None => {
                self.times.push(1)?;
                Ok(1)
            }
        }
    }
}

fn name_by_times(alloc: Global, base: &[u8], times: usize) -> Result<Vec<u8>, AllocError>
    ensures { IfOk result (λ name. name.items ≡ name_by_times base.now times) }
{
    let mut name = Vec::from_slice(alloc, base)?;
    if times > 1 {
        let number = format!(in alloc; "#{times}")?;
        name.extend_from_slice(number.as_bytes())?;
    }
    Ok(name)
}

fn base_name(alloc: Global, origin: Origin, text: &[u8]) -> Result<Vec<u8>, AllocError>
    ensures { IfOk result (λ name. name.items ≡ base_name origin text.now) }
{
    let mut name = Vec::new(alloc);
    put_name(&mut name, origin, text)?;
    name.truncate(LONGEST);
    if name.is_empty() {
        name.push(b'?')?;
    }
    Ok(name)
}

fn put_name(name: &mut Vec<u8>, origin: Origin, text: &[u8]) -> Result<(), AllocError>
    ensures { OnOk result (name.new.items ≡ name.old.items ++ full_name origin text.now) }
{
    match origin {
        Origin::Lockdep => put_class(name, rest(before(b' ', text).1)),
        Origin::Static => put_clean(name, rest(text)),
        Origin::Mutex => put_clean(name, text),
        Origin::Place => put_place(name, text),
    }
}

fn put_place(name: &mut Vec<u8>, text: &[u8]) -> Result<(), AllocError>
    ensures { OnOk result (name.new.items ≡ name.old.items ++ place_name text.now) }
{
    if begins(b"@", text) {
        name.extend_from_slice(b"sleep@")?;
    } else {
        name.extend_from_slice(b"spinlock@")?;
    }
    put_clean(name, rest(text))
}

// Of the subclass and the name: the name, and the subclass where it isn't 0.
fn put_class(name: &mut Vec<u8>, text: &[u8]) -> Result<(), AllocError>
    ensures { OnOk result (name.new.items ≡ name.old.items ++ class_name text.now) }
{
    let (subclass, class) = before(b' ', text);
    put_clean(name, rest(class))?;
    if subclass == b"0".as_slice() {
        return Ok(());
    }
    name.push(b'/')?;
    put_clean(name, subclass)
}

fn put_clean(name: &mut Vec<u8>, text: &[u8]) -> Result<(), AllocError>
    ensures { OnOk result (name.new.items ≡ name.old.items ++ cleaned text.now) }
{
    match text {
        [] => Ok(()),
        [byte, others @ ..] => {
            name.push(clean(*byte))?;
            put_clean(name, others)
        }
    }
}

// A byte that a name may have.
fn clean(byte: u8) -> u8
    ensures { result ≡ clean byte }
{
    match byte {
        b'"' | b'\\' => b'_',
        b' '..=b'~' => byte,
        _ => b'_',
    }
}
