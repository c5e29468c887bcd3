//! The table of names.

ghost use Rattle.std.specs.Prelude.{◌≡◌, ◌≤◌, ◌<◌, ◌+◌, ◌-◌, true, false, length, nat_lt};
ghost use Rattle.std.specs.Prelude.{is_some, IfSome, IfOk, IfErr, OnOk, OnErr, Some, Ok};
ghost use Rattle.std.specs.List.{IsDistinct};
ghost use Rattle.std.specs.Str.{bytes_eq};
ghost use Rattle.wit_model.specs.declared.faults.Fault.TheVariants.{OutOfMemory};
ghost use Rattle.wit_model.specs.declared.sizes.TheConstants.Limits.{MOST_TYPES, MOST_FILES, MOST_LOCKS};
ghost use Rattle.wit_model.specs.Rules.Names.{is_name};
ghost use Rattle.wit_model.specs.Rules.Numbers.{IsGiven, IsNumber};
ghost use Rattle.wit_model.specs.Rules.Types.{is_enrolled, is_otherwise, type_number};
ghost use Rattle.wit_model.specs.Rules.Refusals.{IsRefusal};
ghost use Rattle.wit_table.specs.Known.{no_names, type_names, HasName, HasClass, enroll_answer};
ghost use Rattle.wit_table.specs.Known.{with_type, live_of, with_live, are_blessed};
ghost use Rattle.wit_table.specs.Known.{with_blessed, are_names, IsBlessRefusal};

use crate::blessed::{add_pair, is_blessed};
use crate::types::{
    TypeRow, class_at, enroll_in, is_otherwise, live_at, name_at, place_of, set_live,
};
use indexmap::{IndexMap, IndexSet};
use std::alloc::Global;
use std::marker::Model;
use wit_model::{Class, Fault, FileNo, Name, TypeNo};

/// The names that a verifier knows: the types of locks, each with its class and the count of its
/// live locks; the source files; and the pairs of names that are blessed, so that their types may
/// be taken in either order.
///
/// Types and files are numbered from 1 in order of first appearance, keep their numbers, and stay
/// for good. A refused call changes nothing.
#[derive(Drop)]
pub struct Table {
    pub(crate) alloc: Global,
    types: IndexMap<String, TypeRow>,
    pub(crate) files: IndexSet<String>,
    // The file that was named last, 0 before any was: most sites follow others of their file.
    pub(crate) recent: FileNo,
    blessed: Vec<(Name, Name)>,
    most_types: u32,
    pub(crate) most_files: u32,
}

impl Model for Table {
    ghost use Rattle.wit_table.specs.Known.{Names};

    ghost Value = { Names };

    ghost use Rattle.wit_table.specs.Kept.{names_in, IsKept};

    ghost view = { names_in };

    ghost invariant = { IsKept };
}

impl Table {
    /// An empty table for up to so many types, 1 to 1,023, and so many files, 1 to 65,535.
    ///
    /// # Errors
    /// `OutOfMemory` alone.
    pub fn new(alloc: Global, types: u32, files: u32) -> Result<Table, Fault>
        requires types { IsNumber MOST_TYPES types }
        requires files { IsNumber MOST_FILES files }
        ensures ok { IfOk result (λ t. t ≡ no_names types files) }
        ensures err { IfErr result (λ e. e ≡ OutOfMemory) }
    {
        Ok(Table {
            alloc,
            types: IndexMap::with_capacity(alloc, types as usize)?,
            files: IndexSet::new(alloc),
            recent: FileNo(0),
            blessed: Vec::new(alloc),
            most_types: types,
            most_files: files,
        })
    }

    /// The number of the type with this name and class: a known type keeps its number, also where
    /// the table is full; a new one gets the next, and has no live lock.
    ///
    /// # Errors
    /// In this order: `BadName` where the text is no name; `ClassMismatch` where the name is known
    /// with another class; `TypesFull` where it is new and no number is left; `OutOfMemory`, only
    /// where it is new.
    pub fn enroll(&mut self, name: &str, class: Class) -> Result<TypeNo, Fault>
        ensures ok { IfOk result (λ t. enroll_answer name.now class self.old.most_types
            self.old.types ≡ Ok t.0) }
        ensures number { IfOk result (λ t. t.0 ≡ type_number name.now self.old.types) }
        ensures given { IfOk result (λ t. IsGiven self.new.types t.0) }
        ensures enrolled { OnOk result (self.new ≡ with_type self.old name.now class) }
        ensures err { IfErr result (IsRefusal
            (enroll_answer name.now class self.old.most_types self.old.types)) }
        ensures absent { IfErr result (λ e. e ≡ OutOfMemory
            → is_enrolled name.now self.old.types ≡ false) }
        ensures unchanged { OnErr result (self.new ≡ self.old) }
    {
        if !Name::accepts(name) {
            return Err(Fault::BadName);
        }
        enroll_in(self.alloc, &mut self.types, self.most_types, name, class)
    }

    /// As `enroll`, for a name that was tested.
    ///
    /// # Errors
    /// In this order: `ClassMismatch` where the name is known with another class; `TypesFull` where
    /// it is new and no number is left; `OutOfMemory`, only where it is new.
    pub fn enroll_name(&mut self, name: &Name, class: Class) -> Result<TypeNo, Fault>
        ensures ok { IfOk result (λ t. enroll_answer name.now class self.old.most_types
            self.old.types ≡ Ok t.0) }
        ensures number { IfOk result (λ t. t.0 ≡ type_number name.now self.old.types) }
        ensures given { IfOk result (λ t. IsGiven self.new.types t.0) }
        ensures enrolled { OnOk result (self.new ≡ with_type self.old name.now class) }
        ensures err { IfErr result (IsRefusal
            (enroll_answer name.now class self.old.most_types self.old.types)) }
        ensures absent { IfErr result (λ e. e ≡ OutOfMemory
            → is_enrolled name.now self.old.types ≡ false) }
        ensures unchanged { OnErr result (self.new ≡ self.old) }
    {
        enroll_in(
            self.alloc,
            &mut self.types,
            self.most_types,
            name.as_str(),
            class,
        )
    }

    /// The number of the type with this name; `None` exactly where no type has it.
    pub fn find(&self, name: &str) -> Option<TypeNo>
        ensures number { IfSome result (λ t. t.0 ≡ type_number name.now self.now.types) }
        ensures found { is_some result ≡ is_enrolled name.now self.now.types }
        ensures given { IfSome result (λ t. IsGiven self.now.types t.0) }
    {
        let place = place_of(&self.types, name)?;
        Some(TypeNo(place as u16 + 1))
    }

    /// Whether a type has this name and another class.
    pub fn is_otherwise(&self, name: &str, class: Class) -> bool
        ensures { result ≡ is_otherwise name.now class self.now.types }
    {
        is_otherwise(&self.types, name, class)
    }

    /// How many types there are. No two of them have one name.
    pub fn len(&self) -> usize
        ensures types { result ≡ length self.now.types }
        ensures live { result ≡ length self.now.live }
        ensures distinct { IsDistinct bytes_eq (type_names self.now.types) }
        ensures most { result ≤ self.now.most_types }
        ensures few { self.now.most_types ≤ MOST_TYPES }
    {
        self.types.len()
    }

    /// The name of a type, by its number.
    pub fn name_of(&self, number: TypeNo) -> &str
        requires { IsGiven self.now.types number.0 }
        ensures name { HasName self.now.types number.0 result.now }
        ensures number { type_number result.now self.now.types ≡ number.0 }
        ensures good { is_name result.now ≡ true }
    {
        // Called for its clause that no name stands twice.
        let _len = self.len();
        name_at(&self.types, number.0 as usize - 1)
    }

    /// The class of a type, by its number.
    pub fn class_of(&self, number: TypeNo) -> Class
        requires { IsGiven self.now.types number.0 }
        ensures { HasClass self.now.types number.0 result }
    {
        class_at(&self.types, number.0 as usize - 1)
    }

    /// How many live locks a type has: at most 65,536.
    pub fn live(&self, number: TypeNo) -> u32
        requires { IsGiven self.now.types number.0 }
        ensures count { result ≡ live_of self.now number.0 }
        ensures most { result ≤ MOST_LOCKS }
    {
        live_at(&self.types, number.0 as usize - 1)
    }

    /// Counts one more live lock of a type, which has fewer than 65,536.
    pub fn retain(&mut self, number: TypeNo)
        requires given { IsGiven self.old.types number.0 }
        requires room { live_of self.old number.0 < MOST_LOCKS }
        ensures { self.new ≡ with_live self.old number.0 (live_of self.old number.0 + 1) }
    {
        let place = number.0 as usize - 1;
        let count = live_at(&self.types, place);
        set_live(&mut self.types, place, count + 1);
    }

    /// Counts one live lock of a type less; it has at least one.
    pub fn release(&mut self, number: TypeNo)
        requires given { IsGiven self.old.types number.0 }
        requires live { 0 < live_of self.old number.0 }
        ensures { self.new ≡ with_live self.old number.0 (live_of self.old number.0 - 1) }
    {
        let place = number.0 as usize - 1;
        let count = live_at(&self.types, place);
        set_live(&mut self.types, place, count - 1);
    }

    /// Blesses a pair of names: their types may be taken in either order. The names needn't be
    /// enrolled.
    ///
    /// # Errors
    /// In this order: `BadName` where one of them is no name; `OutOfMemory`.
    pub fn bless(&mut self, a: &str, b: &str) -> Result<(), Fault>
        ensures good { OnOk result (are_names a.now b.now ≡ true) }
        ensures blessed { OnOk result (self.new ≡ with_blessed self.old a.now b.now) }
        ensures err { IfErr result (IsBlessRefusal a.now b.now) }
        ensures unchanged { OnErr result (self.new ≡ self.old) }
    {
        if !Name::accepts(a) || !Name::accepts(b) {
            return Err(Fault::BadName);
        }
        add_pair(self.alloc, &mut self.blessed, a, b)?;
        Ok(())
    }

    /// Whether a pair of names was blessed, in either order.
    pub fn blessed(&self, a: &str, b: &str) -> bool
        ensures pair { result ≡ are_blessed a.now b.now self.now.blessed }
        ensures symmetric { result ≡ are_blessed b.now a.now self.now.blessed }
    {
        is_blessed(&self.blessed, a, b)
    }

    /// Whether any pair of names was blessed.
    pub fn blesses(&self) -> bool
        ensures { result ≡ nat_lt 0 (length self.now.blessed) }
    {
        !self.blessed.is_empty()
    }
}
