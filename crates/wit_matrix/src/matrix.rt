//! The relation matrix.

ghost use Rattle.std.specs.Prelude.{◌≡◌, ◌↔◌, ◌≤◌, if◌then◌else◌, true, false, [], IsTrue, IfOk};
ghost use Rattle.std.specs.Prelude.{IfErr, IfSome};
ghost use Rattle.wit_model.specs.declared.locks.TypeNo.{TypeNo};
ghost use Rattle.std.specs.Option.{option_map};
ghost use Rattle.wit_model.specs.declared.faults.Fault.TheVariants.{OutOfMemory};
ghost use Rattle.wit_model.specs.declared.sizes.TheConstants.Limits.{MOST_TYPES};
ghost use Rattle.wit_model.specs.Rules.Orders.{Before, IsSound, is_before, is_direct, is_found};
ghost use Rattle.wit_model.specs.Rules.Orders.{cell};
ghost use Rattle.wit_model.specs.Rules.Numbers.{IsNumber};
ghost use Rattle.wit_model.specs.Trace.Paths.{leads, next_type, way, path, type_numbers};
ghost use Rattle.wit_model.specs.Trace.Paths.{path_numbers};
ghost use Rattle.wit_matrix.specs.Relation.{Adopts, Finds, LeadsBy};

use crate::squares::{add, blank, has, link, skip};
use std::alloc::{AllocError, Global};
use std::marker::Model;
use wit_model::{Fault, TypeNo};

/// The row's type was adopted as a direct parent of the column's.
const PARENT: u8 = 0x01;
/// The row's type is before the column's, directly or not.
const ANCESTOR: u8 = 0x02;
/// The column's type was adopted as a direct parent of the row's.
const CHILD: u8 = 0x04;
/// The column's type is before the row's.
const DESCENDANT: u8 = 0x08;
/// The two were found in violation.
const REVERSAL: u8 = 0x10;

// A cell's bit, where it is set.
fn bit(value: u8, is_set: bool) -> u8
    ensures value { result ≡ if is_set then value else 0 }
    ensures within { result ≤ value }
{
    if is_set { value } else { 0 }
}

/// What is known of every two of up to 1,023 lock types, by their numbers from 1: which orders were
/// adopted, which types are thereby before which, and which pairs were found in violation.
#[derive(Drop)]
pub struct Matrix {
    alloc: Global,
    size: u16,
    /// For each type those that it was adopted as a direct parent of.
    direct: Vec<u64>,
    /// For each type those that it is before, directly or not.
    before: Vec<u64>,
    /// For each type those that are before it.
    after: Vec<u64>,
    /// For each type those with which it was found in violation.
    found: Vec<u64>,
}

impl Model for Matrix {
    ghost use Rattle.wit_matrix.specs.Relation.{Relation};
    ghost use Rattle.wit_matrix.specs.Squares.{relation_in, IsKept};

    ghost Value = { Relation };

    ghost view = { λ m. relation_in m.size m.direct.items m.found.items };

    ghost invariant = { λ m. IsKept m.size m.direct.items m.before.items m.after.items
        m.found.items };
}

impl Matrix {
    /// No orders and no pairs, for this many types (1 to 1,023).
    ///
    /// # Errors
    /// `OutOfMemory` alone.
    pub fn new(alloc: Global, n: u16) -> Result<Matrix, Fault>
        requires positive { 1 ≤ n }
        requires within { n ≤ MOST_TYPES }
        ensures ok { IfOk result (λ m. m ≡ record { size = n; orders = []; found = [] }) }
        ensures err { IfErr result (λ e. e ≡ OutOfMemory) }
    {
        Ok(Matrix {
            alloc,
            size: n,
            direct: blank(alloc, n)?,
            before: blank(alloc, n)?,
            after: blank(alloc, n)?,
            found: blank(alloc, n)?,
        })
    }

    /// How many types. None is before itself.
    pub fn size(&self) -> u16
        ensures value { result ≡ self.now.size }
        ensures positive { 1 ≤ result }
        ensures within { result ≤ MOST_TYPES }
        ensures sound { IsSound self.now.orders }
    {
        self.size
    }

    /// Whether a is before b: a path of adopted orders leads from a to b.
    pub fn before(&self, a: TypeNo, b: TypeNo) -> bool
        requires a { IsNumber self.now.size a.0 }
        requires b { IsNumber self.now.size b.0 }
        ensures value { result ≡ is_before self.now.orders a.0 b.0 }
        ensures path { IsTrue result ↔ Before self.now.orders a.0 b.0 }
    {
        has(&self.before, self.size, a, b)
    }

    /// Whether the order from a to b was adopted.
    pub fn direct(&self, a: TypeNo, b: TypeNo) -> bool
        requires a { IsNumber self.now.size a.0 }
        requires b { IsNumber self.now.size b.0 }
        ensures { result ≡ is_direct self.now.orders a.0 b.0 }
    {
        has(&self.direct, self.size, a, b)
    }

    /// The relation of a to b, as the sum of 0x01 where the order from a to b was adopted, 0x02
    /// where a is before b, 0x04 where the order from b to a was adopted, 0x08 where b is before a,
    /// and 0x10 where the pair was found in violation.
    pub fn cell(&self, a: TypeNo, b: TypeNo) -> u8
        requires a { IsNumber self.now.size a.0 }
        requires b { IsNumber self.now.size b.0 }
        ensures { result ≡ cell self.now.orders self.now.found a.0 b.0 }
    {
        bit(PARENT, self.direct(a, b))
            + bit(ANCESTOR, self.before(a, b))
            + bit(CHILD, self.direct(b, a))
            + bit(DESCENDANT, has(&self.after, self.size, a, b))
            + bit(REVERSAL, self.reversed(a, b))
    }

    /// Adopts an order between two types that differ and of which the child isn't before the
    /// parent. An order that was adopted stays as it is.
    pub fn adopt(&mut self, parent: TypeNo, child: TypeNo)
        requires parent { IsNumber self.old.size parent.0 }
        requires child { IsNumber self.old.size child.0 }
        requires apart { parent.0 ≡ child.0 → ⊥ }
        requires orderly { is_before self.old.orders child.0 parent.0 ≡ false }
        ensures adopted { Adopts self.old parent.0 child.0 self.new }
        ensures again { is_direct self.old.orders parent.0 child.0 ≡ true → self.new ≡ self.old }
    {
        if !self.direct(parent, child) {
            link(&mut self.before, &mut self.after, self.size, parent, child);
            add(&mut self.direct, self.size, parent, child);
        }
    }

    /// Finds the unordered pair of a and b in violation; a type found doubled is paired with
    /// itself.
    pub fn set_reversal(&mut self, a: TypeNo, b: TypeNo)
        requires a { IsNumber self.old.size a.0 }
        requires b { IsNumber self.old.size b.0 }
        ensures { Finds self.old a b self.new }
    {
        add(&mut self.found, self.size, a, b);
        add(&mut self.found, self.size, b, a);
    }

    /// Whether the unordered pair of a and b was found in violation.
    pub fn reversed(&self, a: TypeNo, b: TypeNo) -> bool
        requires a { IsNumber self.now.size a.0 }
        requires b { IsNumber self.now.size b.0 }
        ensures { result ≡ is_found self.now.found a.0 b.0 }
    {
        has(&self.found, self.size, a, b)
    }

    /// The path of adopted orders from a to b that goes each time to the least-numbered type that
    /// is b or before it: `None` exactly where a isn't before b.
    ///
    /// # Errors
    /// `OutOfMemory` alone, and only where a is before b.
    pub fn path(&self, a: TypeNo, b: TypeNo) -> Result<Option<Vec<TypeNo>>, Fault>
        requires a { IsNumber self.now.size a.0 }
        requires b { IsNumber self.now.size b.0 }
        ensures ok { IfOk result (λ p. path_numbers p
            ≡ path self.now.orders self.now.size a.0 b.0) }
        ensures leads { IfOk result (λ p. IfSome (path_numbers p)
            (LeadsBy self.now.orders a.0 b.0)) }
        ensures err { IfErr result (λ e. (e ≡ OutOfMemory) × Before self.now.orders a.0 b.0) }
    {
        if !self.before(a, b) {
            return Ok(None);
        }
        Ok(Some(self.way(self.alloc, a, b)?))
    }

    // From one type to another, each time to the least that leads there.
    fn way(&self, alloc: Global, from: TypeNo, to: TypeNo) -> Result<Vec<TypeNo>, AllocError>
        requires from { IsNumber self.now.size from.0 }
        requires to { IsNumber self.now.size to.0 }
        ensures { IfOk result (λ v. type_numbers v.items
            ≡ way self.now.orders self.now.size self.now.size from.0 to.0) }
    {
        let mut way = Vec::new(alloc);
        let mut at = from;
        for _step in 0..self.size {
            way.push(at)?;
            if at.0 == to.0 {
                return Ok(way);
            }
            match self.next_type(at, to) {
                Some(next) => at = next,
                None => return Ok(way),
            }
        }
        Ok(way)
    }

    // The least type to which a path from one type to another can go.
    fn next_type(&self, from: TypeNo, to: TypeNo) -> Option<TypeNo>
        requires from { IsNumber self.now.size from.0 }
        requires to { IsNumber self.now.size to.0 }
        ensures value { option_map (λ (type_no : TypeNo). type_no.0) result
            ≡ next_type self.now.orders self.now.size from.0 to.0 }
        ensures number { IfSome result (λ (type_no : TypeNo). IsNumber self.now.size type_no.0) }
    {
        let mut number = 1;
        while number <= self.size {
            let next = TypeNo(skip(&self.direct, self.size, from, number));
            if next.0 > self.size {
                return None;
            }
            if self.leads(from, next, to) {
                return Some(next);
            }
            number = next.0 + 1;
        }
        None
    }

    // Whether an adopted order goes to a type that is another or before it.
    fn leads(&self, from: TypeNo, next: TypeNo, to: TypeNo) -> bool
        requires from { IsNumber self.now.size from.0 }
        requires next { IsNumber self.now.size next.0 }
        requires to { IsNumber self.now.size to.0 }
        ensures { result ≡ leads self.now.orders from.0 to.0 next.0 }
    {
        self.direct(from, next) && (next.0 == to.0 || self.before(next, to))
    }
}
