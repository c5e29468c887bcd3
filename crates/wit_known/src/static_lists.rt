//! Static lists: why one is refused, and how one is entered.

ghost use Rattle.std.specs.Prelude.{◌≡◌, ◌<◌, ◌≤◌, ◌+◌, ◌++◌, true, false, None, Some, ◌⊎◌, length};
ghost use Rattle.std.specs.Prelude.{drop, string_bytes, IfErr, OnOk, ℕ, List};
ghost use Rattle.std.specs.List.{list_any};
ghost use Rattle.wit_model.specs.declared.locks.Class.{Class};
ghost use Rattle.wit_model.specs.Rules.Types.{enrolled_all, type_number};
ghost use Rattle.wit_model.specs.Rules.Orders.{listed_pairs, adopted_once};
ghost use Rattle.wit_model.specs.declared.locks.Origin.TheVariants.{Listed};
ghost use Rattle.wit_model.specs.Rules.Start.{list_fault, lists_fault, has_bad_pair};
ghost use Rattle.wit_model.specs.declared.faults.Fault.TheVariants.{BadName, OutOfMemory};
ghost use Rattle.wit_known.specs.Listed.{listed, all_listed, pairs_of, list_entered, lists_entered};
ghost use Rattle.wit_known.specs.Listed.{IsWithin, is_back, goes_back, AreRefused, CanBeEnrolled};
ghost use Rattle.wit_known.specs.Listed.{CanBeAdopted, KeepsRest};
ghost use Rattle.wit_known.specs.Following.{CanFollow};

use crate::known::Known;
use crate::list_faults::{
    are_twins, has_bad_name, has_both_kinds, has_other_class, has_twin, types_with,
};
use crate::names::type_number;
use crate::orders::Orders;
use std::alloc::AllocError;
use wit_model::{Adoption, Class, Fault, Origin, TypeNo};
use wit_table::Table;

/// Why a verifier can't be made.
#[derive(Clone, Copy, Debug, PartialEq, Eq)]
pub struct StartError {
    /// The refused static list, from 1; 0 for the blessed pairs, and for want of memory elsewhere.
    pub list: u64,
    /// Why it is refused.
    pub fault: Fault,
}

impl From<Fault> for StartError {
    ghost from_gives = { λ fault e. e ≡ record { list = 0; fault = fault } };

    fn from(fault: Fault) -> StartError {
        StartError { list: 0, fault }
    }
}

impl From<AllocError> for StartError {
    ghost from_gives = { λ _ e. e ≡ record { list = 0; fault = OutOfMemory } };

    fn from(_error: AllocError) -> StartError {
        StartError {
            list: 0,
            fault: Fault::OutOfMemory,
        }
    }
}

impl Known {
    /// Enters static lists, each behind those before it, where there may be this many types.
    ///
    /// # Errors
    /// The first list that is refused, from 1, and why; or `OutOfMemory` in place of an acceptance.
    pub fn enter_lists(
        &mut self,
        most: u32,
        lists: &[Vec<(Class, String)>],
    ) -> Result<(), StartError>
        requires most { most ≡ self.old.most_types }
        requires within { IsWithin (length self.old.known.types) self.old.known.orders }
        ensures accepted { OnOk result
            (lists_fault most 1 (all_listed lists.now) self.old.known.types self.old.known.orders
            ≡ None) }
        ensures entered { OnOk result (self.new ≡ record self.old {
          known = lists_entered self.old.known (all_listed lists.now);
          spare = self.new.spare;
        }) }
        ensures err { IfErr result (λ e. AreRefused
            (lists_fault most 1 (all_listed lists.now) self.old.known.types self.old.known.orders)
            (all_listed lists.now) e.list e.fault) }
    {
        for (place, list) in lists.iter().enumerate() {
            let number = place as u64 + 1;
            self.enter_next(most, number, list)?;
        }
        Ok(())
    }

    // Enters the list with this number where it isn't refused.
    fn enter_next(
        &mut self,
        most: u32,
        number: u64,
        list: &[(Class, String)],
    ) -> Result<(), StartError>
        requires most { most ≡ self.old.most_types }
        requires within { IsWithin (length self.old.known.types) self.old.known.orders }
        ensures accepted { OnOk result
            (list_fault most self.old.known.types self.old.known.orders (listed list.now) ≡ None) }
        ensures entered { OnOk result (self.new ≡ record self.old {
          known = list_entered self.old.known (listed list.now);
          spare = self.new.spare;
        }) }
        ensures number { IfErr result (λ e. e.list ≡ number) }
        ensures err { IfErr result (λ e.
            (list_fault most self.old.known.types self.old.known.orders (listed list.now)
            ≡ Some e.fault)
            ⊎ ((e.fault ≡ OutOfMemory) × (list_fault most self.old.known.types self.old.known.orders
            (listed list.now) ≡ None))) }
    {
        if let Some(fault) = self.list_fault(most, list) {
            return Err(StartError {
                list: number,
                fault,
            });
        }
        match self.enter_list(most, list) {
            Ok(()) => Ok(()),
            Err(fault) => Err(StartError {
                list: number,
                fault,
            }),
        }
    }

    // Why a list is refused, where there may be this many types.
    fn list_fault(&self, most: u32, list: &[(Class, String)]) -> Option<Fault>
        requires { IsWithin (length self.now.known.types) self.now.known.orders }
        ensures { result ≡ list_fault most self.now.known.types self.now.known.orders
            (listed list.now) }
    {
        if has_bad_name(list) {
            return Some(Fault::BadName);
        }
        if has_other_class(&self.names, list) {
            return Some(Fault::ClassMismatch);
        }
        if (most as usize) < types_with(&self.names, list) {
            return Some(Fault::TypesFull);
        }
        if has_both_kinds(list) {
            return Some(Fault::KindMismatch);
        }
        if has_twin(list) {
            return Some(Fault::SameType);
        }
        if self.goes_back(list) {
            return Some(Fault::WrongOrder);
        }
        None
    }

    // Whether a later entry's type is an earlier one's or before it. So is the second of two
    // neighbours that is before the first once those before them are adopted.
    fn goes_back(&self, list: &[(Class, String)]) -> bool
        ensures { result ≡ goes_back self.now.known.types self.now.known.orders (listed list.now) }
    {
        for (place, first) in list.iter().enumerate() {
            if self.is_behind(first, behind(list, place)) {
                return true;
            }
        }
        false
    }

    // Whether the type of one of these entries is that of another or before it.
    fn is_behind(&self, first: &(Class, String), list: &[(Class, String)]) -> bool
        ensures { result ≡ list_any (λ (each : Class × List ℕ).
            is_back self.now.known.types self.now.known.orders
            (string_bytes first.now.1) each.1) (listed list.now) }
    {
        for entry in list {
            if self.is_back(first, entry) {
                return true;
            }
        }
        false
    }

    // Whether an entry's type is that of another or before it.
    fn is_back(&self, first: &(Class, String), entry: &(Class, String)) -> bool
        ensures { result ≡ is_back self.now.known.types self.now.known.orders
            (string_bytes first.now.1) (string_bytes entry.now.1) }
    {
        if are_twins(entry, first) {
            return true;
        }
        let (a, b) = (number_of(&self.names, entry), number_of(&self.names, first));
        self.orders.is_before(a, b)
    }

    // Enters a list that isn't refused.
    fn enter_list(&mut self, most: u32, list: &[(Class, String)]) -> Result<(), Fault>
        requires most { most ≡ self.old.most_types }
        requires accepted { list_fault most self.old.known.types self.old.known.orders
            (listed list.now) ≡ None }
        ensures ok { OnOk result (self.new ≡ record self.old {
          known = list_entered self.old.known (listed list.now);
          spare = self.new.spare;
        }) }
        ensures err { IfErr result (λ e. e ≡ OutOfMemory) }
    {
        enroll_all(&mut self.names, list)?;
        adopt_all(&mut self.orders, &self.names, list)?;
        Ok(())
    }

    /// Blesses pairs of names.
    ///
    /// # Errors
    /// `BadName` where one of them is no name; `OutOfMemory`. The pairs before the one that is
    /// refused are blessed then.
    pub fn bless_all(&mut self, pairs: &[(String, String)]) -> Result<(), Fault>
        ensures good { OnOk result (has_bad_pair (pairs_of pairs.now) ≡ false) }
        ensures ok { OnOk result (self.new ≡ record self.old {
          known = record self.old.known { blessed = self.old.known.blessed ++ pairs_of pairs.now };
        }) }
        ensures err { IfErr result (λ e. ((e ≡ BadName)
            × (has_bad_pair (pairs_of pairs.now) ≡ true)) ⊎ (e ≡ OutOfMemory)) }
    {
        bless_each(&mut self.names, pairs)
    }
}

// Blesses pairs of names, up to one that is refused.
fn bless_each(names: &mut Table, pairs: &[(String, String)]) -> Result<(), Fault>
    ensures good { OnOk result (has_bad_pair (pairs_of pairs.now) ≡ false) }
    ensures ok { OnOk result (names.new
        ≡ record names.old { blessed = names.old.blessed ++ pairs_of pairs.now }) }
    ensures rest { names.new ≡ record names.old { blessed = names.new.blessed } }
    ensures err { IfErr result (λ e. ((e ≡ BadName) × (has_bad_pair (pairs_of pairs.now) ≡ true))
        ⊎ (e ≡ OutOfMemory)) }
{
    for pair in pairs {
        names.bless(&pair.0, &pair.1)?;
    }
    Ok(())
}

// The entries behind the one at this place.
fn behind(list: &[(Class, String)], place: usize) -> &[(Class, String)]
    requires { place < length list.now }
    ensures { result.now ≡ drop (place + 1) list.now }
{
    &list[place + 1..]
}

// The number that an entry's type has, or would get.
fn number_of(names: &Table, entry: &(Class, String)) -> TypeNo
    ensures { result.0 ≡ type_number (string_bytes entry.now.1) names.now.types }
{
    type_number(names, &entry.1)
}

// Enrolls the types of a list that are new.
fn enroll_all(names: &mut Table, list: &[(Class, String)]) -> Result<(), Fault>
    requires { CanBeEnrolled names.old.most_types names.old.types (listed list.now) }
    ensures types { OnOk result (names.new.types ≡ enrolled_all (listed list.now) names.old.types) }
    ensures rest { KeepsRest names.old names.new }
    ensures err { IfErr result (λ e. e ≡ OutOfMemory) }
{
    for entry in list {
        let _number = names.enroll(&entry.1, entry.0)?;
    }
    Ok(())
}

// Adopts the orders of a list's neighbours that are new.
fn adopt_all(orders: &mut Orders, names: &Table, list: &[(Class, String)]) -> Result<(), AllocError>
    requires few { length names.now.types ≤ orders.old.size }
    requires can { CanBeAdopted names.now.types orders.old.orders (listed list.now) }
    ensures size { orders.new.size ≡ orders.old.size }
    ensures ok { OnOk result (orders.new ≡ record orders.old {
      orders = listed_pairs names.now.types (listed list.now) orders.old.orders;
      spare = orders.new.spare;
    }) }
{
    for place in 1..list.len() {
        let parent = number_of(names, &list[place - 1]);
        let child = number_of(names, &list[place]);
        adopt_once(orders, parent, child)?;
    }
    Ok(())
}

// Adopts an order of a list where it is new.
fn adopt_once(orders: &mut Orders, parent: TypeNo, child: TypeNo) -> Result<(), AllocError>
    requires { CanFollow orders.old.size orders.old.orders parent.0 child.0 }
    ensures size { orders.new.size ≡ orders.old.size }
    ensures ok { OnOk result (orders.new ≡ record orders.old {
      orders = adopted_once parent.0 child.0 Listed orders.old.orders;
      spare = orders.new.spare;
    }) }
{
    if !orders.is_direct(parent, child) {
        orders.make_room(1)?;
        orders.adopt(Adoption {
            parent,
            child,
            origin: Origin::Listed,
        });
    }
    Ok(())
}
