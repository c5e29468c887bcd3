//! Static lists and blessed pairs, as C gives them.

ghost use Rattle.std.specs.Prelude.{◌≡◌, map, IfOk};
ghost use Rattle.std.specs.List.{list_all};
ghost use Rattle.wit_known.specs.Listed.{entry_of, listed, all_listed, pair_of, pairs_of};
ghost use Rattle.wit_c.specs.Starts.{have_classes, has_class, type_in, lists_in, pair_in};

use crate::numbers::class_in;
use crate::texts::name_in;
use std::alloc::{AllocError, Global};
use wit_model::Class;

/// A type of a static list.
#[repr(C)]
#[derive(Clone, Copy)]
pub struct ListedType<'a> {
    /// The number of its class.
    pub class: u8,
    /// Its name.
    pub name: &'a [u8],
}

/// Two types whose locks may be taken in either order.
#[repr(C)]
#[derive(Clone, Copy)]
pub struct BlessedPair<'a> {
    /// The one.
    pub first: &'a [u8],
    /// The other.
    pub second: &'a [u8],
}

/// Whether each type of these lists has a class.
pub fn have_classes(lists: &[&[ListedType]]) -> bool
    ensures { result ≡ have_classes lists.now }
{
    lists.iter().all(|list| has_classes(list))
}

fn has_classes(list: &[ListedType]) -> bool
    ensures { result ≡ list_all has_class list.now }
{
    list.iter().all(|listed| has_class(listed))
}

fn has_class(listed: &ListedType) -> bool
    ensures { result ≡ has_class listed.now }
{
    class_in(listed.class).is_some()
}

/// These lists; a type that has no class counts as a mutex's.
///
/// # Errors
/// Want of memory alone.

pub fn lists_in(
    alloc: Global,
    lists: &[&[ListedType]],
) -> Result<Vec<Vec<(Class, String)>>, AllocError>
    ensures { IfOk result (λ all. all_listed all.items ≡ lists_in lists.now) }
{
    let mut all = Vec::new(alloc);
    for list in lists {
        all.push(list_in(alloc, list)?)?;
    }
    Ok(all)
}

fn list_in(alloc: Global, types: &[ListedType]) -> Result<Vec<(Class, String)>, AllocError>
    ensures { IfOk result (λ all. listed all.items ≡ map type_in types.now) }
{
    let mut all = Vec::new(alloc);
    for listed in types {
        all.push(type_in(alloc, listed)?)?;
    }
    Ok(all)
}

fn type_in(alloc: Global, listed: &ListedType) -> Result<(Class, String), AllocError>
    ensures { IfOk result (λ entry. entry_of entry ≡ type_in listed.now) }
{
    let class = class_in(listed.class).unwrap_or(Class::SleepMutex);
    Ok((class, String::from_str(alloc, name_in(listed.name))?))
}

/// These pairs.
///
/// # Errors
/// Want of memory alone.

pub fn pairs_in(alloc: Global, pairs: &[BlessedPair]) -> Result<Vec<(String, String)>, AllocError>
    ensures { IfOk result (λ all. pairs_of all.items ≡ map pair_in pairs.now) }
{
    let mut all = Vec::new(alloc);
    for pair in pairs {
        all.push(one_pair(alloc, pair)?)?;
    }
    Ok(all)
}

fn one_pair(alloc: Global, pair: &BlessedPair) -> Result<(String, String), AllocError>
    ensures { IfOk result (λ p. pair_of p ≡ pair_in pair.now) }
{
    let first = String::from_str(alloc, name_in(pair.first))?;
    let second = String::from_str(alloc, name_in(pair.second))?;
    Ok((first, second))
}
