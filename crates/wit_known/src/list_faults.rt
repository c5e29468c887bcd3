//! What is wrong with a static list, by its entries and the types that there are.

ghost use Rattle.std.specs.Prelude.{◌≡◌, not, ◌&&◌, ◌||◌, length, string_bytes, ℕ, List};
ghost use Rattle.std.specs.List.{list_any};
ghost use Rattle.std.specs.Str.{bytes_eq};
ghost use Rattle.wit_model.specs.declared.locks.Class.{Class};
ghost use Rattle.wit_model.specs.Rules.Names.{is_name};
ghost use Rattle.wit_model.specs.Rules.Types.{is_spin, is_same_class, is_enrolled, enrolled_all};
ghost use Rattle.wit_model.specs.Rules.Start.{is_misclassed, has_both_kinds, has_twin};
ghost use Rattle.wit_known.specs.Listed.{entry_of, listed};

use crate::names::is_enrolled;
use wit_model::{Class, Name};
use wit_table::Table;

/// Whether an entry has a name that is none.
pub(crate) fn has_bad_name(list: &[(Class, String)]) -> bool
    ensures { result ≡ list_any (λ (each : Class × List ℕ). not (is_name each.1))
        (listed list.now) }
{
    list.iter().any(|e| !Name::accepts(&e.1))
}

/// Whether an entry gives a name another class than it has, or than the list gives it elsewhere.
pub(crate) fn has_other_class(names: &Table, list: &[(Class, String)]) -> bool
    ensures { result ≡ list_any (is_misclassed names.now.types (listed list.now))
        (listed list.now) }
{
    list.iter().any(|e| is_misclassed(names, list, e))
}

fn is_misclassed(names: &Table, list: &[(Class, String)], entry: &(Class, String)) -> bool
    ensures { result ≡ is_misclassed names.now.types (listed list.now) (entry_of entry.now) }
{
    names.is_otherwise(&entry.1, entry.0) || is_listed_otherwise(list, &entry.1, entry.0)
}

/// Whether a list has this name with another class.
fn is_listed_otherwise(list: &[(Class, String)], name: &str, class: Class) -> bool
    ensures { result ≡ list_any (λ (each : Class × List ℕ). bytes_eq each.1 name.now
        && not (is_same_class each.0 class)) (listed list.now) }
{
    list.iter().any(|e| e.1.as_str() == name && e.0 != class)
}

/// Whether a list has this name.
fn is_listed(list: &[(Class, String)], name: &str) -> bool
    ensures { result ≡ list_any (λ (each : Class × List ℕ). bytes_eq each.1 name.now)
        (listed list.now) }
{
    list.iter().any(|e| e.1.as_str() == name)
}

/// How many types there are once a list is entered.
pub(crate) fn types_with(names: &Table, list: &[(Class, String)]) -> usize
    ensures { result ≡ length (enrolled_all (listed list.now) names.now.types) }
{
    let mut count = names.len();
    for (place, entry) in list.iter().enumerate() {
        if is_new(names, &list[..place], entry) {
            count += 1;
        }
    }
    count
}

/// Whether no type and none of these entries has an entry's name.
fn is_new(names: &Table, earlier: &[(Class, String)], entry: &(Class, String)) -> bool
    ensures { result ≡ not (is_enrolled (string_bytes entry.now.1) names.now.types
        || list_any (λ (each : Class × List ℕ). bytes_eq each.1 (string_bytes entry.now.1))
        (listed earlier.now)) }
{
    !(is_enrolled(names, &entry.1) || is_listed(earlier, &entry.1))
}

/// Whether a list has both spin locks and others.
pub(crate) fn has_both_kinds(list: &[(Class, String)]) -> bool
    ensures { result ≡ has_both_kinds (listed list.now) }
{
    has_spin(list) && has_sleep(list)
}

fn has_spin(list: &[(Class, String)]) -> bool
    ensures { result ≡ list_any (λ (each : Class × List ℕ). is_spin each.0) (listed list.now) }
{
    list.iter().any(|e| e.0.is_spin())
}

fn has_sleep(list: &[(Class, String)]) -> bool
    ensures { result ≡ list_any (λ (each : Class × List ℕ). not (is_spin each.0))
        (listed list.now) }
{
    list.iter().any(|e| !e.0.is_spin())
}

/// Whether two neighbours have one name.
pub(crate) fn has_twin(list: &[(Class, String)]) -> bool
    ensures { result ≡ has_twin (listed list.now) }
{
    for place in 1..list.len() {
        if are_twins(&list[place - 1], &list[place]) {
            return true;
        }
    }
    false
}

/// Whether two entries have one name.
pub(crate) fn are_twins(a: &(Class, String), b: &(Class, String)) -> bool
    ensures { result ≡ bytes_eq (string_bytes a.now.1) (string_bytes b.now.1) }
{
    a.1.as_str() == b.1.as_str()
}
