//! Types by name, in order of first appearance.

ghost use Rattle.std.specs.Prelude.{◌≡◌, ◌≤◌, ◌<◌, ◌+◌, ◌++◌, [], ◌∷◌, true, false, length};
ghost use Rattle.std.specs.Prelude.{is_some, slice_set, slice_index, IfSome, IfNone, IfOk, IfErr};
ghost use Rattle.std.specs.Prelude.{OnOk, OnErr, Ok};
ghost use Rattle.wit_model.specs.Rules.Names.{is_name};
ghost use Rattle.wit_model.specs.Rules.Types.{is_enrolled, is_otherwise, type_number, enrolled};
ghost use Rattle.wit_model.specs.Rules.Numbers.{IsGiven};
ghost use Rattle.wit_model.specs.declared.faults.Fault.TheVariants.{OutOfMemory};
ghost use Rattle.wit_model.specs.declared.sizes.TheConstants.Limits.{MOST_TYPES};
ghost use Rattle.wit_model.specs.Rules.Refusals.{IsRefusal};
ghost use Rattle.wit_table.specs.Known.{HasNameAt, HasClassAt, enroll_answer, live_after};
ghost use Rattle.wit_table.specs.Rows.{types_in, live_in};

use indexmap::IndexMap;
use std::alloc::{AllocError, Global};
use wit_model::{Class, Fault, TypeNo};

/// What is kept of a type beside its name.
#[derive(Clone, Copy, Debug)]
pub struct TypeRow {
    /// The class of its locks, which stays.
    pub class: Class,
    /// How many of its locks are live.
    pub live: u32,
}

/// Enrols a type where its name is new, and gives its number: `Table::enroll` for a name that was
/// tested.
///
/// # Errors
/// In this order: `ClassMismatch`, `TypesFull`, `OutOfMemory`; the types are then as before.
pub fn enroll_in(
    alloc: Global,
    types: &mut IndexMap<String, TypeRow>,
    most: u32,
    name: &str,
    class: Class,
) -> Result<TypeNo, Fault>
    requires few { length (types_in types.old.entries) ≤ most }
    requires most { most ≤ MOST_TYPES }
    requires good { is_name name.now ≡ true }
    ensures ok { IfOk result (λ t. enroll_answer name.now class most (types_in types.old.entries)
        ≡ Ok t.0) }
    ensures number { IfOk result (λ t. t.0 ≡ type_number name.now (types_in types.old.entries)) }
    ensures given { IfOk result (λ t. IsGiven (types_in types.new.entries) t.0) }
    ensures err { IfErr result (IsRefusal
        (enroll_answer name.now class most (types_in types.old.entries))) }
    ensures absent { IfErr result (λ e. e ≡ OutOfMemory
        → is_enrolled name.now (types_in types.old.entries) ≡ false) }
    ensures types { OnOk result (types_in types.new.entries
        ≡ enrolled name.now class (types_in types.old.entries)) }
    ensures live { OnOk result (live_in types.new.entries
        ≡ live_after name.now (types_in types.old.entries) (live_in types.old.entries)) }
    ensures unchanged { OnErr result (types.new.entries ≡ types.old.entries) }
{
    if is_otherwise(types, name, class) {
        return Err(Fault::ClassMismatch);
    }
    if let Some(place) = place_of(types, name) {
        return Ok(TypeNo(place as u16 + 1));
    }
    let count = types.len();
    if count >= most as usize {
        return Err(Fault::TypesFull);
    }
    add_type(alloc, types, name, class)?;
    Ok(TypeNo(count as u16 + 1))
}

/// The place of the type with this name.
pub fn place_of(types: &IndexMap<String, TypeRow>, name: &str) -> Option<usize>
    ensures number { IfSome result
        (λ i. i + 1 ≡ type_number name.now (types_in types.now.entries)) }
    ensures found { is_some result ≡ is_enrolled name.now (types_in types.now.entries) }
    ensures within { IfSome result (λ i. i < length (types_in types.now.entries)) }
    ensures next { IfNone result (type_number name.now (types_in types.now.entries)
        ≡ length (types_in types.now.entries) + 1) }
{
    types.get_index_of(name)
}

/// Whether the type with this name has another class.
pub fn is_otherwise(types: &IndexMap<String, TypeRow>, name: &str, class: Class) -> bool
    ensures { result ≡ is_otherwise name.now class (types_in types.now.entries) }
{
    // `len` is called for its clause that the keys are unique, which the proof cites.
    let _len = types.len();
    match types.get(name) {
        Some(row) => row.class != class,
        None => false,
    }
}

// Adds a new type behind the others.
fn add_type(
    alloc: Global,
    types: &mut IndexMap<String, TypeRow>,
    name: &str,
    class: Class,
) -> Result<(), AllocError>
    requires { is_enrolled name.now (types_in types.old.entries) ≡ false }
    ensures types { OnOk result (types_in types.new.entries
        ≡ types_in types.old.entries ++ record { name = name.now; class = class } ∷ []) }
    ensures live { OnOk result (live_in types.new.entries ≡ live_in types.old.entries ++ 0 ∷ []) }
    ensures err { OnErr result (types.new.entries ≡ types.old.entries) }
{
    let text = String::from_str(alloc, name)?;
    types.insert(text, TypeRow { class, live: 0 })?;
    Ok(())
}

/// The name of the type at this place.
pub fn name_at(types: &IndexMap<String, TypeRow>, place: usize) -> &str
    requires { place < length (types_in types.now.entries) }
    ensures { HasNameAt (types_in types.now.entries) place result.now }
{
    let (name, _row) = types.get_index(place).unwrap();
    name.as_str()
}

/// The class of the type at this place.
pub fn class_at(types: &IndexMap<String, TypeRow>, place: usize) -> Class
    requires { place < length (types_in types.now.entries) }
    ensures { HasClassAt (types_in types.now.entries) place result }
{
    types[place].class
}

/// How many live locks the type at this place has.
pub fn live_at(types: &IndexMap<String, TypeRow>, place: usize) -> u32
    requires { place < length (types_in types.now.entries) }
    ensures { result ≡ slice_index (live_in types.now.entries) place }
{
    types[place].live
}

/// Writes the count of live locks of the type at this place.
pub fn set_live(types: &mut IndexMap<String, TypeRow>, place: usize, live: u32)
    requires { place < length (types_in types.old.entries) }
    ensures types { types_in types.new.entries ≡ types_in types.old.entries }
    ensures live { live_in types.new.entries ≡ slice_set (live_in types.old.entries) place live }
{
    types[place].live = live;
}
