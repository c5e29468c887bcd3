//! Questions to the table of names.

ghost use Rattle.std.specs.Prelude.{◌≡◌};
ghost use Rattle.wit_model.specs.Rules.Types.{is_enrolled, type_number};
ghost use Rattle.wit_model.specs.Rules.Numbers.{is_given};

use wit_model::TypeNo;
use wit_table::Table;

/// Whether a type has this name.
pub fn is_enrolled(names: &Table, name: &str) -> bool
    ensures { result ≡ is_enrolled name.now names.now.types }
{
    names.find(name).is_some()
}

/// The number that the type with this name has, or would get.
pub fn type_number(names: &Table, name: &str) -> TypeNo
    ensures { result.0 ≡ type_number name.now names.now.types }
{
    match names.find(name) {
        Some(number) => number,
        None => TypeNo(names.len() as u16 + 1),
    }
}

/// Whether a type has this number.
pub fn is_type(names: &Table, number: TypeNo) -> bool
    ensures { result ≡ is_given names.now.types number.0 }
{
    0 < number.0 && number.0 as usize <= names.len()
}
