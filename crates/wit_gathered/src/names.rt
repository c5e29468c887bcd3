//! Sets of names, which give a number to each.

ghost use Rattle.std.specs.Prelude.{◌≡◌, IfOk, OnOk, is_some, length};
ghost use Rattle.wit_gathered.specs.Names.{has_name, number_in, place_in, with_name, written};

use indexmap::IndexSet;
use std::alloc::{AllocError, Global};

/// Names, in the sequence in which they came.
pub type Names = IndexSet<Vec<u8>>;

/// The number of a name. One that isn't there goes last.
///
/// # Errors
/// Want of memory alone.
pub fn number(alloc: Global, names: &mut Names, name: &[u8]) -> Result<usize, AllocError>
    ensures number { IfOk result (λ n. n ≡ number_in (written names.old.keys) name.now) }
    ensures names { OnOk result (written names.new.keys ≡ with_name (written names.old.keys) name.now) }
{
    if let Some(place) = place_of(names, name) {
        return Ok(place);
    }
    let place = count(names);
    add_name(alloc, names, name)?;
    Ok(place)
}

/// Where a name stands.
pub fn place_of(names: &Names, name: &[u8]) -> Option<usize>
    ensures place { result ≡ place_in (written names.now.keys) name.now }
    ensures found { is_some result ≡ has_name (written names.now.keys) name.now }
{
    names.get_index_of(name)
}

fn count(names: &Names) -> usize
    ensures { result ≡ length (written names.now.keys) }
{
    names.len()
}

fn add_name(alloc: Global, names: &mut Names, name: &[u8]) -> Result<(), AllocError>
    ensures { OnOk result (written names.new.keys ≡ with_name (written names.old.keys) name.now) }
{
    names.insert(Vec::from_slice(alloc, name)?)?;
    Ok(())
}
