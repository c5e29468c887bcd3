//! Sets of names.

ghost use Rattle.std.specs.Prelude.{◌≡◌, OnOk, length};
ghost use Rattle.wit_import.specs.Names.{has_name, place_in, with_name, written};

use indexmap::IndexSet;
use std::alloc::{AllocError, Global};

/// Names, in the sequence in which they came.
pub type Names = IndexSet<Vec<u8>>;

/// Where a name stands.
pub fn place_of(names: &Names, name: &[u8]) -> Option<usize>
    ensures { result ≡ place_in (written names.now.keys) name.now }
{
    names.get_index_of(name)
}

/// How many there are.
pub fn count(names: &Names) -> usize
    ensures { result ≡ length (written names.now.keys) }
{
    names.len()
}

/// Whether a name is there.
pub fn has_name(names: &Names, name: &[u8]) -> bool
    ensures { result ≡ has_name (written names.now.keys) name.now }
{
    names.contains(name)
}

/// A name that isn't there goes last.
///
/// # Errors
/// Want of memory alone.
pub fn add_name(alloc: Global, names: &mut Names, name: &[u8]) -> Result<(), AllocError>
    ensures { OnOk result (written names.new.keys ≡ with_name (written names.old.keys) name.now) }
{
    names.insert(Vec::from_slice(alloc, name)?)?;
    Ok(())
}
