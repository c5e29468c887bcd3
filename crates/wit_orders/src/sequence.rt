//! The types that were listed, as they are written, in their sequence.

ghost use Rattle.std.specs.Prelude.{◌≡◌, ◌++◌, ◌∷◌, [], None, OnOk};
ghost use Rattle.wit_orders.specs.Answers.{place_in};
ghost use Rattle.wit_orders.specs.Sequence.{written};

use indexmap::IndexSet;
use std::alloc::{AllocError, Global};

/// Where a type that is written so stands.
pub fn place_of(types: &IndexSet<Vec<u8>>, text: &[u8]) -> Option<usize>
    ensures { result ≡ place_in (written types.now.keys) text.now }
{
    types.get_index_of(text)
}

/// A type that isn't listed yet goes last.
///
/// # Errors
/// Want of memory alone.
pub fn list(alloc: Global, types: &mut IndexSet<Vec<u8>>, text: &[u8]) -> Result<(), AllocError>
    requires { place_in (written types.old.keys) text.now ≡ None }
    ensures { OnOk result (written types.new.keys ≡ written types.old.keys ++ text.now ∷ []) }
{
    types.insert(Vec::from_slice(alloc, text)?)?;
    Ok(())
}
