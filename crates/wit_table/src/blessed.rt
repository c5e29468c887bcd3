//! Pairs of names that are blessed.

ghost use Rattle.std.specs.Prelude.{◌≡◌, ◌++◌, [], ◌∷◌, true, OnOk, OnErr};
ghost use Rattle.wit_table.specs.Known.{are_blessed, are_names};

use std::alloc::{AllocError, Global};
use wit_model::Name;

/// Adds a pair of names.
///
/// # Errors
/// Want of memory alone.
pub fn add_pair(
    alloc: Global,
    pairs: &mut Vec<(Name, Name)>,
    a: &str,
    b: &str,
) -> Result<(), AllocError>
    requires { are_names a.now b.now ≡ true }
    ensures ok { OnOk result (pairs.new.items ≡ pairs.old.items ++ (a.now, b.now) ∷ []) }
    ensures err { OnErr result (pairs.new.items ≡ pairs.old.items) }
{
    let first = Name::tested(alloc, a)?;
    let second = Name::tested(alloc, b)?;
    pairs.push((first, second))?;
    Ok(())
}

/// Whether one of the pairs holds these two names, in either order.
pub fn is_blessed(pairs: &[(Name, Name)], a: &str, b: &str) -> bool
    ensures { result ≡ are_blessed a.now b.now pairs.now }
{
    pairs.iter().any(|p| {
        (p.0.as_str() == a && p.1.as_str() == b) || (p.0.as_str() == b && p.1.as_str() == a)
    })
}
