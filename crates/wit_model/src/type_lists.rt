//! Static lists of types.

ghost use Rattle.std.specs.Prelude.{◌≡◌, [], ◌∷◌, ◌++◌, OnOk, OnErr};

use crate::locks::Class;
use crate::names::Name;
use std::alloc::{AllocError, Global};
use std::marker::Model;

/// Types by class and name, in the order in which their locks are taken.
#[derive(Debug, Drop)]
pub struct TypeList {
    types: Vec<(Class, Name)>,
}

impl Model for TypeList {
    ghost use Rattle.std.specs.Prelude.{ℕ, List};
    ghost use Rattle.wit_model.specs.declared.locks.Class.{Class};

    ghost Value = { List (Class × List ℕ) };

    ghost view = { λ l. l.types.items };
}

impl TypeList {
    /// A list of no types.
    pub fn new(alloc: Global) -> TypeList
        ensures { result ≡ [] }
    {
        TypeList {
            types: Vec::new(alloc),
        }
    }

    /// Adds a type behind the others.
    ///
    /// # Errors
    /// Want of memory alone. The list is unchanged then.
    pub fn push(&mut self, class: Class, name: Name) -> Result<(), AllocError>
        ensures ok { OnOk result (self.new ≡ self.old ++ (class, name) ∷ []) }
        ensures err { OnErr result (self.new ≡ self.old) }
    {
        self.types.push((class, name))?;
        Ok(())
    }

    /// The types, for good.
    pub fn into_types(self) -> Vec<(Class, Name)>
        ensures { result.items ≡ self }
    {
        self.types
    }

    /// The types.
    pub fn types(&self) -> &[(Class, Name)]
        ensures { result.now ≡ self.now }
    {
        &self.types
    }
}
