//! Names.

use std::marker::Brand;

/// Which list it is. A type has it as a parameter, so that a front and a keeper of the same type
/// belong to the same list.
pub trait Naming {
    ghost use Rattle.wit_adoptions.specs.Naming.{Name};

    ghost list: { Name };
}

impl Naming for Brand {
    ghost use Rattle.wit_adoptions.specs.Naming.{name};

    ghost list = { name (record { number = 0; log_name = 0; cells_name = 0 }) 0 };
}
