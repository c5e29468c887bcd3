//! The direct orders.

ghost use Rattle.std.specs.Prelude.{◌≡◌, ◌++◌, string_bytes, OnOk};
ghost use Rattle.wit_model.specs.Rules.State.{known_of};
ghost use Rattle.wit_state.specs.State.{order_item, order_items, orders_from};

use crate::fields::put_field;
use std::alloc::{AllocError, Global};
use wit_core::Verifier;
use wit_model::TypeNo;
use wit_report::{put_origin, type_words};

/// Adds the direct orders, by the parent's number, then by the child's.
///
/// # Errors
/// Want of memory alone.
pub fn put_orders(text: &mut String, alloc: Global, verifier: &Verifier) -> Result<(), AllocError>
    ensures { OnOk result (string_bytes text.new ≡ string_bytes text.old
        ++ order_items (known_of verifier.now.start verifier.now.history) verifier.now.files) }
{
    for place in 0..verifier.types() {
        put_orders_of(text, alloc, verifier, TypeNo(place as u16 + 1))?;
    }
    Ok(())
}

// Those that go from one type, by the children's numbers.
fn put_orders_of(
    text: &mut String,
    alloc: Global,
    verifier: &Verifier,
    parent: TypeNo,
) -> Result<(), AllocError>
    ensures { OnOk result (string_bytes text.new ≡ string_bytes text.old
        ++ orders_from (known_of verifier.now.start verifier.now.history) verifier.now.files
        parent.0) }
{
    for place in 0..verifier.types() {
        let child = TypeNo(place as u16 + 1);
        if verifier.is_direct(parent, child) {
            put_order(text, alloc, verifier, parent, child)?;
        }
    }
    Ok(())
}

fn put_order(
    text: &mut String,
    alloc: Global,
    verifier: &Verifier,
    parent: TypeNo,
    child: TypeNo,
) -> Result<(), AllocError>
    ensures { OnOk result (string_bytes text.new ≡ string_bytes text.old
        ++ order_item (known_of verifier.now.start verifier.now.history) verifier.now.files
        parent.0 child.0) }
{
    text.push_str("order")?;
    put_field(text, type_words(verifier, parent))?;
    put_field(text, type_words(verifier, child))?;
    text.push('\t')?;
    put_origin(text, alloc, verifier, verifier.origin(parent, child))?;
    text.push('\n')
}
