//! The path by which an order is established, a line a step.

ghost use Rattle.std.specs.Prelude.{◌≡◌, ◌∷◌, ◌++◌, length, string_bytes, OnOk};
ghost use Rattle.wit_model.specs.Rules.State.{known_of, orders_of, types_of};
ghost use Rattle.wit_model.specs.Rules.Types.{name_of};
ghost use Rattle.wit_model.specs.Trace.Paths.{path, type_numbers};
ghost use Rattle.wit_model.specs.Trace.Texts.{origin_words, order_line, order_lines, established};

use crate::pieces::{put_quoted, put_site};
use std::alloc::{AllocError, Global};
use wit_core::Verifier;
use wit_model::{Origin, TypeNo};

/// Adds the path by which the order from one type to another is established, a line a step; nothing
/// where no path leads there.
///
/// # Errors
/// Want of memory alone.
pub fn put_established(
    text: &mut String,
    alloc: Global,
    verifier: &Verifier,
    from: TypeNo,
    to: TypeNo,
) -> Result<(), AllocError>
    ensures { OnOk result (string_bytes text.new ≡ string_bytes text.old
        ++ established (known_of verifier.now.start verifier.now.history) verifier.now.files
        (path (orders_of verifier.now.start verifier.now.history)
        (length (types_of verifier.now.start verifier.now.history)) from.0 to.0)) }
{
    match verifier.path(from, to) {
        Ok(Some(path)) => {
            text.push_str("established order:\n")?;
            put_orders(text, alloc, verifier, &path)?;
            Ok(())
        }
        Ok(None) => Ok(()),
        Err(_) => Err(AllocError),
    }
}

// The orders between neighbours of a path.
fn put_orders(
    text: &mut String,
    alloc: Global,
    verifier: &Verifier,
    path: &[TypeNo],
) -> Result<(), AllocError>
    ensures { OnOk result (string_bytes text.new ≡ string_bytes text.old
        ++ order_lines (known_of verifier.now.start verifier.now.history) verifier.now.files
        (type_numbers path.now)) }
{
    match path {
        [] => Ok(()),
        [first, others @ ..] => put_orders_from(text, alloc, verifier, *first, others),
    }
}

fn put_orders_from(
    text: &mut String,
    alloc: Global,
    verifier: &Verifier,
    first: TypeNo,
    others: &[TypeNo],
) -> Result<(), AllocError>
    ensures { OnOk result (string_bytes text.new ≡ string_bytes text.old
        ++ order_lines (known_of verifier.now.start verifier.now.history) verifier.now.files
        (first.0 ∷ type_numbers others.now)) }
{
    let mut parent = first;
    for child in others {
        put_order(text, alloc, verifier, parent, *child)?;
        parent = *child;
    }
    Ok(())
}

// A direct order, as a line.
fn put_order(
    text: &mut String,
    alloc: Global,
    verifier: &Verifier,
    parent: TypeNo,
    child: TypeNo,
) -> Result<(), AllocError>
    ensures { OnOk result (string_bytes text.new ≡ string_bytes text.old
        ++ order_line (known_of verifier.now.start verifier.now.history) verifier.now.files
        parent.0 child.0) }
{
    text.push(' ')?;
    put_quoted(text, type_words(verifier, parent))?;
    text.push_str(" -> ")?;
    put_quoted(text, type_words(verifier, child))?;
    text.push_str(" @ ")?;
    put_origin(text, alloc, verifier, verifier.origin(parent, child))?;
    text.push('\n')?;
    Ok(())
}

/// The name of a type; empty for a number that was never given.
pub fn type_words(verifier: &Verifier, number: TypeNo) -> &str
    ensures { result.now ≡ name_of number.0 (types_of verifier.now.start verifier.now.history) }
{
    match verifier.type_name(number) {
        Some(name) => name,
        None => "",
    }
}

/// Adds where an order comes from: the place as `FILE:LINE`, `listed` or `defined`; nothing of an order
/// that there isn't.
///
/// # Errors
/// Want of memory alone.
pub fn put_origin(
    text: &mut String,
    alloc: Global,
    verifier: &Verifier,
    origin: Option<Origin>,
) -> Result<(), AllocError>
    ensures { OnOk result (string_bytes text.new ≡ string_bytes text.old
        ++ origin_words verifier.now.files origin) }
{
    match origin {
        None => Ok(()),
        Some(Origin::Listed) => text.push_str("listed"),
        Some(Origin::Defined) => text.push_str("defined"),
        Some(Origin::At(site)) => put_site(text, alloc, verifier, site),
    }
}
