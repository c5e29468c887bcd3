//! What is written: an order that is against others and the way back, the last line, and a bad line.

ghost use Rattle.std.specs.Prelude.{◌≡◌, ◌++◌, IfOk, OnOk, length, string_bytes};
ghost use Rattle.wit_circles.specs.Orders.{told_of};
ghost use Rattle.wit_model.specs.Trace.Output.{bad_text, cause_text};
ghost use Rattle.wit_against.specs.Answers.{last_text, line_text, told_text, way_text};
ghost use Rattle.wit_against.specs.Judging.{known};

use crate::orders::Orders;
use std::alloc::{AllocError, Global};
use wit_circles::{Against, Order};

// A step of a way back is set in.
const INSET: &[u8] = b"    ";

/// The text of all that is told, and the last line.
///
/// # Errors
/// Want of memory alone.
pub fn answer_text(alloc: Global, orders: &Orders, told: &[Against]) -> Result<Vec<u8>, AllocError>
    ensures { IfOk result (λ text. text.items ≡ told_text (known orders.now) (told_of told.now)
        ++ last_text (known orders.now) (length told.now)) }
{
    let mut text = Vec::new(alloc);
    put_all(&mut text, orders, told)?;
    let last = last_text(alloc, orders, told.len())?;
    text.extend_from_slice(last.as_bytes())?;
    Ok(text)
}

fn put_all(text: &mut Vec<u8>, orders: &Orders, told: &[Against]) -> Result<(), AllocError>
    ensures { OnOk result (text.new.items
        ≡ text.old.items ++ told_text (known orders.now) (told_of told.now)) }
{
    let mut rest = told;
    while let Some((against, others)) = rest.split_first() {
        put_line(text, orders.line(against.order))?;
        put_way(text, orders, against.order.to, &against.way)?;
        rest = others;
    }
    Ok(())
}

fn put_line(text: &mut Vec<u8>, line: &[u8]) -> Result<(), AllocError>
    ensures { OnOk result (text.new.items ≡ text.old.items ++ line_text line.now) }
{
    text.extend_from_slice(line)?;
    text.push(b'\n')?;
    Ok(())
}

// The orders of the way from this type on.
fn put_way(
    text: &mut Vec<u8>,
    orders: &Orders,
    first: usize,
    way: &[usize],
) -> Result<(), AllocError>
    ensures { OnOk result (text.new.items
        ≡ text.old.items ++ way_text (known orders.now) first way.now) }
{
    let mut from = first;
    let mut rest = way;
    while let Some((&to, others)) = rest.split_first() {
        text.extend_from_slice(INSET)?;
        put_line(text, orders.line(Order { from, to }))?;
        from = to;
        rest = others;
    }
    Ok(())
}

fn last_text(alloc: Global, orders: &Orders, against: usize) -> Result<String, AllocError>
    ensures { IfOk result (λ text. string_bytes text ≡ last_text (known orders.now) against) }
{
    let mut text = String::from_str(alloc, "against: ")?;
    let digits = against.to_string(alloc)?;
    text.push_str(&digits)?;
    text.push_str(" of ")?;
    let digits = orders.orders.len().to_string(alloc)?;
    text.push_str(&digits)?;
    text.push_str(" orders, ")?;
    let digits = orders.types.len().to_string(alloc)?;
    text.push_str(&digits)?;
    text.push_str(" types\n")?;
    Ok(text)
}

/// The text of a bad line, by its number from 1.
///
/// # Errors
/// Want of memory alone.
pub fn bad_text(alloc: Global, number: u64, cause: wit_model::Cause) -> Result<String, AllocError>
    ensures { IfOk result (λ text. string_bytes text ≡ bad_text number cause) }
{
    let mut text = String::from_str(alloc, "line ")?;
    let digits = number.to_string(alloc)?;
    text.push_str(&digits)?;
    text.push_str(": ")?;
    text.push_str(cause_words(cause))?;
    text.push('\n')?;
    Ok(text)
}

fn cause_words(cause: wit_model::Cause) -> &'static str
    ensures { result.now ≡ cause_text cause }
{
    match cause {
        wit_model::Cause::Long => "long",
        wit_model::Cause::Cut => "cut",
        wit_model::Cause::Syntax => "syntax",
        wit_model::Cause::Version => "version",
        wit_model::Cause::Limit => "limit",
        wit_model::Cause::Fault(fault) => fault.text(),
    }
}
