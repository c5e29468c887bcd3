//! Reading a line: a type of the sequence, or a pair of types.

ghost use Rattle.std.specs.Prelude.{◌≡◌};
ghost use Rattle.wit_fields.specs.Fields.{Gives};
ghost use Rattle.wit_model.specs.Trace.Reading.{class_named};
ghost use Rattle.wit_orders.specs.Reading.{ReadsLine, ReadsType, first_type, is_remark};
ghost use Rattle.wit_orders.specs.Reading.{leading_type_name, order_line, second_type};

use wit_fields::LineError;
use wit_fields::words::{fixed, skip, split_before};
use wit_model::Class;

/// What a line says. `T` is what stands for a type.
#[derive(Clone, Copy, Debug)]
pub enum OrderLine<T> {
    /// The next type of the sequence.
    Listed(T),
    /// A pair: the second type was asked for while the first was held.
    Pair(T, T),
}

/// What a line says, each type as it is written: `CLASS "NAME"`, or two of these with ` > ` between
/// them, behind which a tab, `#` and any remark may stand.
///
/// # Errors
/// `Bad(Cause::Syntax)` where it says neither.
#[tactic(auto, unfolding(crate::specs::Reading::order_line, crate::specs::Reading::pair_of))]
pub fn order_line(bytes: &[u8]) -> Result<OrderLine<&[u8]>, LineError>
    ensures { ReadsLine result (order_line bytes.now) }
{
    let (first, rest) = first_text(bytes)?;
    if rest.is_empty() {
        return Ok(OrderLine::Listed(first));
    }
    let (second, rest) = second_text(rest)?;
    if is_remark(rest) {
        Ok(OrderLine::Pair(first, second))
    } else {
        Err(LineError::SYNTAX)
    }
}

fn is_remark(bytes: &[u8]) -> bool
    ensures { result ≡ is_remark bytes.now }
{
    bytes.is_empty() || bytes.starts_with(b"\t#")
}

// The type that stands first, as it is written, and what follows it.
fn first_text(bytes: &[u8]) -> Result<(&[u8], &[u8]), LineError>
    ensures { ReadsType result (first_type bytes.now) }
{
    let (_class, _name, rest) = first_type(bytes)?;
    Ok(bytes.split_at(bytes.len() - rest.len()))
}

// The type behind an arrow.
#[tactic(auto, unfolding(crate::specs::Reading::second_type))]
fn second_text(bytes: &[u8]) -> Result<(&[u8], &[u8]), LineError>
    ensures { ReadsType result (second_type bytes.now) }
{
    let rest = fixed(b">", bytes)?;
    first_text(skip(b' ', rest)?)
}

// The class and the name of the type that stands first, and what follows it.
#[tactic(auto, unfolding(crate::specs::Reading::first_type))]
fn first_type(bytes: &[u8]) -> Result<(Class, &[u8], &[u8]), LineError>
    ensures { Gives (λ field. ((field.0, field.1.now), field.2.now)) result (first_type bytes.now) }
{
    let (word, rest) = split_before(b' ', bytes);
    let class = class_of(word)?;
    let (name, rest) = type_name(rest)?;
    Ok((class, name, rest))
}

#[tactic(auto, unfolding(wit_model::specs::Trace::Reading::class_named))]
fn class_of(word: &[u8]) -> Result<Class, LineError>
    ensures { Gives (λ class. class) result (class_named word.now) }
{
    match word {
        b"mtx" => Ok(Class::SleepMutex),
        b"spin" => Ok(Class::SpinMutex),
        b"rw" => Ok(Class::Rw),
        b"sx" => Ok(Class::Sx),
        _ => Err(LineError::SYNTAX),
    }
}

// A name between quotation marks, behind a space.
#[tactic(auto, unfolding(crate::specs::Reading::leading_type_name))]
fn type_name(bytes: &[u8]) -> Result<(&[u8], &[u8]), LineError>
    ensures { Gives (λ field. (field.0.now, field.1.now)) result (leading_type_name bytes.now) }
{
    let opened = skip(b' ', bytes)?;
    let inside = skip(b'"', opened)?;
    let (name, rest) = split_before(b'"', inside);
    if name.is_empty() {
        return Err(LineError::SYNTAX);
    }
    let rest = skip(b'"', rest)?;
    Ok((name, rest))
}
