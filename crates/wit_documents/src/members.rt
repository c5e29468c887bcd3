//! Members of JSON objects, as they are written.

ghost use Rattle.std.specs.Prelude.{◌≡◌, ◌++◌, ◌∷◌, [], OnOk};
ghost use Rattle.json.specs.Token.{begin_array, begin_object, end_array, end_object, key, string};
ghost use Rattle.json.specs.Token.{boolean, null};

use json::{Pretty, Token, is_number};
use std::alloc::{AllocError, Global};

/// Begins an object that is no member.
///
/// # Errors
/// Want of memory alone, as of all that follow.
pub(crate) fn begin(out: &mut Pretty) -> Result<(), AllocError>
    ensures { OnOk result (out.new ≡ out.old ++ begin_object ∷ []) }
{
    out.token(Token::BeginObject)
}

/// Begins an object.
pub(crate) fn open(out: &mut Pretty, name: &str) -> Result<(), AllocError>
    ensures { OnOk result (out.new ≡ (out.old ++ key name.now ∷ []) ++ begin_object ∷ []) }
{
    out.token(Token::Key(name))?;
    out.token(Token::BeginObject)
}

/// Ends an object.
pub(crate) fn close(out: &mut Pretty) -> Result<(), AllocError>
    ensures { OnOk result (out.new ≡ out.old ++ end_object ∷ []) }
{
    out.token(Token::EndObject)
}

/// Begins an array.
pub(crate) fn open_list(out: &mut Pretty, name: &str) -> Result<(), AllocError>
    ensures { OnOk result (out.new ≡ (out.old ++ key name.now ∷ []) ++ begin_array ∷ []) }
{
    out.token(Token::Key(name))?;
    out.token(Token::BeginArray)
}

/// Ends an array.
pub(crate) fn close_list(out: &mut Pretty) -> Result<(), AllocError>
    ensures { OnOk result (out.new ≡ out.old ++ end_array ∷ []) }
{
    out.token(Token::EndArray)
}

/// A text.
pub(crate) fn put_text(out: &mut Pretty, name: &str, text: &str) -> Result<(), AllocError>
    ensures { OnOk result (out.new ≡ (out.old ++ key name.now ∷ []) ++ string text.now ∷ []) }
{
    out.token(Token::Key(name))?;
    out.token(Token::String(text))
}

/// An item of an array.
pub(crate) fn put_item(out: &mut Pretty, text: &str) -> Result<(), AllocError>
    ensures { OnOk result (out.new ≡ out.old ++ string text.now ∷ []) }
{
    out.token(Token::String(text))
}

/// `true` or `false`.
pub(crate) fn put_truth(out: &mut Pretty, name: &str, truth: bool) -> Result<(), AllocError>
    ensures { OnOk result (out.new ≡ (out.old ++ key name.now ∷ []) ++ boolean truth ∷ []) }
{
    out.token(Token::Key(name))?;
    out.token(Token::Bool(truth))
}

/// A number by its digits.
pub(crate) fn put_number(out: &mut Pretty, name: &str, digits: &str) -> Result<(), AllocError> {
    out.token(Token::Key(name))?;
    put_digits(out, digits)
}

/// A number that is an item. What is no number is `null`.
pub(crate) fn put_digits(out: &mut Pretty, digits: &str) -> Result<(), AllocError> {
    if is_number(digits) {
        out.token(Token::Number(digits))
    } else {
        out.token(Token::Null)
    }
}

/// A count.
pub(crate) fn put_count(
    out: &mut Pretty,
    alloc: Global,
    name: &str,
    count: usize,
) -> Result<(), AllocError> {
    let digits = count.to_string(alloc)?;
    put_number(out, name, &digits)
}
