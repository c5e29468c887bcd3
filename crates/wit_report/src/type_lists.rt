//! The types, a line each.

ghost use Rattle.std.specs.Prelude.{◌≡◌, ◌<◌, ◌++◌, length, string_bytes, IfOk, IfErr, OnOk, OnErr};
ghost use Rattle.wit_model.specs.Rules.Numbers.{IsGiven};
ghost use Rattle.wit_model.specs.Rules.State.{state_of, types_of, live};
ghost use Rattle.wit_model.specs.Rules.Types.{class_of};
ghost use Rattle.wit_model.specs.Trace.Views.{type_line, type_lines};
ghost use Rattle.wit_report.specs.Wants.{WantsMemory};

use crate::locks::class_words;
use crate::orders::type_words;
use crate::pieces::{put_number, put_quoted};
use std::alloc::{AllocError, Global};
use wit_core::Verifier;
use wit_model::{Class, Fault, TypeNo};

/// The types by their numbers, a line each, with how many live locks each has: `N "TYPE" CLASS
/// locks K`. `show witness` of witness(4) lists them by their orders.
///
/// # Errors
/// `OutOfMemory` alone, and only where the text isn't empty.
pub fn type_list(alloc: Global, verifier: &Verifier) -> Result<String, Fault>
    ensures ok { IfOk result (λ text. string_bytes text
        ≡ type_lines (types_of verifier.now.start verifier.now.history)
        (live (state_of verifier.now))) }
    ensures err { IfErr result (WantsMemory
        (type_lines (types_of verifier.now.start verifier.now.history)
        (live (state_of verifier.now)))) }
{
    let mut text = String::new(alloc);
    put_types(&mut text, alloc, verifier)?;
    Ok(text)
}

fn put_types(text: &mut String, alloc: Global, verifier: &Verifier) -> Result<(), AllocError>
    ensures ok { OnOk result (string_bytes text.new ≡ string_bytes text.old
        ++ type_lines (types_of verifier.now.start verifier.now.history)
        (live (state_of verifier.now))) }
    ensures err { OnErr result (0 < length
        (type_lines (types_of verifier.now.start verifier.now.history)
        (live (state_of verifier.now)))) }
{
    for place in 0..verifier.types() {
        put_type(text, alloc, verifier, TypeNo(place as u16 + 1))?;
    }
    Ok(())
}

fn put_type(
    text: &mut String,
    alloc: Global,
    verifier: &Verifier,
    number: TypeNo,
) -> Result<(), AllocError>
    requires { IsGiven (types_of verifier.now.start verifier.now.history) number.0 }
    ensures { OnOk result (string_bytes text.new ≡ string_bytes text.old
        ++ type_line (types_of verifier.now.start verifier.now.history)
        (live (state_of verifier.now)) number.0) }
{
    put_number(text, alloc, number.0 as u64)?;
    text.push(' ')?;
    put_quoted(text, type_words(verifier, number))?;
    text.push(' ')?;
    text.push_str(class_words(type_class(verifier, number)))?;
    text.push_str(" locks ")?;
    put_number(text, alloc, live_locks(verifier, number) as u64)?;
    text.push('\n')?;
    Ok(())
}

/// The class of a type; that of a sleep mutex for a number that was never given.
pub fn type_class(verifier: &Verifier, number: TypeNo) -> Class
    ensures { result ≡ class_of number.0 (types_of verifier.now.start verifier.now.history) }
{
    verifier.class_of(number).unwrap_or(Class::SleepMutex)
}

fn live_locks(verifier: &Verifier, number: TypeNo) -> u32
    requires { IsGiven (types_of verifier.now.start verifier.now.history) number.0 }
    ensures { result ≡ live (state_of verifier.now) number.0 }
{
    verifier.live(number).unwrap_or(0)
}
