//! Whether a request is written: a pair of types is new.

ghost use Rattle.std.specs.Prelude.{◌≡◌, ◌≤◌, IfOk, OnOk, if◌then◌else◌};
ghost use Rattle.wit_import.specs.declared.blocks.TheConstants.{MOST_TYPES};
ghost use Rattle.wit_import.specs.Blocks.{are_known, fate_of, has_room, have_room};
ghost use Rattle.wit_import.specs.Blocks.{missing, pair_text, with_pairs};
ghost use Rattle.wit_import.specs.Held.{is_of};
ghost use Rattle.wit_import.specs.Names.{has_name, written};

use crate::blocks::MOST_TYPES;
use crate::events::Acquisition;
use crate::held::{Holding, asks_again};
use crate::names::{Names, add_name, count, has_name};
use crate::words::Word;
use std::alloc::{AllocError, Global};
use wit_model::Name;

/// What becomes of a request.
#[derive(Clone, Copy, Debug, PartialEq, Eq)]
pub enum Fate {
    /// It is written.
    Written,
    /// It tells nothing new.
    Known,
    /// A trace has no room for its types.
    LeftOut,
}

/// What becomes of a request: whether it is written, and if not, why.
///
/// # Errors
/// Want of memory alone.
pub fn fate_of(
    alloc: Global,
    types: &Names,
    pairs: &Names,
    held: &[Holding],
    asked: &Acquisition,
) -> Result<Fate, AllocError>
    ensures { IfOk result (λ fate. fate ≡ fate_of
        (record { types = written types.now.keys; pairs = written pairs.now.keys })
        held.now asked.now) }
{
    if is_known(alloc, pairs, held, &asked.thread, &asked.name)? || asks_again(held, asked) {
        return Ok(Fate::Known);
    }
    if has_room(types, held, asked) {
        Ok(Fate::Written)
    } else {
        Ok(Fate::LeftOut)
    }
}

// Whether each type that the thread holds makes a pair with this one that was written.
fn is_known(
    alloc: Global,
    pairs: &Names,
    held: &[Holding],
    thread: &Word,
    asked: &Name,
) -> Result<bool, AllocError>
    ensures { IfOk result (λ is. is ≡ are_known (written pairs.now.keys) thread.now asked.now
        held.now) }
{
    match held {
        [] => Ok(true),
        [holding, others @ ..] => {
            if holding.is_of(thread) && !has_pair(alloc, pairs, holding, asked)? {
                return Ok(false);
            }
            is_known(alloc, pairs, others, thread, asked)
        }
    }
}

fn has_pair(
    alloc: Global,
    pairs: &Names,
    holding: &Holding,
    asked: &Name,
) -> Result<bool, AllocError>
    ensures { IfOk result (λ is. is ≡ has_name (written pairs.now.keys)
        (pair_text holding.now.acquisition.name asked.now)) }
{
    let pair = pair_text(alloc, &holding.acquisition.name, asked)?;
    Ok(has_name(pairs, &pair))
}

fn pair_text(alloc: Global, held: &Name, asked: &Name) -> Result<Vec<u8>, AllocError>
    ensures { IfOk result (λ text. text.items ≡ pair_text held.now asked.now) }
{
    let mut text = Vec::from_slice(alloc, held.as_str().as_bytes())?;
    text.push(b'"')?;
    text.extend_from_slice(asked.as_str().as_bytes())?;
    Ok(text)
}

// Whether a trace has room for the types of a request.
fn has_room(types: &Names, held: &[Holding], asked: &Acquisition) -> bool
    ensures { result ≡ has_room (written types.now.keys) held.now asked.now }
{
    let count = count(types);
    count <= MOST_TYPES && have_room(types, held, asked, count)
}

// Whether it has where it has so many types, and these have to be added.
fn have_room(types: &Names, held: &[Holding], asked: &Acquisition, count: usize) -> bool
    requires { count ≤ MOST_TYPES }
    ensures { result ≡ have_room (written types.now.keys) asked.now count held.now }
{
    match held {
        [] => count + missing(types, &asked.name) <= MOST_TYPES,
        [holding, others @ ..] => {
            let next = count + missing_held(types, holding, &asked.thread);
            next <= MOST_TYPES && have_room(types, others, asked, next)
        }
    }
}

fn missing_held(types: &Names, holding: &Holding, thread: &Word) -> usize
    ensures number { result ≡ if is_of thread.now holding.now
        then missing (written types.now.keys) holding.now.acquisition.name else 0 }
    ensures small { result ≤ 1 }
{
    if holding.is_of(thread) {
        missing(types, &holding.acquisition.name)
    } else {
        0
    }
}

fn missing(types: &Names, name: &Name) -> usize
    ensures number { result ≡ missing (written types.now.keys) name.now }
    ensures small { result ≤ 1 }
{
    if has_name(types, name.as_str().as_bytes()) {
        0
    } else {
        1
    }
}

/// Adds the pairs of a request.
///
/// # Errors
/// Want of memory alone.
pub fn add_pairs(
    alloc: Global,
    pairs: &mut Names,
    held: &[Holding],
    asked: &Acquisition,
) -> Result<(), AllocError>
    ensures { OnOk result (written pairs.new.keys ≡ with_pairs (written pairs.old.keys)
        asked.now.thread asked.now.name held.now) }
{
    match held {
        [] => Ok(()),
        [holding, others @ ..] => {
            if holding.is_of(&asked.thread) {
                let pair = pair_text(alloc, &holding.acquisition.name, &asked.name)?;
                add_name(alloc, pairs, &pair)?;
            }
            add_pairs(alloc, pairs, others, asked)
        }
    }
}
