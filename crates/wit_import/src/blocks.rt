//! The lines of a request, with what its thread holds.

ghost use Rattle.std.specs.Prelude.{◌≡◌, ◌+◌, ◌<◌, ◌^◌, ◌++◌, ◌∷◌, [], OnOk, codes};
ghost use Rattle.std.specs.Prelude.{if◌then◌else◌};
ghost use Rattle.std.specs.Fmt.{decimal};
ghost use Rattle.wit_model.specs.Trace.Spelling.{class_text};
ghost use Rattle.wit_import.specs.Blocks.{asked_lock, asking_lines, assert_line, check_line, give_up_line};
ghost use Rattle.wit_import.specs.Blocks.{has_place};
ghost use Rattle.wit_import.specs.Blocks.{got_line, held_inits, held_lines, held_lock, init_line};
ghost use Rattle.wit_import.specs.Blocks.{holding_lines, init_lines, lines_with, place_text};
ghost use Rattle.wit_import.specs.Blocks.{release_lines, try_line, types_after, unlock_line, with_types};
ghost use Rattle.wit_import.specs.Names.{with_name, written};

use crate::events::Acquisition;
use crate::held::Holding;
use crate::names::{Names, add_name, count, has_name, place_of};
use crate::words::Word;
use std::alloc::{AllocError, Global};
use wit_model::{Class, Name};

/// A trace has room for so many types.
pub const MOST_TYPES: usize = 1023;

/// Gives numbers to the types of a request that have none yet, and puts the lines of their locks
/// behind the text.
///
/// # Errors
/// Want of memory alone.
pub fn number_types(
    alloc: Global,
    types: &mut Names,
    held: &[Holding],
    asked: &Acquisition,
    text: &mut Vec<u8>,
) -> Result<(), AllocError>
    ensures types { OnOk result (written types.new.keys
        ≡ types_after (written types.old.keys) held.now asked.now) }
    ensures text { OnOk result (text.new.items ≡ text.old.items
        ++ (held_inits (written types.old.keys) asked.now.thread held.now
        ++ init_lines (with_types (written types.old.keys) asked.now.thread held.now)
        asked.now.class asked.now.name)) }
{
    number_held(alloc, types, held, &asked.thread, text)?;
    number(alloc, types, asked.class, &asked.name, text)
}

fn number_held(
    alloc: Global,
    types: &mut Names,
    held: &[Holding],
    thread: &Word,
    text: &mut Vec<u8>,
) -> Result<(), AllocError>
    ensures types { OnOk result (written types.new.keys
        ≡ with_types (written types.old.keys) thread.now held.now) }
    ensures text { OnOk result (text.new.items ≡ text.old.items
        ++ held_inits (written types.old.keys) thread.now held.now) }
{
    match held {
        [] => Ok(()),
        [holding, others @ ..] => {
            if holding.is_of(thread) {
                let acquisition = &holding.acquisition;
                number(alloc, types, acquisition.class, &acquisition.name, text)?;
            }
            number_held(alloc, types, others, thread, text)
        }
    }
}

fn number(
    alloc: Global,
    types: &mut Names,
    class: Class,
    name: &Name,
    text: &mut Vec<u8>,
) -> Result<(), AllocError>
    ensures types { OnOk result (written types.new.keys
        ≡ with_name (written types.old.keys) name.now) }
    ensures text { OnOk result (text.new.items ≡ text.old.items
        ++ init_lines (written types.old.keys) class name.now) }
{
    let bytes = name.as_str().as_bytes();
    if has_name(types, bytes) {
        return Ok(());
    }
    put_init(text, class, name)?;
    put_init(text, class, name)?;
    add_name(alloc, types, bytes)
}

/// Whether a trace has room for the type with this name.
pub fn has_place(types: &Names, name: &Name) -> bool
    ensures { result ≡ has_place (written types.now.keys) name.now }
{
    has_name(types, name.as_str().as_bytes()) || count(types) < MOST_TYPES
}

/// Puts behind the text that a lock of this type was released that nobody holds, where a trace has room
/// for the type.
///
/// # Errors
/// Want of memory alone.
pub fn put_twice(
    alloc: Global,
    types: &mut Names,
    class: Class,
    name: &Name,
    text: &mut Vec<u8>,
) -> Result<(), AllocError>
    ensures types { OnOk result (written types.new.keys
        ≡ (if has_place (written types.old.keys) name.now
        then with_name (written types.old.keys) name.now else written types.old.keys)) }
    ensures text { OnOk result (text.new.items ≡ text.old.items
        ++ (if has_place (written types.old.keys) name.now
        then init_lines (written types.old.keys) class name.now
        ++ assert_line (held_lock (with_name (written types.old.keys) name.now) name.now)
        else [])) }
{
    if !has_place(types, name) {
        return Ok(());
    }
    number(alloc, types, class, name, text)?;
    put_assert(text, lock_of(types, name))
}

/// Puts the lines of a request, and of what its thread holds, behind the text.
///
/// # Errors
/// Want of memory alone.
pub fn put_request(
    types: &Names,
    held: &[Holding],
    asked: &Acquisition,
    text: &mut Vec<u8>,
) -> Result<(), AllocError>
    ensures { OnOk result (text.new.items ≡ text.old.items
        ++ lines_with (written types.now.keys) held.now asked.now) }
{
    put_held(types, held, &asked.thread, text)?;
    put_asking(types, asked, text)?;
    put_releases(types, held, &asked.thread, text)
}

fn put_held(
    types: &Names,
    held: &[Holding],
    thread: &Word,
    text: &mut Vec<u8>,
) -> Result<(), AllocError>
    ensures { OnOk result (text.new.items ≡ text.old.items
        ++ held_lines (written types.now.keys) thread.now held.now) }
{
    match held {
        [] => Ok(()),
        [holding, others @ ..] => {
            if holding.is_of(thread) {
                put_holding(types, holding, text)?;
            }
            put_held(types, others, thread, text)
        }
    }
}

fn put_holding(types: &Names, holding: &Holding, text: &mut Vec<u8>) -> Result<(), AllocError>
    ensures { OnOk result (text.new.items ≡ text.old.items
        ++ holding_lines (written types.now.keys) holding.now) }
{
    let acquisition = &holding.acquisition;
    let lock = held_lock(types, acquisition);
    if holding.tried {
        return put_try(text, lock, acquisition);
    }
    put_check(text, lock, acquisition)?;
    put_got(text, lock)
}

fn put_asking(types: &Names, asked: &Acquisition, text: &mut Vec<u8>) -> Result<(), AllocError>
    ensures { OnOk result (text.new.items ≡ text.old.items
        ++ asking_lines (written types.now.keys) asked.now) }
{
    let lock = held_lock(types, asked) + 1;
    put_check(text, lock, asked)?;
    put_give_up(text, lock)
}

fn put_releases(
    types: &Names,
    held: &[Holding],
    thread: &Word,
    text: &mut Vec<u8>,
) -> Result<(), AllocError>
    ensures { OnOk result (text.new.items ≡ text.old.items
        ++ release_lines (written types.now.keys) thread.now held.now) }
{
    match held {
        [] => Ok(()),
        [holding, others @ ..] => {
            if holding.is_of(thread) {
                put_unlock(text, held_lock(types, &holding.acquisition))?;
            }
            put_releases(types, others, thread, text)
        }
    }
}

// The number of the lock of its type that stands for what is held.
fn held_lock(types: &Names, acquisition: &Acquisition) -> u32
    ensures number { result ≡ held_lock (written types.now.keys) acquisition.now.name }
    ensures small { result + 1 < 2 ^ 32 }
{
    lock_of(types, &acquisition.name)
}

fn lock_of(types: &Names, name: &Name) -> u32
    ensures number { result ≡ held_lock (written types.now.keys) name.now }
    ensures small { result + 1 < 2 ^ 32 }
{
    match place_of(types, name.as_str().as_bytes()) {
        Some(place) if place <= MOST_TYPES => 2 * place as u32 + 1,
        _ => 1,
    }
}

// ---- a line each, behind the text

fn put_init(text: &mut Vec<u8>, class: Class, name: &Name) -> Result<(), AllocError>
    ensures { OnOk result (text.new.items ≡ text.old.items ++ init_line class name.now) }
{
    text.extend_from_slice(b"init 1 ")?;
    put_type(text, class, name)
}

fn put_type(text: &mut Vec<u8>, class: Class, name: &Name) -> Result<(), AllocError>
    ensures { OnOk result (text.new.items ≡ text.old.items ++ (class_text class
        ++ (codes " r \"" ++ (name.now ++ 34 ∷ 10 ∷ [])))) }
{
    text.extend_from_slice(class_text(class))?;
    text.extend_from_slice(b" r \"")?;
    text.extend_from_slice(name.as_str().as_bytes())?;
    text.extend_from_slice(b"\"\n")
}

fn put_check(text: &mut Vec<u8>, lock: u32, acquisition: &Acquisition) -> Result<(), AllocError>
    ensures { OnOk result (text.new.items ≡ text.old.items ++ check_line lock acquisition.now) }
{
    text.extend_from_slice(b"check 1 ")?;
    put_digits(text, lock)?;
    text.extend_from_slice(b" x n ")?;
    put_place(text, acquisition)
}

fn put_try(text: &mut Vec<u8>, lock: u32, acquisition: &Acquisition) -> Result<(), AllocError>
    ensures { OnOk result (text.new.items ≡ text.old.items ++ try_line lock acquisition.now) }
{
    text.extend_from_slice(b"try 1 ")?;
    put_digits(text, lock)?;
    text.extend_from_slice(b" x ")?;
    put_place(text, acquisition)
}

fn put_place(text: &mut Vec<u8>, acquisition: &Acquisition) -> Result<(), AllocError>
    ensures { OnOk result (text.new.items ≡ text.old.items ++ place_text acquisition.now) }
{
    text.extend_from_slice(acquisition.file.as_str().as_bytes())?;
    text.push(b':')?;
    put_digits(text, acquisition.line)?;
    text.push(b'\n')?;
    Ok(())
}

fn put_got(text: &mut Vec<u8>, lock: u32) -> Result<(), AllocError>
    ensures { OnOk result (text.new.items ≡ text.old.items ++ got_line lock) }
{
    text.extend_from_slice(b"lock 1 ")?;
    put_digits(text, lock)?;
    text.push(b'\n')?;
    Ok(())
}

fn put_give_up(text: &mut Vec<u8>, lock: u32) -> Result<(), AllocError>
    ensures { OnOk result (text.new.items ≡ text.old.items ++ give_up_line lock) }
{
    text.extend_from_slice(b"giveup 1 ")?;
    put_digits(text, lock)?;
    text.push(b'\n')?;
    Ok(())
}

fn put_assert(text: &mut Vec<u8>, lock: u32) -> Result<(), AllocError>
    ensures { OnOk result (text.new.items ≡ text.old.items ++ assert_line lock) }
{
    text.extend_from_slice(b"assert 1 ")?;
    put_digits(text, lock)?;
    text.extend_from_slice(b" l\n")
}

fn put_unlock(text: &mut Vec<u8>, lock: u32) -> Result<(), AllocError>
    ensures { OnOk result (text.new.items ≡ text.old.items ++ unlock_line lock) }
{
    text.extend_from_slice(b"unlock 1 ")?;
    put_digits(text, lock)?;
    text.extend_from_slice(b" x\n")
}

// Digit by digit, where they are to stand.
#[tactic(auto, using(std::proofs::lemmas::Fmt::decimal_digit))]
fn put_digits(text: &mut Vec<u8>, number: u32) -> Result<(), AllocError>
    ensures { OnOk result (text.new.items ≡ text.old.items ++ decimal number) }
{
    if number < 10 {
        text.push(b'0' + number as u8)?;
        return Ok(());
    }
    put_digits(text, number / 10)?;
    text.push(b'0' + (number % 10) as u8)?;
    Ok(())
}

fn class_text(class: Class) -> &'static [u8]
    ensures { result.now ≡ class_text class }
{
    match class {
        Class::SleepMutex => b"mtx",
        Class::SpinMutex => b"spin",
        Class::Rw => b"rw",
        Class::Sx => b"sx",
    }
}
