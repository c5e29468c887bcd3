//! The locks of a report, a line each.

ghost use Rattle.std.specs.Prelude.{◌≡◌, ◌++◌, string_bytes, OnOk};
ghost use Rattle.wit_model.specs.Rules.Locks.{lock_at};
ghost use Rattle.wit_model.specs.Rules.State.{typed_locks};
ghost use Rattle.wit_model.specs.Rules.Types.{type_name_of};
ghost use Rattle.wit_model.specs.Trace.Texts.{class_words, lock_line, conflict_lines};

use crate::pieces::{put_quoted, put_site};
use std::alloc::{AllocError, Global};
use wit_core::Verifier;
use wit_model::{Class, Conflict, LockAt, LockNo, TypeNo};

/// Adds the locks of a reversal, oldest first.
///
/// # Errors
/// Want of memory alone.
pub fn put_locks(
    text: &mut String,
    alloc: Global,
    verifier: &Verifier,
    conflict: &Conflict,
) -> Result<(), AllocError>
    ensures { OnOk result (string_bytes text.new ≡ string_bytes text.old
        ++ conflict_lines (typed_locks verifier.now.start verifier.now.history) verifier.now.files
        conflict.now conflict.now.older) }
{
    match conflict.older {
        Some(older) => {
            put_lock(text, alloc, verifier, "1st", older)?;
            put_lock(text, alloc, verifier, "2nd", conflict.held)?;
            put_lock(text, alloc, verifier, "3rd", conflict.asked)?;
        }
        None => {
            put_lock(text, alloc, verifier, "1st", conflict.held)?;
            put_lock(text, alloc, verifier, "2nd", conflict.asked)?;
        }
    }
    Ok(())
}

/// Adds a lock at a place, as a line behind its rank (`1st`, `2nd` or `3rd`).
///
/// # Errors
/// Want of memory alone.
pub fn put_lock(
    text: &mut String,
    alloc: Global,
    verifier: &Verifier,
    rank: &str,
    at: LockAt,
) -> Result<(), AllocError>
    ensures { OnOk result (string_bytes text.new ≡ string_bytes text.old
        ++ lock_line (typed_locks verifier.now.start verifier.now.history) verifier.now.files
        rank.now at) }
{
    text.push(' ')?;
    text.push_str(rank)?;
    text.push(' ')?;
    put_quoted(text, lock_name(verifier, at.lock))?;
    text.push_str(" (")?;
    text.push_str(type_name(verifier, at.lock))?;
    text.push_str(", ")?;
    text.push_str(class_words(class_of_lock(verifier, at.lock)))?;
    text.push_str(") @ ")?;
    put_site(text, alloc, verifier, at.site)?;
    text.push('\n')?;
    Ok(())
}

/// A class, as reports name it.
pub fn class_words(class: Class) -> &'static str
    ensures { result.now ≡ class_words class }
{
    match class {
        Class::SleepMutex => "sleep mutex",
        Class::SpinMutex => "spin mutex",
        Class::Rw => "rw",
        Class::Sx => "sx",
    }
}

/// The name of a lock; empty for a number that was never given.
pub fn lock_name(verifier: &Verifier, lock: LockNo) -> &str
    ensures { result.now ≡ (lock_at (typed_locks verifier.now.start verifier.now.history)
        lock.0).made.name }
{
    match verifier.lock_name(lock) {
        Some(name) => name,
        None => "",
    }
}

/// The type of a lock; 0 for a number that was never given.
pub fn type_number(verifier: &Verifier, lock: LockNo) -> TypeNo
    ensures { result ≡ (lock_at (typed_locks verifier.now.start verifier.now.history)
        lock.0).type_no }
{
    match verifier.type_of(lock) {
        Some(number) => number,
        None => TypeNo(0),
    }
}

/// The name of the type of a lock; empty for a number that was never given.
pub fn type_name(verifier: &Verifier, lock: LockNo) -> &str
    ensures { result.now ≡ type_name_of
        (lock_at (typed_locks verifier.now.start verifier.now.history) lock.0).made }
{
    // In a legal log, a lock's type has its type name and its class.
    let _log = verifier.history();
    match verifier.type_of(lock) {
        Some(number) => verifier.type_name(number).unwrap_or(""),
        None => "",
    }
}

/// The class of a lock; that of a sleep mutex for a number that was never given.
pub fn class_of_lock(verifier: &Verifier, lock: LockNo) -> Class
    ensures { result ≡ (lock_at (typed_locks verifier.now.start verifier.now.history)
        lock.0).made.class }
{
    // In a legal log, a lock's type has its type name and its class.
    let _log = verifier.history();
    match verifier.type_of(lock) {
        Some(number) => verifier.class_of(number).unwrap_or(Class::SleepMutex),
        None => Class::SleepMutex,
    }
}
