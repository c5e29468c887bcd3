//! Lines that are read, and the verifier that a trace begins with.

use std::alloc::{AllocError, Global};
use wit_core::Verifier;
use wit_grammar::{LineError, parse_line};
use wit_model::{Class, Fault, Limits, Line, Name, TypeList};

/// The line with this text. One that is no line is told as a fault that no call of a trace has.
///
/// # Errors
/// `OutOfMemory`, or `GateRefused` for a text that is no line.
pub(crate) fn read(alloc: Global, text: &str) -> Result<Line, Fault> {
    match parse_line(alloc, text.as_bytes()) {
        Ok(line) => Ok(line),
        Err(LineError::Memory) => Err(Fault::OutOfMemory),
        Err(LineError::Bad(_)) => Err(Fault::GateRefused),
    }
}

/// The verifier that a trace asks for.
///
/// # Errors
/// Those of `Verifier::new`, and of `read`.
pub(crate) fn start(alloc: Global, text: &str) -> Result<Verifier, Fault> {
    let mut limits = None;
    let mut all_held = false;
    let mut lists = Vec::new(alloc);
    let mut blessed = Vec::new(alloc);
    for line in text.lines() {
        match read(alloc, line)? {
            Line::Header {
                seats,
                types,
                locks,
                chunks,
                ..
            } => limits = Limits::new(seats, types, locks, chunks, 4096),
            Line::Profile => all_held = true,
            Line::Order { list } => add_list(alloc, &mut lists, list)?,
            Line::Bless { first, second } => add_pair(&mut blessed, first, second)?,
            _ => break,
        }
    }
    let Some(limits) = limits else {
        return Err(Fault::GateRefused);
    };
    let started = if all_held {
        Verifier::new_all_held(alloc, limits, lists, blessed)
    } else {
        Verifier::new(alloc, limits, lists, blessed)
    };
    match started {
        Ok(verifier) => Ok(verifier),
        Err(refused) => Err(refused.fault),
    }
}

fn add_list(
    alloc: Global,
    lists: &mut Vec<Vec<(Class, String)>>,
    list: TypeList,
) -> Result<(), AllocError> {
    lists.push(names_of(alloc, list)?)?;
    Ok(())
}

fn add_pair(
    blessed: &mut Vec<(String, String)>,
    first: Name,
    second: Name,
) -> Result<(), AllocError> {
    blessed.push((first.into_string(), second.into_string()))?;
    Ok(())
}

fn names_of(alloc: Global, list: TypeList) -> Result<Vec<(Class, String)>, AllocError> {
    let mut types = Vec::new(alloc);
    for (class, name) in list.into_types() {
        types.push((class, name.into_string()))?;
    }
    Ok(types)
}
