//! What is written of the orders.

ghost use Rattle.std.specs.Fmt.{decimal};
ghost use Rattle.std.specs.Prelude.{◌≡◌, ◌≤◌, ◌++◌, List, [], length, take, IfOk, OnOk, string_bytes};
ghost use Rattle.wit_merge.specs.Outputs.{bad_text};
ghost use Rattle.wit_orders.specs.Reading.{order_line};
ghost use Rattle.wit_merge.specs.Rows.{Row, row, rows_of};
ghost use Rattle.wit_merge.specs.Texts.{ago_text, asked_text, before_while, begins_while, count_if};
ghost use Rattle.wit_merge.specs.Texts.{is_unseen, line_text, merged_text, people_row, people_rows};
ghost use Rattle.wit_merge.specs.Texts.{row_text, rows_text, unseen_line};
ghost use Rattle.wit_merge.specs.Texts.{unseen_text};

use crate::flaws::Flaw;
use crate::rows::Note;
use crate::standing::Tally;
use indexmap::map::Slice;
use std::alloc::{AllocError, Global};
use wit_fields::LineError;
use wit_orders::{OrderLine, order_line};

/// How many runs were counted, and each order with how many runs met it.
///
/// # Errors
/// Want of memory alone.
pub fn merged_text(
    alloc: Global,
    rows: Slice<'_, Vec<u8>, Note>,
    total: u32,
) -> Result<Vec<u8>, AllocError>
    ensures { IfOk result (λ text. text.items ≡ merged_text total (rows_of rows.entry)) }
{
    let mut text = String::from_str(alloc, "runs ")?;
    let digits = total.to_string(alloc)?;
    text.push_str(&digits)?;
    text.push('\n')?;
    let mut text = text.into_bytes();
    put_rows(alloc, &mut text, rows)?;
    Ok(text)
}

fn put_rows(
    alloc: Global,
    text: &mut Vec<u8>,
    rows: Slice<'_, Vec<u8>, Note>,
) -> Result<(), AllocError>
    ensures { OnOk result (text.new.items ≡ text.old.items ++ rows_text (rows_of rows.entry)) }
{
    let mut rest = rows;
    while let Some(((key, note), others)) = rest.split_first() {
        put_row(alloc, text, key.as_slice(), note)?;
        rest = others;
    }
    Ok(())
}

fn put_row(alloc: Global, text: &mut Vec<u8>, key: &[u8], note: &Note) -> Result<(), AllocError>
    ensures { OnOk result (text.new.items ≡ text.old.items
        ++ row_text (row key.now note.now.origin.items note.now.tally)) }
{
    put_number(alloc, text, u64::from(note.tally.runs))?;
    if note.tally.last != 0 {
        text.push(b' ')?;
        put_number(alloc, text, u64::from(note.tally.last))?;
    }
    text.push(b' ')?;
    text.extend_from_slice(key)?;
    text.extend_from_slice(note.origin.as_slice())?;
    text.push(b'\n')?;
    Ok(())
}

fn put_number(alloc: Global, text: &mut Vec<u8>, number: u64) -> Result<(), AllocError>
    ensures { OnOk result (text.new.items ≡ text.old.items ++ decimal number) }
{
    let digits = number.to_string(alloc)?;
    text.extend_from_slice(digits.as_bytes())?;
    Ok(())
}

/// The orders that weren't met within so many runs, and how many they are.
///
/// # Errors
/// Want of memory alone.
pub fn unseen_text(
    alloc: Global,
    rows: Slice<'_, Vec<u8>, Note>,
    total: u32,
    within: u32,
) -> Result<(Vec<u8>, u64), AllocError>
    ensures text { IfOk result (λ r. r.0.items ≡ unseen_text within total (rows_of rows.entry)) }
    ensures count { IfOk result (λ r. r.1 ≡ count_if (is_unseen within total) (rows_of rows.entry)) }
{
    let all = rows.len() as u64;
    let mut text = Vec::new(alloc);
    let mut rest = rows;
    let mut unseen = 0;
    let mut unknown = 0;
    while let Some(((key, note), others)) = rest.split_first() {
        if is_unseen(note.tally, total, within) {
            put_ago(
                alloc,
                &mut text,
                key.as_slice(),
                total.saturating_sub(note.tally.last),
            )?;
            unseen += 1;
        }
        if note.tally.last == 0 {
            unknown += 1;
        }
        rest = others;
    }
    put_unseen_line(alloc, &mut text, unseen, all, unknown)?;
    Ok((text, unseen))
}

fn is_unseen(tally: Tally, total: u32, within: u32) -> bool
    ensures { result ≡ is_unseen within total tally }
{
    tally.last != 0 && total.saturating_sub(tally.last) >= within
}

fn put_ago(alloc: Global, text: &mut Vec<u8>, key: &[u8], runs: u32) -> Result<(), AllocError>
    ensures { OnOk result (text.new.items ≡ text.old.items ++ ago_text key.now runs) }
{
    text.extend_from_slice(key)?;
    text.extend_from_slice(b"\t# ")?;
    put_number(alloc, text, u64::from(runs))?;
    text.extend_from_slice(b" runs ago\n")?;
    Ok(())
}

fn put_unseen_line(
    alloc: Global,
    text: &mut Vec<u8>,
    unseen: u64,
    all: u64,
    unknown: u64,
) -> Result<(), AllocError>
    ensures { OnOk result (text.new.items
        ≡ text.old.items ++ unseen_line unseen all unknown) }
{
    text.extend_from_slice(b"unseen: ")?;
    put_number(alloc, text, unseen)?;
    text.extend_from_slice(b" of ")?;
    put_number(alloc, text, all)?;
    text.extend_from_slice(b" orders, unknown: ")?;
    put_number(alloc, text, unknown)?;
    text.push(b'\n')?;
    Ok(())
}

/// Each type, and below it, set in, what may be asked for while it is held, with where that was first
/// done.
///
/// # Errors
/// Want of memory alone.
pub fn people_text(alloc: Global, rows: Slice<'_, Vec<u8>, Note>) -> Result<Vec<u8>, AllocError>
    ensures { IfOk result (λ text. text.items ≡ people_rows [] (rows_of rows.entry)) }
{
    let mut text = Vec::new(alloc);
    let mut held: &[u8] = b"";
    let mut rest = rows;
    while let Some(((key, note), others)) = rest.split_first() {
        held = put_order(&mut text, held, key.as_slice(), note.origin.as_slice())?;
        rest = others;
    }
    Ok(text)
}

// An order, of which the first type may be this one; that first type then.
fn put_order<'a>(
    text: &mut Vec<u8>,
    held: &'a [u8],
    key: &'a [u8],
    origin: &[u8],
) -> Result<&'a [u8], AllocError>
    ensures { IfOk result (λ from. (rows : List Row) → text.old.items
        ++ people_row (order_line key.now) held.now origin.now (λ next. people_rows next rows)
        ≡ text.new.items ++ people_rows from.now rows) }
{
    match order_line(key) {
        Ok(OrderLine::Pair(from, to)) => {
            if from != held {
                put_line(text, from)?;
            }
            put_asked(text, to, origin)?;
            Ok(from)
        }
        Ok(OrderLine::Listed(_)) | Err(LineError::Bad(_)) => Ok(held),
        Err(LineError::Memory) => Err(AllocError),
    }
}

fn put_line(text: &mut Vec<u8>, line: &[u8]) -> Result<(), AllocError>
    ensures { OnOk result (text.new.items ≡ text.old.items ++ line_text line.now) }
{
    text.extend_from_slice(line)?;
    text.push(b'\n')?;
    Ok(())
}

// A type that was asked for, and where.
fn put_asked(text: &mut Vec<u8>, to: &[u8], origin: &[u8]) -> Result<(), AllocError>
    ensures { OnOk result (text.new.items ≡ text.old.items ++ asked_text to.now origin.now) }
{
    text.extend_from_slice(b"    ")?;
    text.extend_from_slice(to)?;
    if let [_tab, place @ ..] = origin {
        text.extend_from_slice(b"  ")?;
        let (place, _rest) = place.split_at(length_before_while(place));
        text.extend_from_slice(place)?;
    }
    text.push(b'\n')?;
    Ok(())
}

// How long the part of an origin is that tells of the request.
fn length_before_while(origin: &[u8]) -> usize
    ensures place { take result origin.now ≡ before_while origin.now }
    ensures within { result ≤ length origin.now }
{
    for place in 0..origin.len() {
        let (_request, rest) = origin.split_at(place);
        if begins_while(rest) {
            return place;
        }
    }
    origin.len()
}

fn begins_while(bytes: &[u8]) -> bool
    ensures { result ≡ begins_while bytes.now }
{
    bytes.starts_with(b" while ")
}

/// The text of a bad line, by its number from 1.
///
/// # Errors
/// Want of memory alone.
pub fn bad_text(alloc: Global, number: u64, flaw: Flaw) -> Result<String, AllocError>
    ensures { IfOk result (λ text. string_bytes text ≡ bad_text number flaw) }
{
    let mut text = String::from_str(alloc, "line ")?;
    let digits = number.to_string(alloc)?;
    text.push_str(&digits)?;
    text.push_str(": ")?;
    text.push_str(flaw.text())?;
    text.push('\n')?;
    Ok(text)
}
