//! What is told of a reply: reports, and orders that were learnt.

ghost use Rattle.std.specs.Prelude.{◌≡◌, ◌++◌, ◌∷◌, [], IfOk, OnOk, flat_map};
ghost use Rattle.json.specs.Token.{end_array};
ghost use Rattle.wit_model.specs.Trace.Paths.{type_numbers};
ghost use Rattle.wit_findings.specs.Objects.{Adds};
ghost use Rattle.wit_findings.specs.Reports.{duplicate_tokens, exhausted_tokens, heading_text};
ghost use Rattle.wit_findings.specs.Reports.{order_line, path_member, reply_text, report_tokens};
ghost use Rattle.wit_findings.specs.Reports.{reversal_tokens, step_values, third_member};
ghost use Rattle.wit_findings.specs.Objects.{line_text, order_members};
ghost use Rattle.wit_findings.specs.Told.{told};

use crate::objects::{finding, put_line, put_lock, put_order, put_text, type_number};
use crate::recording::Recording;
use json::Writer;
use std::alloc::{AllocError, Global};
use wit_model::{Conflict, Doubling, Heading, LockAt, Reply, TypeNo};

/// Adds what is told of a reply to the line with this number, once it was given.
///
/// # Errors
/// Want of memory alone.
#[inline(always)]
pub fn put_reply(
    text: &mut Vec<u8>,
    alloc: Global,
    known: &Recording,
    line: u64,
    reply: &Reply,
) -> Result<(), AllocError>
    ensures { OnOk result (text.new.items
        ≡ text.old.items ++ reply_text (told known.now) line reply.now) }
{
    match reply {
        Reply::Reversal(conflict) => put_reversal(text, alloc, known, line, conflict.get()),
        Reply::Duplicate(doubling) => put_duplicate(text, alloc, known, line, doubling.get()),
        Reply::Exhausted => put_exhausted(text, alloc, known, line),
        Reply::Adopted(parent, child) => {
            put_new_order(text, alloc, known, line, (*parent, *child))
        }
        Reply::AdoptedAll(orders) => put_new_orders(text, alloc, known, line, orders.get().pairs()),
        _ => Ok(()),
    }
}

fn put_reversal(
    text: &mut Vec<u8>,
    alloc: Global,
    known: &Recording,
    line: u64,
    conflict: &Conflict,
) -> Result<(), AllocError>
    ensures { OnOk result (text.new.items ≡ text.old.items
        ++ line_text (reversal_tokens (told known.now) line (heading_text conflict.now.heading)
        conflict.now.held conflict.now.asked conflict.now.older)) }
{
    let kind = heading_text(conflict.heading);
    let mut json = report(
        alloc,
        known,
        line,
        kind,
        conflict.held,
        conflict.asked,
        conflict.older,
    )?;
    let asked = type_number(&known.verifier, conflict.asked.lock);
    let held = type_number(&known.verifier, conflict.held.lock);
    put_path(&mut json, known, asked, held)?;
    json.end_object()?;
    put_line(text, json)
}

fn heading_text(heading: Heading) -> &'static str
    ensures { result.now ≡ heading_text heading }
{
    match heading {
        Heading::Order => "reversal",
        Heading::Sleepable => "sleepable",
        Heading::Giant => "giant",
    }
}

fn put_duplicate(
    text: &mut Vec<u8>,
    alloc: Global,
    known: &Recording,
    line: u64,
    doubling: &Doubling,
) -> Result<(), AllocError>
    ensures { OnOk result (text.new.items ≡ text.old.items
        ++ line_text (duplicate_tokens (told known.now) line doubling.now.last doubling.now.asked)) }
{
    let mut json = report(
        alloc,
        known,
        line,
        "duplicate",
        doubling.last,
        doubling.asked,
        None,
    )?;
    json.end_object()?;
    put_line(text, json)
}

fn put_exhausted(
    text: &mut Vec<u8>,
    alloc: Global,
    known: &Recording,
    line: u64,
) -> Result<(), AllocError>
    ensures { OnOk result (text.new.items ≡ text.old.items
        ++ line_text (exhausted_tokens (told known.now) line)) }
{
    let mut json = finding(alloc, known.process, "report", line)?;
    put_text(&mut json, "kind", "exhausted")?;
    json.end_object()?;
    put_line(text, json)
}

// A report that begins: its kind and its locks.
fn report(
    alloc: Global,
    known: &Recording,
    line: u64,
    kind: &str,
    held: LockAt,
    asked: LockAt,
    older: Option<LockAt>,
) -> Result<Writer, AllocError>
    ensures before { IfOk result (λ w. w.before ≡ []) }
    ensures tokens { IfOk result (λ w. w.tokens
        ≡ report_tokens (told known.now) line kind.now held asked older) }
{
    let mut json = finding(alloc, known.process, "report", line)?;
    put_text(&mut json, "kind", kind)?;
    put_lock(&mut json, known, "held", held)?;
    put_lock(&mut json, known, "asked", asked)?;
    put_third(&mut json, known, older)?;
    Ok(json)
}

fn put_third(json: &mut Writer, known: &Recording, older: Option<LockAt>) -> Result<(), AllocError>
    ensures { Adds result json.old json.new (third_member (told known.now) older) }
{
    match older {
        Some(at) => put_lock(json, known, "third", at),
        None => Ok(()),
    }
}

// Adds the established order from one type to another; an empty one where none leads there.
fn put_path(
    json: &mut Writer,
    known: &Recording,
    from: TypeNo,
    to: TypeNo,
) -> Result<(), AllocError>
    ensures { Adds result json.old json.new (path_member (told known.now) from.0 to.0) }
{
    json.key("path")?;
    json.begin_array()?;
    match known.verifier.path(from, to) {
        Ok(Some(path)) => put_steps(json, known, &path)?,
        Ok(None) => {}
        Err(_) => return Err(AllocError),
    }
    json.end_array()
}

// Adds the orders between neighbours of a path.
fn put_steps(json: &mut Writer, known: &Recording, path: &[TypeNo]) -> Result<(), AllocError>
    ensures { Adds result json.old json.new
        (step_values (told known.now) (type_numbers path.now)) }
{
    match path {
        [] => Ok(()),
        [first, others @ ..] => put_steps_from(json, known, *first, others),
    }
}

fn put_steps_from(
    json: &mut Writer,
    known: &Recording,
    first: TypeNo,
    others: &[TypeNo],
) -> Result<(), AllocError>
    ensures { Adds result json.old json.new
        (step_values (told known.now) (first.0 ∷ type_numbers others.now)) }
{
    match others {
        [] => Ok(()),
        [next, rest @ ..] => {
            json.begin_object()?;
            put_order(json, known, first, *next)?;
            json.end_object()?;
            put_steps_from(json, known, *next, rest)
        }
    }
}

fn put_new_orders(
    text: &mut Vec<u8>,
    alloc: Global,
    known: &Recording,
    line: u64,
    orders: &[(TypeNo, TypeNo)],
) -> Result<(), AllocError>
    ensures { OnOk result (text.new.items ≡ text.old.items
        ++ flat_map (order_line (told known.now) line) orders.now) }
{
    match orders {
        [] => Ok(()),
        [order, others @ ..] => {
            put_new_order(text, alloc, known, line, *order)?;
            put_new_orders(text, alloc, known, line, others)
        }
    }
}

fn put_new_order(
    text: &mut Vec<u8>,
    alloc: Global,
    known: &Recording,
    line: u64,
    order: (TypeNo, TypeNo),
) -> Result<(), AllocError>
    ensures { OnOk result (text.new.items ≡ text.old.items
        ++ order_line (told known.now) line order) }
{
    let mut json = finding(alloc, known.process, "order", line)?;
    put_order(&mut json, known, order.0, order.1)?;
    json.end_object()?;
    put_line(text, json)
}
