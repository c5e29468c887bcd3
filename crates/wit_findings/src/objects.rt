//! Findings as JSON.

ghost use Rattle.std.specs.Prelude.{◌≡◌, ◌∷◌, ◌++◌, [], IfOk, OnOk, codes};
ghost use Rattle.json.specs.Token.{key};
ghost use Rattle.wit_findings.specs.Objects.{Adds, class_of, class_text, count_member, finding_tokens};
ghost use Rattle.wit_findings.specs.Objects.{head_tokens, line_text, lock_member, lock_value};
ghost use Rattle.wit_findings.specs.Objects.{order_members, process_member};
ghost use Rattle.wit_findings.specs.Objects.{origin_value, site_value, spot_tokens, text_member};
ghost use Rattle.wit_findings.specs.Objects.{type_number, type_text};
ghost use Rattle.wit_findings.specs.Told.{told};

use crate::recording::Recording;
use crate::spots::Spot;
use json::Writer;
use std::alloc::{AllocError, Global};
use wit_core::Verifier;
use wit_model::{Class, LockAt, LockNo, Origin, Site, TypeNo};
use wit_report::type_words;

/// Adds a finding, as a line.
///
/// # Errors
/// Want of memory alone.
#[tactic(auto, unfolding(crate::specs::Objects::line_text))]
pub fn put_line(text: &mut Vec<u8>, json: Writer) -> Result<(), AllocError>
    requires { json.before ≡ [] }
    ensures { OnOk result (text.new.items ≡ text.old.items ++ line_text json.tokens) }
{
    text.extend_from_slice(&json.into_inner())?;
    text.push(b'\n')?;
    Ok(())
}

/// A finding that begins: which one it is, and the process that it is of, where that has a number.
///
/// # Errors
/// Want of memory alone.
#[tactic(auto, unfolding(crate::specs::Objects::head_tokens))]
pub fn head(alloc: Global, process: Option<u32>, kind: &str) -> Result<Writer, AllocError>
    ensures before { IfOk result (λ w. w.before ≡ []) }
    ensures tokens { IfOk result (λ w. w.tokens ≡ head_tokens process kind.now) }
{
    let mut json = Writer::new(Vec::new(alloc));
    json.begin_object()?;
    put_text(&mut json, "finding", kind)?;
    put_process(&mut json, process)?;
    Ok(json)
}

fn put_process(json: &mut Writer, process: Option<u32>) -> Result<(), AllocError>
    ensures { Adds result json.old json.new (process_member process) }
{
    match process {
        Some(number) => put_count(json, "process", u64::from(number)),
        None => Ok(()),
    }
}

/// A finding that begins, of the line with this number.
///
/// # Errors
/// Want of memory alone.
pub fn finding(
    alloc: Global,
    process: Option<u32>,
    kind: &str,
    line: u64,
) -> Result<Writer, AllocError>
    ensures before { IfOk result (λ w. w.before ≡ []) }
    ensures tokens { IfOk result (λ w. w.tokens ≡ finding_tokens process kind.now line) }
{
    let mut json = head(alloc, process, kind)?;
    put_count(&mut json, "line", line)?;
    Ok(json)
}

/// Adds a member that is a number.
///
/// # Errors
/// Want of memory alone.
#[tactic(auto, unfolding(crate::specs::Objects::count_member))]
pub fn put_count(json: &mut Writer, name: &str, number: u64) -> Result<(), AllocError>
    ensures { Adds result json.old json.new (count_member name.now number) }
{
    json.key(name)?;
    json.u64(number)
}

/// Adds a member that is a text.
///
/// # Errors
/// Want of memory alone.
#[tactic(auto, unfolding(crate::specs::Objects::text_member))]
pub fn put_text(json: &mut Writer, name: &str, text: &str) -> Result<(), AllocError>
    ensures { Adds result json.old json.new (text_member name.now text.now) }
{
    json.key(name)?;
    json.string(text)
}

// Adds where a lock was asked for.
#[tactic(auto, unfolding(crate::specs::Objects::site_value))]
fn put_site(json: &mut Writer, known: &Recording, site: Site) -> Result<(), AllocError>
    ensures { Adds result json.old json.new (site_value (told known.now) site) }
{
    match known.spot(site.line) {
        Some(spot) => put_spot(json, spot),
        None => json.null(),
    }
}

#[tactic(auto, unfolding(crate::specs::Objects::spot_tokens))]
fn put_spot(json: &mut Writer, spot: Spot) -> Result<(), AllocError>
    ensures { Adds result json.old json.new (spot_tokens spot) }
{
    json.begin_object()?;
    put_count(json, "line", spot.line)?;
    put_count(json, "seat", u64::from(spot.seat.0))?;
    put_count(json, "thread", u64::from(spot.thread))?;
    put_count(json, "place", u64::from(spot.place))?;
    put_count(json, "stack", u64::from(spot.stack))?;
    json.end_object()
}

/// Adds a member that is a lock at a place.
///
/// # Errors
/// Want of memory alone.
#[tactic(auto, unfolding(crate::specs::Objects::lock_member))]
pub fn put_lock(
    json: &mut Writer,
    known: &Recording,
    name: &str,
    at: LockAt,
) -> Result<(), AllocError>
    ensures { Adds result json.old json.new (lock_member (told known.now) name.now at) }
{
    json.key(name)?;
    put_lock_value(json, known, at)
}

#[tactic(auto, unfolding(crate::specs::Objects::lock_value))]
fn put_lock_value(json: &mut Writer, known: &Recording, at: LockAt) -> Result<(), AllocError>
    ensures { Adds result json.old json.new (lock_value (told known.now) at) }
{
    let of = type_number(&known.verifier, at.lock);
    json.begin_object()?;
    put_count(json, "lock", known.number_of(at.lock))?;
    put_text(json, "type", type_words(&known.verifier, of))?;
    put_text(json, "class", class_text(class_of(&known.verifier, of)))?;
    json.key("at")?;
    put_site(json, known, at.site)?;
    json.end_object()
}

/// The type of a lock; 0 for a number that was never given.
pub fn type_number(verifier: &Verifier, lock: LockNo) -> TypeNo
    ensures { result ≡ type_number verifier.now lock.0 }
{
    verifier.type_of(lock).unwrap_or(TypeNo(0))
}

fn class_of(verifier: &Verifier, of: TypeNo) -> Class
    ensures { result ≡ class_of verifier.now of.0 }
{
    verifier.class_of(of).unwrap_or(Class::SleepMutex)
}

fn class_text(class: Class) -> &'static str
    ensures { result.now ≡ class_text class }
{
    match class {
        Class::SleepMutex => "mtx",
        Class::SpinMutex => "spin",
        Class::Rw => "rw",
        Class::Sx => "sx",
    }
}

/// Adds the members of a direct order: its types, and where it was first asked for.
///
/// # Errors
/// Want of memory alone.
#[tactic(auto, unfolding(crate::specs::Objects::order_members))]
pub fn put_order(
    json: &mut Writer,
    known: &Recording,
    parent: TypeNo,
    child: TypeNo,
) -> Result<(), AllocError>
    ensures { Adds result json.old json.new (order_members (told known.now) parent.0 child.0) }
{
    put_text(json, "from", type_words(&known.verifier, parent))?;
    put_text(json, "to", type_words(&known.verifier, child))?;
    json.key("at")?;
    put_origin(json, known, known.verifier.origin(parent, child))
}

#[tactic(auto, unfolding(crate::specs::Objects::origin_value))]
fn put_origin(
    json: &mut Writer,
    known: &Recording,
    origin: Option<Origin>,
) -> Result<(), AllocError>
    ensures { Adds result json.old json.new (origin_value (told known.now) origin) }
{
    match origin {
        Some(Origin::At(site)) => put_site(json, known, site),
        Some(Origin::Listed) => json.null(),
        Some(Origin::Defined) => json.null(),
        None => json.null(),
    }
}
