//! The grade of a report, by what was told of single locks of its types.

ghost use Rattle.std.specs.Prelude.{◌≡◌, ◌++◌, ◌∷◌, [], IfOk, OnOk, Some, flat_map, is_some, not};
ghost use Rattle.std.specs.List.{list_any};
ghost use Rattle.std.specs.Option.{option_copied};
ghost use Rattle.wit_model.specs.Trace.Paths.{type_numbers};
ghost use Rattle.wit_tellings.specs.Facts.{at_place, made_of, who};
ghost use Rattle.wit_findings.specs.Graded.{TellsGrade, besides_member, circle_member, circle_of};
ghost use Rattle.wit_findings.specs.Graded.{flag_member, grade_line, grade_word, how_text, if_any, is_called};
ghost use Rattle.wit_findings.specs.Graded.{kept_circle, lock_members, number_if, numbers_in, reason_text};
ghost use Rattle.wit_findings.specs.Graded.{reason_value, reason_values, reasons_member, reported};
ghost use Rattle.wit_findings.specs.Graded.{single_member, single_value, teller_value, tellers_about};
ghost use Rattle.wit_findings.specs.Graded.{way_of, when_members, who_members};
ghost use Rattle.wit_findings.specs.Objects.{Adds};
ghost use Rattle.wit_findings.specs.Told.{told};

use crate::objects::{finding, put_count, put_line, put_text, type_number};
use crate::recording::{Recording, Reported, Way};
use crate::states::mode_words;
use json::Writer;
use std::alloc::{AllocError, Global};
use wit_alarms::{Cause, Fact, Grade, Lives, Reason, grade_of, keeps_alone};
use wit_model::{Name, Reply, TypeNo};
use wit_recorded::{How, PairLock};
use wit_report::type_words;
use wit_tellings::{Teller, since};

/// The report of a reply to the line with this number, if it is one of an order.
///
/// # Errors
/// Want of memory alone.
pub fn reported(
    alloc: Global,
    known: &Recording,
    line: u64,
    reply: &Reply,
) -> Result<Option<Reported>, AllocError>
    ensures { IfOk result (λ report. if_any report ≡ reported (told known.now) line reply.now) }
{
    match reply {
        Reply::Reversal(conflict) => {
            let conflict = conflict.get();
            let asked = type_number(&known.verifier, conflict.asked.lock);
            let held = type_number(&known.verifier, conflict.held.lock);
            let types = way_of(alloc, known, asked, held)?;
            Ok(Some(Reported { line, types }))
        }
        Reply::Duplicate(doubling) => {
            let asked = type_number(&known.verifier, doubling.get().asked.lock);
            let types = way_alone(alloc, asked)?;
            Ok(Some(Reported { line, types }))
        }
        _ => Ok(None),
    }
}

// The types of the established order from one type to another; the first alone where none leads there.
fn way_of(alloc: Global, known: &Recording, asked: TypeNo, held: TypeNo) -> Result<Way, AllocError>
    ensures { IfOk result (λ way. way ≡ way_of (told known.now) asked.0 held.0) }
{
    match known.verifier.path(asked, held) {
        Ok(Some(path)) => Ok(Way::new(path)),
        Ok(None) => way_alone(alloc, asked),
        Err(_) => Err(AllocError),
    }
}

fn way_alone(alloc: Global, of: TypeNo) -> Result<Way, AllocError>
    ensures { IfOk result (λ way. way ≡ of.0 ∷ []) }
{
    let mut types = Vec::new(alloc);
    types.push(of)?;
    Ok(Way::new(types))
}

/// The grade of a report, as a finding.
///
/// # Errors
/// Want of memory alone.
pub fn grade_text(
    alloc: Global,
    known: &Recording,
    report: &Reported,
) -> Result<Vec<u8>, AllocError>
    ensures { IfOk result (λ text. TellsGrade (told known.now) report.now text.items) }
{
    let tellers = tellers_about(alloc, known, report)?;
    let facts = known.tellings.facts(alloc, &tellers)?;
    let lives = known.tellings.lives(alloc)?;
    let grade = grade_of(alloc, &facts, &lives, !known.tellings.lacks())?;
    let text = graded_text(alloc, known, report, &tellers, &facts, &lives, &grade)?;
    Ok(text)
}

// Who asked for a lock of the report's types while it held another one of them.
fn tellers_about(
    alloc: Global,
    known: &Recording,
    report: &Reported,
) -> Result<Vec<Teller>, AllocError>
    ensures { IfOk result (λ all. all.items ≡ tellers_about (told known.now) report.now) }
{
    let mut numbers = Vec::new(alloc);
    put_numbers(&mut numbers, known, report.types.types(), &known.names)?;
    known.tellings.tellers(alloc, &numbers)
}

// The numbers that the recording has for these types.
fn put_numbers(
    to: &mut Vec<u32>,
    known: &Recording,
    types: &[TypeNo],
    names: &[(u32, Name)],
) -> Result<(), AllocError>
    ensures { OnOk result (to.new.items ≡ to.old.items
        ++ numbers_in (told known.now) (type_numbers types.now) names.now) }
{
    match names {
        [] => Ok(()),
        [(number, name), others @ ..] => {
            put_number(to, is_any_called(known, name, types), *number)?;
            put_numbers(to, known, types, others)
        }
    }
}

fn put_number(to: &mut Vec<u32>, is: bool, number: u32) -> Result<(), AllocError>
    ensures { OnOk result (to.new.items ≡ to.old.items ++ number_if is number) }
{
    if is {
        to.push(number)?;
    }
    Ok(())
}

fn is_any_called(known: &Recording, name: &Name, types: &[TypeNo]) -> bool
    ensures { result ≡ list_any (is_called (told known.now) name.now) (type_numbers types.now) }
{
    match types {
        [] => false,
        [first, others @ ..] => {
            is_called(known, name, *first) || is_any_called(known, name, others)
        }
    }
}

fn is_called(known: &Recording, name: &Name, of: TypeNo) -> bool
    ensures { result ≡ is_called (told known.now) name.now of.0 }
{
    name.as_str() == type_words(&known.verifier, of)
}

fn graded_text(
    alloc: Global,
    known: &Recording,
    report: &Reported,
    tellers: &[Teller],
    facts: &[Fact],
    lives: &Lives,
    grade: &Grade,
) -> Result<Vec<u8>, AllocError>
    requires { tellers.now ≡ tellers_about (told known.now) report.now }
    ensures { IfOk result (λ text. text.items
        ≡ grade_line (told known.now) report.now lives.now facts.now grade.now) }
{
    let mut json = finding(alloc, known.process, "grade", report.line)?;
    put_text(&mut json, "grade", grade_word(grade))?;
    put_count(&mut json, "types", report.types.count() as u64)?;
    put_circle(&mut json, known, tellers, circle_of(grade))?;
    put_reasons(&mut json, lives, facts, kept_circle(grade))?;
    json.end_object()?;
    let mut text = Vec::new(alloc);
    put_line(&mut text, json)?;
    Ok(text)
}

fn grade_word(grade: &Grade) -> &'static str
    ensures { result.now ≡ grade_word grade.now }
{
    match grade {
        Grade::Same(_) => "same",
        Grade::Never(Cause::TypesAlone) => "types",
        Grade::Never(Cause::Kept(_, _)) | Grade::Never(Cause::Several(_)) => "kept",
        Grade::NotKnown => "unknown",
    }
}

fn circle_of(grade: &Grade) -> &[usize]
    ensures { result.now ≡ circle_of grade.now }
{
    match grade {
        Grade::Same(circle) => circle,
        Grade::Never(Cause::TypesAlone) => &[],
        Grade::Never(Cause::Kept(_, circle)) => circle,
        Grade::Never(Cause::Several(circle)) => circle,
        Grade::NotKnown => &[],
    }
}

// Of one that doesn't close.
fn kept_circle(grade: &Grade) -> Option<&[usize]>
    ensures { option_copied result ≡ kept_circle grade.now }
{
    match grade {
        Grade::Same(_) => None,
        Grade::Never(Cause::TypesAlone) => None,
        Grade::Never(Cause::Kept(_, circle)) => Some(circle),
        Grade::Never(Cause::Several(circle)) => Some(circle),
        Grade::NotKnown => None,
    }
}

#[tactic(auto, unfolding(crate::specs::Graded::circle_member))]
fn put_circle(
    json: &mut Writer,
    known: &Recording,
    tellers: &[Teller],
    circle: &[usize],
) -> Result<(), AllocError>
    ensures { Adds result json.old json.new (circle_member (told known.now) tellers.now circle.now) }
{
    json.key("circle")?;
    json.begin_array()?;
    put_tellers(json, known, tellers, circle)?;
    json.end_array()
}

fn put_tellers(
    json: &mut Writer,
    known: &Recording,
    tellers: &[Teller],
    places: &[usize],
) -> Result<(), AllocError>
    ensures { Adds result json.old json.new
        (flat_map (at_place (teller_value (told known.now)) tellers.now) places.now) }
{
    match places {
        [] => Ok(()),
        [place, others @ ..] => {
            put_teller_at(json, known, tellers, *place)?;
            put_tellers(json, known, tellers, others)
        }
    }
}

fn put_teller_at(
    json: &mut Writer,
    known: &Recording,
    tellers: &[Teller],
    place: usize,
) -> Result<(), AllocError>
    ensures { Adds result json.old json.new
        (at_place (teller_value (told known.now)) tellers.now place) }
{
    put_if_any(json, known, tellers.get(place))
}

fn put_if_any(
    json: &mut Writer,
    known: &Recording,
    teller: Option<&Teller>,
) -> Result<(), AllocError>
    ensures { Adds result json.old json.new
        (made_of (teller_value (told known.now)) (option_copied teller.entry)) }
{
    match teller {
        Some(teller) => put_teller(json, known, teller),
        None => Ok(()),
    }
}

fn put_teller(json: &mut Writer, known: &Recording, teller: &Teller) -> Result<(), AllocError>
    ensures { Adds result json.old json.new (teller_value (told known.now) teller.now) }
{
    json.begin_object()?;
    put_who(json, known, teller)?;
    put_when(json, known, teller)?;
    put_locks(json, teller)?;
    json.end_object()
}

// Who did so.
#[tactic(auto, unfolding(crate::specs::Graded::who_members))]
fn put_who(json: &mut Writer, known: &Recording, teller: &Teller) -> Result<(), AllocError>
    ensures { Adds result json.old json.new (who_members (told known.now) teller.now) }
{
    put_count(json, "thread", u64::from(teller.thread))?;
    put_flag(json, "known", is_known(known, teller))?;
    put_flag(json, "further", is_further(teller))
}

fn is_known(known: &Recording, teller: &Teller) -> bool
    ensures { result ≡ is_some (who (told known.now).heard teller.now teller.now.deed) }
{
    known.tellings.who(teller).is_some()
}

fn is_further(teller: &Teller) -> bool
    ensures { result ≡ not (is_some teller.now.deed) }
{
    !teller.deed.is_some()
}

// When, and where first.
#[tactic(auto, unfolding(crate::specs::Graded::when_members))]
fn put_when(json: &mut Writer, known: &Recording, teller: &Teller) -> Result<(), AllocError>
    ensures { Adds result json.old json.new (when_members (told known.now) teller.now) }
{
    let last = known.tellings.until_when(teller.deed);
    put_count(json, "first", u64::from(since(teller.deed)))?;
    put_count(json, "last", u64::from(last))?;
    put_count(json, "place", u64::from(teller.place))
}

// What it held, and asked for.
#[tactic(auto, unfolding(crate::specs::Graded::lock_members))]
fn put_locks(json: &mut Writer, teller: &Teller) -> Result<(), AllocError>
    ensures { Adds result json.old json.new (lock_members teller.now) }
{
    put_single(json, "held", teller.held)?;
    put_flag(json, "under", teller.under)?;
    put_single(json, "asked", teller.asked)?;
    put_text(json, "how", how_text(teller.how))?;
    put_besides(json, teller.besides.locks())
}

#[tactic(auto, unfolding(crate::specs::Graded::besides_member))]
fn put_besides(json: &mut Writer, locks: &[PairLock]) -> Result<(), AllocError>
    ensures { Adds result json.old json.new (besides_member locks.now) }
{
    json.key("besides")?;
    json.begin_array()?;
    put_singles(json, locks)?;
    json.end_array()
}

#[tactic(auto, unfolding(crate::specs::Graded::flag_member))]
fn put_flag(json: &mut Writer, name: &str, flag: bool) -> Result<(), AllocError>
    ensures { Adds result json.old json.new (flag_member name.now flag) }
{
    json.key(name)?;
    json.boolean(flag)
}

fn put_single(json: &mut Writer, name: &str, lock: PairLock) -> Result<(), AllocError>
    ensures { Adds result json.old json.new (single_member name.now lock) }
{
    json.key(name)?;
    put_single_value(json, lock)
}

fn put_singles(json: &mut Writer, locks: &[PairLock]) -> Result<(), AllocError>
    ensures { Adds result json.old json.new (flat_map single_value locks.now) }
{
    match locks {
        [] => Ok(()),
        [lock, others @ ..] => {
            put_single_value(json, *lock)?;
            put_singles(json, others)
        }
    }
}

#[tactic(auto, unfolding(crate::specs::Graded::single_value))]
fn put_single_value(json: &mut Writer, lock: PairLock) -> Result<(), AllocError>
    ensures { Adds result json.old json.new (single_value lock) }
{
    json.begin_object()?;
    put_count(json, "lock", u64::from(lock.number))?;
    put_count(json, "serial", u64::from(lock.serial))?;
    put_text(json, "mode", mode_words(lock.mode))?;
    json.end_object()
}

fn how_text(how: How) -> &'static str
    ensures { result.now ≡ how_text how }
{
    match how {
        How::Plainly => "plain",
        How::ForATime => "timed",
        How::Repeatedly => "repeated",
        How::AsAWaitEnds => "wait",
    }
}

// Each reason that keeps the circle from closing by itself.
#[tactic(auto, unfolding(crate::specs::Graded::reasons_member))]
fn put_reasons(
    json: &mut Writer,
    lives: &Lives,
    facts: &[Fact],
    circle: Option<&[usize]>,
) -> Result<(), AllocError>
    ensures { Adds result json.old json.new
        (reasons_member lives.now facts.now (option_copied circle.entry)) }
{
    json.key("reasons")?;
    json.begin_array()?;
    put_reasons_if(json, lives, facts, circle)?;
    json.end_array()
}

fn put_reasons_if(
    json: &mut Writer,
    lives: &Lives,
    facts: &[Fact],
    circle: Option<&[usize]>,
) -> Result<(), AllocError>
    ensures { Adds result json.old json.new
        (reason_values lives.now facts.now (option_copied circle.entry)) }
{
    match circle {
        Some(circle) => put_reasons_of(json, lives, facts, circle),
        None => Ok(()),
    }
}

fn put_reasons_of(
    json: &mut Writer,
    lives: &Lives,
    facts: &[Fact],
    circle: &[usize],
) -> Result<(), AllocError>
    ensures { Adds result json.old json.new (reason_values lives.now facts.now (Some circle.now)) }
{
    put_reason(json, lives, facts, circle, Reason::OneThread)?;
    put_reason(json, lives, facts, circle, Reason::Gate)?;
    put_reason(json, lives, facts, circle, Reason::Readers)?;
    put_reason(json, lives, facts, circle, Reason::Limit)?;
    put_reason(json, lives, facts, circle, Reason::Apart)?;
    put_reason(json, lives, facts, circle, Reason::Waits)
}

fn put_reason(
    json: &mut Writer,
    lives: &Lives,
    facts: &[Fact],
    circle: &[usize],
    reason: Reason,
) -> Result<(), AllocError>
    ensures { Adds result json.old json.new (reason_value lives.now facts.now circle.now reason) }
{
    if keeps_alone(reason, facts, lives, circle) {
        json.string(reason_text(reason))
    } else {
        Ok(())
    }
}

fn reason_text(reason: Reason) -> &'static str
    ensures { result.now ≡ reason_text reason }
{
    match reason {
        Reason::OneThread => "thread",
        Reason::Gate => "gate",
        Reason::Readers => "readers",
        Reason::Limit => "timed",
        Reason::Apart => "apart",
        Reason::Waits => "waits",
    }
}
