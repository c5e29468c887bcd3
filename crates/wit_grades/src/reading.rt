//! Reading a line: what a thread did, that facts may be missing, or that a grade is asked for.

ghost use Rattle.std.specs.Prelude.{◌≡◌, ◌++◌, ◌∷◌, [], OnOk};
ghost use Rattle.wit_fields.specs.Fields.{Gives};
ghost use Rattle.wit_model.specs.Trace.Reading.{both, leading_count, whole};
ghost use Rattle.wit_grades.specs.Reading.{alone, fact_of, join_of, keyword_named, leading_had};
ghost use Rattle.wit_grades.specs.Reading.{life_of, line_of, many, shown, shown_line};

use crate::fields::{had, held, manner, number, thread};
use std::alloc::{AllocError, Global};
use wit_alarms::{Fact, Had, Join, Life, ThreadNo};
use wit_fields::LineError;
use wit_fields::words::split_before;

/// The first word of a line, which says what its fields are.
#[derive(Clone, Copy, Debug, PartialEq, Eq, Hash)]
pub enum Keyword {
    /// `fact`.
    Fact,
    /// `life`.
    Life,
    /// `joined`.
    Joined,
    /// `missing`.
    Missing,
    /// `grade`.
    Grade,
}

/// What a line says. `F` is what stands for a fact.
#[derive(Debug, Drop)]
pub enum GradeLine<F> {
    /// A thread asked for a lock while it held another one.
    Fact(F),
    /// A thread was made.
    Life(Life),
    /// A thread was joined.
    Joined(Join),
    /// There may be facts that aren't told of.
    Missing,
    /// The grade is asked for.
    Grade,
}

/// What a line says, of at most 4,096 bytes and without its line feed.
///
/// # Errors
/// `Bad(Cause::Syntax)` where it says nothing; `Memory` where a growth was refused.
#[tactic(auto, unfolding(crate::specs::Reading::line_of))]
pub fn grade_line(alloc: Global, bytes: &[u8]) -> Result<GradeLine<Fact>, LineError>
    ensures { Gives shown_line result (line_of bytes.now) }
{
    let (word, rest) = split_before(b' ', bytes);
    match keyword_of(word)? {
        Keyword::Fact => Ok(GradeLine::Fact(fact(alloc, rest)?)),
        Keyword::Life => Ok(GradeLine::Life(life(rest)?)),
        Keyword::Joined => Ok(GradeLine::Joined(join(rest)?)),
        Keyword::Missing => alone(rest, GradeLine::Missing),
        Keyword::Grade => alone(rest, GradeLine::Grade),
    }
}

#[tactic(auto, unfolding(crate::specs::Reading::keyword_named))]
fn keyword_of(word: &[u8]) -> Result<Keyword, LineError>
    ensures { Gives (λ keyword. keyword) result (keyword_named word.now) }
{
    if word == b"fact".as_slice() {
        Ok(Keyword::Fact)
    } else if word == b"life".as_slice() {
        Ok(Keyword::Life)
    } else if word == b"joined".as_slice() {
        Ok(Keyword::Joined)
    } else if word == b"missing".as_slice() {
        Ok(Keyword::Missing)
    } else if word == b"grade".as_slice() {
        Ok(Keyword::Grade)
    } else {
        Err(LineError::SYNTAX)
    }
}

// What a line says that has no fields.
fn alone(bytes: &[u8], line: GradeLine<Fact>) -> Result<GradeLine<Fact>, LineError>
    ensures { Gives shown_line result (alone (shown_line line) bytes.now) }
{
    if !bytes.is_empty() {
        return Err(LineError::SYNTAX);
    }
    Ok(line)
}

// The fields of a fact.
#[tactic(auto, unfolding(crate::specs::Reading::fact_of))]
fn fact(alloc: Global, bytes: &[u8]) -> Result<Fact, LineError>
    ensures { Gives shown result (fact_of bytes.now) }
{
    let (held, under, rest) = held(bytes)?;
    let (asked, rest) = had(rest)?;
    let (manner, rest) = manner(rest)?;
    let (thread, rest) = thread(rest)?;
    let (first, rest) = number(rest)?;
    let (last, rest) = number(rest)?;
    let besides = besides(alloc, rest)?;
    Ok(Fact {
        held,
        under,
        asked,
        manner,
        besides,
        thread,
        first,
        last,
    })
}

// Locks and their modes, up to the end of the line.
#[tactic(auto, using(crate::proofs::Besides::reads_start, crate::proofs::Besides::reads_next, crate::proofs::Besides::reads_none, crate::proofs::Besides::reads_end, crate::proofs::Codecs::had_shorter))]
fn besides(alloc: Global, bytes: &[u8]) -> Result<Vec<Had>, LineError>
    ensures { Gives (λ besides. besides.items) result (whole (many leading_had) bytes.now) }
{
    let mut besides = Vec::new(alloc);
    let mut rest = bytes;
    while !rest.is_empty() {
        let (had, others) = had(rest)?;
        add(&mut besides, had)?;
        rest = others;
    }
    Ok(besides)
}

fn add(besides: &mut Vec<Had>, had: Had) -> Result<(), AllocError>
    ensures { OnOk result (besides.new.items ≡ besides.old.items ++ had ∷ []) }
{
    besides.push(had)?;
    Ok(())
}

// The fields of a thread that was made.
#[tactic(auto, unfolding(crate::specs::Reading::life_of))]
fn life(bytes: &[u8]) -> Result<Life, LineError>
    ensures { Gives (λ life. life) result (life_of bytes.now) }
{
    let (thread, maker, made_at) = three(bytes)?;
    Ok(Life {
        thread: ThreadNo(thread),
        maker: ThreadNo(maker),
        made_at,
    })
}

// The fields of a thread that was joined.
#[tactic(auto, unfolding(crate::specs::Reading::join_of))]
fn join(bytes: &[u8]) -> Result<Join, LineError>
    ensures { Gives (λ join. join) result (join_of bytes.now) }
{
    let (thread, by, at) = three(bytes)?;
    Ok(Join {
        thread: ThreadNo(thread),
        by: ThreadNo(by),
        at,
    })
}

// Three numbers, after which nothing stands.
fn three(bytes: &[u8]) -> Result<(u32, u32, u32), LineError>
    ensures { Gives (λ x. (x.0, (x.1, x.2))) result
        (whole (both leading_count (both leading_count leading_count)) bytes.now) }
{
    let (first, rest) = number(bytes)?;
    let (second, rest) = number(rest)?;
    let (third, rest) = number(rest)?;
    if !rest.is_empty() {
        return Err(LineError::SYNTAX);
    }
    Ok((first, second, third))
}
