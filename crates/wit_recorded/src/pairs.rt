//! Reading what a recording says of single locks and of threads.

ghost use Rattle.std.specs.Prelude.{◌≡◌, ◌++◌, ◌∷◌, [], OnOk, Some};
ghost use Rattle.std.specs.List.{list_any};
ghost use Rattle.wit_fields.specs.Fields.{Gives};
ghost use Rattle.wit_model.specs.Trace.Reading.{behind, field_at, leading_word};
ghost use Rattle.wit_recorded.specs.Pairs.{besides_of, has, how_of, is_some_count, joined_said};
ghost use Rattle.wit_recorded.specs.Pairs.{leading_beside, leading_pair_lock, life_said, missed_of};
ghost use Rattle.wit_recorded.specs.Pairs.{lost_of, mode_lettered, pair_of, pair_said, three_of};

use crate::fields::count;
use crate::lines::{Besides, How, Line, MOST_BESIDES, Pair, PairLock};
use std::alloc::{AllocError, Global};
use wit_fields::LineError;
use wit_fields::words::{fixed, word};
use wit_model::Mode;

/// Whether the first line tells that calls are missing, or what their thread held.
///
/// # Errors
/// `Bad` where it doesn't tell what is missing.
#[tactic(auto, unfolding(crate::specs::Pairs::lost_of))]
pub fn lost(bytes: &[u8]) -> Result<bool, LineError>
    ensures { Gives (λ lost. lost) result (lost_of bytes.now) }
{
    let rest = fixed(b"missed", bytes)?;
    let (held, log) = missed(rest)?;
    Ok(is_some_count(held) || is_some_count(log))
}

fn missed(bytes: &[u8]) -> Result<(&[u8], &[u8]), LineError>
    ensures { Gives (λ x. (x.0.now, x.1.now)) result (missed_of bytes.now) }
{
    let (_, rest) = labelled(b"seats", bytes)?;
    let (_, rest) = labelled(b"types", rest)?;
    let (_, rest) = labelled(b"locks", rest)?;
    let (held, rest) = labelled(b"held", rest)?;
    let (log, _) = labelled(b"log", rest)?;
    Ok((held, log))
}

// A word after a fixed one.
fn labelled<'a>(label: &[u8], bytes: &'a [u8]) -> Result<(&'a [u8], &'a [u8]), LineError>
    ensures { Gives (λ field. (field.0.now, field.1.now)) result
        (behind label.now leading_word bytes.now) }
{
    let rest = fixed(label, bytes)?;
    word(rest)
}

#[tactic(auto, unfolding(crate::specs::Pairs::is_some_count))]
fn is_some_count(digits: &[u8]) -> bool
    ensures { result ≡ is_some_count digits.now }
{
    digits.iter().any(|digit| *digit != b'0')
}

/// A pair of single locks. One that can't be read may be any.
///
/// # Errors
/// Want of memory alone.
pub fn pair_line(alloc: Global, bytes: &[u8]) -> Result<Line, LineError>
    ensures { Gives (λ line. line) result (Some (pair_said (pair_of bytes.now))) }
{
    match pair(alloc, bytes) {
        Ok(pair) => Ok(Line::Pair(pair)),
        Err(LineError::Bad(_)) => Ok(Line::Many),
        Err(LineError::Memory) => Err(LineError::Memory),
    }
}

#[tactic(auto, unfolding(crate::specs::Pairs::pair_of))]
fn pair(alloc: Global, bytes: &[u8]) -> Result<Pair, LineError>
    ensures { Gives (λ pair. pair) result (pair_of bytes.now) }
{
    let (_, rest) = count(bytes)?;
    let (thread, rest) = count(rest)?;
    let (when, rest) = count(rest)?;
    let (place, rest) = count(rest)?;
    let (_, rest) = count(rest)?;
    let (held, of_held, rest) = pair_lock(rest)?;
    let (asked, of_asked, rest) = pair_lock(rest)?;
    let besides = besides(alloc, rest)?;
    Ok(Pair {
        thread,
        when,
        place,
        held,
        under: has(of_held, b'u'),
        asked,
        how: how_of(of_asked),
        further: has(of_asked, b'm'),
        besides: Besides::new(besides),
    })
}

// A lock of a pair, and the letters after its mode.
#[tactic(auto, unfolding(crate::specs::Pairs::leading_pair_lock))]
fn pair_lock(bytes: &[u8]) -> Result<(PairLock, &[u8], &[u8]), LineError>
    ensures { Gives (λ field. ((field.0, field.1.now), field.2.now)) result
        (leading_pair_lock bytes.now) }
{
    let (number, rest) = count(bytes)?;
    let (serial, rest) = count(rest)?;
    let (of, rest) = count(rest)?;
    let (mode, letters, rest) = lettered_mode(rest)?;
    let lock = PairLock {
        number,
        serial,
        of,
        mode,
    };
    Ok((lock, letters, rest))
}

fn lettered_mode(bytes: &[u8]) -> Result<(Mode, &[u8], &[u8]), LineError>
    ensures { Gives (λ field. ((field.0, field.1.now), field.2.now)) result
        (field_at mode_lettered bytes.now) }
{
    let (word, rest) = word(bytes)?;
    let (mode, letters) = mode_of(word)?;
    Ok((mode, letters, rest))
}

#[tactic(auto, unfolding(crate::specs::Pairs::mode_lettered))]
fn mode_of(word: &[u8]) -> Result<(Mode, &[u8]), LineError>
    ensures { Gives (λ x. (x.0, x.1.now)) result (mode_lettered word.now) }
{
    match word {
        [b'x', letters @ ..] => Ok((Mode::Exclusive, letters)),
        [b's', letters @ ..] => Ok((Mode::Shared, letters)),
        _ => Err(LineError::SYNTAX),
    }
}

#[tactic(auto, unfolding(crate::specs::Pairs::has))]
fn has(letters: &[u8], letter: u8) -> bool
    ensures { result ≡ has letter letters.now }
{
    letters.iter().any(|b| *b == letter)
}

#[tactic(auto, unfolding(crate::specs::Pairs::how_of))]
fn how_of(letters: &[u8]) -> How
    ensures { result ≡ how_of letters.now }
{
    if has(letters, b'w') {
        How::AsAWaitEnds
    } else if has(letters, b'p') {
        How::Repeatedly
    } else if has(letters, b'l') {
        How::ForATime
    } else {
        How::Plainly
    }
}

// Locks that were held besides, up to the end of the line.
#[tactic(auto, using(crate::proofs::Others::reads_start, crate::proofs::Others::reads_next, crate::proofs::Others::reads_none, crate::proofs::Others::reads_more, crate::proofs::Others::reads_end))]
fn besides(alloc: Global, bytes: &[u8]) -> Result<Vec<PairLock>, LineError>
    ensures { Gives (λ besides. besides.items) result (besides_of bytes.now) }
{
    let mut besides = Vec::new(alloc);
    let mut rest = bytes;
    while !rest.is_empty() {
        if besides.len() == MOST_BESIDES {
            return Err(LineError::SYNTAX);
        }
        let (lock, others) = beside(rest)?;
        add(&mut besides, lock)?;
        rest = others;
    }
    Ok(besides)
}

#[tactic(auto, unfolding(crate::specs::Pairs::leading_beside))]
fn beside(bytes: &[u8]) -> Result<(PairLock, &[u8]), LineError>
    ensures { Gives (λ field. (field.0, field.1.now)) result (leading_beside bytes.now) }
{
    let (lock, _, rest) = pair_lock(bytes)?;
    Ok((lock, rest))
}

fn add(besides: &mut Vec<PairLock>, lock: PairLock) -> Result<(), AllocError>
    ensures { OnOk result (besides.new.items ≡ besides.old.items ++ lock ∷ []) }
{
    besides.push(lock)?;
    Ok(())
}

/// A thread that was made. What can't be read isn't known.
///
/// # Errors
/// Want of memory alone.
pub fn life_line(bytes: &[u8]) -> Result<Line, LineError>
    ensures { Gives (λ line. line) result (Some (life_said (three_of bytes.now))) }
{
    match three(bytes) {
        Ok((thread, maker, at)) => Ok(Line::Life(thread, maker, at)),
        Err(LineError::Bad(_)) => Ok(Line::Passed),
        Err(LineError::Memory) => Err(LineError::Memory),
    }
}

/// A thread that was joined. What can't be read isn't known.
///
/// # Errors
/// Want of memory alone.
pub fn joined_line(bytes: &[u8]) -> Result<Line, LineError>
    ensures { Gives (λ line. line) result (Some (joined_said (three_of bytes.now))) }
{
    match three(bytes) {
        Ok((thread, by, at)) => Ok(Line::Joined(thread, by, at)),
        Err(LineError::Bad(_)) => Ok(Line::Passed),
        Err(LineError::Memory) => Err(LineError::Memory),
    }
}

// Three numbers, after which nothing stands.
fn three(bytes: &[u8]) -> Result<(u32, u32, u32), LineError>
    ensures { Gives (λ x. (x.0, (x.1, x.2))) result (three_of bytes.now) }
{
    let (first, rest) = count(bytes)?;
    let (second, rest) = count(rest)?;
    let (third, rest) = count(rest)?;
    if !rest.is_empty() {
        return Err(LineError::SYNTAX);
    }
    Ok((first, second, third))
}
