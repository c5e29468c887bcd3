//! Reading a line.

ghost use Rattle.std.specs.Prelude.{◌≡◌, Some, false, unwrap_or};
ghost use Rattle.std.specs.Option.{option_copied};
ghost use Rattle.wit_fields.specs.Fields.{Gives};
ghost use Rattle.wit_recorded.specs.Reading.{begun_of, check_of, error_of, fields_of, give_up_of};
ghost use Rattle.wit_recorded.specs.Pairs.{lost_of};
ghost use Rattle.wit_recorded.specs.Reading.{grade_of, init_of, is_aside, is_declaring, is_passed, line_of, lock_of};
ghost use Rattle.wit_recorded.specs.Reading.{look_of, makes_lock, misuse_of, name_of, process_of};
ghost use Rattle.wit_recorded.specs.Reading.{thread_of, try_of, unlock_of, word_named};

use crate::fields::{at, count, manner, misuse, recursive};
use crate::lines::{Asked, Line, Misuse, Word};
use crate::pairs::{joined_line, life_line, lost, pair_line};
use std::alloc::Global;
use wit_fields::LineError;
use wit_fields::names::name;
use wit_fields::numbers::{lock, seat};
use wit_fields::words::{class, fixed, mode, split_before, word};

/// What a line says, without its line feed.
///
/// # Errors
/// `Bad(Cause::Syntax)` where it says nothing; `Memory` where a growth was refused.
#[tactic(auto, unfolding(crate::specs::Reading::line_of))]
pub fn recorded_line(alloc: Global, bytes: &[u8]) -> Result<Line, LineError>
    ensures { Gives (λ line. line) result (line_of bytes.now) }
{
    let (first, rest) = split_before(b' ', bytes);
    match word_of(first) {
        Some(word) => fields(alloc, word, rest),
        None if is_passed(first) => Ok(Line::Passed),
        None => Err(LineError::SYNTAX),
    }
}

/// Whether a line is to make a lock: it counts one, whether it is read or not.
pub fn makes_lock(bytes: &[u8]) -> bool
    ensures { result ≡ makes_lock bytes.now }
{
    let (first, _) = split_before(b' ', bytes);
    first == b"init".as_slice()
}

#[tactic(auto, unfolding(crate::specs::Reading::word_named))]
fn word_of(first: &[u8]) -> Option<Word>
    ensures { result ≡ word_named first.now }
{
    if first == b"check".as_slice() {
        Some(Word::Check)
    } else if first == b"lock".as_slice() {
        Some(Word::Lock)
    } else if first == b"unlock".as_slice() {
        Some(Word::Unlock)
    } else if first == b"try".as_slice() {
        Some(Word::Try)
    } else if first == b"giveup".as_slice() {
        Some(Word::GiveUp)
    } else if first == b"init".as_slice() {
        Some(Word::Init)
    } else if first == b"name".as_slice() {
        Some(Word::Name)
    } else if first == b"thread".as_slice() {
        Some(Word::Thread)
    } else if first == b"asked".as_slice() {
        Some(Word::Asked)
    } else if first == b"look".as_slice() {
        Some(Word::Look)
    } else if first == b"process".as_slice() {
        Some(Word::Process)
    } else if first == b"error".as_slice() {
        Some(Word::Error)
    } else if first == b"again".as_slice() {
        Some(Word::Again)
    } else if first == b"foreign".as_slice() {
        Some(Word::Foreign)
    } else if first == b"pair".as_slice() {
        Some(Word::Pair)
    } else if first == b"many".as_slice() {
        Some(Word::Many)
    } else if first == b"life".as_slice() {
        Some(Word::Life)
    } else if first == b"joined".as_slice() {
        Some(Word::Joined)
    } else if first == b"grade".as_slice() {
        Some(Word::Grade)
    } else {
        None
    }
}

fn is_passed(first: &[u8]) -> bool
    ensures { result ≡ is_passed first.now }
{
    is_declaring(first) || is_aside(first)
}

#[tactic(auto, unfolding(crate::specs::Reading::is_declaring))]
fn is_declaring(first: &[u8]) -> bool
    ensures { result ≡ is_declaring first.now }
{
    first == b"program".as_slice()
        || first == b"object".as_slice()
        || first == b"called".as_slice()
        || first == b"blind".as_slice()
        || first == b"place".as_slice()
        || first == b"either".as_slice()
        || first == b"site".as_slice()
        || first == b"stack".as_slice()
        || first == b"type".as_slice()
        || first == b"crowded".as_slice()
        || first == b"lent".as_slice()
}

#[tactic(auto, unfolding(crate::specs::Reading::is_aside))]
fn is_aside(first: &[u8]) -> bool
    ensures { result ≡ is_aside first.now }
{
    first == b"time".as_slice()
        || first == b"errand".as_slice()
        || first == b"went".as_slice()
        || first == b"answer".as_slice()
        || first == b"holder".as_slice()
        || first == b"owner".as_slice()
}

fn fields(alloc: Global, word: Word, bytes: &[u8]) -> Result<Line, LineError>
    ensures { Gives (λ line. line) result (fields_of word bytes.now) }
{
    match word {
        Word::Check => check(bytes),
        Word::Lock => got(bytes),
        Word::Unlock => unlock(bytes),
        Word::Try => tried(bytes),
        Word::GiveUp => give_up(bytes),
        Word::Init => init(bytes),
        Word::Name => type_name(alloc, bytes),
        Word::Thread => thread(bytes),
        Word::Asked => begun(bytes),
        Word::Look => look(bytes),
        Word::Process => process(bytes),
        Word::Error => error(bytes),
        Word::Again => misused(Misuse::Again, bytes),
        Word::Foreign => misused(Misuse::Foreign, bytes),
        Word::Pair => pair_line(alloc, bytes),
        Word::Many => Ok(Line::Many),
        Word::Life => life_line(bytes),
        Word::Joined => joined_line(bytes),
        Word::Grade => grade(bytes),
    }
}

#[tactic(auto, unfolding(crate::specs::Reading::check_of))]
fn check(bytes: &[u8]) -> Result<Line, LineError>
    ensures { Gives (λ line. line) result (check_of bytes.now) }
{
    let (seat, rest) = seat(bytes)?;
    let (lock, rest) = lock(rest)?;
    let (mode, rest) = mode(rest)?;
    let (_, rest) = manner(rest)?;
    let (place, stack, rest) = at(rest)?;
    if !rest.is_empty() {
        return Err(LineError::SYNTAX);
    }
    let stack = stack.unwrap_or(0);
    Ok(Line::Check(Asked {
        seat,
        lock,
        mode,
        place,
        stack,
    }))
}

#[tactic(auto, unfolding(crate::specs::Reading::try_of))]
fn tried(bytes: &[u8]) -> Result<Line, LineError>
    ensures { Gives (λ line. line) result (try_of bytes.now) }
{
    let (seat, rest) = seat(bytes)?;
    let (lock, rest) = lock(rest)?;
    let (mode, rest) = mode(rest)?;
    let (place, stack, rest) = at(rest)?;
    if !rest.is_empty() {
        return Err(LineError::SYNTAX);
    }
    let stack = stack.unwrap_or(0);
    Ok(Line::Try(Asked {
        seat,
        lock,
        mode,
        place,
        stack,
    }))
}

#[tactic(auto, unfolding(crate::specs::Reading::lock_of))]
fn got(bytes: &[u8]) -> Result<Line, LineError>
    ensures { Gives (λ line. line) result (lock_of bytes.now) }
{
    let (seat, rest) = seat(bytes)?;
    let (lock, rest) = lock(rest)?;
    if !rest.is_empty() {
        return Err(LineError::SYNTAX);
    }
    Ok(Line::Lock(seat, lock))
}

#[tactic(auto, unfolding(crate::specs::Reading::give_up_of))]
fn give_up(bytes: &[u8]) -> Result<Line, LineError>
    ensures { Gives (λ line. line) result (give_up_of bytes.now) }
{
    let (seat, rest) = seat(bytes)?;
    let (lock, rest) = lock(rest)?;
    if !rest.is_empty() {
        return Err(LineError::SYNTAX);
    }
    Ok(Line::GiveUp(seat, lock))
}

#[tactic(auto, unfolding(crate::specs::Reading::unlock_of))]
fn unlock(bytes: &[u8]) -> Result<Line, LineError>
    ensures { Gives (λ line. line) result (unlock_of bytes.now) }
{
    let (seat, rest) = seat(bytes)?;
    let (lock, rest) = lock(rest)?;
    let (mode, rest) = mode(rest)?;
    if !rest.is_empty() {
        return Err(LineError::SYNTAX);
    }
    Ok(Line::Unlock(seat, lock, mode))
}

#[tactic(auto, unfolding(crate::specs::Reading::init_of))]
fn init(bytes: &[u8]) -> Result<Line, LineError>
    ensures { Gives (λ line. line) result (init_of bytes.now) }
{
    let (seat, rest) = seat(bytes)?;
    let (class, rest) = class(rest)?;
    let (recursive, rest) = recursive(rest)?;
    let (of, rest) = count(rest)?;
    let (_, _) = count(rest)?;
    Ok(Line::Init(seat, class, recursive, of))
}

#[tactic(auto, unfolding(crate::specs::Reading::name_of))]
fn type_name(alloc: Global, bytes: &[u8]) -> Result<Line, LineError>
    ensures { Gives (λ line. line) result (name_of bytes.now) }
{
    let (of, rest) = count(bytes)?;
    let (name, rest) = name(alloc, rest)?;
    if !rest.is_empty() {
        return Err(LineError::SYNTAX);
    }
    Ok(Line::Name(of, name))
}

#[tactic(auto, unfolding(crate::specs::Reading::thread_of))]
fn thread(bytes: &[u8]) -> Result<Line, LineError>
    ensures { Gives (λ line. line) result (thread_of bytes.now) }
{
    let (seat, rest) = seat(bytes)?;
    let (_, rest) = word(rest)?;
    let (_, rest) = count(rest)?;
    let (thread, rest) = count(rest)?;
    if !rest.is_empty() {
        return Err(LineError::SYNTAX);
    }
    Ok(Line::Thread(seat, thread))
}

#[tactic(auto, unfolding(crate::specs::Reading::begun_of))]
fn begun(bytes: &[u8]) -> Result<Line, LineError>
    ensures { Gives (λ line. line) result (begun_of bytes.now) }
{
    let (_, rest) = count(bytes)?;
    let rest = fixed(b"version", rest)?;
    let (version, rest) = count(rest)?;
    Ok(Line::Begun(version, is_lost(rest)?))
}

// Whether the recording lacks calls, or what their thread held; where that isn't told, no.
fn is_lost(bytes: &[u8]) -> Result<bool, LineError>
    ensures { Gives (λ lost. lost) result (Some (unwrap_or (lost_of bytes.now) false)) }
{
    match lost(bytes) {
        Ok(lost) => Ok(lost),
        Err(LineError::Bad(_)) => Ok(false),
        Err(LineError::Memory) => Err(LineError::Memory),
    }
}

#[tactic(auto, unfolding(crate::specs::Reading::look_of))]
fn look(bytes: &[u8]) -> Result<Line, LineError>
    ensures { Gives (λ line. line) result (look_of bytes.now) }
{
    if bytes.is_empty() {
        Ok(Line::Look)
    } else {
        Err(LineError::SYNTAX)
    }
}

#[tactic(auto, unfolding(crate::specs::Reading::process_of))]
fn process(bytes: &[u8]) -> Result<Line, LineError>
    ensures { Gives (λ line. line) result (process_of bytes.now) }
{
    let (process, rest) = count(bytes)?;
    if !rest.is_empty() {
        return Err(LineError::SYNTAX);
    }
    Ok(Line::Process(process))
}

#[tactic(auto, unfolding(crate::specs::Reading::grade_of))]
fn grade(bytes: &[u8]) -> Result<Line, LineError>
    ensures { Gives (λ line. line) result (grade_of bytes.now) }
{
    let (line, rest) = count(bytes)?;
    if !rest.is_empty() {
        return Err(LineError::SYNTAX);
    }
    Ok(Line::Grade(line))
}

#[tactic(auto, unfolding(crate::specs::Reading::error_of))]
fn error(bytes: &[u8]) -> Result<Line, LineError>
    ensures { Gives (λ line. line) result (error_of bytes.now) }
{
    let (what, rest) = misuse(bytes)?;
    misused(what, rest)
}

#[tactic(auto, unfolding(crate::specs::Reading::misuse_of))]
fn misused(what: Misuse, bytes: &[u8]) -> Result<Line, LineError>
    ensures { Gives (λ line. line) result (misuse_of what bytes.now) }
{
    let (seat, rest) = seat(bytes)?;
    let (lock, rest) = lock(rest)?;
    let (place, rest) = count(rest)?;
    if !rest.is_empty() {
        return Err(LineError::SYNTAX);
    }
    Ok(Line::Error(what, seat, lock, place))
}
