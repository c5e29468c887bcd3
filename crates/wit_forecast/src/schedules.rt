//! Schedules: the lines of a trace in another sequence.

use crate::deeds::{Act, Deed};
use crate::meeting::{Errand, Turn};
use crate::requests::Request;
use std::alloc::{AllocError, Global};
use wit_model::SeatNo;

/// What a schedule is made of.
#[derive(Clone, Copy)]
pub struct Source<'a> {
    /// The lines of the trace.
    pub lines: &'a [Vec<u8>],
    /// How many of them are the prelude.
    pub head: usize,
    /// What the others do.
    pub deeds: &'a [Deed],
    /// How many seats it has.
    pub seats: u16,
}

/// One errand of a schedule, and the seat that does it there.
#[derive(Debug, Drop)]
pub struct Part {
    /// The errand.
    pub errand: Errand,
    /// Who does it.
    pub seat: SeatNo,
}

// A schedule that begins as the run did has at most so many lines.
const MOST_LINES: usize = 4096;

/// The lines of all that the seats did before these errands, then the errands by turns. `None` where
/// that would be long, or a lock would get another number.
///
/// # Errors
/// Want of memory alone.
pub fn whole_schedule(
    alloc: Global,
    source: Source<'_>,
    members: &[&Request],
    parts: &[Part],
    turns: &[Turn],
) -> Result<Option<Vec<Vec<u8>>>, AllocError> {
    let last = last_check(members);
    if last >= MOST_LINES {
        return Ok(None);
    }
    let cuts = cuts_of(alloc, source, members, last)?;
    let mut schedule = Schedule::new(alloc);
    for place in 0..=last {
        if let Some(deed) = source.deeds.get(place) {
            if place < cut_of(&cuts, deed.seat) {
                schedule.put(alloc, source, place, deed.seat)?;
            }
        }
    }
    schedule.put_turns(alloc, source, parts, turns)?;
    Ok(schedule.finished())
}

/// Errands by turns, and what has to stand before them.
#[derive(Debug, Drop)]
pub struct Errands {
    /// How many locks are made before them.
    pub makings: u32,
    /// Their lines, each by the seat that does it there.
    pub lines: Vec<Vec<u8>>,
}

/// The errands by turns, after what makes the locks that are named. `None` where a lock would get
/// another number.
///
/// # Errors
/// Want of memory alone.
pub fn errands_schedule(
    alloc: Global,
    source: Source<'_>,
    parts: &[Part],
    turns: &[Turn],
) -> Result<Option<Errands>, AllocError> {
    let mut schedule = Schedule::new(alloc);
    let needed = greatest_in(source.deeds, parts);
    for deed in source.deeds {
        if schedule.made >= needed {
            break;
        }
        schedule.count(deed);
    }
    let makings = schedule.made;
    schedule.put_turns(alloc, source, parts, turns)?;
    Ok(match schedule.finished() {
        Some(lines) => Some(Errands { makings, lines }),
        None => None,
    })
}

/// The prelude, with so many seats.
///
/// # Errors
/// Want of memory alone.
pub fn head_with(
    alloc: Global,
    source: Source<'_>,
    seats: u16,
) -> Result<Vec<Vec<u8>>, AllocError> {
    let mut head = Vec::new(alloc);
    for (place, line) in source.lines.iter().enumerate() {
        if place >= source.head {
            break;
        }
        let line = match place == 0 && seats != source.seats {
            true => changed(alloc, line, 3, u32::from(seats))?,
            false => Vec::from_slice(alloc, line)?,
        };
        head.push(line)?;
    }
    Ok(head)
}

// A line with a number in place of the field after so many spaces.
fn changed(alloc: Global, line: &[u8], place: u32, number: u32) -> Result<Vec<u8>, AllocError> {
    let digits = number.to_string(alloc)?;
    let mut text = Vec::new(alloc);
    let mut spaces: u32 = 0;
    for byte in line {
        if *byte == b' ' {
            spaces = spaces.saturating_add(1);
            text.push(*byte)?;
            if spaces == place {
                text.extend_from_slice(digits.as_bytes())?;
            }
        } else if spaces != place {
            text.push(*byte)?;
        }
    }
    Ok(text)
}

// A schedule as its lines are put together.
#[derive(Drop)]
struct Schedule {
    lines: Vec<Vec<u8>>,
    // How many locks were made.
    made: u32,
    // Whether each lock got its number.
    is_numbered: bool,
}

impl Schedule {
    fn new(alloc: Global) -> Schedule {
        Schedule {
            lines: Vec::new(alloc),
            made: 0,
            is_numbered: true,
        }
    }

    fn finished(self) -> Option<Vec<Vec<u8>>> {
        match self.is_numbered {
            true => Some(self.lines),
            false => None,
        }
    }

    // Counts a lock, where the deed makes one.
    fn count(&mut self, deed: &Deed) {
        if deed.is_making() {
            self.made = self.made.saturating_add(1);
            self.is_numbered = self.is_numbered && self.made == deed.greatest;
        }
    }

    // Puts the line of a deed, done by this seat.
    fn put(
        &mut self,
        alloc: Global,
        source: Source<'_>,
        place: usize,
        seat: SeatNo,
    ) -> Result<(), AllocError> {
        let (Some(deed), Some(line)) = (
            source.deeds.get(place),
            source.lines.get(source.head.saturating_add(place)),
        ) else {
            return Ok(());
        };
        self.count(deed);
        let line = match seat == deed.seat {
            true => Vec::from_slice(alloc, line)?,
            false => changed(alloc, line, 1, u32::from(seat.0))?,
        };
        self.lines.push(line)?;
        Ok(())
    }

    fn put_turns(
        &mut self,
        alloc: Global,
        source: Source<'_>,
        parts: &[Part],
        turns: &[Turn],
    ) -> Result<(), AllocError> {
        let mut done = Vec::new(alloc);
        for _part in parts {
            done.push(0usize)?;
        }
        for turn in turns {
            let (Some(part), Some(from)) = (parts.get(turn.member), done.get_mut(turn.member))
            else {
                continue;
            };
            for at in *from..turn.to {
                if let Some(&place) = part.errand.places.get(at) {
                    self.put(alloc, source, place, part.seat)?;
                }
            }
            *from = turn.to;
        }
        Ok(())
    }
}

// The place of the last request of these.
fn last_check(members: &[&Request]) -> usize {
    let mut last = 0;
    for request in members {
        last = request.check.max(last);
    }
    last
}

// The greatest number of a lock that errands name.
fn greatest_in(deeds: &[Deed], parts: &[Part]) -> u32 {
    let mut greatest = 0;
    for part in parts {
        for &place in &part.errand.places {
            if let Some(deed) = deeds.get(place) {
                greatest = deed.greatest.max(greatest);
            }
        }
    }
    greatest
}

// Before which place a seat stops, and how many shares it has there.
#[derive(Clone, Copy, Debug, Drop)]
struct Cut {
    place: usize,
    shares: u32,
    // Whether it goes on until it has nothing.
    goes_on: bool,
}

fn cut_of(cuts: &[Cut], seat: SeatNo) -> usize {
    match cuts.get(usize::from(seat.0)) {
        Some(cut) => cut.place,
        None => 0,
    }
}

// Where each seat stops: a member before its errand, and another one where it made the last lock
// that the members need, and has nothing.
fn cuts_of(
    alloc: Global,
    source: Source<'_>,
    members: &[&Request],
    last: usize,
) -> Result<Vec<Cut>, AllocError> {
    let needed = greatest_by(source.deeds, members, last);
    let mut cuts = Vec::new(alloc);
    for _seat in 0..=source.seats {
        cuts.push(Cut {
            place: 0,
            shares: 0,
            goes_on: false,
        })?;
    }
    for place in 0..=last {
        if let Some(deed) = source.deeds.get(place) {
            if let Some(cut) = cuts.get_mut(usize::from(deed.seat.0)) {
                go_on(cut, deed, place, needed);
            }
        }
    }
    for request in members {
        if let Some(cut) = cuts.get_mut(usize::from(request.seat.0)) {
            cut.place = request.first;
        }
    }
    Ok(cuts)
}

fn go_on(cut: &mut Cut, deed: &Deed, place: usize, needed: u32) {
    cut.shares = match deed.act {
        Act::Gets(..) | Act::Tries(..) => cut.shares.saturating_add(1),
        Act::Frees(_) => cut.shares.saturating_sub(1),
        _ => cut.shares,
    };
    if deed.is_making() && deed.greatest <= needed {
        cut.goes_on = true;
    }
    if cut.goes_on {
        cut.place = place.saturating_add(1);
        cut.goes_on = cut.shares > 0;
    }
}

// The greatest number of a lock that the members name up to their requests.
fn greatest_by(deeds: &[Deed], members: &[&Request], last: usize) -> u32 {
    let mut greatest = 0;
    for place in 0..=last {
        if let Some(deed) = deeds.get(place) {
            let is_named = members.iter().any(|request| request.seat == deed.seat
                && place <= request.check);
            if is_named {
                greatest = deed.greatest.max(greatest);
            }
        }
    }
    greatest
}
