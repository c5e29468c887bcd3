//! The search for a schedule that ends in a report's circle.

ghost use Rattle.std.specs.Prelude.{drop, IfOk, IfSome};
ghost use Rattle.wit_model.specs.Trace.Moving.{with_feeds};
ghost use Rattle.wit_forecast.specs.Errands.{AreRests};
ghost use Rattle.wit_forecast.specs.Forecasts.{IsMeeting, IsOutcome, IsSchedule};
ghost use Rattle.wit_forecast.specs.Owners.{lines_in};

use crate::certifying::{Plan, meeting_text, schedule_text};
use crate::circles::{Circle, Hindrance, circles_through};
use crate::errands::Claim;
use crate::meeting::{Errand, Meeting, Turn, errand_of, meet};
use crate::outcomes::{Copy, Outcome, better};
use crate::reaching::leads;
use crate::reading::Report;
use crate::requests::Request;
use crate::schedules::{Part, Source, errands_schedule, head_with, whole_schedule};
use std::alloc::{AllocError, Global};
use wit_core::Verifier;
use wit_model::{LockNo, SeatNo, TypeNo};

/// A trace in which schedules are sought.
#[derive(Clone, Copy)]
pub struct Search<'a> {
    /// The trace.
    pub source: Source<'a>,
    /// The verifier after all of it.
    pub verifier: &'a Verifier,
    /// Its requests.
    pub requests: &'a [Request],
    /// For each lock by its number, the requests whose seats have it.
    pub holders: &'a [Vec<usize>],
    /// Which seats did something, by their numbers.
    pub active: &'a [bool],
    /// Before which of its lines their seats had nothing.
    pub rests: &'a [Option<u16>],
    /// Whether all of it was watched and recorded.
    pub is_watched: bool,
}

// So many circles of one report are tried.
const MOST_TRIED: u32 = 64;

// No trace has more seats.
const MOST_SEATS: u16 = 256;

impl Search<'_> {
    /// What comes of the search for one report. Where not everything was watched and recorded, nothing
    /// is sought.
    ///
    /// # Errors
    /// Want of memory alone.
    pub fn outcome_of(&self, alloc: Global, report: &Report) -> Result<Outcome, AllocError>
        requires { AreRests self.now.rests.now (drop self.now.source.head self.now.source.lines.now) }
        ensures { IfOk result
            (IsOutcome (with_feeds (lines_in self.now.source.lines.now))) }
    {
        if !self.is_watched {
            return Ok(Outcome::Undecided);
        }
        let mut circles = Vec::new(alloc);
        let mut all = true;
        for root in 0..self.requests.len() {
            if self.is_like(report, root) {
                let (found, whole) = circles_through(alloc, self.requests, self.holders, root)?;
                all = all && whole;
                for circle in found {
                    circles.push(circle)?;
                }
            }
        }
        let best = self.without_circles(alloc, report, all)?;
        self.best_of(alloc, &circles, best)
    }

    fn type_of(&self, lock: LockNo) -> Option<TypeNo> {
        self.verifier.type_of(lock)
    }

    // Whether a request asks for a lock of the one type behind a lock of the other.
    fn is_like(&self, report: &Report, root: usize) -> bool {
        let Some(request) = self.requests.get(root) else {
            return false;
        };
        self.type_of(request.lock) == self.type_of(report.asked)
            && request.had.iter().any(|share| self.type_of(share.lock) == self.type_of(report.held))
    }

    // What is to be said where no locks make a circle.
    fn without_circles(
        &self,
        alloc: Global,
        report: &Report,
        all: bool,
    ) -> Result<Outcome, AllocError>
        ensures { IfOk result
            (IsOutcome (with_feeds (lines_in self.now.source.lines.now))) }
    {
        if !all {
            return Ok(Outcome::Undecided);
        }
        let (Some(asked), Some(held)) = (self.type_of(report.asked), self.type_of(report.held))
        else {
            return Ok(Outcome::Undecided);
        };
        match asked == held || leads(alloc, self.verifier, self.requests, asked, held)? {
            true => Ok(Outcome::Types),
            false => Ok(Outcome::Untold),
        }
    }

    // What says most: circles of several seats are tried first.
    fn best_of(
        &self,
        alloc: Global,
        circles: &[Circle],
        first: Outcome,
    ) -> Result<Outcome, AllocError>
        requires rested { AreRests self.now.rests.now (drop self.now.source.head self.now.source.lines.now) }
        requires first { IsOutcome (with_feeds (lines_in self.now.source.lines.now)) first }
        ensures { IfOk result
            (IsOutcome (with_feeds (lines_in self.now.source.lines.now))) }
    {
        let mut best = first;
        let mut tried: u32 = 0;
        for wanted in [Hindrance::Nothing, Hindrance::Alone] {
            for circle in circles {
                if circle.hindrance != wanted || is_schedule_in(&best) {
                    continue;
                }
                tried = tried.saturating_add(1);
                let found = match tried <= MOST_TRIED {
                    true => self.schedule_of(alloc, &circle.members)?,
                    false => Outcome::Undecided,
                };
                best = better(best, found);
            }
        }
        for circle in circles {
            match circle.hindrance {
                Hindrance::Gate(lock) => best = better(best, Outcome::Gate(lock)),
                Hindrance::Readers => best = better(best, Outcome::Readers),
                Hindrance::Nothing | Hindrance::Alone => {}
            }
        }
        Ok(best)
    }

    // A schedule that ends with these requests, if one is found.
    fn schedule_of(&self, alloc: Global, places: &[usize]) -> Result<Outcome, AllocError>
        requires { AreRests self.now.rests.now (drop self.now.source.head self.now.source.lines.now) }
        ensures { IfOk result
            (IsOutcome (with_feeds (lines_in self.now.source.lines.now))) }
    {
        let members = self.members_of(alloc, places)?;
        let copies = self.copies_of(alloc, &members)?;
        if copies.is_empty() {
            if let Some(schedule) = self.whole(alloc, &members)? {
                return Ok(Outcome::Hangs(schedule));
            }
        }
        self.errands(alloc, &members, copies)
    }

    // The requests of these places. Who began its errand first in the run comes first.
    fn members_of(&self, alloc: Global, places: &[usize]) -> Result<Vec<&Request>, AllocError> {
        let mut members: Vec<&Request> = Vec::new(alloc);
        for &place in places {
            if let Some(request) = self.requests.get(place) {
                let mut before: usize = 0;
                for member in &members {
                    if member.first < request.first {
                        before = before.saturating_add(1);
                    }
                }
                let before = before.min(members.len());
                members.insert(before, request)?;
            }
        }
        Ok(members)
    }

    // A schedule that begins as the run did.
    fn whole(&self, alloc: Global, members: &[&Request]) -> Result<Option<Vec<u8>>, AllocError>
        ensures { IfOk result (λ found. IfSome found (λ text.
            IsSchedule (with_feeds (lines_in self.now.source.lines.now)) text.items)) }
    {
        let none = Vec::new(alloc);
        let errands = self.errands_of(alloc, members, true)?;
        let Meeting::Meets(turns) = meet(alloc, self.source.deeds, &errands)? else {
            return Ok(None);
        };
        let parts = parts_of(alloc, members, errands, &none)?;
        match whole_schedule(alloc, self.source, members, &parts, &turns)? {
            Some(chosen) => schedule_text(alloc, self.source.lines, self.source.head, &chosen),
            None => Ok(None),
        }
    }

    // A schedule of the errands alone, and of what makes the locks.
    fn errands(
        &self,
        alloc: Global,
        members: &[&Request],
        copies: Vec<Copy>,
    ) -> Result<Outcome, AllocError>
        requires { AreRests self.now.rests.now (drop self.now.source.head self.now.source.lines.now) }
        ensures { IfOk result
            (IsOutcome (with_feeds (lines_in self.now.source.lines.now))) }
    {
        let errands = self.errands_of(alloc, members, false)?;
        let turns = match meet(alloc, self.source.deeds, &errands)? {
            Meeting::Meets(turns) => turns,
            Meeting::Barred(_) if members.iter().any(|request| request.has_others) => {
                return Ok(Outcome::Undecided);
            }
            Meeting::Barred(place) => return Ok(Outcome::Barred(place)),
            Meeting::Undecided => return Ok(Outcome::Undecided),
        };
        let parts = parts_of(alloc, members, errands, &copies)?;
        let Some(errands) = errands_schedule(alloc, self.source, &parts, &turns)? else {
            return Ok(Outcome::Undecided);
        };
        let seats = seats_with(self.source.seats, &copies);
        let opening = head_with(alloc, self.source, seats)?;
        let claims = claims_of(alloc, members, &copies)?;
        let plan = Plan {
            opening: &opening,
            makings: errands.makings,
            chosen: &errands.lines,
            claims: &claims,
            own_alone: copies.is_empty(),
        };
        match self.meeting(alloc, &plan)? {
            Some(text) if plan.own_alone => Ok(Outcome::Meets(text)),
            Some(text) => Ok(Outcome::Alone(text, copies)),
            None => Ok(Outcome::Undecided),
        }
    }

    fn meeting(&self, alloc: Global, plan: &Plan<'_>) -> Result<Option<Vec<u8>>, AllocError>
        requires { AreRests self.now.rests.now (drop self.now.source.head self.now.source.lines.now) }
        ensures { IfOk result (λ found. IfSome found (λ text.
            IsMeeting plan.now.own_alone (with_feeds (lines_in self.now.source.lines.now)) text.items)) }
    {
        meeting_text(alloc, self.source.lines, self.source.head, self.rests, plan)
    }

    fn errands_of(
        &self,
        alloc: Global,
        members: &[&Request],
        makes: bool,
    ) -> Result<Vec<Errand>, AllocError> {
        let mut errands = Vec::new(alloc);
        for request in members {
            errands.push(errand_of(alloc, self.source.deeds, request, makes)?)?;
        }
        Ok(errands)
    }

    // A further seat for each request of a seat that has one already.
    fn copies_of(&self, alloc: Global, members: &[&Request]) -> Result<Vec<Copy>, AllocError> {
        let mut copies: Vec<Copy> = Vec::new(alloc);
        let mut seats = Vec::new(alloc);
        let mut last: u16 = 0;
        for request in members {
            if seats.contains(&request.seat) {
                last = self.free_after(last);
                copies.push(Copy {
                    copy: SeatNo(last),
                    seat: request.seat,
                    first: request.first,
                    check: request.check,
                })?;
            } else {
                seats.push(request.seat)?;
            }
        }
        Ok(copies)
    }

    // The next number of a seat that does nothing.
    fn free_after(&self, last: u16) -> u16 {
        for seat in 1..=MOST_SEATS {
            let is_free = match self.active.get(usize::from(seat)) {
                Some(active) => !*active,
                None => true,
            };
            if seat > last && is_free {
                return seat;
            }
        }
        MOST_SEATS
    }
}

fn is_schedule_in(outcome: &Outcome) -> bool {
    matches!(
        outcome,
        Outcome::Hangs(_) | Outcome::Meets(_) | Outcome::Alone(..)
    )
}

// The trace's seats, or so many that the further ones are among them.
fn seats_with(seats: u16, copies: &[Copy]) -> u16 {
    let mut most = seats;
    for copy in copies {
        most = copy.copy.0.max(most);
    }
    most
}

// Each errand with the seat that does it: its own, or a further one.
fn parts_of(
    alloc: Global,
    members: &[&Request],
    errands: Vec<Errand>,
    copies: &[Copy],
) -> Result<Vec<Part>, AllocError> {
    let mut parts = Vec::new(alloc);
    for (member, errand) in errands.into_iter().enumerate() {
        if let Some(request) = members.get(member) {
            let seat = seat_of(request, copies);
            parts.push(Part { errand, seat })?;
        }
    }
    Ok(parts)
}

// Which errand each seat does.
fn claims_of(
    alloc: Global,
    members: &[&Request],
    copies: &[Copy],
) -> Result<Vec<Claim>, AllocError> {
    let mut claims = Vec::new(alloc);
    for request in members {
        claims.push(Claim {
            seat: seat_of(request, copies).0,
            from: request.seat.0,
            first: request.first,
        })?;
    }
    Ok(claims)
}

fn seat_of(request: &Request, copies: &[Copy]) -> SeatNo {
    for copy in copies {
        if copy.seat == request.seat && copy.check == request.check {
            return copy.copy;
        }
    }
    request.seat
}
