//! In which turns seats can do their errands, so that each comes to its request.

use crate::deeds::{Act, Deed};
use crate::requests::Request;
use crate::shares::{Share, change, copied, exclude};
use indexmap::IndexSet;
use std::alloc::{AllocError, Global};
use wit_model::{LockNo, Mode};

/// An errand: the places of its deeds.
#[derive(Debug, Drop)]
pub struct Errand {
    /// In their sequence.
    pub places: Vec<usize>,
}

/// One errand goes on up to this deed of it, which isn't done yet.
#[derive(Clone, Copy, Debug, PartialEq, Eq)]
pub struct Turn {
    /// Which errand.
    pub member: usize,
    /// How many of its deeds are done then.
    pub to: usize,
}

/// Whether errands can be done beside one another.
#[derive(Debug, Drop)]
pub enum Meeting {
    /// By these turns.
    Meets(Vec<Turn>),
    /// In no turns. The deed of this place can't be done where the first errand came to its request.
    Barred(usize),
    /// Not all turns were tried.
    Undecided,
}

// So many places of all errands together are looked at.
const MOST_STATES: u32 = 50_000;

/// The errand of a request. One that makes locks leaves that out, where it is said.
///
/// # Errors
/// Want of memory alone.
pub fn errand_of(
    alloc: Global,
    deeds: &[Deed],
    request: &Request,
    makes: bool,
) -> Result<Errand, AllocError> {
    let mut places = Vec::new(alloc);
    for place in request.first..=request.check {
        match deeds.get(place) {
            Some(deed) if deed.seat == request.seat && (makes || !deed.is_making()) => {
                places.push(place)?
            }
            _ => {}
        }
    }
    Ok(Errand { places })
}

// A deed of an errand on a lock of which another errand gets shares too, and what is had after it.
#[derive(Debug, Drop)]
struct Stop {
    to: usize,
    act: Act,
    place: usize,
    had: Vec<Share>,
}

// Where each errand stands: how many of its stops are done; and by whose turns.
#[derive(Debug, Drop)]
struct State {
    done: Vec<usize>,
    turns: Vec<usize>,
}

/// In which turns these errands can be done, each from nothing to its request. The first one goes on
/// as long as it can.
///
/// # Errors
/// Want of memory alone.
pub fn meet(alloc: Global, deeds: &[Deed], errands: &[Errand]) -> Result<Meeting, AllocError> {
    let routes = routes_of(alloc, deeds, errands)?;
    let mut seen = IndexSet::new(alloc);
    let mut states = Vec::new(alloc);
    states.push(first_state(alloc, &routes)?)?;
    for _ in 0..MOST_STATES {
        let Some(state) = states.pop() else {
            return Ok(Meeting::Barred(barred_place(alloc, &routes)?));
        };
        if is_met(&routes, &state.done) {
            return Ok(Meeting::Meets(turns_of(alloc, &routes, errands, &state.turns)?));
        }
        for member in (0..routes.len()).rev() {
            if let Some(next) = advanced(alloc, &routes, &state, member)? {
                let key = Vec::from_slice(alloc, &next.done)?;
                if seen.insert(key)? {
                    states.push(next)?;
                }
            }
        }
    }
    Ok(Meeting::Undecided)
}

fn first_state(alloc: Global, routes: &[Vec<Stop>]) -> Result<State, AllocError> {
    let mut done = Vec::new(alloc);
    for _route in routes {
        done.push(0)?;
    }
    let turns = Vec::new(alloc);
    Ok(State { done, turns })
}

fn is_met(routes: &[Vec<Stop>], done: &[usize]) -> bool {
    routes.iter().enumerate().all(|(member, route)| match done.get(member) {
        Some(&done) => done >= route.len(),
        None => false,
    })
}

// The state after one more stop of a member, where the locks admit it.
fn advanced(
    alloc: Global,
    routes: &[Vec<Stop>],
    state: &State,
    member: usize,
) -> Result<Option<State>, AllocError> {
    let Some(&at) = state.done.get(member) else {
        return Ok(None);
    };
    let Some(stop) = routes.get(member).and_then(|route| route.get(at)) else {
        return Ok(None);
    };
    if !admits(routes, &state.done, member, stop.act) {
        return Ok(None);
    }
    let mut done = Vec::from_slice(alloc, &state.done)?;
    if let Some(count) = done.get_mut(member) {
        *count = at.saturating_add(1);
    }
    let mut turns = Vec::from_slice(alloc, &state.turns)?;
    turns.push(member)?;
    Ok(Some(State { done, turns }))
}

// Whether the locks admit the deed of a member, where so many stops are done.
fn admits(routes: &[Vec<Stop>], done: &[usize], member: usize, act: Act) -> bool {
    match act {
        Act::Gets(lock, mode) | Act::Tries(lock, mode) => {
            !any_excludes(routes, done, None, lock, mode)
        }
        Act::Turns(lock, Mode::Exclusive) => {
            !any_excludes(routes, done, Some(member), lock, Mode::Exclusive)
        }
        _ => true,
    }
}

// Whether one of them, but for this one, has a share with which nobody can have the lock so.
fn any_excludes(
    routes: &[Vec<Stop>],
    done: &[usize],
    but: Option<usize>,
    lock: LockNo,
    mode: Mode,
) -> bool {
    let wanted = Share {
        lock,
        mode,
        count: 1,
    };
    routes.iter().enumerate().any(|(member, route)| {
        but != Some(member)
            && match done.get(member) {
                Some(&done) => had_after(route, done)
                    .iter()
                    .any(|share| exclude(share, &wanted)),
                None => false,
            }
    })
}

// What is had after so many stops.
fn had_after(route: &[Stop], done: usize) -> &[Share] {
    match done.checked_sub(1).and_then(|last| route.get(last)) {
        Some(stop) => &stop.had,
        None => &[],
    }
}

// The deed at which the others stop where the first came to its request.
fn barred_place(alloc: Global, routes: &[Vec<Stop>]) -> Result<usize, AllocError> {
    let mut state = first_state(alloc, routes)?;
    for member in 0..routes.len() {
        let Some(route) = routes.get(member) else {
            continue;
        };
        for stop in route {
            match advanced(alloc, routes, &state, member)? {
                Some(next) => state = next,
                None => return Ok(stop.place),
            }
        }
    }
    Ok(0)
}

// The turns as counts of deeds: those of one member after another of its own are one.
fn turns_of(
    alloc: Global,
    routes: &[Vec<Stop>],
    errands: &[Errand],
    members: &[usize],
) -> Result<Vec<Turn>, AllocError> {
    let mut done = first_state(alloc, routes)?.done;
    let mut turns: Vec<Turn> = Vec::new(alloc);
    for &member in members {
        let Some(at) = done.get_mut(member) else {
            continue;
        };
        let to = match routes.get(member).and_then(|route| route.get(*at)) {
            Some(stop) => stop.to,
            None => continue,
        };
        *at = at.saturating_add(1);
        match turns.last_mut() {
            Some(last) if last.member == member => last.to = to,
            _ => turns.push(Turn { member, to })?,
        }
    }
    for (member, errand) in errands.iter().enumerate() {
        let to = errand.places.len();
        turns.push(Turn { member, to })?;
    }
    Ok(turns)
}

// The stops of each errand.
fn routes_of(
    alloc: Global,
    deeds: &[Deed],
    errands: &[Errand],
) -> Result<Vec<Vec<Stop>>, AllocError> {
    let mut touched = Vec::new(alloc);
    for errand in errands {
        touched.push(locks_of(alloc, deeds, errand)?)?;
    }
    let mut routes = Vec::new(alloc);
    for (member, errand) in errands.iter().enumerate() {
        routes.push(route_of(alloc, deeds, errand, member, &touched)?)?;
    }
    Ok(routes)
}

// The lock to whose shares a deed does something.
fn lock_of(act: Act) -> Option<LockNo> {
    match act {
        Act::Gets(lock, _) | Act::Tries(lock, _) | Act::Frees(lock) | Act::Turns(lock, _) => {
            Some(lock)
        }
        Act::Makes | Act::Asks(..) | Act::Other => None,
    }
}

fn locks_of(alloc: Global, deeds: &[Deed], errand: &Errand) -> Result<Vec<LockNo>, AllocError> {
    let mut locks = Vec::new(alloc);
    for &place in &errand.places {
        if let Some(lock) = deeds.get(place).and_then(|deed| lock_of(deed.act)) {
            if !locks.contains(&lock) {
                locks.push(lock)?;
            }
        }
    }
    Ok(locks)
}

fn is_common(touched: &[Vec<LockNo>], member: usize, lock: LockNo) -> bool {
    touched
        .iter()
        .enumerate()
        .any(|(other, locks)| other != member && locks.contains(&lock))
}

fn route_of(
    alloc: Global,
    deeds: &[Deed],
    errand: &Errand,
    member: usize,
    touched: &[Vec<LockNo>],
) -> Result<Vec<Stop>, AllocError> {
    let mut route = Vec::new(alloc);
    let mut had = Vec::new(alloc);
    let mut to: usize = 0;
    for &place in &errand.places {
        to = to.saturating_add(1);
        let Some(deed) = deeds.get(place) else {
            continue;
        };
        match lock_of(deed.act) {
            Some(lock) if is_common(touched, member, lock) => {
                change(&mut had, deed.act)?;
                route.push(Stop {
                    to,
                    act: deed.act,
                    place,
                    had: copied(alloc, &had)?,
                })?;
            }
            _ => {}
        }
    }
    Ok(route)
}
