//! Circles of requests: each asks for what the next one's seat has, and the last for what the first
//! one's has.

use crate::requests::Request;
use crate::shares::{Share, exclude, has_share};
use std::alloc::{AllocError, Global};
use wit_model::LockNo;

/// What keeps the seats of a circle from waiting for one another.
#[derive(Clone, Copy, Debug, PartialEq, Eq)]
pub enum Hindrance {
    /// Nothing that the requests say.
    Nothing,
    /// One seat would have to wait twice.
    Alone,
    /// Two of them have this lock, and not both as readers.
    Gate(LockNo),
    /// Who asks as a reader doesn't wait for readers.
    Readers,
}

/// Requests by their places, and what keeps their seats from waiting so.
#[derive(Debug, Drop)]
pub struct Circle {
    /// The places among all requests.
    pub members: Vec<usize>,
    /// What keeps them.
    pub hindrance: Hindrance,
}

// Circles of more requests are left out.
const LONGEST: usize = 8;

// So many beginnings of circles of one length are followed.
const MOST_PATHS: usize = 2048;

// So many circles are looked at.
const MOST_CIRCLES: usize = 256;

/// For each lock by its number, up to this one, the requests whose seats have it.
///
/// # Errors
/// Want of memory alone.
pub fn all_holders(
    alloc: Global,
    requests: &[Request],
    locks: u32,
) -> Result<Vec<Vec<usize>>, AllocError> {
    let mut holders: Vec<Vec<usize>> = Vec::new(alloc);
    for _lock in 0..=locks {
        holders.push(Vec::new(alloc))?;
    }
    for (place, request) in requests.iter().enumerate() {
        for share in &request.had {
            if let Some(places) = holders.get_mut(share.lock.0 as usize) {
                places.push(place)?;
            }
        }
    }
    Ok(holders)
}

/// The circles through one request, the short ones first. The second part is false where some were
/// left out.
///
/// # Errors
/// Want of memory alone.
pub fn circles_through(
    alloc: Global,
    requests: &[Request],
    holders: &[Vec<usize>],
    root: usize,
) -> Result<(Vec<Circle>, bool), AllocError> {
    let mut found = Vec::new(alloc);
    let mut all = true;
    let mut paths: Vec<Vec<usize>> = Vec::new(alloc);
    let mut first = Vec::new(alloc);
    first.push(root)?;
    paths.push(first)?;
    for _ in 1..LONGEST {
        let mut longer = Vec::new(alloc);
        for path in &paths {
            let whole = lengthen(
                alloc,
                requests,
                holders,
                root,
                path,
                &mut longer,
                &mut found,
            )?;
            all = all && whole;
        }
        paths = longer;
    }
    Ok((found, all && paths.is_empty()))
}

// The paths that go on from this one, and the circles that close by it: these go on to no other. It is
// false where some were left out.
fn lengthen(
    alloc: Global,
    requests: &[Request],
    holders: &[Vec<usize>],
    root: usize,
    path: &[usize],
    longer: &mut Vec<Vec<usize>>,
    found: &mut Vec<Circle>,
) -> Result<bool, AllocError> {
    for &next in holders_of(requests, holders, path) {
        if !goes_on(requests, path, next) {
            continue;
        }
        if longer.len() >= MOST_PATHS || found.len() >= MOST_CIRCLES {
            return Ok(false);
        }
        let mut more = Vec::from_slice(alloc, path)?;
        more.push(next)?;
        if asks_for_what_is_had(requests, next, root) {
            let hindrance = hindrance_of(requests, &more);
            let members = more;
            found.push(Circle { members, hindrance })?;
        } else {
            longer.push(more)?;
        }
    }
    Ok(true)
}

// The requests whose seats have the lock that the last one of a path asks for.
fn holders_of<'a>(requests: &[Request], holders: &'a [Vec<usize>], path: &[usize]) -> &'a [usize] {
    let Some(last) = path.last().and_then(|&place| requests.get(place)) else {
        return &[];
    };
    match holders.get(last.lock.0 as usize) {
        Some(places) => places,
        None => &[],
    }
}

// Whether this request follows on a path. Where its seat has what an earlier one asks for too, the path
// from that one is shorter.
fn goes_on(requests: &[Request], path: &[usize], next: usize) -> bool {
    let Some((&last, before)) = path.split_last() else {
        return false;
    };
    asks_for_what_is_had(requests, last, next)
        && last != next
        && !before.iter().any(|&place| place == next || asks_for_what_is_had(requests, place, next))
}

// Whether the one request asks for a lock that the other one's seat has.
fn asks_for_what_is_had(requests: &[Request], one: usize, other: usize) -> bool {
    match (requests.get(one), requests.get(other)) {
        (Some(one), Some(other)) => has_share(&other.had, one.lock),
        _ => false,
    }
}

// What keeps the seats of these requests from waiting for one another.
fn hindrance_of(requests: &[Request], members: &[usize]) -> Hindrance {
    if !all_wait(requests, members) {
        return Hindrance::Readers;
    }
    if let Some(lock) = gate_of(requests, members) {
        return Hindrance::Gate(lock);
    }
    if are_of_one(requests, members) {
        return Hindrance::Alone;
    }
    Hindrance::Nothing
}

// Whether each waits for the next one, where readers don't wait for readers.
fn all_wait(requests: &[Request], members: &[usize]) -> bool {
    let mut before = members.last();
    for member in members {
        if let Some(&last) = before {
            if !waits(requests, last, *member) {
                return false;
            }
        }
        before = Some(member);
    }
    true
}

fn waits(requests: &[Request], one: usize, other: usize) -> bool {
    match (requests.get(one), requests.get(other)) {
        (Some(one), Some(other)) => other
            .had
            .iter()
            .any(|share| share.lock == one.lock && bars(one, share)),
        _ => false,
    }
}

fn bars(request: &Request, share: &Share) -> bool {
    request.mode.is_exclusive() || share.mode.is_exclusive()
}

// A lock that two of them have, and not both as readers.
fn gate_of(requests: &[Request], members: &[usize]) -> Option<LockNo> {
    for (place, one) in members.iter().enumerate() {
        for (other_place, other) in members.iter().enumerate() {
            if place < other_place {
                if let Some(lock) = common(requests, *one, *other) {
                    return Some(lock);
                }
            }
        }
    }
    None
}

fn common(requests: &[Request], one: usize, other: usize) -> Option<LockNo> {
    let (Some(one), Some(other)) = (requests.get(one), requests.get(other)) else {
        return None;
    };
    for share in &one.had {
        if other.had.iter().any(|had| exclude(share, had)) {
            return Some(share.lock);
        }
    }
    None
}

// Whether two of them are of one seat.
fn are_of_one(requests: &[Request], members: &[usize]) -> bool {
    members.iter().enumerate().any(|(place, &one)| {
        members.iter().enumerate().any(|(other_place, &other)| place < other_place
            && is_same_seat(requests, one, other))
    })
}

fn is_same_seat(requests: &[Request], one: usize, other: usize) -> bool {
    match (requests.get(one), requests.get(other)) {
        (Some(one), Some(other)) => one.seat == other.seat,
        _ => false,
    }
}
