//! The requests of a trace by threads that have locks, and their errands: what a thread did from the
//! last moment at which it had nothing up to its request.

use crate::deeds::{Act, Deed};
use crate::shares::{Share, change, copied, has_share};
use crate::ways::Way;
use indexmap::IndexMap;
use std::alloc::{AllocError, Global};
use wit_model::{LockNo, Mode, SeatNo};

/// A request for a lock that its seat doesn't have, while it has others.
#[derive(Debug, Drop)]
pub struct Request {
    /// Whose it is.
    pub seat: SeatNo,
    /// The lock asked for.
    pub lock: LockNo,
    /// In which mode.
    pub mode: Mode,
    /// What the seat has.
    pub had: Vec<Share>,
    /// The place of the first deed of its errand.
    pub first: usize,
    /// The place of the request.
    pub check: usize,
    /// Whether requests like it were left out to which their seat came in other ways.
    pub has_others: bool,
}

// So many requests are kept that ask for one lock behind the same ones.
const MOST_ALIKE: usize = 4;

// What a seat has, since when it has something, and what it did to locks since then.
#[derive(Debug, Drop)]
struct Standing {
    had: Vec<Share>,
    first: usize,
    way: Way,
}

// Who asks for which lock, in which mode, and at which place.
#[derive(Clone, Copy, Debug)]
struct Asked {
    seat: SeatNo,
    lock: LockNo,
    mode: Mode,
    check: usize,
}

// The requests of one seat that ask for one lock behind the same ones: where those that are kept stand,
// and the ways to them.
#[derive(Debug, Drop)]
struct Alike {
    places: Vec<usize>,
    ways: Vec<Way>,
}

// The requests that are kept, and which of them are alike.
#[derive(Drop)]
struct Requests {
    kept: Vec<Request>,
    alike: Vec<Alike>,
    keys: IndexMap<Vec<u8>, usize>,
}

/// The requests of these deeds, the oldest first. Of those that are alike the first ones are kept; where
/// others had other ways, that is told of them.
///
/// # Errors
/// Want of memory alone.
pub fn all_requests(alloc: Global, deeds: &[Deed], seats: u16) -> Result<Vec<Request>, AllocError> {
    let mut standings = all_at_rest(alloc, seats)?;
    let mut requests = Requests {
        kept: Vec::new(alloc),
        alike: Vec::new(alloc),
        keys: IndexMap::new(alloc),
    };
    for (place, deed) in deeds.iter().enumerate() {
        if let Some(standing) = standings.get_mut(usize::from(deed.seat.0)) {
            begin(standing, deed.act, place);
            if let Act::Asks(lock, mode) = deed.act {
                let asked = Asked {
                    seat: deed.seat,
                    lock,
                    mode,
                    check: place,
                };
                if !standing.had.is_empty() && !has_share(&standing.had, lock) {
                    requests.add(alloc, standing, asked)?;
                }
            }
            change(&mut standing.had, deed.act)?;
            standing.way.add(deed.act)?;
        }
    }
    Ok(requests.kept)
}

// Seats by their numbers, of which there are so many; none has the number 0.
fn all_at_rest(alloc: Global, seats: u16) -> Result<Vec<Standing>, AllocError> {
    let mut standings = Vec::new(alloc);
    for _seat in 0..=seats {
        standings.push(Standing {
            had: Vec::new(alloc),
            first: 0,
            way: Way::new(alloc),
        })?;
    }
    Ok(standings)
}

// An errand begins by the deed by which a seat that has nothing may come to have something.
fn begin(standing: &mut Standing, act: Act, place: usize) {
    if !standing.had.is_empty() {
        return;
    }
    match act {
        Act::Asks(..) | Act::Tries(..) => {
            standing.first = place;
            standing.way.clear();
        }
        _ => {}
    }
}

impl Requests {
    // Keeps a request, or tells of those like it that others had other ways.
    fn add(&mut self, alloc: Global, standing: &Standing, asked: Asked) -> Result<(), AllocError> {
        let number = self.number_of(alloc, standing, asked)?;
        let Some(alike) = self.alike.get_mut(number) else {
            return Ok(());
        };
        if alike.places.len() < MOST_ALIKE {
            alike.places.push(self.kept.len())?;
            alike.ways.push(standing.way.copied(alloc)?)?;
            return self.keep(alloc, standing, asked);
        }
        if !alike.ways.iter().any(|way| way.is_same(&standing.way)) {
            for &place in &alike.places {
                if let Some(request) = self.kept.get_mut(place) {
                    request.has_others = true;
                }
            }
        }
        Ok(())
    }

    fn keep(&mut self, alloc: Global, standing: &Standing, asked: Asked) -> Result<(), AllocError> {
        self.kept.push(Request {
            seat: asked.seat,
            lock: asked.lock,
            mode: asked.mode,
            had: copied(alloc, &standing.had)?,
            first: standing.first,
            check: asked.check,
            has_others: false,
        })?;
        Ok(())
    }

    // The number of those that are like this one.
    fn number_of(
        &mut self,
        alloc: Global,
        standing: &Standing,
        asked: Asked,
    ) -> Result<usize, AllocError> {
        let key = key_of(alloc, &standing.had, asked)?;
        if let Some(number) = self.keys.get(&key) {
            return Ok(*number);
        }
        let number = self.alike.len();
        self.alike.push(Alike {
            places: Vec::new(alloc),
            ways: Vec::new(alloc),
        })?;
        self.keys.insert(key, number)?;
        Ok(number)
    }
}

fn key_of(alloc: Global, had: &[Share], asked: Asked) -> Result<Vec<u8>, AllocError> {
    let mut key = Vec::new(alloc);
    key.extend_from_slice(&asked.seat.0.to_be_bytes())?;
    put_lock(&mut key, asked.lock, asked.mode)?;
    for share in had {
        put_lock(&mut key, share.lock, share.mode)?;
    }
    Ok(key)
}

fn put_lock(key: &mut Vec<u8>, lock: LockNo, mode: Mode) -> Result<(), AllocError> {
    key.extend_from_slice(&lock.0.to_be_bytes())?;
    key.push(u8::from(mode.is_exclusive()))?;
    Ok(())
}
