//! The search for a circle of facts that closes.

ghost use Rattle.std.specs.Prelude.{◌≡◌, ◌≤◌, ◌<◌, ◌∷◌, ◌++◌, [], true, false, IfOk, IfNone};
ghost use Rattle.std.specs.Prelude.{IfSome, length};
ghost use Rattle.std.specs.List.{list_all, list_any};
ghost use Rattle.wit_alarms.specs.Facts.{can_meet, can_wait, closes, may_begin, of_both};
ghost use Rattle.wit_alarms.specs.Facts.{NoneCloses};
ghost use Rattle.wit_alarms.specs.Searching.{differ, follows, is_open, HasAll, NoneGoesOn};

use crate::facts::{Fact, Lives, Reasons};
use crate::holding::{can_meet, can_wait};
use std::alloc::{AllocError, Global};

/// What is looked for, and among what.
#[derive(Clone, Copy)]
pub(crate) struct Search<'a> {
    /// Which reasons count.
    pub why: Reasons,
    /// What is known of the threads.
    pub lives: &'a Lives,
    /// The facts.
    pub facts: &'a [Fact],
    /// The places of those that may be in a circle.
    pub live: &'a [usize],
}

impl Search<'_> {
    /// Whether the thread of the one fact waits for that of the other.
    pub fn waits(&self, one: usize, other: usize) -> bool
        ensures { result ≡ of_both (can_wait self.now.why) self.now.facts.now one other }
    {
        match (self.facts.get(one), self.facts.get(other)) {
            (Some(one), Some(other)) => can_wait(self.why, one, other),
            _ => false,
        }
    }

    /// Whether both can be held at one time.
    pub fn meet(&self, one: usize, other: usize) -> bool
        ensures { result ≡ of_both (can_meet self.now.why self.now.lives.now) self.now.facts.now
            one other }
    {
        match (self.facts.get(one), self.facts.get(other)) {
            (Some(one), Some(other)) => can_meet(self.why, self.lives, one, other),
            _ => false,
        }
    }

    // Whether its thread's wait may have begun last.
    fn may_begin(&self, place: usize) -> bool
        ensures { result ≡ may_begin self.now.why self.now.facts.now place }
    {
        match self.facts.get(place) {
            Some(fact) => !self.why.waits || !fact.manner.is_wait_end(),
            None => false,
        }
    }

    // Whether the last fact of the path leads to this one; the empty path leads anywhere.
    fn leads_to(&self, path: &[usize], next: usize) -> bool
        ensures { result ≡ follows self.now.why self.now.lives.now self.now.facts.now path.now
            next }
    {
        match path.last() {
            Some(&last) => self.waits(last, next),
            None => true,
        }
    }

    fn all_meet(&self, path: &[usize], next: usize) -> bool
        ensures { result ≡ list_all (λ place. of_both
            (can_meet self.now.why self.now.lives.now) self.now.facts.now place next) path.now }
    {
        path.iter().all(|&place| self.meet(place, next))
    }

    /// Whether the wait of one of these facts' threads may have begun last.
    pub fn any_begins(&self, path: &[usize]) -> bool
        ensures { result ≡ list_any (may_begin self.now.why self.now.facts.now) path.now }
    {
        path.iter().any(|&place| self.may_begin(place))
    }

    // Whether the path may become a circle with this fact at its end.
    #[tactic(auto, using(crate::proofs::Paths::open_more))]
    fn goes_on(&self, path: &[usize], next: usize) -> bool
        requires { is_open self.now.why self.now.lives.now self.now.facts.now path.now ≡ true }
        ensures { result ≡ is_open self.now.why self.now.lives.now self.now.facts.now
            (path.now ++ next ∷ []) }
    {
        self.leads_to(path, next) && self.all_meet(path, next) && is_new(path, next)
    }

    // Whether the path is a circle that closes.
    #[tactic(auto, using(crate::proofs::Paths::open_closes))]
    fn closes(&self, path: &[usize]) -> bool
        requires { is_open self.now.why self.now.lives.now self.now.facts.now path.now ≡ true }
        ensures { result ≡ closes self.now.why self.now.lives.now self.now.facts.now path.now }
    {
        match path.first() {
            Some(&first) => self.leads_to(path, first) && self.any_begins(path),
            None => false,
        }
    }

    // Lengthens the path to a circle that closes, by so many facts at most; where none is, the path
    // is as it was.
    fn extend(&self, path: &mut Vec<usize>, most: usize) -> Result<bool, AllocError>
        requires is_open { is_open self.now.why self.now.lives.now self.now.facts.now
            path.old.items ≡ true }
        requires all { HasAll self.now.why self.now.lives.now self.now.facts.now
            self.now.live.now }
        ensures found { IfOk result (λ found. found ≡ true
            → closes self.now.why self.now.lives.now self.now.facts.now path.new.items ≡ true) }
        ensures same { IfOk result (λ found. found ≡ false → path.new.items ≡ path.old.items) }
        ensures none { IfOk result (λ found. found ≡ false
            → NoneGoesOn self.now.why self.now.lives.now self.now.facts.now path.old.items most) }
    {
        if most == 0 {
            return Ok(false);
        }
        for &next in self.live {
            if !self.goes_on(path, next) {
                continue;
            }
            path.push(next)?;
            if self.closes(path) || self.extend(path, most - 1)? {
                return Ok(true);
            }
            path.pop();
        }
        Ok(false)
    }

    // A circle that closes, of so many facts at most, if there is one.
    fn find_within(&self, alloc: Global, most: usize) -> Result<Option<Vec<usize>>, AllocError>
        requires { HasAll self.now.why self.now.lives.now self.now.facts.now self.now.live.now }
        ensures found { IfOk result (λ found. IfSome found (λ circle.
            closes self.now.why self.now.lives.now self.now.facts.now circle.items ≡ true)) }
        ensures none { IfOk result (λ found. IfNone found
            (NoneGoesOn self.now.why self.now.lives.now self.now.facts.now [] most)) }
    {
        let mut path = Vec::new(alloc);
        if self.extend(&mut path, most)? {
            return Ok(Some(path));
        }
        Ok(None)
    }

    /// A circle that closes, if there is one. Short ones are looked for first: a path that leads into
    /// a thicket of facts, and not back, would else be followed through all of it.
    pub fn find(&self, alloc: Global) -> Result<Option<Vec<usize>>, AllocError>
        requires { HasAll self.now.why self.now.lives.now self.now.facts.now self.now.live.now }
        ensures found { IfOk result (λ found. IfSome found (λ circle.
            closes self.now.why self.now.lives.now self.now.facts.now circle.items ≡ true)) }
        ensures none { IfOk result (λ found. IfNone found
            (NoneCloses self.now.why self.now.lives.now self.now.facts.now)) }
    {
        for most in [2usize, 3, 4, 5, 6, 8, 12, 16] {
            let found = self.find_within(alloc, most)?;
            if found.is_some() {
                return Ok(found);
            }
        }
        self.find_within(alloc, self.facts.len())
    }
}

fn is_new(path: &[usize], next: usize) -> bool
    ensures { result ≡ list_all (λ place. differ place next) path.now }
{
    path.iter().all(|&place| place != next)
}
