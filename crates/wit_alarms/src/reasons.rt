//! Which reasons keep a circle from closing, each by itself.

ghost use Rattle.std.specs.Prelude.{◌≡◌};
ghost use Rattle.std.specs.List.{list_all};
ghost use Rattle.wit_alarms.specs.Facts.{all_pairs, can_meet, can_wait, leads_by, leads_round};
ghost use Rattle.wit_alarms.specs.Facts.{of_both};
ghost use Rattle.wit_alarms.specs.Grades.{keeps_alone, only};

use crate::facts::{Fact, Lives, Reasons};
use crate::grade::Reason;
use crate::search::Search;

impl Reasons {
    /// This reason counts, and no other.
    pub fn only(reason: Reason) -> Reasons
        ensures { result ≡ only reason }
    {
        let mut why = Reasons::NONE;
        match reason {
            Reason::OneThread => why.one_thread = true,
            Reason::Gate => why.gate = true,
            Reason::Readers => why.readers = true,
            Reason::Limit => why.timed = true,
            Reason::Apart => why.apart = true,
            Reason::Waits => why.waits = true,
        }
        why
    }
}

/// Whether this reason, with no other one, keeps the facts of these places from closing a circle.
pub fn keeps_alone(reason: Reason, facts: &[Fact], lives: &Lives, circle: &[usize]) -> bool
    ensures { result ≡ keeps_alone reason lives.now facts.now circle.now }
{
    let search = Search {
        why: Reasons::only(reason),
        lives,
        facts,
        live: &[],
    };
    !(search.leads_round(circle) && search.all_can_meet(circle) && search.any_begins(circle))
}

impl Search<'_> {
    // Whether each fact leads to the next, and the last to the first.
    fn leads_round(&self, circle: &[usize]) -> bool
        ensures { result ≡ leads_round (of_both (can_wait self.now.why) self.now.facts.now)
            circle.now }
    {
        match circle {
            [] => false,
            [first, others @ ..] => self.leads_by(*first, others, *first),
        }
    }

    // Whether the one leads by the others to the last.
    fn leads_by(&self, one: usize, others: &[usize], last: usize) -> bool
        ensures { result ≡ leads_by (of_both (can_wait self.now.why) self.now.facts.now) one
            others.now last }
    {
        match others {
            [] => self.waits(one, last),
            [next, rest @ ..] => self.waits(one, *next) && self.leads_by(*next, rest, last),
        }
    }

    // Whether any two can be held at one time.
    fn all_can_meet(&self, circle: &[usize]) -> bool
        ensures { result ≡ all_pairs
            (of_both (can_meet self.now.why self.now.lives.now) self.now.facts.now) circle.now }
    {
        match circle {
            [] => true,
            [first, others @ ..] => self.meets_all(*first, others) && self.all_can_meet(others),
        }
    }

    fn meets_all(&self, one: usize, others: &[usize]) -> bool
        ensures { result ≡ list_all
            (of_both (can_meet self.now.why self.now.lives.now) self.now.facts.now one)
            others.now }
    {
        others.iter().all(|&other| self.meet(one, other))
    }
}
