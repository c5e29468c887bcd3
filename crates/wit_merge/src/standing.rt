//! Where the reading of files stands, and how often an order was met.

ghost use Rattle.std.specs.Prelude.{◌≡◌};
ghost use Rattle.wit_merge.specs.Standing.{again, begun, counted, exceeds, number_of_run};
ghost use Rattle.wit_merge.specs.Standing.{total, with_count};

use crate::reading::Count;

/// How often an order was met.
#[derive(Clone, Copy, Debug, PartialEq, Eq)]
pub struct Tally {
    /// So many runs met it.
    pub runs: u32,
    /// The number of the last of them, from 1 on; 0 where that isn't known.
    pub last: u32,
    /// The number of the last file that has it, from 1 on.
    pub file: u64,
}

/// What is read of a file.
#[derive(Clone, Copy, Debug, PartialEq, Eq)]
pub enum Part {
    /// None has begun.
    Outside,
    /// The orders of one run.
    Orders,
    /// The orders of several runs, whose counts follow.
    Counted,
    /// Its counts, of which no line was read.
    Opened,
    /// Its counts, where it isn't told how many runs there were.
    Free,
    /// Its counts, where that is told.
    Ranged,
}

/// Where the reading stands.
#[derive(Clone, Copy, Debug, PartialEq, Eq)]
pub struct Standing {
    /// So many files have begun.
    pub files: u64,
    /// The runs of those before the last one.
    pub before: u32,
    /// The runs of the last one, as far as is known.
    pub most: u32,
    /// What is read of it.
    pub part: Part,
}

impl Standing {
    /// Before the first file.
    pub const OUTSIDE: Standing = Standing {
        files: 0,
        before: 0,
        most: 0,
        part: Part::Outside,
    };

    /// After the beginning of a file.
    pub fn begun(self, part: Part) -> Standing
        ensures { result ≡ begun self part }
    {
        Standing {
            files: self.files.saturating_add(1),
            before: self.total(),
            most: 1,
            part,
        }
    }

    /// The runs of all files.
    pub fn total(self) -> u32
        ensures { result ≡ total self }
    {
        self.before.saturating_add(self.most)
    }

    /// That of an order that the file has. Several lines of it count once.
    pub fn again(self, tally: Tally) -> Tally
        ensures { result ≡ again self tally }
    {
        Tally {
            runs: if tally.file == self.files {
                tally.runs
            } else {
                tally.runs.saturating_add(1)
            },
            last: if self.part == Part::Counted {
                tally.last
            } else {
                self.number_of_run(1)
            },
            file: self.files,
        }
    }

    /// That of an order that so many runs met. What the file itself doesn't have stays.
    pub fn counted(self, tally: Tally, count: Count) -> Tally
        ensures { result ≡ counted self tally count }
    {
        if tally.file != self.files {
            return tally;
        }
        Tally {
            runs: tally.runs.saturating_add(count.runs.saturating_sub(1)),
            last: if count.last == 0 {
                tally.last
            } else {
                self.number_of_run(count.last)
            },
            file: tally.file,
        }
    }

    // The number of a run of the file among all.
    fn number_of_run(self, run: u32) -> u32
        ensures { result ≡ number_of_run self run }
    {
        self.before.saturating_add(run)
    }

    /// Whether a count tells of more runs than were counted.
    pub fn exceeds(self, count: Count) -> bool
        ensures { result ≡ exceeds self count }
    {
        match self.part {
            Part::Ranged => count.runs > self.most || count.last > self.most,
            _ => count.last > 0,
        }
    }

    /// After a count, of an order that the file has or not.
    pub fn with_count(self, count: Count, is_met: bool) -> Standing
        ensures { result ≡ with_count self count is_met }
    {
        Standing {
            most: if is_met && count.runs > self.most {
                count.runs
            } else {
                self.most
            },
            ..self
        }
    }
}
