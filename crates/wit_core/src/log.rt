//! The log of a verifier, with room for the entries that are owed.

ghost use Rattle.std.specs.Prelude.{◌≡◌, ◌<◌, ◌≤◌, ◌+◌, ◌-◌, [], ◌∷◌, length, nat_le, reverse};
ghost use Rattle.std.specs.Prelude.{OnOk};
ghost use Rattle.wit_model.specs.declared.sizes.TheConstants.Limits.{MOST_ENTRIES};
ghost use Rattle.wit_model.specs.Rules.History.{is_report, reports_of};
ghost use Rattle.wit_model.specs.Rules.Step.{is_logged};

use std::alloc::{AllocError, Global};
use std::marker::Model;
use wit_model::{Entry, Reply};

/// The accepted calls, up to a number of entries, and how many entries are owed to calls that may
/// not be refused room: the note and the release of each pending request, and the release of each
/// recorded acquisition.
#[derive(Drop)]
pub struct Log {
    limit: u32,
    entries: Vec<Entry>,
    owed: u32,
    reports: u32,
}

impl Model for Log {
    ghost use Rattle.wit_core.specs.Journal.{Journal};

    ghost Value = { Journal };

    ghost use Rattle.wit_core.specs.Logged.{journal_in, HasRest};

    ghost view = { journal_in };

    ghost invariant = { HasRest };
}

impl Log {
    /// An empty log for up to this many entries (up to 16,777,216).
    pub fn new(alloc: Global, limit: u32) -> Log
        requires { limit ≤ MOST_ENTRIES }
        ensures { result ≡ record { limit = limit; history = []; owed = 0; spare = result.spare } }
    {
        Log {
            limit,
            entries: Vec::new(alloc),
            owed: 0,
            reports: 0,
        }
    }

    /// The entries, oldest first.
    pub fn entries(&self) -> &[Entry]
        ensures { reverse result.now ≡ self.now.history }
    {
        &self.entries
    }

    /// How many of the entries are reports.
    pub fn reports(&self) -> u32
        ensures { result ≡ reports_of self.now.history }
    {
        self.reports
    }

    /// How many entries are owed.
    pub fn owed(&self) -> u32
        ensures { result ≡ self.now.owed }
    {
        self.owed
    }

    /// Whether there may be this many entries more, beside those that are owed.
    pub fn has_room(&self, more: u32) -> bool
        ensures { result ≡ nat_le (length self.now.history + self.now.owed + more) self.now.limit }
    {
        more as usize <= self.limit as usize - self.entries.len() - self.owed as usize
    }
}

impl Log {
    /// Makes room for this many entries more, beside those that are owed. How far it grows is left
    /// to `Vec`, which doubles.
    ///
    /// # Errors
    /// Want of memory alone.
    pub fn reserve(&mut self, more: u32) -> Result<(), AllocError>
        ensures same { self.new ≡ record self.old { spare = self.new.spare } }
        ensures grows { self.old.spare ≤ self.new.spare }
        ensures ok { OnOk result (more ≤ self.new.spare) }
    {
        self.entries.reserve(self.owed as usize + more as usize)
    }

    /// Enters a call, for which so many entries more will be owed. It takes no memory.
    pub fn push(&mut self, entry: Entry, owed: u32)
        requires spare { owed < self.old.spare }
        requires room { length self.old.history + self.old.owed + owed < self.old.limit }
        ensures { self.new ≡ record self.old {
          history = entry ∷ self.old.history;
          owed = self.old.owed + owed;
          spare = self.old.spare - (owed + 1);
        } }
    {
        self.owed += owed;
        if is_report(&entry.reply) {
            self.reports += 1;
        }
        self.entries.push_reserved(entry);
    }

    /// Enters a call to which its entry was owed, and after which so many more aren't owed any
    /// longer. It takes no memory.
    pub fn push_owed(&mut self, entry: Entry, dropped: u32)
        requires { dropped < self.old.owed }
        ensures { self.new ≡ record self.old {
          history = entry ∷ self.old.history;
          owed = self.old.owed - (dropped + 1);
          spare = self.old.spare + dropped;
        } }
    {
        self.owed -= dropped;
        self.owed -= 1;
        self.push(entry, 0);
    }
}

/// Whether the log keeps a call that is answered so.
pub fn is_logged(reply: &Reply) -> bool
    ensures { result ≡ is_logged reply.now }
{
    !matches!(reply, Reply::Ignored)
}

fn is_report(reply: &Reply) -> bool
    ensures { result ≡ is_report reply.now }
{
    matches!(
        reply,
        Reply::Reversal(_) | Reply::Duplicate(_) | Reply::Exhausted
    )
}
