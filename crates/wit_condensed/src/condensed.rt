//! What was written of pairs of types.

ghost use Rattle.std.specs.Prelude.{ℕ, ◌≡◌, ◌<◌, ◌≤◌, ◌&&◌, ◌==◌, true, false, length, take, drop};
ghost use Rattle.wit_condensed.specs.Asking.{Answers, given_lines, is_question, is_known, is_wanted};
ghost use Rattle.wit_condensed.specs.Chains.{has_type, is_alone, are_types};
ghost use Rattle.wit_condensed.specs.Rows.{has_pair, AddsPairs};

use crate::chain::{Asked, Link, MOST_LINKS, are_types, has_lock};
use crate::lines::{Line, put_lines};
use crate::row::{TYPES, WORDS, add_bit, add_bits, clear, has_bit, has_bits};

/// The pairs of types (held, asked) that were written: a row of bits for each type that is asked
/// for, in which the bit of a type stands for that type held. One that is all zeroes is empty.
#[repr(C)]
#[derive(Drop)]
pub struct Condensed {
    /// A request for a lock of the one type was written while one of the other was held.
    pub told: [[u64; WORDS]; TYPES as usize],
    /// One was written while that lock alone was held.
    pub alone: [[u64; WORDS]; TYPES as usize],
}

// Whether a question is one that can be answered in so much room.
fn is_question(links: &[Link], asked: Asked, room: usize) -> bool
    ensures { result ≡ is_question links.now asked room }
{
    links.len() <= MOST_LINKS && links.len() < room && asked.type_no < TYPES && are_types(links)
}

impl Condensed {
    /// Asks which lines a request is to be written by, where the thread has this chain and asks for
    /// that lock, and puts them into a buffer: how many there are. They are to be written before
    /// anything else of this thread. There are none where each pair of the request was written
    /// before, unless it waits for long. There are none either, and nothing changes, where a type
    /// is no number of one, where the chain is longer than `MOST_LINKS`, and where the buffer has
    /// no more room than the chain has links.
    pub fn ask(&mut self, links: &[Link], asked: Asked, waits: bool, lines: &mut [Line]) -> usize
        ensures answers { Answers self.old links.now asked waits (length lines.old)
            self.new (take result lines.new) }
        ensures within { result ≤ length lines.old }
        ensures rest { drop result lines.new ≡ drop result lines.old }
    {
        if !is_question(links, asked, lines.len()) || !self.is_wanted(links, asked, waits) {
            return 0;
        }
        if !has_lock(links, asked.lock) {
            self.add_pairs(links, asked.type_no);
        }
        put_lines(links, lines)
    }

    /// The lines that `ask` gives, while nothing changes yet: how many there are. Who writes them, and
    /// then asks, never has a pair in the sets whose line isn't written.
    pub fn lines(&self, links: &[Link], asked: Asked, waits: bool, lines: &mut [Line]) -> usize
        ensures given { take result lines.new ≡ given_lines self.now links.now asked waits
            (length lines.old) }
        ensures within { result ≤ length lines.old }
        ensures rest { drop result lines.new ≡ drop result lines.old }
    {
        if is_question(links, asked, lines.len()) && self.is_wanted(links, asked, waits) {
            return put_lines(links, lines);
        }
        0
    }

    /// Forgets all pairs: another stream begins, in which nothing is written.
    pub fn forget(&mut self)
        ensures told { (a b : ℕ) → has_pair self.new.told a b ≡ false }
        ensures alone { (a b : ℕ) → has_pair self.new.alone a b ≡ false }
    {
        clear(&mut self.told);
        clear(&mut self.alone);
    }

    // Whether a request is to be written.
    fn is_wanted(&self, links: &[Link], asked: Asked, waits: bool) -> bool
        requires asked { asked.type_no < TYPES }
        requires types { are_types links.now ≡ true }
        ensures { result ≡ is_wanted self.now links.now asked waits }
    {
        waits || !has_lock(links, asked.lock) && !self.is_known(links, asked.type_no)
    }

    // Whether each pair of a request was written.
    fn is_known(&self, links: &[Link], asked: u16) -> bool
        requires asked { asked < TYPES }
        requires types { are_types links.now ≡ true }
        ensures { result ≡ is_known self.now links.now asked }
    {
        match links {
            [link] => has_bit(&self.alone[asked as usize], link.type_no),
            _ => has_bits(&self.told[asked as usize], links),
        }
    }

    // Adds the pairs of a request.
    fn add_pairs(&mut self, links: &[Link], asked: u16)
        requires asked { asked < TYPES }
        requires types { are_types links.now ≡ true }
        ensures told { AddsPairs self.old.told (λ a b. (b == asked) && has_type links.now a)
            self.new.told }
        ensures alone { AddsPairs self.old.alone (λ a b. (b == asked) && is_alone links.now a)
            self.new.alone }
    {
        add_bits(&mut self.told[asked as usize], links);
        if let [link] = links {
            add_bit(&mut self.alone[asked as usize], link.type_no);
        }
    }
}

#[cfg(test)]
mod tests {
    use super::Condensed;
    use crate::chain::{Asked, Link};
    use crate::lines::{Kind, Line};
    use crate::row::{TYPES, WORDS};
    use std::test::Fail;

    // What a thread holds: one lock, and another that it got by a try.
    const CHAIN: [Link; 2] = [
        Link {
            lock: 7,
            type_no: 3,
            tried: false,
            written: false,
        },
        Link {
            lock: 8,
            type_no: 1023,
            tried: true,
            written: false,
        },
    ];

    const ASKED: Asked = Asked {
        lock: 9,
        type_no: 70,
    };

    const BLANK: Line = Line { link: 0, kind: 0 };

    #[test]
    fn a_request_is_written_once(rt: HostRuntime) -> Result<(), Fail> {
        let mut sets = Condensed {
            told: [[0; WORDS]; TYPES as usize],
            alone: [[0; WORDS]; TYPES as usize],
        };
        let mut lines = [BLANK; 3];
        assert_eq!(rt; sets.ask(&CHAIN, ASKED, false, &mut lines), 3);
        assert_eq!(rt; lines[0].kind, Kind::AskedAndGot as u8);
        assert_eq!(rt; lines[1].kind, Kind::Tried as u8);
        assert_eq!(rt; lines[2].kind, Kind::Asks as u8);
        assert_eq!(rt; lines[2].link, 2);
        assert_eq!(rt; sets.ask(&CHAIN, ASKED, false, &mut lines), 0);
        assert_eq!(rt; sets.ask(&CHAIN, ASKED, true, &mut lines), 3);
        assert_eq!(rt; sets.ask(&CHAIN[..1], ASKED, false, &mut lines), 2);
        sets.forget();
        assert_eq!(rt; sets.ask(&CHAIN, ASKED, false, &mut lines), 3);
        Ok(())
    }
}
