//! What the words of the command line ask for.

ghost use Rattle.std.specs.Prelude.{◌≤◌, IfSome};

use std::rt::Env;

/// How much is done, and from which seed.
#[derive(Clone, Copy)]
pub(crate) struct Plan {
    /// How many threads, each with a seat.
    pub(crate) threads: u16,
    /// How many locks, of all classes.
    pub(crate) locks: u32,
    /// How often each thread takes locks.
    pub(crate) rounds: u32,
    /// Another seed gives other calls.
    pub(crate) seed: u32,
    /// Whether the log is written as a trace.
    pub(crate) traces: bool,
}

impl Plan {
    /// Whether a request is compared with all held locks: at every fifth seed.
    pub(crate) fn is_all_held(&self) -> bool {
        self.seed % 5 == 0
    }

    /// The plan of the words `THREADS LOCKS ROUNDS SEED`. With fewer it is a small one, of which no
    /// trace is written.
    pub(crate) fn of_words<R: Env>(rt: &R) -> Plan
        ensures { result.threads ≤ 255 }
    {
        let small = Plan {
            threads: 4,
            locks: 20,
            rounds: 500,
            seed: 1,
            traces: false,
        };
        match Plan::whole(rt) {
            Some(plan) => plan,
            None => small,
        }
    }

    fn whole<R: Env>(rt: &R) -> Option<Plan>
        ensures { IfSome result (λ plan. plan.threads ≤ 255) }
    {
        Some(Plan {
            threads: number_at(rt, 1)?.clamp(1, 255) as u16,
            locks: number_at(rt, 2)?.clamp(4, 1000),
            rounds: number_at(rt, 3)?,
            seed: number_at(rt, 4)?,
            traces: true,
        })
    }
}

// The number that the word at this place spells.
fn number_at<R: Env>(rt: &R, place: usize) -> Option<u32> {
    let mut room = [0u8; 16];
    let length = rt.arg(place, &mut room).ok()?;
    let mut number: u32 = 0;
    for byte in room.get(..length)? {
        if !byte.is_ascii_digit() {
            return None;
        }
        number = number
            .saturating_mul(10)
            .saturating_add(u32::from(*byte - b'0'));
    }
    Some(number)
}
