//! Numbers that look random, the same ones each time.

ghost use Rattle.std.specs.Prelude.{◌<◌};

/// A sequence of numbers: Marsaglia's xorshift, of 64 bits.
#[derive(Clone, Copy)]
pub(crate) struct Random {
    state: u64,
}

impl Random {
    /// The sequence of a seed. Seeds that are near one another give others at once.
    pub(crate) fn new(seed: u64) -> Random {
        let spread = seed.wrapping_mul(0x9e37_79b9_7f4a_7c15) ^ 0x2545_f491_4f6c_dd1d;
        Random { state: spread | 1 }
    }

    /// The next number, below this one, which isn't 0.
    pub(crate) fn below(&mut self, end: u32) -> u32
        requires { 0 < end }
        ensures { result < end }
    {
        let mut next = self.state;
        next ^= next << 13;
        next ^= next >> 7;
        next ^= next << 17;
        self.state = next;
        u32::try_from(next >> 32).unwrap_or(0) % end
    }

    /// Whether one in so many comes up.
    pub(crate) fn one_in(&mut self, many: u32) -> bool
        requires { 0 < many }
    {
        self.below(many) == 0
    }
}
