// Numbers of a fixed width, and the unsigned number that their bits write.
ghost use Rattle.std.specs.Prelude.{◌≡◌, ◌%◌, ◌^◌, ◌<◌, ◌≤◌, ◌↔◌, IsTrue, MatchOption, MatchResult};

use crate::halves::HALF_BITS;
use crate::out_of_range::OutOfRange;
use crate::words::WORD_BITS;
use std::fmt;

/// A number of so many bits; a word has 36, a half 18.
#[derive(Clone, Copy, PartialEq, Eq)]
pub struct Number<const WIDTH: u32> {
    pub(crate) bits: u64,
    ghost fits: { bits < 2 ^ WIDTH },
}

impl<const WIDTH: u32> Number<WIDTH> {
    // Whether a number has no more bits than the width.
    fn holds(number: u64) -> bool
        ensures { IsTrue result ↔ (number < 2 ^ WIDTH) }
    {
        WIDTH >= u64::BITS || number < 1 << WIDTH
    }

    /// This number, or nothing where it has more bits than the width.
    pub fn new(number: u64) -> Option<Number<WIDTH>>
        ensures { MatchOption result (2 ^ WIDTH ≤ number) (λ n. n.bits ≡ number) }
    {
        if Self::holds(number) {
            Some(Number { bits: number })
        } else {
            None
        }
    }

    /// The lowest bits of a number, as many as the width has.
    #[tactic(auto, using(crate::proofs::Widths::lowest_wide))]
    pub fn of_lowest(number: u64) -> Number<WIDTH>
        ensures { result.bits ≡ number % 2 ^ WIDTH }
    {
        if WIDTH >= u64::BITS {
            return Number { bits: number };
        }
        Number {
            bits: number % (1 << WIDTH),
        }
    }

    /// The number that the bits write.
    pub fn number(self) -> u64
        ensures value { result ≡ self.entry.bits }
        ensures fits { result < 2 ^ WIDTH }
    {
        self.bits
    }
}

impl<const WIDTH: u32> TryFrom<u64> for Number<WIDTH> {
    type Error = OutOfRange;

    ghost try_from_gives = { λ number r. MatchResult r (λ n. n.bits ≡ number) (λ _. 2 ^ WIDTH ≤ number) };

    fn try_from(number: u64) -> Result<Number<WIDTH>, OutOfRange> {
        Number::new(number).ok_or(OutOfRange)
    }
}

impl<const WIDTH: u32> From<Number<WIDTH>> for u64 {
    ghost from_gives = { λ n r. r ≡ n.bits };

    fn from(number: Number<WIDTH>) -> u64 {
        number.bits
    }
}

// By hand, so that the text tells a word from a half.
impl<const WIDTH: u32> fmt::Debug for Number<WIDTH> {
    fn fmt<W: fmt::Write>(&self, f: &mut fmt::Formatter<W>) -> fmt::Result {
        let name = match WIDTH {
            WORD_BITS => "Word",
            HALF_BITS => "Half",
            _ => "Number",
        };
        f.debug_struct(name).field("bits", &self.bits).finish()
    }
}
