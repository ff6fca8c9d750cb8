// Shifts of one word by a count of places.
ghost use Rattle.std.specs.Prelude.{◌≡◌, ◌≤◌, if◌then◌else◌};
ghost use Rattle.word.specs.Shifts.{places, turned, right_circular, left_circular, right_logical, left_logical, right_algebraic, RightCircularBits, LeftCircularBits, RightLogicalBits, LeftLogicalBits, RightAlgebraicBits, turn_count, LeastTurn};
ghost use Rattle.word.specs.Sums.{modulus, negative};

use crate::up_to::UpTo;
use crate::words::{ONES, WORD_BITS, Word};

/// The largest count of places: twice round a word.
const MOST_PLACES: u32 = 2 * WORD_BITS;

/// How many bits of 64 stand above a magnitude, which has one bit less than a word.
const ABOVE_MAGNITUDE: u32 = u64::BITS - (WORD_BITS - 1);

/// How many places a shift moves the bits, 0 to 72.
pub type Count = UpTo<MOST_PLACES>;

/// A word that was turned, and by how many places.
#[derive(Clone, Copy, PartialEq, Eq, Debug)]
pub struct Counted {
    pub word: Word,
    pub count: u32,
}

impl Word {
    /// The bits move right, and those that leave come in at the left.
    pub fn right_circular(self, count: Count) -> Word
        ensures value { result.bits ≡ right_circular (places count) self.bits }
        ensures bits { RightCircularBits (places count) self.bits result.bits }
        ensures back { left_circular (places count) result.bits ≡ self.bits }
    {
        self.turned_left(WORD_BITS - count.number % WORD_BITS)
    }

    /// The bits move left, and those that leave come in at the right.
    pub fn left_circular(self, count: Count) -> Word
        ensures value { result.bits ≡ left_circular (places count) self.bits }
        ensures bits { LeftCircularBits (places count) self.bits result.bits }
        ensures back { right_circular (places count) result.bits ≡ self.bits }
    {
        self.turned_left(count.number % WORD_BITS)
    }

    /// The bits move right, and zeros come in at the left.
    pub fn right_logical(self, count: Count) -> Word
        ensures value { result.bits ≡ right_logical (places count) self.bits }
        ensures bits { RightLogicalBits (places count) self.bits result.bits }
    {
        Word {
            bits: self.bits >> count.number.min(WORD_BITS),
        }
    }

    /// The bits move left, and zeros come in at the right.
    pub fn left_logical(self, count: Count) -> Word
        ensures value { result.bits ≡ left_logical (places count) self.bits }
        ensures bits { LeftLogicalBits (places count) self.bits result.bits }
    {
        Word {
            bits: (self.bits << count.number.min(WORD_BITS)) & ONES,
        }
    }

    /// The bits move right, and bits like the sign come in at the left.
    pub fn right_algebraic(self, count: Count) -> Word
        ensures value { result.bits ≡ right_algebraic (places count) self.bits }
        ensures bits { RightAlgebraicBits (places count) self.bits result.bits }
    {
        let places = count.number.min(WORD_BITS);
        let signs = self.signs();
        Word {
            bits: (signs - (signs >> places)) + (self.bits >> places),
        }
    }

    /// The word turned left until its two leftmost bits differ, and by how many places: 35 where all bits are alike.
    pub fn shift_and_count(self) -> Counted
        ensures word { result.word.bits ≡ left_circular (turn_count self.bits) self.bits }
        ensures count { result.count ≡ turn_count self.bits }
        ensures meaning { LeastTurn self.bits result.word.bits result.count }
    {
        let count = self.magnitude().bits.leading_zeros() - ABOVE_MAGNITUDE;
        Counted {
            word: self.turned_left(count),
            count,
        }
    }

    // As many bits like the sign as a word has.
    fn signs(self) -> u64
        ensures { result ≡ (if negative 36 self.bits then modulus 36 else 0) }
    {
        if self.is_negative() { ONES } else { 0 }
    }

    fn turned_left(self, by: u32) -> Word
        requires { by ≤ 36 }
        ensures { result.bits ≡ turned by self.bits }
    {
        Word {
            bits: ((self.bits << by) & ONES) + (self.bits >> (WORD_BITS - by)),
        }
    }
}
