// Sums, signs and signed values of words, and sums of halves.
ghost use Rattle.std.specs.Prelude.{◌≡◌};
ghost use Rattle.word.specs.Sums.{modulus, sum, complement, negative, magnitude, carries, overflows, value};

use crate::adder::Adder;
use crate::halves::{HALF_BITS, Half};
use crate::words::{ONES, WORD_BITS, Word};

/// A sum, with the two designators that it sets.
#[derive(Clone, Copy, PartialEq, Eq, Debug)]
pub struct Sum<N> {
    pub total: N,
    pub carry: bool,
    pub overflow: bool,
}

impl Word {
    /// The sum of two words, and the designators that it sets.
    pub fn plus(self, other: Word) -> Sum<Word>
        ensures total { result.total.bits ≡ sum (modulus 36) self.bits other.bits }
        ensures carry { result.carry ≡ carries (modulus 36) self.bits other.bits }
        ensures overflow { result.overflow ≡ overflows 36 self.bits other.bits }
    {
        let sum = Adder { width: WORD_BITS }.sum(self.bits, other.bits);
        Sum {
            total: Word { bits: sum.total },
            carry: sum.carry,
            overflow: sum.overflow,
        }
    }

    /// Each bit the other way.
    pub fn complement(self) -> Word
        ensures { result.bits ≡ complement (modulus 36) self.bits }
    {
        Word {
            bits: ONES - self.bits,
        }
    }

    /// Whether the sign, the leftmost bit, stands.
    pub fn is_negative(self) -> bool
        ensures { result ≡ negative 36 self.bits }
    {
        self.bits >= 1 << (WORD_BITS - 1)
    }

    /// The complement where the sign stands, else the word.
    pub fn magnitude(self) -> Word
        ensures { result.bits ≡ magnitude 36 self.bits }
    {
        if self.is_negative() {
            self.complement()
        } else {
            self
        }
    }

    /// The signed value; both zeros are 0.
    pub fn value(self) -> i64
        ensures { result ≡ value 36 self.bits }
    {
        if self.is_negative() {
            -(self.complement().bits as i64)
        } else {
            self.bits as i64
        }
    }
}

/// The signed value.
impl From<Word> for i64 {
    ghost from_gives = { λ word r. r ≡ value 36 word.bits };

    fn from(word: Word) -> i64 {
        word.value()
    }
}

impl Half {
    /// The sum of two halves, as addresses are added.
    pub fn plus(self, other: Half) -> Half
        ensures { result.bits ≡ sum (modulus 18) self.bits other.bits }
    {
        let sum = Adder { width: HALF_BITS }.sum(self.bits, other.bits);
        Half { bits: sum.total }
    }
}
