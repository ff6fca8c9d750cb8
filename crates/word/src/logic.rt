// The logical operations, bit by bit.
ghost use Rattle.std.specs.Prelude.{◌≡◌, bit_and, bit_or, bit_xor};

use crate::words::Word;

impl Word {
    /// The ones that both words have.
    pub fn and(self, other: Word) -> Word
        ensures { result.bits ≡ bit_and self.bits other.bits }
    {
        Word {
            bits: self.bits & other.bits,
        }
    }

    /// The ones that either word has.
    pub fn or(self, other: Word) -> Word
        ensures { result.bits ≡ bit_or self.bits other.bits }
    {
        Word {
            bits: self.bits | other.bits,
        }
    }

    /// The ones that one of the words has and the other lacks.
    pub fn xor(self, other: Word) -> Word
        ensures { result.bits ≡ bit_xor self.bits other.bits }
    {
        Word {
            bits: self.bits ^ other.bits,
        }
    }
}
