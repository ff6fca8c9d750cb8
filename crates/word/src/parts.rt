// Partial words: the part of a word that a selector names, read and stored.
ghost use Rattle.std.specs.Prelude.{◌≡◌};
ghost use Rattle.word.specs.Parts.{field, selector, read, stored, StoredBits, ReadBits};

use crate::fields::field_at;
use crate::up_to::UpTo;
use crate::words::Word;

/// A selector of a part of a word: 0 the whole word, 1 to 4 halves, 5 to 7 thirds, 0o10 to 0o15 sixths.
// A number and no enum: the rule of the fields and their table go by it.
pub type Part = UpTo<0o15>;

impl Word {
    /// The part as a whole word, filled up with zeros or with its own sign.
    pub fn part(self, part: Part) -> Word
        ensures value { result.bits ≡ read (field (selector part)) self.bits }
        ensures bits { ReadBits (field (selector part)) self.bits result.bits }
    {
        let field = field_at(part);
        field.filled(field.number(self))
    }

    /// The word with the lowest bits of a value in the part, and every other bit as it was.
    pub fn with_part(self, part: Part, value: Word) -> Word
        ensures value { result.bits ≡ stored (field (selector part)) self.bits value.bits }
        ensures bits { StoredBits (field (selector part)) self.bits value.bits result.bits }
    {
        field_at(part).stored(self, value)
    }
}
