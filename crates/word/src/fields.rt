// The table of the fields that a selector can name, and how one field is read and stored.
ghost use Rattle.std.specs.Prelude.{◌≡◌, ◌-◌, ◌^◌, ◌<◌, ◌&&◌};
ghost use Rattle.word.specs.Bits.{bits_at};
ghost use Rattle.word.specs.Parts.{field, selector, filled, stored, takes_sign, Inside};
ghost use Rattle.word.specs.Sums.{negative};

use crate::parts::Part;
use crate::words::{ONES, Word};

/// What stands to the left of a field that was read.
#[derive(Clone, Copy)]
pub(crate) enum Fill {
    Zeros,
    Sign,
}

/// A field of a word: its rightmost bit, how many bits it has, and what fills a whole word up.
#[derive(Clone, Copy)]
pub(crate) struct Field {
    start: u32,
    width: u32,
    fill: Fill,
}

/// A field that has at least one bit and lies in a word.
#[derive(Clone, Copy)]
pub(crate) struct WordField {
    field: Field,
    ghost inside: { Inside field },
}

/// Start, width and fill of each field, by its selector; a `static`, since a `const` would be copied at each use.
static FIELDS: [(u32, u32, Fill); 0o16] = [
    (0, 36, Fill::Zeros),
    (0, 18, Fill::Zeros),
    (18, 18, Fill::Zeros),
    (0, 18, Fill::Sign),
    (18, 18, Fill::Sign),
    (0, 12, Fill::Sign),
    (12, 12, Fill::Sign),
    (24, 12, Fill::Sign),
    (0, 6, Fill::Zeros),
    (6, 6, Fill::Zeros),
    (12, 6, Fill::Zeros),
    (18, 6, Fill::Zeros),
    (24, 6, Fill::Zeros),
    (30, 6, Fill::Zeros),
];

/// The field that a part is.
pub(crate) fn field_at(part: Part) -> WordField
    ensures { result.field ≡ field (selector part) }
{
    let (start, width, fill) = FIELDS[part.number as usize];
    WordField {
        field: Field { start, width, fill },
    }
}

impl WordField {
    // As many ones as the field has bits.
    fn ones(self) -> u64
        ensures value { result ≡ 2 ^ self.field.width - 1 }
        ensures bound { result < 2 ^ 36 }
    {
        (1 << self.field.width) - 1
    }

    /// The number that the field's bits of a word write.
    pub(crate) fn number(self, word: Word) -> u64
        ensures { result ≡ bits_at self.field.start self.field.width word.bits }
    {
        (word.bits >> self.field.start) & self.ones()
    }

    // Whether a number of the field's width is filled with ones.
    fn is_negative(self, number: u64) -> bool
        ensures { result ≡ (takes_sign self.field.fill && negative self.field.width number) }
    {
        match self.field.fill {
            Fill::Zeros => false,
            Fill::Sign => number >= 1 << (self.field.width - 1),
        }
    }

    /// A number of the field's width as a whole word.
    pub(crate) fn filled(self, number: u64) -> Word
        requires { number < 2 ^ self.field.width }
        ensures { result.bits ≡ filled self.field number }
    {
        let ones = self.ones();
        if self.is_negative(number) {
            Word {
                bits: ONES - ones + number,
            }
        } else {
            Word { bits: number }
        }
    }

    /// A word whose field has the lowest bits of a value.
    pub(crate) fn stored(self, word: Word, value: Word) -> Word
        ensures { result.bits ≡ stored self.field word.bits value.bits }
    {
        let taken_out = self.number(word) << self.field.start;
        let put_in = (value.bits & self.ones()) << self.field.start;
        Word {
            bits: word.bits - taken_out + put_in,
        }
    }
}
