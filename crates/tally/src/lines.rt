// The lines of a report, which print themselves.
ghost use Rattle.std.specs.Prelude.{◌≡◌, Some, length};
ghost use Rattle.tally.specs.Tally.{line_text, closing};

use std::fmt;
use word::{Sum, WORD_DIGITS, Word};

// What stands after a sum that carried.
const CARRY: &str = " carry";

// What stands after a sum that overflowed.
const OVERFLOW: &str = " overflow";

/// The line of a word: the word, the sum after it was added, and what that sum marks.
#[derive(Clone, Copy)]
pub struct Line {
    pub word: Word,
    pub after: Sum<Word>,
}

impl Line {
    /// How many bytes the line has, with its newline.
    pub fn size(self) -> usize
        ensures { result ≡ length (line_text self.word.bits self.after.total.bits self.after.carry self.after.overflow) }
    {
        let carry = usize::from(self.after.carry) * CARRY.len();
        let overflow = usize::from(self.after.overflow) * OVERFLOW.len();
        2 * WORD_DIGITS + 2 + carry + overflow
    }
}

impl fmt::Display for Line {
    ghost output = { λ l. Some (line_text l.word.bits l.after.total.bits l.after.carry l.after.overflow) };

    fn fmt<W: fmt::Write>(&self, f: &mut fmt::Formatter<W>) -> fmt::Result {
        write!(f, "{} {}", self.word, self.after.total)?;
        if self.after.carry {
            f.write_str(CARRY)?;
        }
        if self.after.overflow {
            f.write_str(OVERFLOW)?;
        }
        writeln!(f)
    }
}

/// The three lines at the end: how many words there were, and the register after them.
#[derive(Clone, Copy)]
pub struct Closing {
    pub count: usize,
    pub register: Word,
}

impl fmt::Display for Closing {
    ghost output = { λ c. Some (closing c.count c.register.bits) };

    fn fmt<W: fmt::Write>(&self, f: &mut fmt::Formatter<W>) -> fmt::Result {
        writeln!(f, "lines {}", self.count)?;
        writeln!(f, "total {}", self.register)?;
        writeln!(f, "value {}", self.register.value())
    }
}
