// The reading of a column of words.
ghost use Rattle.std.specs.Prelude.{◌≡◌, Some, IfOk};
ghost use Rattle.column.specs.declared.reader.ColumnError.TheVariants.{Memory};
ghost use Rattle.column.specs.Column.{lines, AllWords, ColumnOf, numbers, Reads, ReadsBack, numbers_of, explanation};

use crate::bad_lines::first_bad_line;
use crate::lines::Lines;
use std::alloc::{AllocError, Global};
use std::error::Error;
use std::fmt;
use word::Word;

/// Why a text was not read as a column of words.
#[derive(Clone, Copy, PartialEq, Eq, Debug)]
pub enum ColumnError {
    /// The number, from 1, of the first line that is no word.
    BadLine(usize),
    /// Every line is a word, and there was no memory for the words.
    Memory,
}

impl fmt::Display for ColumnError {
    ghost output = { λ e. Some (explanation e) };

    fn fmt<W: fmt::Write>(&self, f: &mut fmt::Formatter<W>) -> fmt::Result {
        match *self {
            ColumnError::BadLine(line) => write!(f, "bad line {line}"),
            ColumnError::Memory => write!(f, "no memory for the words"),
        }
    }
}

impl Error for ColumnError {}

/// A lack of memory is answered as `Memory`.
impl From<AllocError> for ColumnError {
    ghost from_gives = { λ _ r. r ≡ Memory };

    fn from(_: AllocError) -> Self {
        Self::Memory
    }
}

// The words of a text whose lines are all words.
fn words_of(heap: Global, text: &[u8]) -> Result<Vec<Word>, AllocError>
    requires { AllWords (lines text.now) }
    ensures { IfOk result (λ words. ColumnOf text.now (numbers words.items)) }
{
    let mut words = Vec::new(heap);
    for line in Lines(text) {
        words.push(Word::from_digits(line).unwrap())?;
    }
    Ok(words)
}

/// The words of a column, in order; or its first bad line; or, where every line is a word, that there was no memory.
#[tactic(auto, using(crate::proofs::Columns::good_column))]
pub fn read_column(heap: Global, text: &[u8]) -> Result<Vec<Word>, ColumnError>
    ensures reply { Reads text.now (numbers_of result) }
    ensures back { ReadsBack text.now (numbers_of result) }
{
    match first_bad_line(text) {
        Some(line) => Err(ColumnError::BadLine(line)),
        None => Ok(words_of(heap, text)?),
    }
}
