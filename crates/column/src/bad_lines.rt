// The first line of a text that is no word.
ghost use Rattle.std.specs.Prelude.{◌≡◌, is_ok, MatchOption};
ghost use Rattle.word.specs.Digits.{reading};
ghost use Rattle.column.specs.Column.{lines, AllWords, FirstBad};

use crate::lines::Lines;
use word::Word;

// Whether the line reads as a word.
fn is_word(line: &[u8]) -> bool
    ensures { result ≡ is_ok (reading line.now) }
{
    Word::from_digits(line).is_ok()
}

/// The number, from 1, of the first line that is no word, or nothing where every line is one.
pub fn first_bad_line(text: &[u8]) -> Option<usize>
    ensures { MatchOption result (AllWords (lines text.now)) (λ n. FirstBad n (lines text.now)) }
{
    Lines(text)
        .position(|line| !is_word(line))
        .map(|before| before + 1)
}
