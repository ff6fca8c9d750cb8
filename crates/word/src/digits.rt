// A word and its twelve octal digits.
ghost use Rattle.std.specs.Prelude.{◌≡◌, ◌^◌, ◌<◌, length, IfOk, Some, Ok};
ghost use Rattle.std.specs.Fmt.{styled_text};
ghost use Rattle.word.specs.Digits.{word_digits, is_octal, front, number, reading, number_of, explanation};

use crate::words::Word;
use std::array::from_fn;
use std::error::Error;
use std::fmt;
use std::str::{FromStr, from_utf8};

/// How many octal digits a word has.
pub const WORD_DIGITS: usize = 12;

/// Why a text is not the twelve octal digits of a word.
#[derive(Clone, Copy, PartialEq, Eq, Debug)]
pub enum DigitsError {
    /// The place, from 0, of the first byte among the first twelve that is no octal digit.
    NotOctal(usize),
    /// How many digits there are, less than twelve.
    TooShort(usize),
    /// How many bytes there are, more than twelve, of which the first twelve are digits.
    TooLong(usize),
}

fn is_octal(byte: u8) -> bool
    ensures { result ≡ is_octal byte }
{
    matches!(byte, b'0'..=b'7')
}

// How many octal digits the text begins with.
fn digits_ahead(text: &[u8]) -> usize
    ensures { result ≡ front text.now }
{
    text.iter()
        .position(|byte| !is_octal(*byte))
        .unwrap_or(text.len())
}

// The number that twelve octal digits write.
fn number_written(text: &[u8]) -> u64
    requires digits { front text.now ≡ length text.now }
    requires twelve { length text.now ≡ 12 }
    ensures value { result ≡ number text.now }
    ensures bound { result < 2 ^ 36 }
{
    let mut total: u64 = 0;
    for byte in text {
        total = total * 8 + u64::from(*byte - b'0');
    }
    total
}

impl Word {
    /// The twelve octal digits of the word, as bytes of text.
    // A named function, since an array of bytes does not say that they are digits.
    pub fn digits(self) -> [u8; WORD_DIGITS]
        ensures value { result ≡ word_digits self.bits }
        ensures back { reading result ≡ Ok self.bits }
    {
        let digit_at = |place: usize| -> u8
            requires { place < 12 }
        {
            let behind = WORD_DIGITS - 1 - place;
            b'0' + ((self.bits >> (3 * behind)) % 8) as u8
        };
        from_fn(digit_at)
    }

    /// The word that exactly twelve octal digits write.
    pub fn from_digits(text: &[u8]) -> Result<Word, DigitsError>
        ensures reply { number_of result ≡ reading text.now }
        ensures back { IfOk result (λ w. word_digits w.bits ≡ text.now) }
    {
        let ahead = digits_ahead(text);
        if ahead < text.len().min(WORD_DIGITS) {
            Err(DigitsError::NotOctal(ahead))
        } else if text.len() < WORD_DIGITS {
            Err(DigitsError::TooShort(text.len()))
        } else if text.len() > WORD_DIGITS {
            Err(DigitsError::TooLong(text.len()))
        } else {
            Ok(Word {
                bits: number_written(text),
            })
        }
    }
}

impl FromStr for Word {
    type Err = DigitsError;

    ghost from_str_gives = { λ text result. number_of result ≡ reading text };

    fn from_str(text: &str) -> Result<Word, DigitsError> {
        Word::from_digits(text.as_bytes())
    }
}

impl fmt::Display for Word {
    ghost output = { λ w. Some (word_digits w.bits) };

    ghost styled_output = { λ w spec. Some (styled_text spec (word_digits w.bits)) };

    fn fmt<W: fmt::Write>(&self, f: &mut fmt::Formatter<W>) -> fmt::Result {
        let digits = self.digits();
        let text = from_utf8(&digits).unwrap();
        f.pad(text)
    }
}

impl fmt::Display for DigitsError {
    ghost output = { λ e. Some (explanation e) };

    fn fmt<W: fmt::Write>(&self, f: &mut fmt::Formatter<W>) -> fmt::Result {
        match *self {
            DigitsError::NotOctal(place) => write!(f, "no octal digit at place {place}"),
            DigitsError::TooShort(count) => write!(f, "{count} digits where 12 are wanted"),
            DigitsError::TooLong(count) => write!(f, "{count} bytes where 12 are wanted"),
        }
    }
}

impl Error for DigitsError {}
