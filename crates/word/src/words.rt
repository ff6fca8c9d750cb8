// A word of 36 bits.
use crate::numbers::Number;

/// How many bits a word has.
pub(crate) const WORD_BITS: u32 = 36;

/// The number of a word of ones, which is -0.
pub(crate) const ONES: u64 = (1 << WORD_BITS) - 1;

/// A word of 36 bits.
pub type Word = Number<WORD_BITS>;
