// Half a word.
use crate::numbers::Number;

/// How many bits half a word has.
pub(crate) const HALF_BITS: u32 = 18;

/// Half a word, 18 bits; an address is one.
pub type Half = Number<HALF_BITS>;
