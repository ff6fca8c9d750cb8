// Numbers up to a bound that is part of their type.
ghost use Rattle.std.specs.Prelude.{◌≡◌, ◌<◌, ◌≤◌, MatchOption, MatchResult};

use crate::out_of_range::OutOfRange;

/// A number from 0 to `MOST`.
// Not one type with `Number`: the bound of a width would be a computed argument, and the width be lost to sums.
#[derive(Clone, Copy, PartialEq, Eq, Debug)]
pub struct UpTo<const MOST: u32> {
    pub(crate) number: u32,
    ghost within: { number ≤ MOST },
}

impl<const MOST: u32> UpTo<MOST> {
    /// The number, or nothing above `MOST`.
    pub fn new(number: u32) -> Option<UpTo<MOST>>
        ensures { MatchOption result (MOST < number) (λ n. n.number ≡ number) }
    {
        if number <= MOST {
            Some(UpTo { number })
        } else {
            None
        }
    }
}

impl<const MOST: u32> TryFrom<u32> for UpTo<MOST> {
    type Error = OutOfRange;

    ghost try_from_gives = { λ number result. MatchResult result (λ n. n.number ≡ number) (λ _. MOST < number) };

    fn try_from(number: u32) -> Result<UpTo<MOST>, OutOfRange> {
        UpTo::new(number).ok_or(OutOfRange)
    }
}

impl<const MOST: u32> From<UpTo<MOST>> for u32 {
    ghost from_gives = { λ n result. result ≡ n.number };

    fn from(number: UpTo<MOST>) -> u32 {
        number.number
    }
}
