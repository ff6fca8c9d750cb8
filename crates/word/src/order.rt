// The order of words.
ghost use Rattle.std.specs.Prelude.{◌≡◌, ◌+◌, ◌%◌, ◌^◌};
ghost use Rattle.std.proofs.Common.{rules};
ghost use Rattle.std.specs.Cmp.{partial_order_from_own_ties};
ghost use Rattle.std.specs.Cmp.Rules.{comparing};
ghost use Rattle.std.specs.Ordering.{as_partial_cmp};
ghost use Rattle.word.specs.Order.{order};
ghost use Rattle.word.specs.Sums.{greater};

use crate::words::{ONES, WORD_BITS, Word};
use std::cmp::Ordering;

/// A word without sign stands above one with it, else the larger number above the smaller; +0 above -0.
impl Ord for Word {
    ghost cmp = { order };

    ghost total = { Prim.search (comparing, rules) };

    ghost matches_partial_cmp = { Prim.search (comparing, rules) };

    ghost matches_eq = { Prim.search (comparing, rules) };

    fn cmp(&self, other: &Word) -> Ordering {
        self.rank().cmp(&other.rank())
    }
}

impl PartialOrd for Word {
    ghost partial_cmp = { as_partial_cmp order };

    ghost laws = { partial_order_from_own_ties (Prim.search (comparing, rules)) (Prim.search (comparing, rules)) };

    fn partial_cmp(&self, other: &Word) -> Option<Ordering> {
        Some(self.cmp(other))
    }
}

impl Word {
    // How many words stand below this one.
    fn rank(self) -> u64
        ensures { result ≡ (self.bits + 2 ^ 35) % 2 ^ 36 }
    {
        (self.bits + (1 << (WORD_BITS - 1))) & ONES
    }

    /// Whether this word stands above another: one without sign above one with it, else the larger number; +0 above -0.
    pub fn is_greater(self, other: Word) -> bool
        ensures { result ≡ greater 36 self.bits other.bits }
    {
        self > other
    }
}
