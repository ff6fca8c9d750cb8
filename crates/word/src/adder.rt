// Adders of ones' complement numbers, of any width from 1 bit to 63.
ghost use Rattle.std.specs.Prelude.{◌≡◌, ℕ, ◌^◌, ◌<◌, ◌≤◌, ◌⊎◌, MatchOption};
ghost use Rattle.word.specs.Adding.{adder_reply, full_sum};
ghost use Rattle.word.specs.SumLaws.{SumLaws};

use crate::sums::Sum;

/// An adder of ones' complement numbers of one width. The machine has one of 36 bits for words and one of 18 for addresses.
#[derive(Clone, Copy, PartialEq, Eq, Debug)]
pub struct Adder {
    pub(crate) width: u32,
    ghost some: { 0 < width },
    ghost few: { width < 64 },
}

impl Adder {
    /// The adder of a width from 1 to 63, or nothing at any other width.
    pub fn new(width: u32) -> Option<Adder>
        ensures { MatchOption result ((width ≡ 0) ⊎ (64 ≤ width)) (λ d. d.width ≡ width) }
    {
        if (1..=63).contains(&width) {
            Some(Adder { width })
        } else {
            None
        }
    }

    /// The sum of two numbers of the adder's width, or nothing where one of them has more bits.
    pub fn add(self, a: u64, b: u64) -> Option<Sum<u64>>
        ensures reply { result ≡ adder_reply self.width a b }
        ensures laws { (n : ℕ) → 0 < n → SumLaws n }
    {
        let limit = 1 << self.width;
        if a < limit && b < limit {
            Some(self.sum(a, b))
        } else {
            None
        }
    }

    /// The sum of two numbers of the adder's width, in ones' complement: the one code behind every sum.
    pub(crate) fn sum(self, a: u64, b: u64) -> Sum<u64>
        requires a_fits { a < 2 ^ self.width }
        requires b_fits { b < 2 ^ self.width }
        ensures { result ≡ full_sum self.width a b }
    {
        let modulus = (1u64 << self.width) - 1;
        let sign = 1u64 << (self.width - 1);
        let plain = a + b;
        let carry = plain >= modulus;
        let total = if carry { plain - modulus } else { plain };
        let overflow = (a >= sign) == (b >= sign) && (a >= sign) != (total >= sign);
        Sum {
            total,
            carry,
            overflow,
        }
    }
}
