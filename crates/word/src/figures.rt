// The machine's worked figures, as the code computes them.
ghost use Rattle.word.specs.Figures.{Worked};

use crate::halves::Half;
use crate::parts::Part;
use crate::shifts::{Count, Counted};
use crate::sums::Sum;
use crate::words::Word;

/// What the code gives for each figure.
#[derive(Clone, Copy, PartialEq, Eq, Debug)]
pub struct Figures {
    pub address_to_zero: Half,
    pub address_past_minus_zero: Half,
    pub minus_zeros: Sum<Word>,
    pub greatest_plus_one: Sum<Word>,
    pub unlike_zeros: Sum<Word>,
    pub right_six_circular: Word,
    pub right_six_algebraic: Word,
    pub one_turned: Counted,
    pub upper_third: Word,
}

/// The worked figures, each proved to be the machine's.
pub fn worked_figures() -> Figures
    ensures { Worked result }
{
    let minus_zero = Word::of_lowest(0o777777777777);
    let one = Word::of_lowest(1);
    let shifted = Word::of_lowest(0o765432101234);
    let six = Count { number: 6 };
    Figures {
        address_to_zero: Half::of_lowest(0o777776).plus(Half::of_lowest(1)),
        address_past_minus_zero: Half::of_lowest(0o777777).plus(Half::of_lowest(1)),
        minus_zeros: minus_zero.plus(minus_zero),
        greatest_plus_one: Word::of_lowest(0o377777777777).plus(one),
        unlike_zeros: minus_zero.plus(Word::of_lowest(0)),
        right_six_circular: shifted.right_circular(six),
        right_six_algebraic: shifted.right_algebraic(six),
        one_turned: one.shift_and_count(),
        upper_third: Word::of_lowest(0o400000000000).part(Part { number: 7 }),
    }
}
