// Words of 36 bits in ones' complement, as the 1108 computes with them: sums, partial words, shifts and octal digits.
//
// Read `numbers`, `words` and `halves` first (the types `Word` and `Half`), then `sums` and `adder` (`Sum`, `Adder`),
// `order`, `logic`, `fields` and `parts` (`Part`), `shifts` (`Count`, `Counted`), `digits` (`DigitsError`) and `figures`
// (`worked_figures`). `up_to` has the type behind parts and counts, `out_of_range` the refusal of a number.
// The library allocates nothing, keeps no state, and no function written here asks anything of its caller beyond the types.
#![tactic(auto)]

mod adder;
mod digits;
mod fields;
mod figures;
mod halves;
mod logic;
mod numbers;
mod order;
mod out_of_range;
mod parts;
mod shifts;
mod sums;
mod up_to;
mod words;

pub use adder::Adder;
pub use digits::{DigitsError, WORD_DIGITS};
pub use figures::{Figures, worked_figures};
pub use halves::Half;
pub use numbers::Number;
pub use out_of_range::OutOfRange;
pub use parts::Part;
pub use shifts::{Count, Counted};
pub use sums::Sum;
pub use up_to::UpTo;
pub use words::Word;
