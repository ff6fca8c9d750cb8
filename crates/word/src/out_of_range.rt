// Why a number was refused.
ghost use Rattle.std.specs.Prelude.{Some, codes};
ghost use Rattle.std.specs.Fmt.{styled_text};

use std::error::Error;
use std::fmt;

/// The refusal of a number that is too large for the type that it was to become.
#[derive(Clone, Copy, PartialEq, Eq, Debug)]
pub struct OutOfRange;

impl fmt::Display for OutOfRange {
    ghost output = { λ _. Some (codes "number out of range") };

    ghost styled_output = { λ _ spec. Some (styled_text spec (codes "number out of range")) };

    fn fmt<W: fmt::Write>(&self, f: &mut fmt::Formatter<W>) -> fmt::Result {
        f.pad("number out of range")
    }
}

impl Error for OutOfRange {}
