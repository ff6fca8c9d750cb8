// A column of words: text with one word of twelve octal digits to a line.
//
// The crate reads such a text. `read_column` gives its words in order, or a `ColumnError`: the number of the first line
// that is no word, or that there was no memory for the words, which is answered only where every line is one.
// `first_bad_line` finds that line alone, and takes no memory. `?` makes a lack of memory `ColumnError::Memory`.
#![tactic(auto)]

mod bad_lines;
mod lines;
mod reader;

pub use bad_lines::first_bad_line;
pub use reader::{ColumnError, read_column};
