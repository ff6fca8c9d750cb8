// The report on a column of words: each word with the sum after it, and the total.
ghost use Rattle.std.specs.Prelude.{◌≡◌, IfOk, string_bytes};
ghost use Rattle.column.specs.Column.{numbers};
ghost use Rattle.tally.specs.Tally.{statement, Refuses, Reports};
ghost use Rattle.tally.specs.TotalLaws.{TotalLaws};

use crate::lines::{Closing, Line};
use column::{ColumnError, read_column};
use std::alloc::{AllocError, Global};
use word::Word;

// The whole report on the words of a column.
fn statement(heap: Global, words: &[Word]) -> Result<String, AllocError>
    ensures { IfOk result (λ s. string_bytes s ≡ statement (numbers words.now)) }
{
    let mut out = String::new(heap);
    let mut register = Word::of_lowest(0);
    for &word in words {
        let after = register.plus(word);
        let line = Line { word, after };
        // Room for the whole line at once: grown by each piece of it, the text takes nearly twice as much at some lengths.
        out.reserve(line.size())?;
        write!(out, "{line}")?;
        register = after.total;
    }
    let closing = Closing {
        count: words.len(),
        register,
    };
    write!(out, "{closing}")?;
    Ok(out)
}

// The report on an input that is no column.
fn refusal(heap: Global, error: ColumnError) -> Result<String, AllocError>
    ensures { IfOk result (λ s. Refuses error (string_bytes s)) }
{
    match error {
        ColumnError::BadLine(_) => format!(in heap; "{error}\n"),
        ColumnError::Memory => Err(AllocError),
    }
}

/// What the program prints for an input.
#[tactic(auto, using(crate::proofs::Totals::total_laws))]
pub fn report(heap: Global, text: &[u8]) -> Result<String, AllocError>
    ensures reply { IfOk result (λ s. Reports text.now (string_bytes s)) }
    ensures laws { TotalLaws }
{
    match read_column(heap, text) {
        Ok(words) => statement(heap, &words),
        Err(error) => refusal(heap, error),
    }
}

#[cfg(test)]
mod tests {
    use super::report;
    use std::test::Fail;

    #[test]
    fn bad_line(rt: HostRuntime) -> Result<(), Fail> {
        let out = report(rt.alloc(), b"000000000000\n8\n")?;
        assert!(rt; out.as_str() == "bad line 2\n");
        Ok(())
    }

    // Fourteen lines of 26 bytes and a closing of 36: the room of a line, doubled four times, holds them.
    #[test]
    fn room_of_whole_lines(rt: HostRuntime) -> Result<(), Fail> {
        let mut text = Vec::new(rt.alloc());
        for _ in 0..14 {
            text.extend_from_slice(b"000000000000\n")?;
        }
        let out = report(rt.alloc(), &text)?;
        assert_eq!(rt; out.as_str().len(), 14 * 26 + 36);
        assert!(rt; out.capacity() <= 16 * 26);
        Ok(())
    }
}
