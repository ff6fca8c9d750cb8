// Columns of words: which texts are read, and which line of the others is the first bad one. Worked out by the rule of lines.
use column::{ColumnError, first_bad_line, read_column};
use std::process::Abort;
use std::test::Fail;
use word::Word;

#[test]
fn good_columns(rt: HostRuntime) -> Result<(), Fail> {
    let heap = rt.alloc();
    let two = b"000000000014\n777777777777\n";
    let expected = [Word::of_lowest(0o14), Word::of_lowest(0o777777777777)];
    for text in [two.as_slice(), &two[0..25]] {
        let words = read_column(heap, text)?;
        assert!(rt; words.as_slice() == expected.as_slice());
    }
    assert!(rt; read_column(heap, b"")?.is_empty());
    Ok(())
}

fn check_bad(rt: &(impl Abort + AllocGlobal), text: &[u8], line: usize) {
    assert!(rt; first_bad_line(text) == Some(line));
    assert!(rt; read_column(rt.alloc(), text).err() == Some(ColumnError::BadLine(line)));
}

#[test]
fn refusals_printed(rt: HostRuntime) -> Result<(), Fail> {
    let heap = rt.alloc();
    let error = ColumnError::BadLine(3);
    assert!(rt; format!(in heap; "{error}")?.as_str() == "bad line 3");
    let error = ColumnError::Memory;
    assert!(rt; format!(in heap; "{error}")?.as_str() == "no memory for the words");
    Ok(())
}

#[test]
fn bad_lines(rt: HostRuntime) {
    check_bad(&rt, b"\n", 1);
    check_bad(&rt, b"000000000000\n\n", 2);
    check_bad(&rt, b"000000000000\n\n000000000000\n", 2);
    check_bad(&rt, b"00000000000\n", 1);
    check_bad(&rt, b"0000000000000\n", 1);
    check_bad(&rt, b"000000000000\r\n", 1);
    check_bad(&rt, b"000000000000\n 00000000000\n", 2);
    check_bad(&rt, b"000000000000\n000000000009", 2);
    check_bad(&rt, b"000000000000\n\xff\n8\n", 2);
}
