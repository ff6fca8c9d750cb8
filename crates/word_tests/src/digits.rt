// Octal digits: twelve of them are a word, and every other text is refused with its place.
use std::test::Fail;
use word::{DigitsError, Half, Number, OutOfRange, Word};

#[test]
fn twelve_digits(rt: HostRuntime) -> Result<(), Fail> {
    let cases = [
        (b"000000000000", 0),
        (b"765432101234", 0o765432101234),
        (b"400000000000", 0o400000000000),
        (b"777777777777", 0o777777777777),
    ];
    for (text, number) in cases {
        let word = Word::from_digits(text)?;
        assert_eq!(rt; word.number(), number);
        assert!(rt; word.digits() == *text);
    }
    Ok(())
}

fn refusal(text: &[u8]) -> Option<DigitsError> {
    Word::from_digits(text).err()
}

#[test]
fn other_texts(rt: HostRuntime) {
    assert!(rt; refusal(b"") == Some(DigitsError::TooShort(0)));
    assert!(rt; refusal(b"00000000000") == Some(DigitsError::TooShort(11)));
    assert!(rt; refusal(b"0000000000000") == Some(DigitsError::TooLong(13)));
    assert!(rt; refusal(b"000000000000\r") == Some(DigitsError::TooLong(13)));
    assert!(rt; refusal(b"800000000000") == Some(DigitsError::NotOctal(0)));
    assert!(rt; refusal(b"00000000000 ") == Some(DigitsError::NotOctal(11)));
    assert!(rt; refusal(b"0 0") == Some(DigitsError::NotOctal(1)));
    assert!(rt; refusal(b"-00000000001") == Some(DigitsError::NotOctal(0)));
}

#[test]
fn parsed(rt: HostRuntime) {
    assert!(rt; "000000001234".parse::<Word>() == Ok(Word::of_lowest(0o1234)));
}

#[test]
fn printed(rt: HostRuntime) -> Result<(), Fail> {
    let heap = rt.alloc();
    let word = Word::of_lowest(0o1234);
    assert!(rt; format!(in heap; "{word}")?.as_str() == "000000001234");
    let error = DigitsError::NotOctal(5);
    assert!(rt; format!(in heap; "{error}")?.as_str() == "no octal digit at place 5");
    let error = DigitsError::TooShort(3);
    assert!(rt; format!(in heap; "{error}")?.as_str() == "3 digits where 12 are wanted");
    let error = DigitsError::TooLong(13);
    assert!(rt; format!(in heap; "{error}")?.as_str() == "13 bytes where 12 are wanted");
    let error = OutOfRange;
    assert!(rt; format!(in heap; "{error}")?.as_str() == "number out of range");
    assert!(rt; format!(in heap; "{word:>14}")?.as_str() == "  000000001234");
    Ok(())
}

#[test]
fn debug_names(rt: HostRuntime) -> Result<(), Fail> {
    let heap = rt.alloc();
    let word = Word::of_lowest(0o1234);
    let half = Half::of_lowest(0o1234);
    let other = Number::<6>::of_lowest(0o1234);
    assert!(rt; format!(in heap; "{word:?}")?.as_str() == "Word { bits: 668 }");
    assert!(rt; format!(in heap; "{half:?}")?.as_str() == "Half { bits: 668 }");
    assert!(rt; format!(in heap; "{other:?}")?.as_str() == "Number { bits: 28 }");
    Ok(())
}
