// Shifts: the results for 765432101234o by 6 places, past the word and round it, and for the two zeros are the machine's
// printed examples; the other turns are worked out by the rule.
use std::test::Fail;
use word::{Count, Counted, Word};

const OPERAND: u64 = 0o765432101234;

#[test]
fn six_places(rt: HostRuntime) -> Result<(), Fail> {
    let word = Word::of_lowest(OPERAND);
    let six = Count::try_from(6)?;
    let thirty = Count::try_from(30)?;
    assert_eq!(rt; word.right_circular(six).number(), 0o347654321012);
    assert_eq!(rt; word.left_circular(thirty).number(), 0o347654321012);
    assert_eq!(rt; word.right_logical(six).number(), 0o007654321012);
    assert_eq!(rt; word.left_logical(six).number(), 0o543210123400);
    assert_eq!(rt; word.right_algebraic(six).number(), 0o777654321012);
    Ok(())
}

#[test]
fn round_the_word(rt: HostRuntime) -> Result<(), Fail> {
    let word = Word::of_lowest(OPERAND);
    for places in [0, 36, 72] {
        let count = Count::try_from(places)?;
        assert_eq!(rt; word.right_circular(count).number(), OPERAND);
        assert_eq!(rt; word.left_circular(count).number(), OPERAND);
    }
    for (far, near) in [(37, 1), (38, 2)] {
        let far = Count::try_from(far)?;
        let near = Count::try_from(near)?;
        assert_eq!(rt; word.right_circular(far), word.right_circular(near));
        assert_eq!(rt; word.left_circular(far), word.left_circular(near));
    }
    Ok(())
}

#[test]
fn past_the_word(rt: HostRuntime) -> Result<(), Fail> {
    let word = Word::of_lowest(OPERAND);
    for places in 36..73 {
        let count = Count::try_from(places)?;
        assert_eq!(rt; word.right_logical(count).number(), 0);
        assert_eq!(rt; word.left_logical(count).number(), 0);
    }
    for places in 35..73 {
        let count = Count::try_from(places)?;
        assert_eq!(rt; word.right_algebraic(count).number(), 0o777777777777);
        assert_eq!(rt; word.magnitude().right_algebraic(count).number(), 0);
    }
    assert!(rt; Count::new(73).is_none());
    Ok(())
}

#[test]
fn shift_and_count(rt: HostRuntime) {
    let cases = [
        (0o200000000000, 0o200000000000, 0),
        (0o577777777777, 0o577777777777, 0),
        (0, 0, 0o43),
        (0o777777777777, 0o777777777777, 0o43),
        (1, 0o200000000000, 34),
        (0o777777777776, 0o577777777777, 34),
        (5, 0o240000000000, 32),
        (0o777777777772, 0o537777777777, 32),
    ];
    for (operand, word, places) in cases {
        let counted = Word::of_lowest(operand).shift_and_count();
        let expected = Counted {
            word: Word::of_lowest(word),
            count: places,
        };
        assert_eq!(rt; counted, expected);
    }
}
