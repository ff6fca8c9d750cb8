// Sums, differences, signs, order and logic. The six-bit sums, the zeros, the address sums and the table of bits are the
// machine's printed examples; the other sums are worked out by the rule, one for each combination of signs.
use std::process::Abort;
use std::test::Fail;
use word::{Adder, Half, OutOfRange, Sum, Word};

const MINUS_ZERO: u64 = 0o777777777777;

#[test]
fn six_bit_adder(rt: HostRuntime) -> Result<(), Fail> {
    let cases = [
        ("16 + 7", 0b010000, 0b000111, 0b010111, false, false),
        ("-1 + -1", 0b111110, 0b111110, 0b111101, true, false),
        ("-20 - -12", 0b101011, 0b001100, 0b110111, false, false),
        ("-1 - -6", 0b111110, 0b000110, 0b000101, true, false),
        (
            "a number and its complement",
            0b111000,
            0b000111,
            0,
            true,
            false,
        ),
    ];
    let adder = Adder::new(6).ok_or("no adder of six bits")?;
    check_sums(&rt, &cases, |a, b| adder.add(a, b));
    assert!(rt; adder.add(0b1000000, 0).is_none());
    assert!(rt; adder.add(0, 0b1000000).is_none());
    assert!(rt; Adder::new(0).is_none());
    assert!(rt; Adder::new(64).is_none());
    Ok(())
}

// Each case is a name, two operands, and what comes of them.
fn check_sums<F: Fn(u64, u64) -> Option<Sum<u64>>>(
    rt: &impl Abort,
    cases: &[(&'static str, u64, u64, u64, bool, bool)],
    sum_of: F,
)
    requires { F.IsAlwaysCallable sum_of }
{
    for &(name, a, b, total, carry, overflow) in cases {
        let expected = Sum {
            total,
            carry,
            overflow,
        };
        assert_eq!(rt; sum_of(a, b), Some(expected), "{name}");
    }
}

// The numbers of a sum of words.
fn numbers(sum: Sum<Word>) -> Sum<u64> {
    Sum {
        total: sum.total.number(),
        carry: sum.carry,
        overflow: sum.overflow,
    }
}

#[test]
fn word_sums(rt: HostRuntime) {
    let cases = [
        ("+0 + +0", 0, 0, 0, false, false),
        ("+0 + -0", 0, MINUS_ZERO, 0, true, false),
        ("-0 + +0", MINUS_ZERO, 0, 0, true, false),
        ("-0 + -0", MINUS_ZERO, MINUS_ZERO, MINUS_ZERO, true, false),
        (
            "greatest + 1",
            0o377777777777,
            1,
            0o400000000000,
            false,
            true,
        ),
        (
            "least + -1",
            0o400000000000,
            0o777777777776,
            0o377777777777,
            true,
            true,
        ),
        ("5 + -3", 5, 0o777777777774, 2, true, false),
        ("-3 + 5", 0o777777777774, 5, 2, true, false),
        ("3 + -5", 3, 0o777777777772, 0o777777777775, false, false),
        (
            "-3 + -5",
            0o777777777774,
            0o777777777772,
            0o777777777767,
            true,
            false,
        ),
        ("1 less 1", 1, 0o777777777776, 0, true, false),
        ("+0 less 1", 0, 0o777777777776, 0o777777777776, false, false),
    ];
    check_sums(&rt, &cases, |a, b| {
        Some(numbers(Word::of_lowest(a).plus(Word::of_lowest(b))))
    });
}

#[test]
fn word_differences(rt: HostRuntime) {
    let cases = [
        ("+0 - +0", 0, 0, 0, true, false),
        ("+0 - -0", 0, MINUS_ZERO, 0, false, false),
        ("-0 - +0", MINUS_ZERO, 0, MINUS_ZERO, true, false),
        ("-0 - -0", MINUS_ZERO, MINUS_ZERO, 0, true, false),
        (
            "greatest - -1",
            0o377777777777,
            0o777777777776,
            0o400000000000,
            false,
            true,
        ),
        ("least - 1", 0o400000000000, 1, 0o377777777777, true, true),
        ("5 - 3", 5, 3, 2, true, false),
        ("-3 - -5", 0o777777777774, 0o777777777772, 2, true, false),
        ("-3 - 5", 0o777777777774, 5, 0o777777777767, true, false),
    ];
    check_sums(&rt, &cases, |a, b| {
        Some(numbers(Word::of_lowest(a).plus(Word::of_lowest(b).complement())))
    });
}

#[test]
fn address_sums(rt: HostRuntime) {
    let cases = [
        (0o777775, 1, 0o777776),
        (0o777776, 1, 0),
        (0o777777, 1, 1),
        (0, 1, 1),
        (0o770000, 0o020001, 0o010002),
    ];
    for (a, b, total) in cases {
        assert_eq!(rt; Half::of_lowest(a).plus(Half::of_lowest(b)).number(), total);
    }
    assert!(rt; Half::new(0o1000000).is_none());
}

#[test]
fn signs_and_order(rt: HostRuntime) {
    let five = Word::of_lowest(5);
    let minus_five = Word::of_lowest(0o777777777772);
    assert_eq!(rt; five.complement(), minus_five);
    assert_eq!(rt; five.value(), 5);
    assert_eq!(rt; minus_five.value(), -5);
    assert_eq!(rt; minus_five.magnitude().number(), 5);
    assert!(rt; minus_five.is_negative());
    let plus_zero = Word::of_lowest(0);
    let minus_zero = plus_zero.complement();
    assert_eq!(rt; minus_zero.number(), MINUS_ZERO);
    assert_eq!(rt; minus_zero.value(), 0);
    assert_eq!(rt; plus_zero.magnitude().complement().number(), MINUS_ZERO);
    assert!(rt; plus_zero != minus_zero);
    assert!(rt; plus_zero.is_greater(minus_zero));
    assert!(rt; !minus_zero.is_greater(plus_zero));
    assert!(rt; five.is_greater(minus_five));
    assert!(rt; plus_zero.max(minus_five) == plus_zero);
    assert!(rt; minus_zero < plus_zero);
}

#[test]
fn numbers_of_a_width(rt: HostRuntime) {
    assert!(rt; Word::new(1 << 36).is_none());
    assert!(rt; Word::try_from(MINUS_ZERO) == Ok(Word::of_lowest(MINUS_ZERO)));
    assert!(rt; Word::try_from(1 << 36) == Err(OutOfRange));
    assert!(rt; Half::try_from(1 << 18) == Err(OutOfRange));
    assert_eq!(rt; u64::from(Word::of_lowest(MINUS_ZERO)), MINUS_ZERO);
    assert_eq!(rt; i64::from(Word::of_lowest(0o777777777772)), -5);
}

#[test]
fn logic_by_bits(rt: HostRuntime) {
    let a = Word::of_lowest(0b0011);
    let b = Word::of_lowest(0b0101);
    assert_eq!(rt; a.or(b).number(), 0b0111);
    assert_eq!(rt; a.xor(b).number(), 0b0110);
    assert_eq!(rt; a.and(b).number(), 0b0001);
}
