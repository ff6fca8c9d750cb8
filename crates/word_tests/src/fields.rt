// Every part of 765432101234o, read and stored. The expected values are read off the digits by the table of fields.
use std::test::Fail;
use word::{Part, Word};

#[test]
fn read_and_stored(rt: HostRuntime) -> Result<(), Fail> {
    let cases = [
        (0, 0o765432101234, 0o112233445566),
        (1, 0o000000101234, 0o765432445566),
        (2, 0o000000765432, 0o445566101234),
        (3, 0o000000101234, 0o765432445566),
        (4, 0o777777765432, 0o445566101234),
        (5, 0o000000001234, 0o765432105566),
        (6, 0o000000003210, 0o765455661234),
        (7, 0o777777777654, 0o556632101234),
        (0o10, 0o000000000034, 0o765432101266),
        (0o11, 0o000000000012, 0o765432106634),
        (0o12, 0o000000000010, 0o765432661234),
        (0o13, 0o000000000032, 0o765466101234),
        (0o14, 0o000000000054, 0o766632101234),
        (0o15, 0o000000000076, 0o665432101234),
    ];
    let word = Word::of_lowest(0o765432101234);
    let value = Word::of_lowest(0o112233445566);
    for (j, read, stored) in cases {
        let part = Part::try_from(j)?;
        assert_eq!(rt; u32::from(part), j);
        assert_eq!(rt; word.part(part).number(), read);
        assert_eq!(rt; word.with_part(part, value).number(), stored);
    }
    assert!(rt; Part::new(0o16).is_none());
    assert!(rt; Part::new(0o17).is_none());
    Ok(())
}
