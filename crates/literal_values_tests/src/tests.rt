//! What literals stand for.
//!
//! A row has a literal and its value: of a string the numbers of its characters.
use literal_values::{character_value, integer_value, string_value};
use std::alloc::{AllocError, Global};
use std::test::Fail;

const INTEGERS: &[(&[u8], u64)] = &[
    (b"0", 0),
    (b"42", 42),
    (b"0o17", 15),
    (b"0O17", 15),
    (b"0xfF", 255),
    (b"0X10", 16),
    (b"9223372036854775807", 9223372036854775807),
    (b"99999999999999999999", 18446744073709551615),
];

const CHARACTERS: &[(&[u8], u32)] = &[
    (b"'a'", 97),
    (b"'\\''", 39),
    (b"'\\n'", 10),
    (b"'\\DEL'", 127),
    (b"'\\SOH'", 1),
    (b"'\\SO'", 14),
    (b"'\\^A'", 1),
    (b"'\\1114111'", 1114111),
    (b"'\\x2f'", 47),
    (b"'\\o17'", 15),
    (b"'\xc3\xa9'", 233),
    (b"'\xe2\x82\xac'", 8364),
    (b"'\xf0\x9f\x98\x80'", 128512),
];

const STRINGS: &[(&[u8], &[u32])] = &[
    (b"\"\"", &[]),
    (b"\"ab\"", &[97, 98]),
    (b"\"\\SO\\&H\"", &[14, 72]),
    (b"\"\\SOH\"", &[1]),
    (b"\"\\65\\&5\"", &[65, 53]),
    (b"\"a\\   \\b\"", &[97, 98]),
    (b"\"\\\"\\\\\"", &[34, 92]),
    (b"\"\xc3\xa9!\"", &[233, 33]),
    (b"\"\\x41\\o101\"", &[65, 65]),
];

/// How many integers have their value, before the first that has not.
fn right_integers() -> usize {
    INTEGERS
        .iter()
        .take_while(|row| integer_value(row.0) == row.1)
        .count()
}

/// How many characters have their number, before the first that has not.
fn right_characters() -> usize {
    CHARACTERS
        .iter()
        .take_while(|row| character_value(row.0) == row.1)
        .count()
}

/// How many strings have their characters, before the first that has not.
fn right_strings(alloc: Global) -> Result<u64, AllocError> {
    let mut right: u64 = 0;
    for (text, codes) in STRINGS {
        let value = string_value(alloc, text)?;
        if value.as_slice() != *codes {
            return Ok(right);
        }
        if right < 1000 {
            right += 1;
        }
    }
    Ok(right)
}

#[test]
fn literals_have_values(rt: HostRuntime) -> Result<(), Fail> {
    assert_eq!(rt; right_integers(), 8);
    assert_eq!(rt; right_characters(), 13);
    let right = right_strings(rt.alloc())?;
    assert_eq!(rt; right, 9);
    Ok(())
}
