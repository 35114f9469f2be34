//! Escapes.
ghost use Rattle.std.specs.Prelude.{◌≡◌, ◌≤◌, ◌<◌, ◌+◌, ◌^◌, length};
ghost use Rattle.std.specs.List.{prefix_len};
ghost use Rattle.hs_lex.specs.Classes.{is_in};
ghost use Rattle.hs_lex.specs.declared.class.Class.TheVariants.{Digit, Hexadecimal, Octal, White};
ghost use Rattle.literal_values.specs.Values.{character_item, control, escape, letter, numbered, one_longer, string_escape, string_item};

use crate::character::{Item, character, nothing};
use crate::name::ascii;
use crate::number::code;

/// How many digits stand at the front.
fn decimal_digits(bytes: &[u8]) -> usize
    ensures value { result ≡ prefix_len (is_in Digit) bytes.now }
    ensures within { result ≤ length bytes.now }
{
    bytes
        .iter()
        .take_while(|byte| byte.is_ascii_digit())
        .count()
}

/// How many octal digits stand at the front.
fn octal_digits(bytes: &[u8]) -> usize
    ensures value { result ≡ prefix_len (is_in Octal) bytes.now }
    ensures within { result ≤ length bytes.now }
{
    bytes
        .iter()
        .take_while(|byte| matches!(**byte, b'0'..=b'7'))
        .count()
}

/// How many hexadecimal digits stand at the front.
fn hexadecimal_digits(bytes: &[u8]) -> usize
    ensures value { result ≡ prefix_len (is_in Hexadecimal) bytes.now }
    ensures within { result ≤ length bytes.now }
{
    bytes
        .iter()
        .take_while(|byte| matches!(**byte, b'0'..=b'9' | b'A'..=b'F' | b'a'..=b'f'))
        .count()
}

/// How much white space stands at the front.
fn white(bytes: &[u8]) -> usize
    ensures value { result ≡ prefix_len (is_in White) bytes.now }
    ensures within { result ≤ length bytes.now }
{
    bytes
        .iter()
        .take_while(|byte| matches!(**byte, 32 | 9..=13))
        .count()
}

/// A character by its digits, of which so many stand at the front.
fn numbered(base: u64, digits: usize, bytes: &[u8]) -> Item
    requires positive { 0 < base }
    requires within { digits ≤ length bytes.now }
    ensures { result ≡ numbered base digits bytes.now }
{
    Item {
        code: Some(code(base, &bytes[..digits])),
        len: digits,
    }
}

/// The item with the byte before it.
fn one_longer(item: Item) -> Item
    requires { item.len + 1 < 2 ^ 64 }
    ensures { result ≡ one_longer item }
{
    Item {
        code: item.code,
        len: item.len + 1,
    }
}

/// What stands behind `^`.
fn control(bytes: &[u8]) -> Item
    ensures { result ≡ control bytes.now }
{
    match bytes.first() {
        Some(byte) => Item {
            code: Some(byte.saturating_sub(64) as u32),
            len: 1,
        },
        None => nothing(),
    }
}

/// The character of a letter or a mark behind a backslash.
fn letter(byte: u8) -> u32
    ensures { result ≡ letter byte }
{
    match byte {
        b'a' => 7,
        b'b' => 8,
        b't' => 9,
        b'n' => 10,
        b'v' => 11,
        b'f' => 12,
        b'r' => 13,
        _ => byte as u32,
    }
}

/// What stands behind the backslash of an escape.
pub fn escape(bytes: &[u8]) -> Item
    ensures { result ≡ escape bytes.now }
{
    let Some((first, rest)) = bytes.split_first() else {
        return nothing();
    };
    if first.is_ascii_digit() {
        return numbered(10, decimal_digits(bytes), bytes);
    }
    if *first == b'o' {
        return one_longer(numbered(8, octal_digits(rest), rest));
    }
    if *first == b'x' {
        return one_longer(numbered(16, hexadecimal_digits(rest), rest));
    }
    if *first == b'^' {
        return one_longer(control(rest));
    }
    if first.is_ascii_uppercase() {
        return ascii(bytes);
    }
    Item {
        code: Some(letter(*first)),
        len: 1,
    }
}

/// What stands behind a backslash in a string.
fn string_escape(bytes: &[u8]) -> Item
    ensures { result ≡ string_escape bytes.now }
{
    let Some((first, _)) = bytes.split_first() else {
        return nothing();
    };
    if *first == b'&' {
        return Item { code: None, len: 1 };
    }
    if matches!(*first, 32 | 9..=13) {
        return one_longer(Item {
            code: None,
            len: white(bytes),
        });
    }
    escape(bytes)
}

/// A character of a literal, behind its first byte.
pub fn character_item(first: u8, rest: &[u8]) -> Item
    ensures { result ≡ character_item first rest.now }
{
    if first == b'\\' {
        escape(rest)
    } else {
        character(first, rest)
    }
}

/// An item of a string, behind its first byte.
pub fn string_item(first: u8, rest: &[u8]) -> Item
    ensures { result ≡ string_item first rest.now }
{
    if first == b'\\' {
        string_escape(rest)
    } else {
        character(first, rest)
    }
}
