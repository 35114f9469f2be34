//! Characters and strings.
ghost use Rattle.std.specs.Prelude.{◌≡◌, ◌≤◌, ◌<◌, ◌+◌, length, drop, IfSome};
ghost use Rattle.std.specs.Str.{bytes_eq};
ghost use Rattle.hs_lex.specs.Classes.{is_in};
ghost use Rattle.hs_lex.specs.Literals.{more_by, is_char_escape, is_long_name, is_longer_name, is_short_name, is_shorter_name, name_len, code_len, control_len, escape_len, gap_len, string_escape_len, is_plain, item_len, string_len, character_len, literal_len, char_len};

use crate::class::{Class, count, holds};
use crate::number::is_within;

/// The greatest number of a character.
const GREATEST: u64 = 1114111;

/// Whether the text is the word.
fn is(text: &[u8], word: &[u8]) -> bool
    ensures { result ≡ bytes_eq text.now word.now }
{
    text == word
}

/// Whether the byte is an escape's by itself.
fn char_escape(byte: u8) -> bool
    ensures { result ≡ is_char_escape byte }
{
    matches!(
        byte,
        b'a' | b'b' | b'f' | b'n' | b'r' | b't' | b'v' | b'\\' | b'"' | b'\''
    )
}

/// Whether the text is one of the first half of the ASCII names of three letters.
#[tactic(auto, unfolding(crate::specs::Literals::is_long_name))]
fn long_name(text: &[u8]) -> bool
    ensures { result ≡ is_long_name text.now }
{
    is(text, b"NUL")
        || is(text, b"SOH")
        || is(text, b"STX")
        || is(text, b"ETX")
        || is(text, b"EOT")
        || is(text, b"ENQ")
        || is(text, b"ACK")
        || is(text, b"BEL")
        || is(text, b"DLE")
        || is(text, b"DC1")
}

/// Whether the text is one of the second half of the ASCII names of three letters.
#[tactic(auto, unfolding(crate::specs::Literals::is_longer_name))]
fn longer_name(text: &[u8]) -> bool
    ensures { result ≡ is_longer_name text.now }
{
    is(text, b"DC2")
        || is(text, b"DC3")
        || is(text, b"DC4")
        || is(text, b"NAK")
        || is(text, b"SYN")
        || is(text, b"ETB")
        || is(text, b"CAN")
        || is(text, b"SUB")
        || is(text, b"ESC")
        || is(text, b"DEL")
}

/// Whether the text is one of the ASCII names of two letters.
#[tactic(auto, unfolding(crate::specs::Literals::is_short_name))]
fn short_name(text: &[u8]) -> bool
    ensures { result ≡ is_short_name text.now }
{
    is(text, b"BS")
        || is(text, b"HT")
        || is(text, b"LF")
        || is(text, b"VT")
        || is(text, b"FF")
        || is(text, b"CR")
        || is(text, b"SO")
        || is(text, b"SI")
        || is(text, b"EM")
}

/// Whether the text is one of the other ASCII names of two letters.
#[tactic(auto, unfolding(crate::specs::Literals::is_shorter_name))]
fn shorter_name(text: &[u8]) -> bool
    ensures { result ≡ is_shorter_name text.now }
{
    is(text, b"FS") || is(text, b"GS") || is(text, b"RS") || is(text, b"US") || is(text, b"SP")
}

/// The length of the longest ASCII name at the front.
fn name(bytes: &[u8]) -> Option<usize>
    ensures value { result ≡ name_len bytes.now }
    ensures within { IfSome result (λ len. len ≤ length bytes.now) }
{
    if 3 <= bytes.len() && (long_name(&bytes[..3]) || longer_name(&bytes[..3])) {
        return Some(3);
    }
    if 2 <= bytes.len() && (short_name(&bytes[..2]) || shorter_name(&bytes[..2])) {
        return Some(2);
    }
    None
}

/// The length of the number at the front, if it is one of a character.
fn code(base: u64, class: Class, bytes: &[u8]) -> Option<usize>
    requires { 0 < base }
    ensures value { result ≡ code_len base (is_in class) bytes.now }
    ensures within { IfSome result (λ len. len ≤ length bytes.now) }
{
    let digits = count(class, bytes);
    if digits > 0 && is_within(base, &bytes[..digits], GREATEST) {
        Some(digits)
    } else {
        None
    }
}

/// The length of a number with the letter before it.
fn marked(base: u64, class: Class, bytes: &[u8]) -> Option<usize>
    requires { 0 < base }
    ensures value { result ≡ more_by 1 (code_len base (is_in class) bytes.now) }
    ensures within { IfSome result (λ len. len ≤ length bytes.now + 1) }
{
    match code(base, class, bytes) {
        Some(len) => Some(len + 1),
        None => None,
    }
}

/// The length of `^` and what stands behind it.
fn control(bytes: &[u8]) -> Option<usize>
    ensures value { result ≡ more_by 1 (control_len bytes.now) }
    ensures within { IfSome result (λ len. len ≤ length bytes.now + 1) }
{
    match bytes.first() {
        Some(64..=95) => Some(2),
        _ => None,
    }
}

/// The length of what stands behind the backslash of an escape.
fn escape(bytes: &[u8]) -> Option<usize>
    ensures value { result ≡ escape_len bytes.now }
    ensures within { IfSome result (λ len. len ≤ length bytes.now) }
{
    let Some((first, rest)) = bytes.split_first() else {
        return None;
    };
    if char_escape(*first) {
        return Some(1);
    }
    if holds(Class::Digit, *first) {
        return code(10, Class::Digit, bytes);
    }
    if *first == b'o' {
        return marked(8, Class::Octal, rest);
    }
    if *first == b'x' {
        return marked(16, Class::Hexadecimal, rest);
    }
    if *first == b'^' {
        return control(rest);
    }
    name(bytes)
}

/// The bytes without so many at the front.
pub fn behind(len: usize, bytes: &[u8]) -> &[u8]
    requires { len ≤ length bytes.now }
    ensures { result.now ≡ drop len bytes.now }
{
    &bytes[len..]
}

/// The length of a gap behind its backslash.
fn gap(bytes: &[u8]) -> Option<usize>
    ensures value { result ≡ gap_len bytes.now }
    ensures within { IfSome result (λ len. len ≤ length bytes.now) }
{
    let white = count(Class::White, bytes);
    match behind(white, bytes).first() {
        Some(b'\\') => Some(white + 1),
        _ => None,
    }
}

/// The length of what stands behind a backslash in a string.
fn string_escape(bytes: &[u8]) -> Option<usize>
    ensures value { result ≡ string_escape_len bytes.now }
    ensures within { IfSome result (λ len. len ≤ length bytes.now) }
{
    let Some((first, _)) = bytes.split_first() else {
        return None;
    };
    if *first == b'&' {
        Some(1)
    } else if holds(Class::White, *first) {
        gap(bytes)
    } else {
        escape(bytes)
    }
}

/// Whether the byte stands for itself.
fn plain(byte: u8) -> bool
    ensures { result ≡ is_plain byte }
{
    matches!(byte, 32..=126 | 128..=255)
}

/// The length of an item of a string behind its first byte.
fn item(first: u8, rest: &[u8]) -> Option<usize>
    ensures value { result ≡ item_len first rest.now }
    ensures within { IfSome result (λ len. len ≤ length rest.now) }
{
    if first == b'\\' {
        string_escape(rest)
    } else if plain(first) {
        Some(0)
    } else {
        None
    }
}

/// The length of a string behind its opening quote, with the closing one.
pub fn string(bytes: &[u8]) -> Option<usize>
    ensures value { result ≡ string_len 0 bytes.now }
    ensures within { IfSome result (λ len. len ≤ length bytes.now) }
{
    let mut len: usize = 0;
    let mut left = bytes;
    'items: while let Some((first, rest)) = left.split_first() {
        if *first == b'"' {
            return Some(len + 1);
        }
        let Some(more) = item(*first, rest) else {
            return None;
        };
        len += more + 1;
        left = behind(more, rest);
    }
    None
}

/// The length of a character that stands for itself, behind its first byte.
fn character(first: u8, rest: &[u8]) -> Option<usize>
    ensures value { result ≡ character_len first rest.now }
    ensures within { IfSome result (λ len. len ≤ length rest.now) }
{
    if first >= 192 {
        Some(count(Class::Continuation, rest))
    } else if matches!(first, 32..=126) && first != b'\'' {
        Some(0)
    } else {
        None
    }
}

/// The length of the one character of a literal behind its first byte.
fn content(first: u8, rest: &[u8]) -> Option<usize>
    ensures value { result ≡ literal_len first rest.now }
    ensures within { IfSome result (λ len. len ≤ length rest.now) }
{
    if first == b'\\' {
        escape(rest)
    } else {
        character(first, rest)
    }
}

/// The length of a character literal behind its opening quote, with the closing one.
pub fn character_literal(bytes: &[u8]) -> Option<usize>
    ensures value { result ≡ char_len bytes.now }
    ensures within { IfSome result (λ len. len ≤ length bytes.now) }
{
    let Some((first, rest)) = bytes.split_first() else {
        return None;
    };
    let Some(len) = content(*first, rest) else {
        return None;
    };
    match behind(len, rest).first() {
        Some(b'\'') => Some(len + 2),
        _ => None,
    }
}
