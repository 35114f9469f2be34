//! Numbers.
ghost use Rattle.std.specs.Prelude.{◌≡◌, ◌<◌, ◌≤◌, ◌^◌, true, false, nat_le, length, drop, MatchOption, IfSome};
ghost use Rattle.hs_lex.specs.Classes.{is_in, begins};
ghost use Rattle.hs_lex.specs.Numbers.{value_of, integer, number_kind, digit_of, one_more, run_as, is_hexadecimal_letter, is_octal_letter, is_exponent_letter, is_sign, exponent, fraction, decimal, behind_zero, numeral};
ghost use Rattle.hs_lex.specs.Longest.{Longest, Finds, alone};
ghost use Rattle.hs_lex.specs.declared.class.Class.TheVariants.{Digit};
ghost use Rattle.hs_lex.specs.declared.kind.Form.{Form};
ghost use Rattle.hs_lex.specs.declared.kind.Form.TheVariants.{Floating};

use crate::class::{Class, count};
use crate::kind::{Form, Kind};
use hs_tokens::TokenKind;

/// The greatest integer of a source.
const GREATEST: u64 = 9223372036854775807;

/// A digit's value.
fn digit(byte: u8) -> u64
    ensures { result ≡ digit_of byte }
{
    if byte <= 57 {
        byte.saturating_sub(48) as u64
    } else if byte <= 70 {
        byte.saturating_sub(55) as u64
    } else {
        byte.saturating_sub(87) as u64
    }
}

/// The value with one digit more, if it fits.
fn next_value(base: u64, value: u64, byte: u8) -> Option<u64>
    ensures { MatchOption result (2 ^ 64 ≤ one_more base value byte) (λ next. next ≡ one_more base value byte) }
{
    let more = value.checked_mul(base)?;
    more.checked_add(digit(byte))
}

/// Whether the digits have at most this value. It reads no further than to the first digit that exceeds it.
pub fn is_within(base: u64, digits: &[u8], limit: u64) -> bool
    requires { 0 < base }
    ensures { result ≡ nat_le (value_of base digits.now) limit }
{
    let mut value: u64 = 0;
    let mut left = digits;
    'digits: while let Some((byte, rest)) = left.split_first() {
        let Some(next) = next_value(base, value, *byte) else {
            return false;
        };
        if next > limit {
            return false;
        }
        value = next;
        left = rest;
    }
    value <= limit
}

/// Whether the byte marks hexadecimal digits.
fn hexadecimal_letter(byte: u8) -> bool
    ensures { result ≡ is_hexadecimal_letter byte }
{
    byte == b'x' || byte == b'X'
}

/// Whether the byte marks octal digits.
fn octal_letter(byte: u8) -> bool
    ensures { result ≡ is_octal_letter byte }
{
    byte == b'o' || byte == b'O'
}

/// Whether the byte is the letter of an exponent.
fn exponent_letter(byte: u8) -> bool
    ensures { result ≡ is_exponent_letter byte }
{
    byte == b'e' || byte == b'E'
}

/// Whether the byte is the sign of an exponent.
fn sign(byte: u8) -> bool
    ensures { result ≡ is_sign byte }
{
    byte == b'+' || byte == b'-'
}

/// How many digits stand at the front, if one does.
fn run(class: Class, bytes: &[u8]) -> Option<usize>
    ensures run { (form : Form) → Finds (alone (run_as (is_in class) form)) bytes.now form result }
    ensures within { IfSome result (λ len. len ≤ length bytes.now) }
{
    let digits = count(class, bytes);
    if digits == 0 { None } else { Some(digits) }
}

/// The length of what stands behind the letter of an exponent.
fn exponent_len(bytes: &[u8]) -> Option<usize>
    ensures { Finds (alone exponent) bytes.now Floating result }
{
    let Some((first, rest)) = bytes.split_first() else {
        return None;
    };
    if !sign(*first) {
        return run(Class::Digit, bytes);
    }
    match run(Class::Digit, rest) {
        Some(len) => Some(len + 1),
        None => None,
    }
}

/// The length of what stands behind the digits of a fraction.
fn fraction_end(bytes: &[u8]) -> usize
    requires { begins (is_in Digit) bytes.now ≡ false }
    ensures { Longest (alone (fraction true)) bytes.now Floating result }
{
    if let Some((first, rest)) = bytes.split_first() {
        if exponent_letter(*first) {
            return match exponent_len(rest) {
                Some(len) => len + 1,
                None => 0,
            };
        }
    }
    0
}

/// The length of what stands behind the dot of a number.
fn fraction_len(bytes: &[u8]) -> Option<usize>
    ensures { Finds (alone (fraction false)) bytes.now Floating result }
{
    let digits = count(Class::Digit, bytes);
    if digits == 0 {
        return None;
    }
    let more = fraction_end(&bytes[digits..]);
    Some(digits + more)
}

/// What stands behind the digits of a decimal number.
fn decimal_end(bytes: &[u8]) -> (Form, usize)
    requires { begins (is_in Digit) bytes.now ≡ false }
    ensures { Longest (alone decimal) bytes.now result.0 result.1 }
{
    if let Some((first, rest)) = bytes.split_first() {
        if *first == b'.' {
            return match fraction_len(rest) {
                Some(len) => (Form::Floating, len + 1),
                None => (Form::Decimal, 0),
            };
        }
        if exponent_letter(*first) {
            return match exponent_len(rest) {
                Some(len) => (Form::Floating, len + 1),
                None => (Form::Decimal, 0),
            };
        }
    }
    (Form::Decimal, 0)
}

/// What stands behind the first digit of a decimal number.
fn decimal_len(bytes: &[u8]) -> (Form, usize)
    ensures { Longest (alone decimal) bytes.now result.0 result.1 }
{
    let digits = count(Class::Digit, bytes);
    let (form, more) = decimal_end(&bytes[digits..]);
    (form, digits + more)
}

/// What stands behind a first 0.
fn zero_len(bytes: &[u8]) -> (Form, usize)
    ensures { Longest (alone behind_zero) bytes.now result.0 result.1 }
{
    let Some((first, rest)) = bytes.split_first() else {
        return (Form::Decimal, 0);
    };
    if hexadecimal_letter(*first) {
        return match run(Class::Hexadecimal, rest) {
            Some(len) => (Form::Hexadecimal, len + 1),
            None => (Form::Decimal, 0),
        };
    }
    if octal_letter(*first) {
        return match run(Class::Octal, rest) {
            Some(len) => (Form::Octal, len + 1),
            None => (Form::Decimal, 0),
        };
    }
    decimal_len(bytes)
}

/// What stands behind a first digit.
pub fn number_len(first: u8, rest: &[u8]) -> (Form, usize)
    ensures { Longest (alone (numeral first)) rest.now result.0 result.1 }
{
    if first == b'0' {
        zero_len(rest)
    } else {
        decimal_len(rest)
    }
}

/// The text without its first two bytes.
fn behind_two(text: &[u8]) -> &[u8]
    ensures { result.now ≡ drop 2 text.now }
{
    let start = text.len().min(2);
    &text[start..]
}

/// What an integer of these digits is.
fn kind_of_integer(base: u64, digits: &[u8]) -> Kind
    requires { 0 < base }
    ensures { result ≡ integer base digits.now }
{
    if is_within(base, digits, GREATEST) {
        Kind::Token(TokenKind::Integer)
    } else {
        Kind::Broken
    }
}

/// What a number of this form is.
pub fn kind_of_number(text: &[u8], form: Form) -> Kind
    ensures { result ≡ number_kind text.now form }
{
    match form {
        Form::Decimal => kind_of_integer(10, text),
        Form::Octal => kind_of_integer(8, behind_two(text)),
        Form::Hexadecimal => kind_of_integer(16, behind_two(text)),
        Form::Floating => Kind::LeftOut,
    }
}
