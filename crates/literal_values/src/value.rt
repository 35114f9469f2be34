//! What literals stand for.
ghost use Rattle.std.specs.Prelude.{◌≡◌, ◌++◌, List, ℕ, IfOk, Option, OnOk};
ghost use Rattle.literal_values.specs.Values.{character_value, code_or_none, integer_value, string_value};

use crate::character::behind;
use crate::escape::{character_item, string_item};
use crate::number::number;
use sqlite_items::Items;
use std::alloc::{AllocError, Global};

/// The greatest number of 64 bits.
const GREATEST: u64 = 18446744073709551615;

/// The value of an integer as it is written: decimal, octal behind `0o` or `0O`, hexadecimal behind `0x` or `0X`. The
/// lexer lets no integer through that does not fit; the value of a greater one is the greatest number of 64 bits.
pub fn integer_value(text: &[u8]) -> u64
    ensures { result ≡ integer_value text.now }
{
    match text {
        [b'0', b'o' | b'O', digits @ ..] => number(8, digits, GREATEST),
        [b'0', b'x' | b'X', digits @ ..] => number(16, digits, GREATEST),
        _ => number(10, text, GREATEST),
    }
}

/// The number of a character as it is written, between its quotes.
pub fn character_value(text: &[u8]) -> u32
    ensures { result ≡ character_value text.now }
{
    match behind(1, text).split_first() {
        Some((first, rest)) => character_item(*first, rest).code.unwrap_or(0),
        None => 0,
    }
}

fn add_code(codes: &mut Items<u32>, code: Option<u32>) -> Result<(), AllocError>
    ensures { OnOk result (codes.new ≡ codes.old ++ code_or_none code) }
{
    if let Some(code) = code {
        codes.push(code)?;
    }
    Ok(())
}

/// The numbers of the characters of a string as it is written, between its quotes.
pub fn string_value(alloc: Global, text: &[u8]) -> Result<Items<u32>, AllocError>
    ensures { IfOk result (λ codes. codes ≡ string_value text.now) }
{
    let mut codes = Items::new(alloc);
    let mut left = behind(1, text);
    'items: while let Some((first, rest)) = left.split_first() {
        if *first == b'"' {
            return Ok(codes);
        }
        let item = string_item(*first, rest);
        add_code(&mut codes, item.code)?;
        left = behind(item.len, rest);
    }
    Ok(codes)
}
