//! Literals in the flat text: in ASCII, each in one way (Haskell 2010 Report, sections 2.5 and 2.6).
ghost use Rattle.std.specs.Prelude.{◌≡◌, ◌++◌, OnOk, false};
ghost use Rattle.std.specs.Fmt.{decimal};
ghost use Rattle.flat_lex.specs.Literals.{char_bytes};
ghost use Rattle.flat_text.specs.Texts.{char_text, is_shown, digit_gap, string_text, number_text};

use std::alloc::{AllocError, Global};

/// A number in decimal.
pub fn push_decimal(alloc: Global, out: &mut Vec<u8>, value: u64) -> Result<(), AllocError>
    ensures { OnOk result (out.new.items ≡ out.old.items ++ decimal value) }
{
    let number = value.to_string(alloc)?;
    out.extend_from_slice(number.as_bytes())?;
    Ok(())
}

/// A number in decimal, in brackets and with its sign where it is negative.
pub fn push_signed(
    alloc: Global,
    out: &mut Vec<u8>,
    negative: bool,
    value: u64,
) -> Result<(), AllocError>
    ensures { OnOk result (out.new.items ≡ out.old.items ++ number_text negative value) }
{
    if negative {
        out.extend_from_slice(b"(-")?;
        push_decimal(alloc, out, value)?;
        return out.extend_from_slice(b")");
    }
    push_decimal(alloc, out, value)
}

/// Whether a character stands for itself or behind a backslash alone.
fn is_shown(code: u32) -> bool
    ensures { result ≡ is_shown code }
{
    matches!(code, 32..=126)
}

/// A character between such quotes.
fn push_code(alloc: Global, out: &mut Vec<u8>, quote: u8, code: u32) -> Result<(), AllocError>
    ensures { OnOk result (out.new.items ≡ out.old.items ++ char_bytes quote code) }
{
    if !is_shown(code) {
        out.extend_from_slice(b"\\")?;
        return push_decimal(alloc, out, u64::from(code));
    }
    if code == u32::from(quote) || code == 92 {
        out.extend_from_slice(b"\\")?;
    }
    out.push(code as u8)?;
    Ok(())
}

/// A character.
pub fn push_char(alloc: Global, out: &mut Vec<u8>, code: u32) -> Result<(), AllocError>
    ensures { OnOk result (out.new.items ≡ out.old.items ++ char_text code) }
{
    out.extend_from_slice(b"'")?;
    push_code(alloc, out, b'\'', code)?;
    out.extend_from_slice(b"'")?;
    Ok(())
}

/// What keeps the digit that follows apart from a number.
fn push_gap(out: &mut Vec<u8>, behind_number: bool, code: u32) -> Result<(), AllocError>
    ensures { OnOk result (out.new.items ≡ out.old.items ++ digit_gap behind_number code) }
{
    if behind_number && matches!(code, 48..=57) {
        out.extend_from_slice(b"\\&")?;
    }
    Ok(())
}

/// A string.
#[tactic(auto, using(crate::proofs::LiteralLemmas::codes_first, std::proofs::lemmas::Grind::common_steps))]
pub fn push_string(alloc: Global, out: &mut Vec<u8>, codes: &[u32]) -> Result<(), AllocError>
    ensures { OnOk result (out.new.items ≡ out.old.items ++ string_text codes.now) }
{
    out.extend_from_slice(b"\"")?;
    let mut behind_number = false;
    for code in codes {
        push_gap(out, behind_number, *code)?;
        push_code(alloc, out, b'"', *code)?;
        behind_number = !is_shown(*code);
    }
    out.extend_from_slice(b"\"")?;
    Ok(())
}
