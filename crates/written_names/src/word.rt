//! Written names: the qualifier and what stands behind it.
ghost use Rattle.std.specs.Prelude.{◌≡◌, ◌∷◌, [], ℕ, List, IfOk, OnOk};
ghost use Rattle.hs_scopes.specs.Words.{is_capital, is_empty, dotted, word_from, word_of};
ghost use Rattle.written_names.specs.Written.{word_at};

use bp_base::Name;
use std::alloc::{AllocError, Global};

/// A written name: the qualifier, which is empty where there is none, and what stands behind it.
#[derive(Debug, Drop)]
pub struct WrittenName {
    pub qualifier: Name,
    pub occ: Name,
}

fn is_capital(part: &[u8]) -> bool
    ensures { result ≡ is_capital part.now }
{
    match part {
        [] => false,
        [first, ..] => first.is_ascii_uppercase(),
    }
}

/// Ends the part, with the dot behind it.
fn end_part(qualifier: &mut Vec<u8>, part: &mut Vec<u8>) -> Result<(), AllocError>
    ensures { OnOk result ((bs : List ℕ) → word_from qualifier.new.items part.new.items bs ≡ word_from (dotted qualifier.old.items part.old.items) [] bs) }
{
    if !qualifier.is_empty() {
        qualifier.push(b'.')?;
    }
    qualifier.append(part)
}

/// Goes on behind one more byte.
fn add_byte(
    qualifier: &mut Vec<u8>,
    part: &mut Vec<u8>,
    byte: u8,
    is_last: bool,
) -> Result<(), AllocError>
    ensures { OnOk result ((bs : List ℕ) → is_empty bs ≡ is_last → word_from qualifier.new.items part.new.items bs ≡ word_from qualifier.old.items part.old.items (byte ∷ bs)) }
{
    if byte == b'.' && is_capital(part.as_slice()) && !is_last {
        end_part(qualifier, part)
    } else {
        part.push(byte)?;
        Ok(())
    }
}

/// A written name taken apart: a dot behind a part that begins with a capital ends that part, as long as something stands
/// behind the dot (Haskell 2010 Report, section 2.4).
pub fn written_name(alloc: Global, name: &Name) -> Result<WrittenName, AllocError>
    ensures { IfOk result (λ word. word_at word ≡ word_of name.now) }
{
    let text = name.as_bytes();
    let mut qualifier = Vec::new(alloc);
    let mut part = Vec::new(alloc);
    for (i, byte) in text.iter().enumerate() {
        add_byte(&mut qualifier, &mut part, *byte, i + 1 == text.len())?;
    }
    Ok(WrittenName {
        qualifier: Name::from_vec(qualifier),
        occ: Name::from_vec(part),
    })
}
