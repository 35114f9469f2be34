//! The fields and stanzas of a package file.
ghost use Rattle.std.specs.Prelude.{◌≡◌, List, ℕ, IfOk};
ghost use Rattle.cabal_text.specs.Least.{least_of};
ghost use Rattle.cabal_stanzas.specs.Stanzas.{in_small, joined, is_named, fields_at, is_odd, odd_lines, indent_in, lines_named, value_named};

use bp_base::Bytes;
use cabal_text::fields::field_of;
use cabal_text::least::sooner;
use cabal_text::lines::{Line, deeper_len};
use std::alloc::{AllocError, Global};

/// A field with its name in small letters and its value over all its lines.
#[derive(Debug, Drop)]
pub struct Field {
    pub line: u64,
    pub name: Bytes,
    pub value: Bytes,
}

/// A name in small letters.
#[tactic(auto, unfolding(crate::specs::Stanzas::in_small))]
fn in_small(alloc: Global, name: &[u8]) -> Result<Bytes, AllocError>
    ensures { IfOk result (λ small. small ≡ in_small name.now) }
{
    Ok(Bytes::from_vec(name.to_ascii_lowercase(alloc)?))
}

/// A value over several lines.
fn joined(alloc: Global, value: &[u8], deeper: &[Line]) -> Result<Bytes, AllocError>
    ensures { IfOk result (λ text. text ≡ joined value.now deeper.now) }
{
    let mut text = value.to_vec(alloc)?;
    for line in deeper {
        text.push(b'\n')?;
        text.extend_from_slice(line.text.as_bytes())?;
    }
    Ok(Bytes::from_vec(text))
}

/// The fields at an indent.
pub fn fields_at(alloc: Global, indent: usize, lines: &[Line]) -> Result<Vec<Field>, AllocError>
    ensures { IfOk result (λ fields. fields.items ≡ fields_at indent lines.now) }
{
    let mut fields = Vec::new(alloc);
    let mut rest = lines;
    while let [line, after @ ..] = rest {
        if line.indent == indent
            && let Some((name, value)) = field_of(line.text.as_bytes())
        {
            let deeper = &after[..deeper_len(indent, after)];
            fields.push(Field {
                line: line.number,
                name: in_small(alloc, name)?,
                value: joined(alloc, value, deeper)?,
            })?;
        }
        rest = after;
    }
    Ok(fields)
}

/// Whether the line stands before the indent, or at it and is no field.
fn is_odd(indent: usize, line: &Line) -> bool
    ensures { result ≡ is_odd indent line.now }
{
    line.indent < indent || line.indent == indent && field_of(line.text.as_bytes()).is_none()
}

/// The first line of a stanza that its indent refuses.
pub fn odd_line(indent: usize, lines: &[Line]) -> Option<u64>
    ensures { result ≡ least_of (odd_lines indent lines.now) }
{
    let mut least = None;
    for line in lines {
        if is_odd(indent, line) {
            least = sooner(least, Some(line.number));
        }
    }
    least
}

/// The indent of a stanza.
pub fn indent_in(lines: &[Line]) -> usize
    ensures { result ≡ indent_in lines.now }
{
    match lines {
        [first, ..] => first.indent,
        [] => 0,
    }
}

/// Whether a field has this name.
pub fn is_named(name: &[u8], field: &Field) -> bool
    ensures { result ≡ is_named name.now field.now }
{
    field.name.as_bytes() == name
}

/// The first field of this name.
pub fn line_named(name: &[u8], fields: &[Field]) -> Option<u64>
    ensures { result ≡ least_of (lines_named name.now fields.now) }
{
    let mut least = None;
    for field in fields {
        if is_named(name, field) {
            least = sooner(least, Some(field.line));
        }
    }
    least
}

/// The value of the first field of a name; nothing where there is none.
pub fn value_named<'a>(name: &[u8], fields: &'a [Field]) -> &'a [u8]
    ensures { result.now ≡ value_named name.now fields.now }
{
    let mut rest = fields;
    while let [field, after @ ..] = rest {
        if is_named(name, field) {
            return field.value.as_bytes();
        }
        rest = after;
    }
    b""
}
