//! From the text of an identity to the identity.
ghost use Rattle.std.specs.Prelude.{◌≡◌, ◌++◌, ◌+◌, ◌==◌, ℕ, ◌<◌, ◌≤◌, length, take, drop, IfOk, IsTrue, MatchOption, Err, ◌↔◌, if◌then◌else◌};
ghost use Rattle.bp_base.specs.declared.ident.Ident.{Ident as AnIdent};
ghost use Rattle.unit_identity.specs.Text.{IsTextOf};
ghost use Rattle.unit_identity.specs.declared.reader.IdentError.{IdentError};
ghost use Rattle.unit_identity.specs.Reading.{read, read_fills, name_of, rest_of, front, back, is_mark, with_rest, appended, whole};

use crate::text::ident_text;
use crate::well_formed::is_well_formed;
use bp_base::{Fill, Ident, Name, Unit};
use sqlite_items::{Boxed, Items};
use std::alloc::{AllocError, Global};

/// Bytes that are still to be read.
#[derive(Drop)]
struct Reader<'a> {
    rest: &'a [u8],
}

fn is_mark_byte(b: u8) -> bool
    ensures { result ≡ is_mark b }
{
    b == b',' || b == b'/' || b == b'<' || b == b'=' || b == b'>' || b == b'[' || b == b']'
}

/// How many bytes stand before the next mark.
fn name_len(bytes: &[u8]) -> usize
    ensures within { result ≤ length bytes.now }
    ensures name { take result bytes.now ≡ name_of bytes.now }
    ensures rest { drop result bytes.now ≡ rest_of bytes.now }
{
    for (i, b) in bytes.iter().enumerate() {
        if is_mark_byte(*b) {
            return i;
        }
    }
    bytes.len()
}

impl<'a> Reader<'a> {
    fn take_name(&mut self) -> &'a [u8]
        ensures name { result.now ≡ name_of self.old.rest.now }
        ensures rest { self.new.rest.now ≡ rest_of self.old.rest.now }
    {
        let (name, rest) = self.rest.split_at(name_len(self.rest));
        self.rest = rest;
        name
    }

    /// Goes on behind the mark, if it is next. The mark is not 0.
    fn skip(&mut self, mark: u8) -> bool
        requires { 0 < mark }
        ensures next { result ≡ (front self.old.rest.now == mark) }
        ensures rest { self.new.rest.now ≡ (if result then back self.old.rest.now else self.old.rest.now) }
    {
        match self.rest {
            [b, rest @ ..] if *b == mark => {
                self.rest = rest;
                true
            }
            _ => false,
        }
    }

    #[cycle(read)]
    fn read_ident(&mut self, alloc: Global, fuel: usize) -> Result<Option<Ident>, AllocError>
        ensures { IfOk result (λ r. with_rest r self.new.rest.now ≡ read fuel self.old.rest.now) }
    {
        if fuel == 0 {
            return Ok(None);
        }
        if self.skip(b'<') {
            let name = self.take_name();
            if !self.skip(b'>') {
                return Ok(None);
            }
            let name = Name::from_bytes(alloc, name)?;
            return Ok(Some(Ident::Hole { name }));
        }
        let component = self.take_name();
        let mut fills = Vec::new(alloc);
        if self.skip(b'[') && !self.read_fills(alloc, fuel - 1, &mut fills)? {
            return Ok(None);
        }
        if !self.skip(b'/') {
            return Ok(None);
        }
        let module = self.take_name();
        let unit = Unit {
            component: Name::from_bytes(alloc, component)?,
            fills: Items::from_vec(fills),
        };
        Ok(Some(Ident::Module {
            unit: Boxed::new(alloc, unit)?,
            module: Name::from_bytes(alloc, module)?,
        }))
    }

    /// Puts the fills at the end of `fills`, and says whether they could be read.
    #[cycle(read)]
    fn read_fills(
        &mut self,
        alloc: Global,
        fuel: usize,
        fills: &mut Vec<Fill>,
    ) -> Result<bool, AllocError>
        ensures { IfOk result (λ r. appended r fills.old.items fills.new.items self.new.rest.now (read_fills fuel self.old.rest.now)) }
    {
        if fuel == 0 {
            return Ok(false);
        }
        let hole = self.take_name();
        if !self.skip(b'=') {
            return Ok(false);
        }
        let Some(ident) = self.read_ident(alloc, fuel - 1)? else {
            return Ok(false);
        };
        let hole = Name::from_bytes(alloc, hole)?;
        fills.push(Fill { hole, ident })?;
        if self.skip(b',') {
            let more = self.read_fills(alloc, fuel - 1, fills)?;
            return Ok(more);
        }
        let closed = self.skip(b']');
        Ok(closed)
    }
}

/// The identity that the reader finds, where it spans all the bytes.
fn read_whole(alloc: Global, bytes: &[u8]) -> Result<Option<Ident>, AllocError>
    ensures { IfOk result (λ r. r ≡ whole (read (length bytes.now + 1) bytes.now)) }
{
    let mut reader = Reader { rest: bytes };
    let found = reader.read_ident(alloc, bytes.len() + 1)?;
    match found {
        Some(ident) if reader.rest.is_empty() => Ok(Some(ident)),
        _ => Ok(None),
    }
}

/// Whether the bytes are the text of this identity, and it is well formed.
fn is_text_of(alloc: Global, ident: &Ident, bytes: &[u8]) -> Result<bool, AllocError>
    ensures { IfOk result (λ r. IsTrue r ↔ IsTextOf bytes.now ident.now) }
{
    let again = ident_text(alloc, ident)?;
    let same = again.as_bytes() == bytes;
    Ok(same && is_well_formed(ident))
}

fn read_checked(alloc: Global, bytes: &[u8]) -> Result<Option<Ident>, AllocError>
    ensures { IfOk result (λ r. MatchOption r ((i : AnIdent) → IsTextOf bytes.now i → ⊥) (λ i. IsTextOf bytes.now i)) }
{
    let found = read_whole(alloc, bytes)?;
    match found {
        None => Ok(None),
        Some(ident) => {
            if is_text_of(alloc, &ident, bytes)? {
                Ok(Some(ident))
            } else {
                Ok(None)
            }
        }
    }
}

/// Why bytes are not read as an identity.
#[derive(Clone, Copy, Debug, PartialEq, Eq)]
pub enum IdentError {
    NotIdent,
    NoMemory,
}

impl From<AllocError> for IdentError {
    ghost use Rattle.unit_identity.specs.declared.reader.IdentError.{IdentError};

    ghost from_gives = { λ _ e. e ≡ IdentError.NoMemory };

    fn from(_error: AllocError) -> IdentError {
        IdentError::NoMemory
    }
}

/// The identity with this text. NotIdent comes exactly where the bytes are the text of no well formed identity.
pub fn read_ident(alloc: Global, bytes: &[u8]) -> Result<Ident, IdentError>
    ensures ok { IfOk result (λ i. IsTextOf bytes.now i) }
    ensures not_ident { result ≡ Err IdentError.NotIdent → (i : AnIdent) → IsTextOf bytes.now i → ⊥ }
{
    match read_checked(alloc, bytes)? {
        Some(ident) => Ok(ident),
        None => Err(IdentError::NotIdent),
    }
}
