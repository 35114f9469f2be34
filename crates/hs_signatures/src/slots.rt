//! The places of a block, of its parts.
ghost use Rattle.std.specs.Prelude.{◌≡◌, ◌++◌, IfOk, OnOk, flat_map, reverse};
ghost use Rattle.hs_signature_forms.specs.Signatures.{block_of, first_slot, more_slots, slots_of};

use hs_modules::{SigBlock, SigSlot};
use hs_signature_forms::SigPart;
use sqlite_items::Items;
use std::alloc::{AllocError, Global};

/// Puts the places of a part behind others.
fn add_part(slots: &mut Items<SigSlot>, part: SigPart) -> Result<(), AllocError>
    ensures { OnOk result (slots.new ≡ slots.old ++ slots_of part) }
{
    match part {
        SigPart::Empty => slots.push(SigSlot::Empty),
        SigPart::Import(decl) => slots.push(SigSlot::Import(decl)),
        SigPart::Decls(decl, more) => {
            slots.push(SigSlot::Decl(decl))?;
            slots.append(more)
        }
    }
}

/// Parts in the opposite order.
fn reversed(alloc: Global, parts: Items<SigPart>) -> Result<Items<SigPart>, AllocError>
    ensures { IfOk result (λ r. reverse r ≡ parts) }
{
    let mut left = parts;
    let mut back = Items::new(alloc);
    'parts: while let Some(part) = left.pop() {
        back.push(part)?;
    }
    Ok(back)
}

/// The places of parts behind others.
fn add_parts(
    alloc: Global,
    before: Items<SigSlot>,
    parts: Items<SigPart>,
) -> Result<Items<SigSlot>, AllocError>
    ensures { IfOk result (λ r. r ≡ before ++ flat_map slots_of parts) }
{
    let mut slots = before;
    let mut back = reversed(alloc, parts)?;
    'parts: while let Some(part) = back.pop() {
        add_part(&mut slots, part)?;
    }
    Ok(slots)
}

/// The first place of a part, and the others.
fn split_part(alloc: Global, part: SigPart) -> (SigSlot, Items<SigSlot>)
    ensures first { result.0 ≡ first_slot part }
    ensures more { result.1 ≡ more_slots part }
{
    match part {
        SigPart::Empty => (SigSlot::Empty, Items::new(alloc)),
        SigPart::Import(decl) => (SigSlot::Import(decl), Items::new(alloc)),
        SigPart::Decls(decl, slots) => (SigSlot::Decl(decl), slots),
    }
}

/// A block of the places of its parts.
pub fn flatten(alloc: Global, first: SigPart, more: Items<SigPart>) -> Result<SigBlock, AllocError>
    ensures { IfOk result (λ b. b ≡ block_of (first, more)) }
{
    let (slot, slots) = split_part(alloc, first);
    let rest = add_parts(alloc, slots, more)?;
    Ok(SigBlock { first: slot, rest })
}
