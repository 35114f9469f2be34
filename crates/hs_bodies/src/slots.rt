//! The places of a block, of its parts.
ghost use Rattle.std.specs.Prelude.{◌≡◌, ◌++◌, IfOk, OnOk, flat_map, reverse};
ghost use Rattle.hs_body_forms.specs.Bodies.{block_of, first_slot, more_slots, slots_of};

use hs_body_forms::TopPart;
use hs_modules::{TopBlock, TopSlot};
use sqlite_items::Items;
use std::alloc::{AllocError, Global};

/// Puts the places of a part behind others.
fn add_part(slots: &mut Items<TopSlot>, part: TopPart) -> Result<(), AllocError>
    ensures { OnOk result (slots.new ≡ slots.old ++ slots_of part) }
{
    match part {
        TopPart::Empty => slots.push(TopSlot::Empty),
        TopPart::Import(decl) => slots.push(TopSlot::Import(decl)),
        TopPart::Decls(decl, more) => {
            slots.push(TopSlot::Decl(decl))?;
            slots.append(more)
        }
    }
}

/// Parts in the opposite order.
fn reversed(alloc: Global, parts: Items<TopPart>) -> Result<Items<TopPart>, AllocError>
    ensures { IfOk result (λ r. reverse r ≡ parts) }
{
    let mut left = parts;
    let mut back = Items::new(alloc);
    'parts: while let Some(part) = left.pop() {
        back.push(part)?;
    }
    Ok(back)
}

/// The places of parts behind others.
fn add_parts(
    alloc: Global,
    before: Items<TopSlot>,
    parts: Items<TopPart>,
) -> Result<Items<TopSlot>, AllocError>
    ensures { IfOk result (λ r. r ≡ before ++ flat_map slots_of parts) }
{
    let mut slots = before;
    let mut back = reversed(alloc, parts)?;
    'parts: while let Some(part) = back.pop() {
        add_part(&mut slots, part)?;
    }
    Ok(slots)
}

/// The first place of a part, and the others.
fn split_part(alloc: Global, part: TopPart) -> (TopSlot, Items<TopSlot>)
    ensures first { result.0 ≡ first_slot part }
    ensures more { result.1 ≡ more_slots part }
{
    match part {
        TopPart::Empty => (TopSlot::Empty, Items::new(alloc)),
        TopPart::Import(decl) => (TopSlot::Import(decl), Items::new(alloc)),
        TopPart::Decls(decl, slots) => (TopSlot::Decl(decl), slots),
    }
}

/// A block of the places of its parts.
pub fn flatten(alloc: Global, first: TopPart, more: Items<TopPart>) -> Result<TopBlock, AllocError>
    ensures { IfOk result (λ b. b ≡ block_of (first, more)) }
{
    let (slot, slots) = split_part(alloc, first);
    let rest = add_parts(alloc, slots, more)?;
    Ok(TopBlock { first: slot, rest })
}
