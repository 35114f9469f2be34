//! Which names are lawful synonyms.
ghost use Rattle.std.specs.Prelude.{◌≡◌, ◌↔◌, IsTrue, IfOk, MatchOption};
ghost use Rattle.bp_base.specs.declared.ty.OrigName.{OrigName};
ghost use Rattle.hs_core.specs.Types.{type_term};
ghost use Rattle.hs_core.specs.Expansion.{IsExpandable};
ghost use Rattle.kind_check.specs.Answers.{known_synonyms};
ghost use Rattle.type_expand.specs.Lawful.{IsLawfulName, IsUnlawfulAt};

use crate::replace::{Stuck, expanded, sense_of};
use bp_base::{OrigName, Ty};
use kind_check::{KindEnv, Known, Sense};
use sqlite_items::Items;
use std::alloc::{AllocError, Global};

// Whether a type has an expansion.
fn is_expandable(alloc: Global, ty: &Ty, known: &[Known]) -> Result<bool, AllocError>
    ensures { IfOk result (λ b. IsTrue b ↔ IsExpandable (known_synonyms known.now) (type_term ty.now)) }
{
    match expanded(alloc, ty, Items::new(alloc), known, known.len() as u64) {
        Ok(_whole) => Ok(true),
        Err(Stuck::Synonym) => Ok(false),
        Err(Stuck::NoMemory) => Err(AllocError),
    }
}

// Whether the name, if it is a synonym, has a body that expands.
fn is_lawful_name(alloc: Global, known: &[Known], name: &OrigName) -> Result<bool, AllocError>
    ensures { IfOk result (λ b. IsTrue b ↔ IsLawfulName (known_synonyms known.now) name.now) }
{
    match sense_of(known, name) {
        Some(Sense::SynonymOf { body, .. }) => is_expandable(alloc, body, known),
        Some(Sense::TypeOf { .. }) => Ok(true),
        Some(Sense::Other) => Ok(true),
        None => Ok(true),
    }
}

/// The index of the first name that is no lawful synonym: its body leads to a synonym that leads to itself, or that isn't fully
/// applied. There is none exactly where the synonyms of the names are lawful (Haskell 2010 Report, section 4.2.2).
pub fn first_unlawful(alloc: Global, env: &KindEnv) -> Result<Option<usize>, AllocError>
    ensures { IfOk result (λ o. IsUnlawfulAt (known_synonyms env.now.names) env.now.names o) }
{
    let known = env.names.as_slice();
    for index in 0..known.len() {
        if !is_lawful_name(alloc, known, &known[index].name)? {
            return Ok(Some(index));
        }
    }
    Ok(None)
}
