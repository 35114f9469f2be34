//! Expansion, and its limit of depth.
ghost use Rattle.std.specs.Prelude.{◌≡◌, ◌≤◌, ◌<◌, None, IfOk, IfErr, IfSome, IfNone};
ghost use Rattle.hs_core.specs.Types.{type_term, count};
ghost use Rattle.kind_check.specs.Answers.{known_synonyms, sense_synonym};
ghost use Rattle.type_expand.specs.Expanding.{stacked_types, CanNotExpand, ExpandsFor, ExpandsWithin, IsExpandError};

use crate::apply::{apply_all, instance, is_within};
use bp_base::{OrigName, Ty, Tys, same_orig_name};
use kind_check::{KindEnv, Known, Sense};
use sqlite_items::Items;
use std::alloc::{AllocError, Global};

/// Why a type is not expanded: a synonym that is met is cyclic or isn't fully applied, the expansion is deeper than 1,000, or no
/// memory.
#[derive(Clone, Copy, Debug, PartialEq, Eq)]
pub enum ExpandError {
    SynonymUse,
    TypeDepth,
    NoMemory,
}

/// Why a walk stops.
#[derive(Clone, Copy, Debug, PartialEq, Eq)]
pub enum Stuck {
    Synonym,
    NoMemory,
}

impl From<AllocError> for Stuck {
    ghost use Rattle.type_expand.specs.declared.replace.Stuck.{Stuck};

    ghost from_gives = { λ _ r. r ≡ Stuck.NoMemory };

    fn from(_error: AllocError) -> Self {
        Stuck::NoMemory
    }
}

/// The first meaning of a name.
pub fn sense_of<'a>(known: &'a [Known], name: &OrigName) -> Option<&'a Sense>
    ensures some { IfSome result (λ s. known_synonyms known.now name.now ≡ sense_synonym s.now) }
    ensures none { IfNone result (known_synonyms known.now name.now ≡ None) }
{
    for index in 0..known.len() {
        let entry = &known[index];
        if same_orig_name(&entry.name, name) {
            return Some(&entry.sense);
        }
    }
    None
}

/// The expansion of a type applied to arguments that are expanded, where no more than so many synonyms lead from one to
/// another.
pub fn expanded(alloc: Global, ty: &Ty, args: Tys, known: &[Known], fuel: u64) -> Result<Ty, Stuck>
    ensures ok { IfOk result (λ t. ExpandsFor (known_synonyms known.now) (type_term ty.now) (stacked_types args) (type_term t)) }
    ensures none { IfErr result (λ e. e ≡ Stuck.Synonym → CanNotExpand (known_synonyms known.now) (type_term ty.now) (count args) fuel) }
{
    match ty {
        Ty::Var { index } => Ok(apply_all(alloc, Ty::Var { index: *index }, args)?),
        Ty::Con { name, .. } => match sense_of(known, name) {
            Some(Sense::SynonymOf { params, body, .. }) => {
                if fuel == 0 {
                    return Err(Stuck::Synonym);
                }
                if (args.len() as u64) < *params {
                    return Err(Stuck::Synonym);
                }
                let whole = expanded(alloc, body, Items::new(alloc), known, fuel - 1)?;
                Ok(instance(alloc, &whole, *params, args)?)
            }
            Some(Sense::TypeOf { .. }) => Ok(apply_all(alloc, ty.copied(alloc)?, args)?),
            Some(Sense::Other) => Ok(apply_all(alloc, ty.copied(alloc)?, args)?),
            None => Ok(apply_all(alloc, ty.copied(alloc)?, args)?),
        },
        Ty::App { fun, arg } => {
            let own = expanded(alloc, arg.get(), Items::new(alloc), known, fuel)?;
            let mut more = args;
            more.push(own)?;
            expanded(alloc, fun.get(), more, known, fuel)
        }
    }
}

/// The type with each synonym replaced by its body. SynonymUse comes exactly where it has no expansion: a synonym that is met
/// is cyclic or isn't fully applied. TypeDepth comes exactly where the expansion is deeper than 1,000.
pub fn expand(alloc: Global, ty: &Ty, env: &KindEnv) -> Result<Ty, ExpandError>
    ensures ok { IfOk result (λ t. ExpandsWithin (known_synonyms env.now.names) (type_term ty.now) 1000 (type_term t)) }
    ensures err { IfErr result (λ e. IsExpandError (known_synonyms env.now.names) (type_term ty.now) 1000 e) }
{
    let known = env.names.as_slice();
    match expanded(alloc, ty, Items::new(alloc), known, known.len() as u64) {
        Ok(whole) => {
            if is_within(&whole, 1000) {
                Ok(whole)
            } else {
                Err(ExpandError::TypeDepth)
            }
        }
        Err(Stuck::Synonym) => Err(ExpandError::SynonymUse),
        Err(Stuck::NoMemory) => Err(ExpandError::NoMemory),
    }
}
