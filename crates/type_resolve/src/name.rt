//! What written names mean.
ghost use Rattle.std.specs.Prelude.{◌≡◌, List};
ghost use Rattle.std.specs.Option.{option_copied};
ghost use Rattle.bp_base.specs.Lists.{is_among};
ghost use Rattle.hs_scopes.specs.declared.scope.ScopeItem.{ScopeItem};
ghost use Rattle.scope_table.specs.Candidates.{Chooses};
ghost use Rattle.written_names.specs.Written.{word_at};
ghost use Rattle.type_resolve.specs.Given.{Judges, name_gives};
ghost use Rattle.type_resolve.specs.Names.{Answers, IsTableOf, Lends, candidate_found, meaning_found, table_says, variable_found};

use crate::error::NameError;
use bp_base::{Name, OrigName, Space};
use hs_scopes::MeaningFault;
use scope_table::{Candidate, ScopeTable, meant};
use std::alloc::Global;
use written_names::{WrittenName, written_name};

fn said_of<'a>(
    table: &'a ScopeTable,
    space: Space,
    word: &WrittenName,
) -> Result<&'a Candidate, MeaningFault>
    ensures { Chooses (λ c. c.now) (table_says table.now space (word_at word.now)) result }
{
    meant(table, space, &word.qualifier, &word.occ)
}

fn candidate_found<'a>(
    alloc: Global,
    table: &'a ScopeTable,
    space: Space,
    name: &Name,
) -> Result<&'a Candidate, NameError>
    ensures { Lends (λ c. c.now) (candidate_found table.now space name.now) result }
{
    let word = written_name(alloc, name)?;
    match said_of(table, space, &word) {
        Ok(candidate) => Ok(candidate),
        Err(MeaningFault::NotInScope) => Err(NameError::NotInScope {
            name: name.copied(alloc)?,
        }),
        Err(MeaningFault::AmbiguousName) => Err(NameError::AmbiguousName {
            name: name.copied(alloc)?,
        }),
    }
}

/// What a written name means by the table.
pub fn meaning_found(
    alloc: Global,
    table: &ScopeTable,
    space: Space,
    name: &Name,
) -> Result<OrigName, NameError>
    ensures { Answers (meaning_found table.now space name.now) result }
{
    let candidate = candidate_found(alloc, table, space, name)?;
    Ok(candidate.name.copied(alloc)?)
}

/// What a written name means in the scope that the table was made of: the original name of the one thing that it may
/// mean. NotInScope comes where it may mean nothing, and AmbiguousName where it may mean different things (Haskell 2010
/// Report, section 5.5.2).
pub fn meaning_of_name(
    alloc: Global,
    table: &ScopeTable,
    space: Space,
    name: &Name,
) -> Result<OrigName, NameError>
    ensures { (items : List ScopeItem) → IsTableOf table.now items → Judges (name_gives items space name.now) result }
{
    meaning_found(alloc, table, space, name)
}

fn is_among(name: &Name, names: &[Name]) -> bool
    ensures { result ≡ is_among name.now names.now }
{
    names.iter().any(|each| *name == *each)
}

/// A type variable, which is one of the head's where there is a head.
pub fn variable_found(alloc: Global, head: Option<&[Name]>, name: &Name) -> Result<Name, NameError>
    ensures { Answers (variable_found (option_copied head.entry) name.now) result }
{
    if let Some(names) = head {
        if !is_among(name, names) {
            return Err(NameError::NotInScope {
                name: name.copied(alloc)?,
            });
        }
    }
    Ok(name.copied(alloc)?)
}
