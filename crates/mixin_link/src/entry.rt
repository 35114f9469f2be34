//! Entries of `mixins` over the summaries of their dependencies.
ghost use Rattle.std.specs.Prelude.{◌≡◌, None, List, MatchResult, map};
ghost use Rattle.mixin_names.specs.declared.error.NameError.{NameError};
ghost use Rattle.mixin_link.specs.Opening.{entry_refusal, entry_open, refusal_in, open_in, first_refusal};
ghost use Rattle.mixin_link.specs.Answers.{Tells};
ghost use Rattle.mixin_link.specs.Named.{Named};

use crate::error::LinkError;
use crate::open::{OpenInclude, OpenIncludes};
use crate::summary::{Summary, find_summary};
use bp_base::{Name, Names, Provisions};
use cabal_component::Mixin;
use mixin_names::{NameError, needs, provides};
use sqlite_items::Items;
use std::alloc::Global;

/// The refusal with the dependency.
fn refused(alloc: Global, dep: &Name, error: NameError) -> LinkError
    ensures { Named dep.now error result }
{
    let dep = match dep.copied(alloc) {
        Ok(dep) => dep,
        Err(_) => return LinkError::NoMemory,
    };
    match error {
        NameError::NoProvision { name } => LinkError::NoProvision { dep, name },
        NameError::NoRequirement { name } => LinkError::NoRequirement { dep, name },
        NameError::NoMemory => LinkError::NoMemory,
    }
}

/// An entry over what its dependency provides and what it needs.
fn open_entry(
    alloc: Global,
    entry: &Mixin,
    exposed: &Provisions,
    holes: &Names,
) -> Result<OpenInclude, LinkError>
    ensures { MatchResult result
        (λ i. (entry_refusal entry.now exposed.now holes.now ≡ None) × (i ≡ entry_open entry.now exposed.now holes.now))
        (λ e. Tells e (entry_refusal entry.now exposed.now holes.now)) }
{
    let provides = match provides(alloc, entry, exposed) {
        Ok(provides) => provides,
        Err(error) => return Err(refused(alloc, &entry.dep, error)),
    };
    let needs = match needs(alloc, entry, holes) {
        Ok(needs) => needs,
        Err(error) => return Err(refused(alloc, &entry.dep, error)),
    };
    let component = entry.dep.copied(alloc)?;
    Ok(OpenInclude {
        component,
        provides,
        needs,
    })
}

/// An entry over the summary of its dependency. A dependency without one has nothing.
fn open_one(alloc: Global, summaries: &[Summary], entry: &Mixin) -> Result<OpenInclude, LinkError>
    ensures { MatchResult result
        (λ i. (refusal_in summaries.now entry.now ≡ None) × (i ≡ open_in summaries.now entry.now))
        (λ e. Tells e (refusal_in summaries.now entry.now)) }
{
    match find_summary(summaries, &entry.dep) {
        Some(summary) => open_entry(alloc, entry, &summary.provisions, &summary.holes),
        None => {
            let exposed = Items::new(alloc);
            let holes = Items::new(alloc);
            open_entry(alloc, entry, &exposed, &holes)
        }
    }
}

/// The entries over the summaries of their dependencies, or the first refusal.
pub fn open_all(
    alloc: Global,
    summaries: &[Summary],
    entries: &[Mixin],
) -> Result<OpenIncludes, LinkError>
    ensures { MatchResult result
        (λ is. (first_refusal summaries.now entries.now ≡ None) × (is ≡ map (open_in summaries.now) entries.now))
        (λ e. Tells e (first_refusal summaries.now entries.now)) }
{
    let mut all = Items::new(alloc);
    for entry in entries {
        all.push(open_one(alloc, summaries, entry)?)?;
    }
    Ok(all)
}
