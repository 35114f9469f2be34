//! Linking a component.
ghost use Rattle.std.specs.Prelude.{◌≡◌, MatchResult};
ghost use Rattle.hole_unify.specs.Causes.{IsLawful};
ghost use Rattle.mixin_link.specs.Equations.{equations_of, AreOpen};
ghost use Rattle.mixin_link.specs.Summaries.{AreLawful};
ghost use Rattle.mixin_link.specs.Answers.{IsLinked, IsUnlinked, IsLinkingOf, IsRefusal, refusal_for};

use crate::entry::open_all;
use crate::equations::equations_of;
use crate::error::LinkError;
use crate::open::OpenIncludes;
use crate::required::{required_names, taken_name};
use crate::summary::Summaries;
use crate::written::linking_under;
use bp_base::{Linking, Names};
use cabal_component::{Component, includes};
use hole_unify::{IdentUnifyError, unify_idents};
use std::alloc::Global;

/// The refusal for a cause.
fn refusal_for(error: IdentUnifyError) -> LinkError
    ensures { result ≡ refusal_for error }
{
    match error {
        IdentUnifyError::Clash { label, .. } => LinkError::LinkClash { name: label },
        IdentUnifyError::Cycle { label, .. } => LinkError::LinkCycle { name: label },
        IdentUnifyError::NoMemory => LinkError::NoMemory,
    }
}

/// The principal linking of includes, or the first equation that fails.
fn linked(alloc: Global, required: &Names, includes: &OpenIncludes) -> Result<Linking, LinkError>
    requires open { AreOpen required.now includes.now }
    requires lawful { IsLawful (equations_of required.now includes.now) }
    ensures { MatchResult result (λ l. IsLinked required.now includes.now l) (λ e. IsUnlinked (equations_of required.now includes.now) e) }
{
    let equations = equations_of(alloc, required, includes)?;
    match unify_idents(alloc, &equations) {
        Ok(fills) => {
            let linking = linking_under(alloc, &fills, required, includes)?;
            Ok(linking)
        }
        Err(error) => Err(refusal_for(error)),
    }
}

/// The principal linking of a component over the summaries of its dependencies: the identity of each required name, the holes that are
/// left, and the includes with their units. A dependency without a summary has neither holes nor provisions. The refusals, in this
/// order: an entry's missing provision and then its missing requirement, include by include; NameTaken with the least required name
/// that an own module has; LinkClash or LinkCycle with the name of the first equation such that those up to it and with it have no
/// linking.
pub fn link_names(
    alloc: Global,
    component: &Component,
    summaries: &Summaries,
) -> Result<Linking, LinkError>
    requires { AreLawful summaries.now }
    ensures { MatchResult result (IsLinkingOf component.now summaries.now) (IsRefusal component.now summaries.now) }
{
    let entries = includes(alloc, component)?;
    let opened = open_all(alloc, summaries.as_slice(), entries.as_slice())?;
    let required = required_names(alloc, &component.signatures, &opened)?;
    if let Some(name) = taken_name(alloc, component, &required)? {
        return Err(LinkError::NameTaken { name });
    }
    linked(alloc, &required, &opened)
}
