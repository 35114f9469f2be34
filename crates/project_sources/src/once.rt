//! Components are told apart by their names.
ghost use Rattle.std.specs.Prelude.{◌≡◌, ◌≤◌, [], IfOk, MatchOption, None, Some, length, not, ◌==◌};
ghost use Rattle.std.specs.List.{prefix_len};
ghost use Rattle.bp_base.specs.declared.code.Code.TheVariants.{TwiceComponent};
ghost use Rattle.bp_base.specs.declared.defect.Item.TheVariants.{Nothing};
ghost use Rattle.bp_checks.specs.Refused.{Checks, defect_at};
ghost use Rattle.project_sources.specs.Limits.{limited};
ghost use Rattle.project_sources.specs.Once.{is_of_base, twice_after, told_apart};

use bp_base::{Code, Defect, Item, LimitHit, Name, Refusal, Which};
use bp_checks::defect_at;
use cabal_component::Component;
use cabal_text::seen::add_name;
use std::alloc::{AllocError, Global};
use std::collections::HashSet;

/// The greatest number of components of a project.
const COMPONENTS: usize = 512;

/// How many bytes stand before the first colon.
fn colon_len(text: &[u8]) -> usize
    ensures value { result ≡ prefix_len (λ b. not (b == 58)) text.now }
    ensures within { result ≤ length text.now }
{
    for (i, b) in text.iter().enumerate() {
        if *b == b':' {
            return i;
        }
    }
    text.len()
}

/// Whether a component is one of the package `base`.
fn is_of_base(name: &[u8]) -> bool
    ensures { result ≡ is_of_base name.now }
{
    let len = colon_len(name);
    &name[..len] == b"base".as_slice()
}

/// The first component that is the second one of its name.
fn twice(alloc: Global, components: &[Component]) -> Result<Option<Name>, AllocError>
    ensures { IfOk result (λ found. found ≡ twice_after [] components.now) }
{
    let mut seen = HashSet::new(alloc);
    for component in components {
        let is_new = add_name(alloc, &mut seen, &component.name)?;
        if is_of_base(component.name.as_bytes()) || !is_new {
            return Ok(Some(component.name.copied(alloc)?));
        }
    }
    Ok(None)
}

fn twice_defect(alloc: Global, name: &Name) -> Result<Defect, AllocError>
    ensures { IfOk result (λ defect. defect ≡ defect_at TwiceComponent name.now [] Nothing) }
{
    defect_at(
        alloc,
        Code::TwiceComponent,
        name.as_bytes(),
        b"",
        Item::Nothing,
    )
}

/// Each component of a project has a name of its own, and there are at most 512. TwiceComponent names the first component whose name
/// stands before it; each component of the package `base`, which is built in, counts as a second one.
#[tactic(auto, unfolding(crate::specs::Once::told_apart))]
pub fn told_apart(alloc: Global, components: &[Component]) -> Result<(), Refusal>
    ensures { Checks (told_apart limited components.now) result }
{
    if let Some(name) = twice(alloc, components)? {
        return Err(Refusal::Defect {
            defect: twice_defect(alloc, &name)?,
        });
    }
    if components.len() > COMPONENTS {
        return Err(Refusal::Limit {
            hit: LimitHit {
                which: Which::Components,
                count: 513,
            },
        });
    }
    Ok(())
}
