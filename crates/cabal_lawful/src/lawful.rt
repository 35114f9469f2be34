//! The test whether a component is lawful.
ghost use Rattle.std.specs.Prelude.{◌≡◌, ◌↔◌, ◌&&◌, IfOk, IsTrue};
ghost use Rattle.std.specs.HashSet.{contains};
ghost use Rattle.std.specs.Str.{bytes_eq};
ghost use Rattle.cabal_component.specs.Lawful.{own_names, IsLawful};
ghost use Rattle.cabal_lawful.specs.Tested.{are_apart, has_news_apart, has_olds_apart, is_lawful_entry, are_lawful_entries, has_form};

use bp_base::{Name, Names, copied_names};
use cabal_component::{Component, Mixin, Provides, new_names, old_names};
use cabal_text::seen::{name_set, repeats};
use sqlite_items::Items;
use std::alloc::{AllocError, Global};
use std::collections::HashSet;

/// The own modules and signatures, `Main` of an executable first.
fn own_names(alloc: Global, component: &Component) -> Result<Names, AllocError>
    ensures { IfOk result (λ names. names ≡ own_names component.now) }
{
    let mut names = Items::new(alloc);
    if component.executable {
        names.push(Name::from_bytes(alloc, b"Main")?)?;
    }
    names.append(copied_names(alloc, &component.exposed)?)?;
    names.append(copied_names(alloc, &component.other)?)?;
    names.append(copied_names(alloc, &component.signatures)?)?;
    Ok(names)
}

fn are_apart(alloc: Global, names: &Names) -> Result<bool, AllocError>
    ensures { IfOk result (λ apart. apart ≡ are_apart names.now) }
{
    Ok(!repeats(alloc, names.as_slice())?)
}

fn has_news_apart(alloc: Global, provides: &Provides) -> Result<bool, AllocError>
    ensures { IfOk result (λ apart. apart ≡ has_news_apart provides.now) }
{
    match provides {
        Provides::Listed { items } => are_apart(alloc, &new_names(alloc, items.as_slice())?),
        Provides::Whole | Provides::Hiding { .. } => Ok(true),
    }
}

fn has_olds_apart(alloc: Global, mixin: &Mixin) -> Result<bool, AllocError>
    ensures { IfOk result (λ apart. apart ≡ has_olds_apart mixin.now) }
{
    are_apart(alloc, &old_names(alloc, mixin.needs.as_slice())?)
}

/// Whether an entry is of a dependency, and no name in it is given twice.
fn is_lawful_entry(alloc: Global, deps: &HashSet<Name>, mixin: &Mixin) -> Result<bool, AllocError>
    ensures { IfOk result (λ lawful. lawful ≡ is_lawful_entry (contains bytes_eq deps.now) mixin.now) }
{
    if !deps.contains(&mixin.dep) {
        return Ok(false);
    }
    if !has_news_apart(alloc, &mixin.provides)? {
        return Ok(false);
    }
    has_olds_apart(alloc, mixin)
}

fn are_lawful_entries(
    alloc: Global,
    deps: &HashSet<Name>,
    mixins: &[Mixin],
) -> Result<bool, AllocError>
    ensures { IfOk result (λ lawful. lawful ≡ are_lawful_entries (contains bytes_eq deps.now) mixins.now) }
{
    for mixin in mixins {
        if !is_lawful_entry(alloc, deps, mixin)? {
            return Ok(false);
        }
    }
    Ok(true)
}

/// Whether a library has no main file, and an executable no signatures, exposed modules or re-exports.
fn has_form(component: &Component) -> bool
    ensures { result ≡ has_form component.now }
{
    if component.executable {
        component.signatures.is_empty()
            && component.exposed.is_empty()
            && component.reexports.is_empty()
    } else {
        component.main_is.as_bytes().is_empty()
    }
}

fn all_of(own: bool, deps: bool, entries: bool, form: bool) -> bool
    ensures { result ≡ (own && (deps && (entries && form))) }
{
    own && deps && entries && form
}

/// Whether a component is lawful: no name stands twice among its own modules and signatures, `Main` of an executable among them, and
/// no dependency twice; each entry of `mixins` is of a dependency, gives no two items one new name and renames no requirement twice;
/// a library has no main file, and an executable no signatures, exposed modules or re-exports.
pub fn is_lawful(alloc: Global, component: &Component) -> Result<bool, AllocError>
    ensures { IfOk result (λ lawful. IsTrue lawful ↔ IsLawful component.now) }
{
    let own = own_names(alloc, component)?;
    let own_apart = are_apart(alloc, &own)?;
    let deps_apart = are_apart(alloc, &component.deps)?;
    let deps = name_set(alloc, component.deps.as_slice())?;
    let entries = are_lawful_entries(alloc, &deps, component.mixins.as_slice())?;
    let lawful = all_of(own_apart, deps_apart, entries, has_form(component));
    Ok(lawful)
}
