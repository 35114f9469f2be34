//! The plain module that a tree is.
ghost use Rattle.std.specs.Prelude.{◌≡◌, ◌∷◌, List, map, IfOk};
ghost use Rattle.std.specs.List.{list_all};
ghost use Rattle.bp_base.specs.Texts.{Text};
ghost use Rattle.bp_base.specs.Lists.{is_among};
ghost use Rattle.bp_base.specs.declared.entity.Export.{Export};
ghost use Rattle.hs_core.specs.Base.{base};
ghost use Rattle.hs_plain.specs.Plain.{names_of};
ghost use Rattle.plain_trees.specs.Plain.{HasNames, is_known, all_known, is_closed, closed, values, plain_of};

use crate::sets::set_of;
use crate::values::values;
use bp_base::{Export, Interface, Name, Names};
use hs_core::base_interface;
use hs_modules::{Module, TopBlock};
use hs_plain::{Atom, Binding, PlainModule};
use std::alloc::{AllocError, Global};
use std::collections::BTreeSet;

/// The declared names.
fn names_of(alloc: Global, bindings: &[Binding]) -> Result<Names, AllocError>
    ensures { IfOk result (λ names. names ≡ names_of bindings.now) }
{
    let mut names = Names::new(alloc);
    for binding in bindings {
        names.push(binding.occ.copied(alloc)?)?;
    }
    Ok(names)
}

/// Whether exports show a name.
fn is_shown(exports: &[Export], name: &Name) -> bool
    ensures { result ≡ is_among name.now (map (λ (x : Export). x.occ) exports.now) }
{
    for export in exports {
        if *name == export.occ {
            return true;
        }
    }
    false
}

/// Whether an atom that is a declared name is in the set, and `prelude` doesn't show it.
fn is_known(atom: &Atom, declared: &BTreeSet<Name>, prelude: &Interface) -> bool
    requires { prelude.now ≡ base }
    ensures { (names : List Text) → HasNames declared.now names → result ≡ is_known names atom.now }
{
    match atom {
        Atom::Number { .. } | Atom::Argument { .. } => true,
        Atom::Declared { occ } => {
            declared.contains(occ) && !is_shown(prelude.exports.as_slice(), occ)
        }
    }
}

fn are_known(atoms: &[Atom], declared: &BTreeSet<Name>, prelude: &Interface) -> bool
    requires { prelude.now ≡ base }
    ensures { (names : List Text) → HasNames declared.now names → result ≡ list_all (is_known names) atoms.now }
{
    for atom in atoms {
        if !is_known(atom, declared, prelude) {
            return false;
        }
    }
    true
}

/// Whether each declared name of the right sides is in the set, and `prelude` doesn't show it.
fn all_known(bindings: &[Binding], declared: &BTreeSet<Name>, prelude: &Interface) -> bool
    requires { prelude.now ≡ base }
    ensures { (names : List Text) → HasNames declared.now names → result ≡ all_known names bindings.now }
{
    for binding in bindings {
        if !are_known(binding.atoms.as_slice(), declared, prelude) {
            return false;
        }
    }
    true
}

/// Whether no name is declared twice, and each name of a right side is an argument or declared and means nothing else.
fn is_closed(alloc: Global, bindings: &[Binding]) -> Result<bool, AllocError>
    ensures { IfOk result (λ closed. closed ≡ is_closed bindings.now) }
{
    let names = names_of(alloc, bindings)?;
    let prelude = base_interface(alloc)?;
    match set_of(alloc, names.as_slice())? {
        Some(declared) => Ok(all_known(bindings, &declared, &prelude)),
        None => Ok(false),
    }
}

fn named(alloc: Global, name: &Name, block: &TopBlock) -> Result<Option<PlainModule>, AllocError>
    ensures { IfOk result (λ plain. plain ≡ closed name.now (values (block.now.first ∷ block.now.rest))) }
{
    let Some(bindings) = values(alloc, &block.first, block.rest.as_slice())? else {
        return Ok(None);
    };
    if !is_closed(alloc, bindings.as_slice())? {
        return Ok(None);
    }
    let name = name.copied(alloc)?;
    Ok(Some(PlainModule { name, bindings }))
}

/// The plain module that a tree is; none where it is of another form.
///
/// A plain module has a head without an export list, no imports, and values each with a type signature `x :: Int -> .. -> Int`
/// and one clause behind it, whose right side applies a name or number to such. Round brackets may stand about an `Int`, a name
/// and a number. A right side refers to no name that the module `Prelude` shows.
#[tactic(auto, unfolding(crate::specs::Plain::plain_of))]
pub fn plain_of(alloc: Global, tree: &Module) -> Result<Option<PlainModule>, AllocError>
    ensures { IfOk result (λ plain. plain ≡ plain_of tree.now) }
{
    match tree {
        Module::Named(name, block) => named(alloc, name, block),
        Module::Headless(_) => Ok(None),
        Module::Exporting(_, _, _) => Ok(None),
        Module::Signature(_, _) => Ok(None),
    }
}
