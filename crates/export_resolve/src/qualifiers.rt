//! The names that may stand before a dot.
ghost use Rattle.std.specs.Prelude.{◌≡◌, ◌∷◌, ◌++◌, List, ℕ, IfOk, OnOk, map};
ghost use Rattle.std.specs.HashSet.{contains};
ghost use Rattle.std.specs.List.{flat_map};
ghost use Rattle.std.specs.Str.{bytes_eq};
ghost use Rattle.import_resolve.specs.Scopes.{import_name, implicit_imports, sig_import, top_import, written_imports};
ghost use Rattle.import_resolve.specs.Exports.{is_qualifier, qualifiers};

use bp_base::{Name, Names};
use hs_modules::{Module, SigBlock, SigSlot, TopBlock, TopSlot};
use import_resolve::{import_name, is_prelude_written, module_name, name_set};
use sqlite_items::Items;
use std::alloc::{AllocError, Global};
use std::collections::HashSet;

fn add_top(alloc: Global, names: &mut Names, slot: &TopSlot) -> Result<(), AllocError>
    ensures { OnOk result (names.new ≡ names.old ++ map import_name (top_import slot.now)) }
{
    match slot {
        TopSlot::Empty => Ok(()),
        TopSlot::Import(import) => names.push(import_name(import).copied(alloc)?),
        TopSlot::Decl(_) => Ok(()),
    }
}

fn add_sig(alloc: Global, names: &mut Names, slot: &SigSlot) -> Result<(), AllocError>
    ensures { OnOk result (names.new ≡ names.old ++ map import_name (sig_import slot.now)) }
{
    match slot {
        SigSlot::Empty => Ok(()),
        SigSlot::Import(import) => names.push(import_name(import).copied(alloc)?),
        SigSlot::Decl(_) => Ok(()),
    }
}

fn add_block(alloc: Global, names: &mut Names, block: &TopBlock) -> Result<(), AllocError>
    ensures { OnOk result (names.new ≡ names.old ++ map import_name (flat_map top_import (block.now.first ∷ block.now.rest))) }
{
    add_top(alloc, names, &block.first)?;
    for slot in block.rest.as_slice() {
        add_top(alloc, names, slot)?;
    }
    Ok(())
}

fn add_sig_block(alloc: Global, names: &mut Names, block: &SigBlock) -> Result<(), AllocError>
    ensures { OnOk result (names.new ≡ names.old ++ map import_name (flat_map sig_import (block.now.first ∷ block.now.rest))) }
{
    add_sig(alloc, names, &block.first)?;
    for slot in block.rest.as_slice() {
        add_sig(alloc, names, slot)?;
    }
    Ok(())
}

fn add_written(alloc: Global, names: &mut Names, module: &Module) -> Result<(), AllocError>
    ensures { OnOk result (names.new ≡ names.old ++ map import_name (written_imports «module».now)) }
{
    match module {
        Module::Headless(block) => add_block(alloc, names, block),
        Module::Named(_, block) => add_block(alloc, names, block),
        Module::Exporting(_, _, block) => add_block(alloc, names, block),
        Module::Signature(_, block) => add_sig_block(alloc, names, block),
    }
}

fn add_implicit(alloc: Global, names: &mut Names, module: &Module) -> Result<(), AllocError>
    ensures { OnOk result (names.new ≡ names.old ++ map import_name (implicit_imports «module».now)) }
{
    if is_prelude_written(module) {
        Ok(())
    } else {
        names.push(Name::from_bytes(alloc, b"Prelude")?)
    }
}

fn names_of(alloc: Global, module: &Module) -> Result<Names, AllocError>
    ensures { IfOk result (λ names. names ≡ qualifiers «module».now) }
{
    let mut names = Items::new(alloc);
    names.push(module_name(alloc, module)?)?;
    add_implicit(alloc, &mut names, module)?;
    add_written(alloc, &mut names, module)?;
    Ok(names)
}

/// The module's name, and the name before the dot of what each import brings.
pub fn qualifiers(alloc: Global, module: &Module) -> Result<HashSet<Name>, AllocError>
    ensures { IfOk result (λ set. (q : List ℕ) → contains bytes_eq set q ≡ is_qualifier «module».now q) }
{
    let names = names_of(alloc, module)?;
    name_set(alloc, names.as_slice())
}
