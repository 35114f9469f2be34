//! What is in scope in a module.
ghost use Rattle.std.specs.Prelude.{◌≡◌, ◌∷◌, IfOk};
ghost use Rattle.std.specs.List.{flat_map, list_any};
ghost use Rattle.import_resolve.specs.Scopes.{Answers, all_imported, top_import, sig_import, module_name, prelude_import, names_prelude, written_imports, implicit_imports, scope_gives};

use crate::error::ScopeError;
use crate::filter::FilterTable;
use crate::import::{brought_by, imported};
use crate::visible::{Visible, Visibles};
use bp_base::{Exports, Name};
use hs_modules::{ImpDeclTree, ImportList, Module, SigBlock, SigSlot, TopBlock, TopSlot};
use hs_scopes::{Scope, ScopeItems};
use sqlite_items::Items;
use std::alloc::{AllocError, Global};

/// The name of a module, which is `Main` where it has no header (Haskell 2010 Report, section 5.1).
pub fn module_name(alloc: Global, module: &Module) -> Result<Name, AllocError>
    ensures { IfOk result (λ name. name ≡ module_name «module».now) }
{
    match module {
        Module::Headless(_) => Name::from_bytes(alloc, b"Main"),
        Module::Named(name, _) => name.copied(alloc),
        Module::Exporting(name, _, _) => name.copied(alloc),
        Module::Signature(name, _) => name.copied(alloc),
    }
}

fn prelude_import(alloc: Global) -> Result<ImpDeclTree, AllocError>
    ensures { IfOk result (λ import. import ≡ prelude_import) }
{
    Ok(ImpDeclTree {
        qualified: false,
        modid: Name::from_bytes(alloc, b"Prelude")?,
        alias: None,
        list: ImportList::Everything,
    })
}

fn names_prelude(import: &ImpDeclTree) -> bool
    ensures { result ≡ names_prelude import.now }
{
    import.modid.as_bytes() == b"Prelude".as_slice()
}

// ---- what a block imports

fn top_imported(
    alloc: Global,
    visible: &[Visible],
    slot: &TopSlot,
) -> Result<ScopeItems, ScopeError>
    ensures { Answers (all_imported visible.now (top_import slot.now)) result }
{
    match slot {
        TopSlot::Empty => Ok(Items::new(alloc)),
        TopSlot::Import(import) => imported(alloc, visible, import),
        TopSlot::Decl(_) => Ok(Items::new(alloc)),
    }
}

fn sig_imported(
    alloc: Global,
    visible: &[Visible],
    slot: &SigSlot,
) -> Result<ScopeItems, ScopeError>
    ensures { Answers (all_imported visible.now (sig_import slot.now)) result }
{
    match slot {
        SigSlot::Empty => Ok(Items::new(alloc)),
        SigSlot::Import(import) => imported(alloc, visible, import),
        SigSlot::Decl(_) => Ok(Items::new(alloc)),
    }
}

fn tops_imported(
    alloc: Global,
    visible: &[Visible],
    slots: &[TopSlot],
) -> Result<ScopeItems, ScopeError>
    ensures { Answers (all_imported visible.now (flat_map top_import slots.now)) result }
{
    let mut items = Items::new(alloc);
    for slot in slots {
        let more = top_imported(alloc, visible, slot)?;
        items.append(more)?;
    }
    Ok(items)
}

fn sigs_imported(
    alloc: Global,
    visible: &[Visible],
    slots: &[SigSlot],
) -> Result<ScopeItems, ScopeError>
    ensures { Answers (all_imported visible.now (flat_map sig_import slots.now)) result }
{
    let mut items = Items::new(alloc);
    for slot in slots {
        let more = sig_imported(alloc, visible, slot)?;
        items.append(more)?;
    }
    Ok(items)
}

fn block_imported(
    alloc: Global,
    visible: &[Visible],
    block: &TopBlock,
) -> Result<ScopeItems, ScopeError>
    ensures { Answers (all_imported visible.now (flat_map top_import (block.now.first ∷ block.now.rest))) result }
{
    let mut items = top_imported(alloc, visible, &block.first)?;
    let more = tops_imported(alloc, visible, block.rest.as_slice())?;
    items.append(more)?;
    Ok(items)
}

fn sig_block_imported(
    alloc: Global,
    visible: &[Visible],
    block: &SigBlock,
) -> Result<ScopeItems, ScopeError>
    ensures { Answers (all_imported visible.now (flat_map sig_import (block.now.first ∷ block.now.rest))) result }
{
    let mut items = sig_imported(alloc, visible, &block.first)?;
    let more = sigs_imported(alloc, visible, block.rest.as_slice())?;
    items.append(more)?;
    Ok(items)
}

/// What the written imports bring.
fn written_imported(
    alloc: Global,
    visible: &[Visible],
    module: &Module,
) -> Result<ScopeItems, ScopeError>
    ensures { Answers (all_imported visible.now (written_imports «module».now)) result }
{
    match module {
        Module::Headless(block) => block_imported(alloc, visible, block),
        Module::Named(_, block) => block_imported(alloc, visible, block),
        Module::Exporting(_, _, block) => block_imported(alloc, visible, block),
        Module::Signature(_, block) => sig_block_imported(alloc, visible, block),
    }
}

// ---- the implicit import

fn top_names_prelude(slot: &TopSlot) -> bool
    ensures { result ≡ list_any names_prelude (top_import slot.now) }
{
    match slot {
        TopSlot::Empty => false,
        TopSlot::Import(import) => names_prelude(import),
        TopSlot::Decl(_) => false,
    }
}

fn sig_names_prelude(slot: &SigSlot) -> bool
    ensures { result ≡ list_any names_prelude (sig_import slot.now) }
{
    match slot {
        SigSlot::Empty => false,
        SigSlot::Import(import) => names_prelude(import),
        SigSlot::Decl(_) => false,
    }
}

fn tops_name_prelude(slots: &[TopSlot]) -> bool
    ensures { result ≡ list_any names_prelude (flat_map top_import slots.now) }
{
    for slot in slots {
        if top_names_prelude(slot) {
            return true;
        }
    }
    false
}

fn sigs_name_prelude(slots: &[SigSlot]) -> bool
    ensures { result ≡ list_any names_prelude (flat_map sig_import slots.now) }
{
    for slot in slots {
        if sig_names_prelude(slot) {
            return true;
        }
    }
    false
}

fn block_names_prelude(block: &TopBlock) -> bool
    ensures { result ≡ list_any names_prelude (flat_map top_import (block.now.first ∷ block.now.rest)) }
{
    top_names_prelude(&block.first) || tops_name_prelude(block.rest.as_slice())
}

fn sig_block_names_prelude(block: &SigBlock) -> bool
    ensures { result ≡ list_any names_prelude (flat_map sig_import (block.now.first ∷ block.now.rest)) }
{
    sig_names_prelude(&block.first) || sigs_name_prelude(block.rest.as_slice())
}

/// Whether a written import names `Prelude`.
pub fn is_prelude_written(module: &Module) -> bool
    ensures { result ≡ list_any names_prelude (written_imports «module».now) }
{
    match module {
        Module::Headless(block) => block_names_prelude(block),
        Module::Named(_, block) => block_names_prelude(block),
        Module::Exporting(_, _, block) => block_names_prelude(block),
        Module::Signature(_, block) => sig_block_names_prelude(block),
    }
}

/// What the implicit import of `Prelude` brings (Haskell 2010 Report, section 5.6.1).
fn implicit_imported(
    alloc: Global,
    visible: &[Visible],
    module: &Module,
) -> Result<ScopeItems, ScopeError>
    ensures { Answers (all_imported visible.now (implicit_imports «module».now)) result }
{
    if is_prelude_written(module) {
        return Ok(Items::new(alloc));
    }
    let import = prelude_import(alloc)?;
    imported(alloc, visible, &import)
}

/// What is in scope in a module that declares `own` and sees these modules: own names, then what each import brings,
/// `Prelude` first where no import names it; each plainly and then behind its qualifier, or behind it alone. Of `own`
/// the names and the constructors are read alone. The refusal is that of the first import that fails: NoModule where
/// its name shows no interface and AmbiguousModule where it shows several, each with that name, or else NotInScope with
/// the first name that its list asks for and that is not exported (Haskell 2010 Report, section 5.3).
pub fn scope_of(
    alloc: Global,
    module: &Module,
    own: &Exports,
    visible: &Visibles,
) -> Result<Scope, ScopeError>
    ensures { Answers (scope_gives «module».now own.now visible.now) result }
{
    let implicit = implicit_imported(alloc, visible.as_slice(), module)?;
    let written = written_imported(alloc, visible.as_slice(), module)?;
    let name = module_name(alloc, module)?;
    let filter = FilterTable::Everything;
    let mut items = brought_by(alloc, false, &name, &filter, own.as_slice())?;
    let mut imports = implicit;
    imports.append(written)?;
    items.append(imports)?;
    Ok(Scope { items })
}
