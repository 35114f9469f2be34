//! What an export list offers.
ghost use Rattle.std.specs.Prelude.{◌≡◌, IfOk};
ghost use Rattle.bp_base.specs.declared.ty.Space.TheVariants.{Values};
ghost use Rattle.import_resolve.specs.Exports.{main_name};
ghost use Rattle.import_resolve.specs.Scopes.{Answers};
ghost use Rattle.export_resolve.specs.Seen.{seen_at};
ghost use Rattle.export_resolve.specs.Found.{all_found, export_found, offered_found, one_found};

use crate::item::{export_found, one_found};
use crate::seen::SeenTable;
use crate::things::things_of;
use bp_base::{Export, Name, Space};
use hs_modules::{ExportTree, Module};
use hs_scopes::ScopeItem;
use import_resolve::{ScopeError, Things};
use sqlite_items::Items;
use std::alloc::Global;

fn listed(
    alloc: Global,
    table: &SeenTable,
    items: &[ScopeItem],
    exports: &[ExportTree],
) -> Result<Things, ScopeError>
    ensures { Answers (all_found (export_found (seen_at table.now) items.now) exports.now) result }
{
    let mut things = Items::new(alloc);
    for export in exports {
        let more = export_found(alloc, table, items, export)?;
        things.append(more)?;
    }
    Ok(things)
}

/// `main`, which a module without a header exports.
fn main_found(alloc: Global, table: &SeenTable) -> Result<Things, ScopeError>
    ensures { Answers (one_found (seen_at table.now) Values main_name) result }
{
    let name = Name::from_bytes(alloc, b"main")?;
    one_found(alloc, table, Space::Values, &name)
}

/// What a module offers: what its export list names, item by item, or with no list what it declares.
pub fn offered(
    alloc: Global,
    table: &SeenTable,
    module: &Module,
    own: &[Export],
    items: &[ScopeItem],
) -> Result<Things, ScopeError>
    ensures { Answers (offered_found (seen_at table.now) «module».now own.now items.now) result }
{
    match module {
        Module::Headless(_) => main_found(alloc, table),
        Module::Named(_, _) => Ok(things_of(alloc, own)?),
        Module::Exporting(_, list, _) => listed(alloc, table, items, list.exports.as_slice()),
        Module::Signature(_, _) => Ok(things_of(alloc, own)?),
    }
}
