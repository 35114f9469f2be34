//! What the list of an import lets in.
ghost use Rattle.std.specs.Prelude.{◌≡◌, IfOk};
ghost use Rattle.import_resolve.specs.ImportLists.{lets_head, lets_con, filter_of};
ghost use Rattle.import_resolve.specs.Filters.{filter_at};

use crate::listing::{ListingTable, listing_table, lists_bare, lists_con, lists_head};
use bp_base::Name;
use hs_modules::ImportList;
use std::alloc::{AllocError, Global};

/// All names, those of a list, or all but those.
#[derive(Drop)]
pub enum FilterTable {
    Everything,
    Only(ListingTable),
    Hiding(ListingTable),
}

/// What the list of an import lets in.
pub fn filter_table(alloc: Global, list: &ImportList) -> Result<FilterTable, AllocError>
    ensures { IfOk result (λ table. filter_at table ≡ filter_of list.now) }
{
    match list {
        ImportList::Everything => Ok(FilterTable::Everything),
        ImportList::Only(items, _) => {
            let table = listing_table(alloc, items.as_slice())?;
            Ok(FilterTable::Only(table))
        }
        ImportList::Hiding(items, _) => {
            let table = listing_table(alloc, items.as_slice())?;
            Ok(FilterTable::Hiding(table))
        }
    }
}

/// Whether a type or a value of this name is let in.
pub fn lets_head(filter: &FilterTable, is_type: bool, name: &Name) -> bool
    ensures { result ≡ lets_head (filter_at filter.now) is_type name.now }
{
    match filter {
        FilterTable::Everything => true,
        FilterTable::Only(table) => lists_head(table, is_type, name),
        FilterTable::Hiding(table) => !lists_head(table, is_type, name),
    }
}

/// Whether a constructor of this type is let in.
pub fn lets_con(filter: &FilterTable, of: &Name, name: &Name) -> bool
    ensures { result ≡ lets_con (filter_at filter.now) of.now name.now }
{
    match filter {
        FilterTable::Everything => true,
        FilterTable::Only(table) => lists_con(table, of, name),
        FilterTable::Hiding(table) => !(lists_con(table, of, name) || lists_bare(table, name)),
    }
}
