//! Modules of the flat program.

use bp_base::{Name, Names};
use hs_core::Decls;
use sqlite_items::Items;

/// A name that a flat module exports.
#[derive(Debug, Drop)]
pub struct FlatExport {
    /// Its flat name, as `U0.M.x` or `Prelude.x`.
    pub name: Name,
    /// The constructors that are exported with a type, bare, in order of declaration.
    pub cons: Names,
}

/// Exports: types, then values, each in byte order of the occurrence.
pub type FlatExports = Items<FlatExport>;

/// A module of the flat program. In its declarations a name that unit n declares stands at a module of the component `U<n>`,
/// which has no holes; one of `base` stands at `Prelude` of `base`.
#[derive(Debug, Drop)]
pub struct FlatModule {
    /// Its flat name, as `U0.M`.
    pub name: Name,
    pub exports: FlatExports,
    /// The flat names of the modules that it imports, without `Prelude`.
    pub imports: Names,
    pub decls: Decls,
}
