//! What a module exports.
ghost use Rattle.import_resolve.specs.Exports.{exports_give};
ghost use Rattle.import_resolve.specs.Scopes.{Answers};
ghost use Rattle.export_resolve.specs.Whole.{Judges, exports_found, exports_in};

use crate::clashes::clash_of;
use crate::offered::offered;
use crate::seen::seen_table;
use crate::sorted::{all_exports, sorted};
use bp_base::Exports;
use hs_modules::Module;
use hs_scopes::Scope;
use import_resolve::{ScopeError, Things};
use std::alloc::Global;

/// What these things stand for as exports.
fn exports_in(alloc: Global, things: &Things) -> Result<Exports, ScopeError>
    ensures { Answers (exports_in things.now) result }
{
    if let Some(name) = clash_of(alloc, things.as_slice())? {
        return Err(ScopeError::ExportClash { name });
    }
    let exports = all_exports(alloc, things.as_slice())?;
    Ok(sorted(alloc, exports)?)
}

fn exports_found(
    alloc: Global,
    module: &Module,
    own: &Exports,
    scope: &Scope,
) -> Result<Exports, ScopeError>
    ensures { Answers (exports_found «module».now own.now scope.now) result }
{
    let items = scope.items.as_slice();
    let table = seen_table(alloc, module, items)?;
    let things = offered(alloc, &table, module, own.as_slice(), items)?;
    exports_in(alloc, &things)
}

/// What a module exports that declares `own` and has this scope: with an export list what the list names, or else what
/// the module declares, and `main` alone where it has no header. A type is exported with those of its constructors that
/// are named, in order of declaration, and a constructor only with its type. The exports are types, then values, each in
/// byte order. The first item of the list that fails is refused: NotInScope with its name, or with that of a listed
/// constructor, where it names nothing in scope or `module` is followed by a name before no dot, and AmbiguousName where
/// its name may mean different things; then ExportClash with the least name under which two different types or two
/// different values would be exported (Haskell 2010 Report, section 5.2).
pub fn exports_of(
    alloc: Global,
    module: &Module,
    own: &Exports,
    scope: &Scope,
) -> Result<Exports, ScopeError>
    ensures { Judges (exports_give «module».now own.now scope.now) result }
{
    exports_found(alloc, module, own, scope)
}
