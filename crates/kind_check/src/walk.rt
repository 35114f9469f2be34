//! Kinds of written types while kinds are unknown.
ghost use Rattle.std.specs.Prelude.{◌≡◌, ◌+◌, ◌≤◌, ◌<◌, ◌^◌, OnOk, IfOk, IfErr};
ghost use Rattle.hs_core.specs.Types.{count};
ghost use Rattle.kind_check.specs.Forms.{IsForm, AreReady};
ghost use Rattle.kind_check.specs.Scopes.{decls_of};
ghost use Rattle.kind_check.specs.Walks.{Imposes, NoGuess, fits_under};

use crate::scope::{GroupDecl, Known, form_of, variable};
use crate::state::{Failure, equate};
use bp_base::Name;
use hs_core::Written;
use std::alloc::Global;
use type_unify::{Bindings, Term};

/// The number of the first of so many new unknowns.
pub fn fresh(next: &mut u64, many: u64) -> Result<u64, Failure>
    ensures first { IfOk result (λ first. first ≡ next.old) }
    ensures next { OnOk result (next.new ≡ next.old + many) }
    ensures fits { OnOk result (next.old + many < 2 ^ 64) }
    ensures err { IfErr result (λ e. e ≡ Failure.NoMemory) }
{
    let first = *next;
    match first.checked_add(many) {
        Some(more) => {
            *next = more;
            Ok(first)
        }
        None => Err(Failure::NoMemory),
    }
}

/// Makes a written type have a kind.
pub fn walk(
    alloc: Global,
    ty: &Written,
    known: &[Known],
    decls: &[GroupDecl],
    params: &[Name],
    first: u64,
    bindings: &mut Bindings,
    next: &mut u64,
    wanted: Term,
) -> Result<(), Failure>
    requires ready { AreReady bindings.old next.old }
    requires form { IsForm next.old wanted }
    requires group { count (decls_of decls.now) ≤ next.old }
    requires params { first + count params.now ≤ next.old }
    ensures ok { OnOk result (Imposes (fits_under known.now decls.now params.now first ty.now wanted) bindings.old bindings.new next.old next.new) }
    ensures none { IfErr result (λ e. e ≡ Failure.NoKind → NoGuess (fits_under known.now decls.now params.now first ty.now wanted) bindings.old) }
{
    match ty {
        Written::WVar { name } => {
            let number = *next;
            let own = variable(alloc, params, first, name)?;
            equate(alloc, bindings, number, &own, &wanted)
        }
        Written::WCon { name } => {
            let Some(own) = form_of(alloc, known, decls, name)? else {
                return Err(Failure::NoKind);
            };
            equate(alloc, bindings, *next, &own, &wanted)
        }
        Written::WApp { fun, arg } => {
            let id = fresh(next, 1)?;
            let unknown = Term::flex(alloc, id)?;
            let argument = Term::flex(alloc, id)?;
            let expected = Term::app(unknown, wanted)?;
            walk(
                alloc,
                fun.get(),
                known,
                decls,
                params,
                first,
                bindings,
                next,
                expected,
            )?;
            walk(
                alloc,
                arg.get(),
                known,
                decls,
                params,
                first,
                bindings,
                next,
                argument,
            )
        }
    }
}
