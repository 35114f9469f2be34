//! Inference of clauses of functions without local declarations (Haskell 2010 Report, section 4.4.3.1).
#![tactic(auto)]

ghost use Rattle.std.specs.Prelude.{OnOk, IfErr};
ghost use Rattle.type_equations.specs.States.{state_of};
ghost use Rattle.infer_expressions.specs.Covered.{IsSideUncovered};
ghost use Rattle.infer_expressions.specs.Inferred.{Explains};
ghost use Rattle.infer_clauses.specs.Inferred.{ClauseInferred, ClauseRefused};

use hs_core::{Pat, Rhs};
use infer_expressions::{Refusal, enter_function, infer_side, scope_of};
use infer_patterns::{Declared, infer_pats};
use std::alloc::Global;
use type_equations::{Binder, Equations};

/// Makes a clause of a function have the type of the unknown `wanted`, where locals are seen, the newest first, and
/// names of modules are known. NoTyping comes only where no guess that meets the equations gives it that type, and
/// Uncovered only where local declarations or an annotation occur in it.
pub fn infer_clause(
    alloc: Global,
    pats: &[Pat],
    rhs: &Rhs,
    wanted: u64,
    env: &[Binder],
    names: &[Declared],
    state: &mut Equations,
) -> Result<(), Refusal>
    ensures ok { OnOk result (ClauseInferred names.now env.now (state_of state.old) (state_of state.new) pats.now rhs.now wanted) }
    ensures err { IfErr result (Explains (ClauseRefused names.now env.now (state_of state.old) pats.now rhs.now wanted) (IsSideUncovered rhs.now)) }
{
    let (own, parts) = enter_function(alloc, pats.len(), wanted, state)?;
    let mut binders = Vec::new(alloc);
    infer_pats(alloc, pats, parts.as_slice(), names, state, &mut binders)?;
    let scope = scope_of(alloc, binders, env)?;
    infer_side(alloc, rhs, own, scope.as_slice(), names, state)
}
