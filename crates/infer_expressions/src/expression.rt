//! Types of expressions without local declarations (Haskell 2010 Report, chapter 3).
ghost use Rattle.std.specs.Prelude.{◌≡◌, ◌++◌, length, IfOk, OnOk, IfErr};
ghost use Rattle.type_equations.specs.States.{state_of};
ghost use Rattle.infer_expressions.specs.Covered.{IsUncovered, SomeUncovered, IsAltUncovered, SomeAltUncovered, IsSideUncovered, SomeChoiceUncovered, SomeGuardUncovered, IsGuardUncovered};
ghost use Rattle.infer_expressions.specs.Inferred.{Explains, ExpInferred, ExpRefused, ExpsInferred, ExpsRefused, AltInferred, AltRefused, AltsInferred, AltsRefused, SideInferred, SideRefused, ChoicesInferred, ChoicesRefused, GuardInferred, GuardRefused};
ghost use Rattle.infer_expressions.specs.Entered.{GuardsInferred, GuardsRefused};

use crate::heads::{
    enter_application, enter_global, enter_lambda, enter_local, enter_pattern, enter_section,
    enter_test,
};
use crate::refusal::Refusal;
use crate::scope::scope_of;
use bp_base::Kind;
use hs_core::{Alt, Choice, Exp, Guard, Rhs};
use infer_patterns::{Declared, enter_list, enter_literal, enter_tuple, string};
use std::alloc::Global;
use type_equations::{Binder, Equations, character, integer};

/// Makes an expression have the type of the unknown `wanted`, where locals are seen, the newest first, and names of
/// modules are known. NoTyping comes only where no guess that meets the equations gives it that type, and Uncovered
/// only where local declarations or an annotation occur in it. Recursion goes no deeper than the expression.
#[cycle(exp)]
pub fn infer_exp(
    alloc: Global,
    exp: &Exp,
    wanted: u64,
    env: &[Binder],
    names: &[Declared],
    state: &mut Equations,
) -> Result<(), Refusal>
    ensures ok { OnOk result (ExpInferred names.now env.now (state_of state.old) (state_of state.new) exp.now wanted) }
    ensures err { IfErr result (Explains (ExpRefused names.now env.now (state_of state.old) exp.now wanted) (IsUncovered exp.now)) }
{
    match exp {
        Exp::Local { name } => {
            enter_local(alloc, name, wanted, env, names, state)?;
            Ok(())
        }
        Exp::Global { name } => {
            enter_global(alloc, name, wanted, env, names, state)?;
            Ok(())
        }
        Exp::Int { .. } => {
            let ty = integer(alloc)?;
            enter_literal(alloc, ty, wanted, state)?;
            Ok(())
        }
        Exp::Chr { .. } => {
            let ty = character(alloc)?;
            enter_literal(alloc, ty, wanted, state)?;
            Ok(())
        }
        Exp::Str { .. } => {
            let ty = string(alloc)?;
            enter_literal(alloc, ty, wanted, state)?;
            Ok(())
        }
        Exp::Apply { fun, args } => {
            let (own, parts) = enter_application(alloc, args.len(), wanted, state)?;
            infer_exp(alloc, fun.get(), own, env, names, state)?;
            infer_exps(alloc, args.as_slice(), parts.as_slice(), env, names, state)
        }
        Exp::Lambda { pats, body } => {
            let (own, scope) = enter_lambda(alloc, pats.as_slice(), wanted, env, names, state)?;
            infer_exp(alloc, body.get(), own, scope.as_slice(), names, state)
        }
        Exp::Let { .. } => Err(Refusal::Uncovered),
        Exp::If { test, yes, no } => {
            let own = enter_test(alloc, state)?;
            infer_exp(alloc, test.get(), own, env, names, state)?;
            infer_exp(alloc, yes.get(), wanted, env, names, state)?;
            infer_exp(alloc, no.get(), wanted, env, names, state)
        }
        Exp::Case { of, alts } => {
            let own = state.fresh(Kind::Star)?;
            infer_exp(alloc, of.get(), own, env, names, state)?;
            infer_alts(alloc, alts.as_slice(), own, wanted, env, names, state)
        }
        Exp::Tuple { parts } => {
            let ids = enter_tuple(alloc, parts.len(), wanted, state)?;
            infer_exps(alloc, parts.as_slice(), ids.as_slice(), env, names, state)
        }
        Exp::List { parts } => {
            let ids = enter_list(alloc, parts.len(), wanted, state)?;
            infer_exps(alloc, parts.as_slice(), ids.as_slice(), env, names, state)
        }
        Exp::RightSection { op, arg } => {
            let (own, right) = enter_section(alloc, wanted, state)?;
            infer_exp(alloc, op.get(), own, env, names, state)?;
            infer_exp(alloc, arg.get(), right, env, names, state)
        }
        Exp::Annot { .. } => Err(Refusal::Uncovered),
    }
}

/// Expressions in a row, each at the type of its unknown.
#[cycle(exp)]
pub fn infer_exps(
    alloc: Global,
    exps: &[Exp],
    wanted: &[u64],
    env: &[Binder],
    names: &[Declared],
    state: &mut Equations,
) -> Result<(), Refusal>
    requires { length exps.now ≡ length wanted.now }
    ensures ok { OnOk result (ExpsInferred names.now env.now (state_of state.old) (state_of state.new) exps.now wanted.now) }
    ensures err { IfErr result (Explains (ExpsRefused names.now env.now (state_of state.old) exps.now wanted.now) (SomeUncovered exps.now)) }
{
    for index in 0..exps.len() {
        infer_exp(alloc, &exps[index], wanted[index], env, names, state)?;
    }
    Ok(())
}

// Alternatives from the type of one unknown to that of another.
#[cycle(exp)]
fn infer_alts(
    alloc: Global,
    alts: &[Alt],
    of: u64,
    wanted: u64,
    env: &[Binder],
    names: &[Declared],
    state: &mut Equations,
) -> Result<(), Refusal>
    ensures ok { OnOk result (AltsInferred names.now env.now (state_of state.old) (state_of state.new) alts.now of wanted) }
    ensures err { IfErr result (Explains (AltsRefused names.now env.now (state_of state.old) alts.now of wanted) (SomeAltUncovered alts.now)) }
{
    for index in 0..alts.len() {
        infer_alt(alloc, &alts[index], of, wanted, env, names, state)?;
    }
    Ok(())
}

/// An alternative from the type of one unknown to that of another.
#[cycle(exp)]
pub fn infer_alt(
    alloc: Global,
    alt: &Alt,
    of: u64,
    wanted: u64,
    env: &[Binder],
    names: &[Declared],
    state: &mut Equations,
) -> Result<(), Refusal>
    ensures ok { OnOk result (AltInferred names.now env.now (state_of state.old) (state_of state.new) alt.now of wanted) }
    ensures err { IfErr result (Explains (AltRefused names.now env.now (state_of state.old) alt.now of wanted) (IsAltUncovered alt.now)) }
{
    let scope = enter_pattern(alloc, &alt.pat, of, env, names, state)?;
    infer_side(alloc, &alt.rhs, wanted, scope.as_slice(), names, state)
}

/// A right side at the type of an unknown.
#[cycle(exp)]
pub fn infer_side(
    alloc: Global,
    rhs: &Rhs,
    wanted: u64,
    env: &[Binder],
    names: &[Declared],
    state: &mut Equations,
) -> Result<(), Refusal>
    ensures ok { OnOk result (SideInferred names.now env.now (state_of state.old) (state_of state.new) rhs.now wanted) }
    ensures err { IfErr result (Explains (SideRefused names.now env.now (state_of state.old) rhs.now wanted) (IsSideUncovered rhs.now)) }
{
    if !rhs.local.is_empty() {
        return Err(Refusal::Uncovered);
    }
    infer_choices(alloc, rhs.choices.as_slice(), wanted, env, names, state)
}

// Choices at the type of an unknown.
#[cycle(exp)]
fn infer_choices(
    alloc: Global,
    choices: &[Choice],
    wanted: u64,
    env: &[Binder],
    names: &[Declared],
    state: &mut Equations,
) -> Result<(), Refusal>
    ensures ok { OnOk result (ChoicesInferred names.now env.now (state_of state.old) (state_of state.new) choices.now wanted) }
    ensures err { IfErr result (Explains (ChoicesRefused names.now env.now (state_of state.old) choices.now wanted) (SomeChoiceUncovered choices.now)) }
{
    for index in 0..choices.len() {
        let choice = &choices[index];
        let scope = infer_guards(alloc, choice.guards.as_slice(), env, names, state)?;
        infer_exp(alloc, &choice.exp, wanted, scope.as_slice(), names, state)?;
    }
    Ok(())
}

// Guards from left to right, and the locals that are seen behind them.
#[cycle(exp)]
fn infer_guards(
    alloc: Global,
    guards: &[Guard],
    env: &[Binder],
    names: &[Declared],
    state: &mut Equations,
) -> Result<Vec<Binder>, Refusal>
    ensures ok { IfOk result (λ r. GuardsInferred names.now env.now r.items (state_of state.old) (state_of state.new) guards.now) }
    ensures err { IfErr result (Explains (GuardsRefused names.now env.now (state_of state.old) guards.now) (SomeGuardUncovered guards.now)) }
{
    let mut scope = scope_of(alloc, Vec::new(alloc), env)?;
    for index in 0..guards.len() {
        scope = infer_guard(alloc, &guards[index], scope.as_slice(), names, state)?;
    }
    Ok(scope)
}

// A guard, and the locals that are seen behind it.
#[cycle(exp)]
fn infer_guard(
    alloc: Global,
    guard: &Guard,
    env: &[Binder],
    names: &[Declared],
    state: &mut Equations,
) -> Result<Vec<Binder>, Refusal>
    ensures ok { IfOk result (λ r. GuardInferred names.now env.now r.items (state_of state.old) (state_of state.new) guard.now) }
    ensures err { IfErr result (Explains (GuardRefused names.now env.now (state_of state.old) guard.now) (IsGuardUncovered guard.now)) }
{
    match guard {
        Guard::Test { exp } => {
            let own = enter_test(alloc, state)?;
            infer_exp(alloc, exp, own, env, names, state)?;
            Ok(scope_of(alloc, Vec::new(alloc), env)?)
        }
        Guard::Bind { pat, exp } => {
            let own = state.fresh(Kind::Star)?;
            infer_exp(alloc, exp, own, env, names, state)?;
            let scope = enter_pattern(alloc, pat, own, env, names, state)?;
            Ok(scope)
        }
    }
}
