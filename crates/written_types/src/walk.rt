//! The types written in expressions, right sides and declarations.
ghost use Rattle.std.specs.Prelude.{◌≡◌, ◌++◌, ◌∷◌, [], flat_map, OnOk};
ghost use Rattle.written_types.specs.WrittenTypes.{types_in_exp, types_in_decl, types_in_rhs, types_in_guard, types_in_alt};
ghost use Rattle.written_types.specs.Lists.{types_in_choice};

use hs_core::{Alt, Choice, Decl, Exp, Guard, Rhs, Written};
use sqlite_items::Items;
use std::alloc::{AllocError, Global};

/// Written types in order.
pub type Writtens = Items<Written>;

fn add(alloc: Global, ty: &Written, all: &mut Writtens) -> Result<(), AllocError>
    ensures { OnOk result (all.new ≡ all.old ++ ty.now ∷ []) }
{
    all.push(ty.copied(alloc)?)
}

#[cycle(exp)]
#[tactic(auto, using(crate::proofs::TypeLemmas::written_equations, std::proofs::lemmas::Grind::common_steps))]
fn add_exp(alloc: Global, exp: &Exp, all: &mut Writtens) -> Result<(), AllocError>
    ensures { OnOk result (all.new ≡ all.old ++ types_in_exp exp.now) }
{
    match exp {
        Exp::Local { .. } => Ok(()),
        Exp::Global { .. } => Ok(()),
        Exp::Int { .. } => Ok(()),
        Exp::Chr { .. } => Ok(()),
        Exp::Str { .. } => Ok(()),
        Exp::Apply { fun, args } => {
            add_exp(alloc, fun.get(), all)?;
            add_exps(alloc, args.as_slice(), all)
        }
        Exp::Lambda { body, .. } => add_exp(alloc, body.get(), all),
        Exp::Let { decls, body } => {
            add_decls(alloc, decls.as_slice(), all)?;
            add_exp(alloc, body.get(), all)
        }
        Exp::If { test, yes, no } => {
            add_exp(alloc, test.get(), all)?;
            add_exp(alloc, yes.get(), all)?;
            add_exp(alloc, no.get(), all)
        }
        Exp::Case { of, alts } => {
            add_exp(alloc, of.get(), all)?;
            add_alts(alloc, alts.as_slice(), all)
        }
        Exp::Tuple { parts } => add_exps(alloc, parts.as_slice(), all),
        Exp::List { parts } => add_exps(alloc, parts.as_slice(), all),
        Exp::RightSection { op, arg } => {
            add_exp(alloc, op.get(), all)?;
            add_exp(alloc, arg.get(), all)
        }
        Exp::Annot { exp, ty } => {
            add_exp(alloc, exp.get(), all)?;
            add(alloc, ty, all)
        }
    }
}

#[cycle(exp)]
fn add_exps(alloc: Global, exps: &[Exp], all: &mut Writtens) -> Result<(), AllocError>
    ensures { OnOk result (all.new ≡ all.old ++ flat_map types_in_exp exps.now) }
{
    for each in exps {
        add_exp(alloc, each, all)?;
    }
    Ok(())
}

/// The types that a declaration writes for values go behind the others.
#[cycle(exp)]
pub fn add_types_of(alloc: Global, decl: &Decl, all: &mut Writtens) -> Result<(), AllocError>
    ensures { OnOk result (all.new ≡ all.old ++ types_in_decl decl.now) }
{
    match decl {
        Decl::DataDecl { .. } => Ok(()),
        Decl::SynonymDecl { .. } => Ok(()),
        Decl::TypeSig { ty, .. } => add(alloc, ty, all),
        Decl::FixityOf { .. } => Ok(()),
        Decl::Clause { rhs, .. } => add_rhs(alloc, rhs, all),
        Decl::PatBind { rhs, .. } => add_rhs(alloc, rhs, all),
    }
}

#[cycle(exp)]
fn add_decls(alloc: Global, decls: &[Decl], all: &mut Writtens) -> Result<(), AllocError>
    ensures { OnOk result (all.new ≡ all.old ++ flat_map types_in_decl decls.now) }
{
    for each in decls {
        add_types_of(alloc, each, all)?;
    }
    Ok(())
}

#[cycle(exp)]
#[tactic(auto, using(crate::proofs::TypeLemmas::written_equations, std::proofs::lemmas::Grind::common_steps))]
fn add_rhs(alloc: Global, rhs: &Rhs, all: &mut Writtens) -> Result<(), AllocError>
    ensures { OnOk result (all.new ≡ all.old ++ types_in_rhs rhs.now) }
{
    add_choices(alloc, rhs.choices.as_slice(), all)?;
    add_decls(alloc, rhs.local.as_slice(), all)
}

#[cycle(exp)]
fn add_choices(alloc: Global, choices: &[Choice], all: &mut Writtens) -> Result<(), AllocError>
    ensures { OnOk result (all.new ≡ all.old ++ flat_map types_in_choice choices.now) }
{
    for each in choices {
        add_choice(alloc, each, all)?;
    }
    Ok(())
}

#[cycle(exp)]
fn add_choice(alloc: Global, choice: &Choice, all: &mut Writtens) -> Result<(), AllocError>
    ensures { OnOk result (all.new ≡ all.old ++ types_in_choice choice.now) }
{
    add_guards(alloc, choice.guards.as_slice(), all)?;
    add_exp(alloc, &choice.exp, all)
}

#[cycle(exp)]
fn add_guards(alloc: Global, guards: &[Guard], all: &mut Writtens) -> Result<(), AllocError>
    ensures { OnOk result (all.new ≡ all.old ++ flat_map types_in_guard guards.now) }
{
    for each in guards {
        add_guard(alloc, each, all)?;
    }
    Ok(())
}

#[cycle(exp)]
fn add_guard(alloc: Global, guard: &Guard, all: &mut Writtens) -> Result<(), AllocError>
    ensures { OnOk result (all.new ≡ all.old ++ types_in_guard guard.now) }
{
    match guard {
        Guard::Test { exp } => add_exp(alloc, exp, all),
        Guard::Bind { exp, .. } => add_exp(alloc, exp, all),
    }
}

#[cycle(exp)]
fn add_alts(alloc: Global, alts: &[Alt], all: &mut Writtens) -> Result<(), AllocError>
    ensures { OnOk result (all.new ≡ all.old ++ flat_map types_in_alt alts.now) }
{
    for each in alts {
        add_alt(alloc, each, all)?;
    }
    Ok(())
}

#[cycle(exp)]
#[tactic(auto, using(crate::proofs::TypeLemmas::written_equations, std::proofs::lemmas::Grind::common_steps))]
fn add_alt(alloc: Global, alt: &Alt, all: &mut Writtens) -> Result<(), AllocError>
    ensures { OnOk result (all.new ≡ all.old ++ types_in_alt alt.now) }
{
    add_rhs(alloc, &alt.rhs, all)
}
