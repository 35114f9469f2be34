//! Types applied to arguments that stand on a stack, the first one uppermost.
ghost use Rattle.std.specs.Prelude.{◌≡◌, ◌≤◌, ◌↔◌, IsTrue, IfOk, OnOk, map, take, drop};
ghost use Rattle.type_terms.specs.Terms.{app, applied};
ghost use Rattle.hs_core.specs.Types.{type_term, applied_to, listed, depth};
ghost use Rattle.type_expand.specs.Expanding.{stacked_types, IsMoved};

use bp_base::{Ty, Tys};
use sqlite_items::{Boxed, Items};
use std::alloc::{AllocError, Global};

// A type applied to one more.
#[tactic(auto, using(crate::proofs::TypeLemmas::type_app))]
fn applied_type(alloc: Global, fun: Ty, arg: Ty) -> Result<Ty, AllocError>
    ensures { IfOk result (λ t. type_term t ≡ app (type_term fun) (type_term arg)) }
{
    Ok(Ty::App {
        fun: Boxed::new(alloc, fun)?,
        arg: Boxed::new(alloc, arg)?,
    })
}

/// A type applied to all arguments of a stack.
pub fn apply_all(alloc: Global, ty: Ty, args: Tys) -> Result<Ty, AllocError>
    ensures { IfOk result (λ t. type_term t ≡ applied_to (type_term ty) (stacked_types args)) }
{
    let mut all = ty;
    let mut rest = args;
    'arguments: while let Some(arg) = rest.pop() {
        all = applied_type(alloc, all, arg)?;
    }
    Ok(all)
}

// The argument on top, where there is one, goes behind the others.
fn move_top(args: &mut Tys, front: &mut Tys) -> Result<(), AllocError>
    ensures { OnOk result (IsMoved args.old args.new front.old front.new) }
{
    match args.pop() {
        Some(arg) => front.push(arg),
        None => Ok(()),
    }
}

// The first so many arguments, in order; the others stay.
fn take_args(alloc: Global, args: &mut Tys, many: u64) -> Result<Tys, AllocError>
    ensures front { IfOk result (λ front. map type_term front ≡ take many (stacked_types args.old)) }
    ensures rest { OnOk result (stacked_types args.new ≡ drop many (stacked_types args.old)) }
{
    let mut front = Items::new(alloc);
    for _index in 0..many {
        move_top(args, &mut front)?;
    }
    Ok(front)
}

/// A type with the variables from 0 replaced by these types. The variables past them, which no body of a synonym has, count from
/// their end.
pub fn substituted(alloc: Global, ty: &Ty, args: &[Ty]) -> Result<Ty, AllocError>
    ensures { IfOk result (λ t. type_term t ≡ applied (listed (map type_term args.now)) (type_term ty.now)) }
{
    match ty {
        Ty::Var { index } => {
            if *index < args.len() as u64 {
                args[*index as usize].copied(alloc)
            } else {
                Ok(Ty::Var {
                    index: *index - args.len() as u64,
                })
            }
        }
        Ty::Con { .. } => ty.copied(alloc),
        Ty::App { fun, arg } => {
            let fun = substituted(alloc, fun.get(), args)?;
            let arg = substituted(alloc, arg.get(), args)?;
            applied_type(alloc, fun, arg)
        }
    }
}

/// A body with its parameters replaced by the first arguments, applied to the others.
pub fn instance(alloc: Global, body: &Ty, params: u64, args: Tys) -> Result<Ty, AllocError>
    ensures { IfOk result (λ t. type_term t ≡ applied_to (applied (listed (take params (stacked_types args))) (type_term body.now)) (drop params (stacked_types args))) }
{
    let mut rest = args;
    let front = take_args(alloc, &mut rest, params)?;
    let own = substituted(alloc, body, front.as_slice())?;
    apply_all(alloc, own, rest)
}

/// Whether a type is no deeper than this.
pub fn is_within(ty: &Ty, limit: u64) -> bool
    ensures { IsTrue result ↔ (depth (type_term ty.now) ≤ limit) }
{
    if limit == 0 {
        return false;
    }
    match ty {
        Ty::Var { .. } => true,
        Ty::Con { .. } => true,
        Ty::App { fun, arg } => {
            is_within(fun.get(), limit - 1) && is_within(arg.get(), limit - 1)
        }
    }
}
