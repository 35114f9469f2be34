//! Renaming in expressions and declarations.
ghost use Rattle.std.specs.Prelude.{◌≡◌, IfOk, map};
ghost use Rattle.hs_core.specs.Rename.{renamed_exp, renamed_decl, renamed_rhs, renamed_choice, renamed_guard, renamed_alt, renamed_body};

use crate::rename::{rename_cons, rename_name, rename_pat, rename_pats, rename_written};
use crate::{Alt, Alts, Body, Choice, Choices, Decl, Decls, Exp, Exps, Guard, Guards, Rhs};
use bp_base::{Renaming, copied_names};
use sqlite_items::{Boxed, Items};
use std::alloc::{AllocError, Global};

/// The expression with each name renamed. Locals stay.
#[cycle(exp)]
#[tactic(auto, using(crate::proofs::TreeLemmas::tree_equations))]
pub fn rename_exp(alloc: Global, exp: &Exp, by: &Renaming) -> Result<Exp, AllocError>
    ensures { IfOk result (λ r. r ≡ renamed_exp exp.now by.now) }
{
    match exp {
        Exp::Local { name } => Ok(Exp::Local {
            name: name.copied(alloc)?,
        }),
        Exp::Global { name } => Ok(Exp::Global {
            name: rename_name(alloc, name, by)?,
        }),
        Exp::Int { value } => Ok(Exp::Int { value: *value }),
        Exp::Chr { code } => Ok(Exp::Chr { code: *code }),
        Exp::Str { codes } => Ok(Exp::Str {
            codes: Items::from_slice(alloc, codes.as_slice())?,
        }),
        Exp::Apply { fun, args } => {
            let args = rename_exps(alloc, args, by)?;
            Ok(Exp::Apply {
                fun: rename_boxed(alloc, fun, by)?,
                args,
            })
        }
        Exp::Lambda { pats, body } => {
            let pats = rename_pats(alloc, pats, by)?;
            Ok(Exp::Lambda {
                pats,
                body: rename_boxed(alloc, body, by)?,
            })
        }
        Exp::Let { decls, body } => {
            let decls = rename_decls(alloc, decls, by)?;
            Ok(Exp::Let {
                decls,
                body: rename_boxed(alloc, body, by)?,
            })
        }
        Exp::If { test, yes, no } => {
            let test = rename_boxed(alloc, test, by)?;
            let yes = rename_boxed(alloc, yes, by)?;
            Ok(Exp::If {
                test,
                yes,
                no: rename_boxed(alloc, no, by)?,
            })
        }
        Exp::Case { of, alts } => {
            let of = rename_boxed(alloc, of, by)?;
            Ok(Exp::Case {
                of,
                alts: rename_alts(alloc, alts, by)?,
            })
        }
        Exp::Tuple { parts } => Ok(Exp::Tuple {
            parts: rename_exps(alloc, parts, by)?,
        }),
        Exp::List { parts } => Ok(Exp::List {
            parts: rename_exps(alloc, parts, by)?,
        }),
        Exp::RightSection { op, arg } => {
            let op = rename_boxed(alloc, op, by)?;
            Ok(Exp::RightSection {
                op,
                arg: rename_boxed(alloc, arg, by)?,
            })
        }
        Exp::Annot { exp, ty } => {
            let exp = rename_boxed(alloc, exp, by)?;
            Ok(Exp::Annot {
                exp,
                ty: rename_written(alloc, ty, by)?,
            })
        }
    }
}

#[cycle(exp)]
fn rename_boxed(alloc: Global, exp: &Boxed<Exp>, by: &Renaming) -> Result<Boxed<Exp>, AllocError>
    ensures { IfOk result (λ r. r ≡ renamed_exp exp.now by.now) }
{
    let exp = rename_exp(alloc, exp.get(), by)?;
    Boxed::new(alloc, exp)
}

/// The expressions with each name renamed.
#[cycle(exp)]
pub fn rename_exps(alloc: Global, all: &Exps, by: &Renaming) -> Result<Exps, AllocError>
    ensures { IfOk result (λ r. r ≡ map (λ e. renamed_exp e by.now) all.now) }
{
    let mut made = Items::new(alloc);
    for each in all.as_slice() {
        made.push(rename_exp(alloc, each, by)?)?;
    }
    Ok(made)
}

/// The declaration with each name renamed. What it declares stays.
#[cycle(exp)]
#[tactic(auto, using(crate::proofs::TreeLemmas::tree_equations))]
pub fn rename_decl(alloc: Global, decl: &Decl, by: &Renaming) -> Result<Decl, AllocError>
    ensures { IfOk result (λ r. r ≡ renamed_decl decl.now by.now) }
{
    match decl {
        Decl::DataDecl {
            occ,
            is_new,
            params,
            cons,
        } => Ok(Decl::DataDecl {
            occ: occ.copied(alloc)?,
            is_new: *is_new,
            params: copied_names(alloc, params)?,
            cons: rename_cons(alloc, cons, by)?,
        }),
        Decl::SynonymDecl { occ, params, body } => Ok(Decl::SynonymDecl {
            occ: occ.copied(alloc)?,
            params: copied_names(alloc, params)?,
            body: rename_written(alloc, body, by)?,
        }),
        Decl::TypeSig { occ, ty } => Ok(Decl::TypeSig {
            occ: occ.copied(alloc)?,
            ty: rename_written(alloc, ty, by)?,
        }),
        Decl::FixityOf { occ, fixity } => Ok(Decl::FixityOf {
            occ: occ.copied(alloc)?,
            fixity: *fixity,
        }),
        Decl::Clause { occ, pats, rhs } => Ok(Decl::Clause {
            occ: occ.copied(alloc)?,
            pats: rename_pats(alloc, pats, by)?,
            rhs: rename_rhs(alloc, rhs, by)?,
        }),
        Decl::PatBind { pat, rhs } => Ok(Decl::PatBind {
            pat: rename_pat(alloc, pat, by)?,
            rhs: rename_rhs(alloc, rhs, by)?,
        }),
    }
}

/// The declarations with each name renamed.
#[cycle(exp)]
pub fn rename_decls(alloc: Global, all: &Decls, by: &Renaming) -> Result<Decls, AllocError>
    ensures { IfOk result (λ r. r ≡ map (λ e. renamed_decl e by.now) all.now) }
{
    let mut made = Items::new(alloc);
    for each in all.as_slice() {
        made.push(rename_decl(alloc, each, by)?)?;
    }
    Ok(made)
}

/// The right side with each name renamed.
#[cycle(exp)]
#[tactic(auto, using(crate::proofs::TreeLemmas::tree_equations))]
pub fn rename_rhs(alloc: Global, rhs: &Rhs, by: &Renaming) -> Result<Rhs, AllocError>
    ensures { IfOk result (λ r. r ≡ renamed_rhs rhs.now by.now) }
{
    Ok(Rhs {
        choices: rename_choices(alloc, &rhs.choices, by)?,
        local: rename_decls(alloc, &rhs.local, by)?,
    })
}

/// The choices with each name renamed.
#[cycle(exp)]
pub fn rename_choices(alloc: Global, all: &Choices, by: &Renaming) -> Result<Choices, AllocError>
    ensures { IfOk result (λ r. r ≡ map (λ e. renamed_choice e by.now) all.now) }
{
    let mut made = Items::new(alloc);
    for each in all.as_slice() {
        made.push(rename_choice(alloc, each, by)?)?;
    }
    Ok(made)
}

/// The choice with each name renamed.
#[cycle(exp)]
pub fn rename_choice(alloc: Global, choice: &Choice, by: &Renaming) -> Result<Choice, AllocError>
    ensures { IfOk result (λ r. r ≡ renamed_choice choice.now by.now) }
{
    Ok(Choice {
        guards: rename_guards(alloc, &choice.guards, by)?,
        exp: rename_exp(alloc, &choice.exp, by)?,
    })
}

/// The guards with each name renamed.
#[cycle(exp)]
pub fn rename_guards(alloc: Global, all: &Guards, by: &Renaming) -> Result<Guards, AllocError>
    ensures { IfOk result (λ r. r ≡ map (λ e. renamed_guard e by.now) all.now) }
{
    let mut made = Items::new(alloc);
    for each in all.as_slice() {
        made.push(rename_guard(alloc, each, by)?)?;
    }
    Ok(made)
}

/// The guard with each name renamed.
#[cycle(exp)]
pub fn rename_guard(alloc: Global, guard: &Guard, by: &Renaming) -> Result<Guard, AllocError>
    ensures { IfOk result (λ r. r ≡ renamed_guard guard.now by.now) }
{
    match guard {
        Guard::Test { exp } => Ok(Guard::Test {
            exp: rename_exp(alloc, exp, by)?,
        }),
        Guard::Bind { pat, exp } => Ok(Guard::Bind {
            pat: rename_pat(alloc, pat, by)?,
            exp: rename_exp(alloc, exp, by)?,
        }),
    }
}

/// The alternatives with each name renamed.
#[cycle(exp)]
pub fn rename_alts(alloc: Global, all: &Alts, by: &Renaming) -> Result<Alts, AllocError>
    ensures { IfOk result (λ r. r ≡ map (λ e. renamed_alt e by.now) all.now) }
{
    let mut made = Items::new(alloc);
    for each in all.as_slice() {
        made.push(rename_alt(alloc, each, by)?)?;
    }
    Ok(made)
}

/// The alternative with each name renamed.
#[cycle(exp)]
#[tactic(auto, using(crate::proofs::TreeLemmas::tree_equations))]
pub fn rename_alt(alloc: Global, alt: &Alt, by: &Renaming) -> Result<Alt, AllocError>
    ensures { IfOk result (λ r. r ≡ renamed_alt alt.now by.now) }
{
    Ok(Alt {
        pat: rename_pat(alloc, &alt.pat, by)?,
        rhs: rename_rhs(alloc, &alt.rhs, by)?,
    })
}

/// The declarations of a module with each name renamed. Locals and declared names stay.
pub fn rename_body(alloc: Global, body: &Body, by: &Renaming) -> Result<Body, AllocError>
    ensures { IfOk result (λ r. r ≡ renamed_body body.now by.now) }
{
    Ok(Body {
        decls: rename_decls(alloc, &body.decls, by)?,
    })
}
