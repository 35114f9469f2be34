use bp_base::{Kind, Name, OrigName, Space, Special, Ty, special_name};
use hs_core::{Alt, Choice, Exp, Guard, Pat, Rhs, Written};
use infer_expressions::{Refusal, infer_exp};
use infer_patterns::Declared;
use sqlite_items::{Boxed, Items};
use std::alloc::{AllocError, Global};
use std::test::Fail;
use type_equations::{Binder, Equations};

fn app(alloc: Global, fun: Ty, arg: Ty) -> Result<Ty, AllocError> {
    Ok(Ty::App {
        fun: Boxed::new(alloc, fun)?,
        arg: Boxed::new(alloc, arg)?,
    })
}

fn arrow_kind(alloc: Global, from: Kind, to: Kind) -> Result<Kind, AllocError> {
    Ok(Kind::Arrow {
        from: Boxed::new(alloc, from)?,
        to: Boxed::new(alloc, to)?,
    })
}

/// `[a]`, of the variable 0.
fn list(alloc: Global) -> Result<Ty, AllocError> {
    let list = Ty::Con {
        name: special_name(alloc, Space::Types, Special::List)?,
        kind: arrow_kind(alloc, Kind::Star, Kind::Star)?,
    };
    app(alloc, list, Ty::Var { index: 0 })
}

/// `t -> u`
fn function(alloc: Global, from: Ty, to: Ty) -> Result<Ty, AllocError> {
    let to_star = arrow_kind(alloc, Kind::Star, Kind::Star)?;
    let arrow = Ty::Con {
        name: special_name(alloc, Space::Types, Special::Arrow)?,
        kind: arrow_kind(alloc, Kind::Star, to_star)?,
    };
    let front = app(alloc, arrow, from)?;
    app(alloc, front, to)
}

fn cons_name(alloc: Global) -> Result<OrigName, AllocError> {
    special_name(alloc, Space::Values, Special::Cons)
}

/// `(:) :: a -> [a] -> [a]`
fn cons_type(alloc: Global) -> Result<Declared, AllocError> {
    let mut kinds = Vec::new(alloc);
    kinds.push(Kind::Star)?;
    let rest = function(alloc, list(alloc)?, list(alloc)?)?;
    Ok(Declared {
        name: cons_name(alloc)?,
        kinds,
        fields: Some(2),
        ty: function(alloc, Ty::Var { index: 0 }, rest)?,
    })
}

fn name(alloc: Global, text: &[u8]) -> Result<Name, AllocError> {
    Name::from_bytes(alloc, text)
}

fn local(alloc: Global, text: &[u8]) -> Result<Exp, AllocError> {
    Ok(Exp::Local {
        name: name(alloc, text)?,
    })
}

fn variable(alloc: Global, text: &[u8]) -> Result<Pat, AllocError> {
    Ok(Pat::PVar {
        name: name(alloc, text)?,
    })
}

fn cons(alloc: Global) -> Result<Exp, AllocError> {
    Ok(Exp::Global {
        name: cons_name(alloc)?,
    })
}

fn one() -> Exp {
    Exp::Int { value: 1 }
}

fn letter() -> Exp {
    Exp::Chr { code: 99 }
}

fn nothing(alloc: Global) -> Exp {
    Exp::List {
        parts: Items::new(alloc),
    }
}

fn tuple(alloc: Global, first: Exp, second: Exp) -> Result<Exp, AllocError> {
    let mut parts = Items::new(alloc);
    parts.push(first)?;
    parts.push(second)?;
    Ok(Exp::Tuple { parts })
}

fn list_of(alloc: Global, first: Exp, second: Exp) -> Result<Exp, AllocError> {
    let mut parts = Items::new(alloc);
    parts.push(first)?;
    parts.push(second)?;
    Ok(Exp::List { parts })
}

fn apply(alloc: Global, fun: Exp, arg: Exp) -> Result<Exp, AllocError> {
    let mut args = Items::new(alloc);
    args.push(arg)?;
    Ok(Exp::Apply {
        fun: Boxed::new(alloc, fun)?,
        args,
    })
}

fn lambda(alloc: Global, text: &[u8], body: Exp) -> Result<Exp, AllocError> {
    let mut pats = Items::new(alloc);
    pats.push(variable(alloc, text)?)?;
    Ok(Exp::Lambda {
        pats,
        body: Boxed::new(alloc, body)?,
    })
}

fn conditional(alloc: Global, test: Exp) -> Result<Exp, AllocError> {
    Ok(Exp::If {
        test: Boxed::new(alloc, test)?,
        yes: Boxed::new(alloc, one())?,
        no: Boxed::new(alloc, one())?,
    })
}

/// An alternative, behind at most one guard.
fn alternative(alloc: Global, pat: Pat, guard: Option<Guard>, exp: Exp) -> Result<Alt, AllocError> {
    let mut guards = Items::new(alloc);
    if let Some(guard) = guard {
        guards.push(guard)?;
    }
    let mut choices = Items::new(alloc);
    choices.push(Choice { guards, exp })?;
    Ok(Alt {
        pat,
        rhs: Rhs {
            choices,
            local: Items::new(alloc),
        },
    })
}

fn case(alloc: Global, of: Exp, first: Alt, second: Alt) -> Result<Exp, AllocError> {
    let mut alts = Items::new(alloc);
    alts.push(first)?;
    alts.push(second)?;
    Ok(Exp::Case {
        of: Boxed::new(alloc, of)?,
        alts,
    })
}

/// Why an expression has no type at a new unknown, or nothing where it has one.
fn refusal(alloc: Global, exp: &Exp) -> Result<Option<Refusal>, AllocError> {
    let mut names = Vec::new(alloc);
    names.push(cons_type(alloc)?)?;
    let env: Vec<Binder> = Vec::new(alloc);
    let mut state = Equations::new(alloc);
    let wanted = state.fresh(Kind::Star)?;
    match infer_exp(
        alloc,
        exp,
        wanted,
        env.as_slice(),
        names.as_slice(),
        &mut state,
    ) {
        Ok(()) => Ok(None),
        Err(refusal) => Ok(Some(refusal)),
    }
}

/// A conditional on a local, under a lambda that binds it.
fn conditional_on(alloc: Global, text: &[u8]) -> Result<Exp, AllocError> {
    let test = local(alloc, text)?;
    lambda(alloc, text, conditional(alloc, test)?)
}

#[test]
fn lambdas(rt: HostRuntime) -> Result<(), Fail> {
    let alloc = rt.alloc();
    let none = Some(Refusal::NoTyping);
    let identity = lambda(alloc, b"x", local(alloc, b"x")?)?;
    assert_eq!(rt; refusal(alloc, &identity)?, None);
    assert_eq!(rt; refusal(alloc, &local(alloc, b"x")?)?, none);
    let itself = apply(alloc, local(alloc, b"f")?, local(alloc, b"f")?)?;
    assert_eq!(rt; refusal(alloc, &lambda(alloc, b"f", itself)?)?, none);
    assert_eq!(rt; refusal(alloc, &apply(alloc, identity, one())?)?, None);
    assert_eq!(rt; refusal(alloc, &apply(alloc, one(), one())?)?, none);
    Ok(())
}

#[test]
fn parts(rt: HostRuntime) -> Result<(), Fail> {
    let alloc = rt.alloc();
    let none = Some(Refusal::NoTyping);
    assert_eq!(rt; refusal(alloc, &tuple(alloc, one(), letter())?)?, None);
    assert_eq!(rt; refusal(alloc, &list_of(alloc, one(), letter())?)?, none);
    assert_eq!(rt; refusal(alloc, &conditional(alloc, one())?)?, none);
    assert_eq!(rt; refusal(alloc, &conditional_on(alloc, b"x")?)?, None);
    let outer = apply(alloc, local(alloc, b"x")?, one())?;
    let hidden = tuple(alloc, conditional_on(alloc, b"x")?, outer)?;
    assert_eq!(rt; refusal(alloc, &lambda(alloc, b"x", hidden)?)?, None);
    Ok(())
}

#[test]
fn names_and_sections(rt: HostRuntime) -> Result<(), Fail> {
    let alloc = rt.alloc();
    let none = Some(Refusal::NoTyping);
    let both = tuple(
        alloc,
        apply(alloc, cons(alloc)?, one())?,
        apply(alloc, cons(alloc)?, letter())?,
    )?;
    assert_eq!(rt; refusal(alloc, &both)?, None);
    let section = Exp::RightSection {
        op: Boxed::new(alloc, cons(alloc)?)?,
        arg: Boxed::new(alloc, nothing(alloc))?,
    };
    assert_eq!(rt; refusal(alloc, &apply(alloc, section, one())?)?, None);
    let ill = Exp::RightSection {
        op: Boxed::new(alloc, cons(alloc)?)?,
        arg: Boxed::new(alloc, one())?,
    };
    assert_eq!(rt; refusal(alloc, &ill)?, none);
    Ok(())
}

/// `_ | y <- 'c' -> y`
fn bound_alternative(alloc: Global) -> Result<Alt, AllocError> {
    let bind = Guard::Bind {
        pat: variable(alloc, b"y")?,
        exp: letter(),
    };
    alternative(alloc, Pat::PWild, Some(bind), local(alloc, b"y")?)
}

#[test]
fn alternatives(rt: HostRuntime) -> Result<(), Fail> {
    let alloc = rt.alloc();
    let none = Some(Refusal::NoTyping);
    let first = alternative(alloc, variable(alloc, b"x")?, None, local(alloc, b"x")?)?;
    let second = alternative(alloc, Pat::PWild, None, one())?;
    assert_eq!(rt; refusal(alloc, &case(alloc, one(), first, second)?)?, None);
    let first = alternative(alloc, variable(alloc, b"x")?, None, local(alloc, b"x")?)?;
    let second = alternative(alloc, Pat::PWild, None, letter())?;
    assert_eq!(rt; refusal(alloc, &case(alloc, one(), first, second)?)?, none);
    Ok(())
}

#[test]
fn guards(rt: HostRuntime) -> Result<(), Fail> {
    let alloc = rt.alloc();
    let none = Some(Refusal::NoTyping);
    let second = alternative(alloc, Pat::PWild, None, letter())?;
    let seen = case(alloc, one(), bound_alternative(alloc)?, second)?;
    assert_eq!(rt; refusal(alloc, &seen)?, None);
    let second = alternative(alloc, Pat::PWild, None, local(alloc, b"y")?)?;
    let unseen = case(alloc, one(), bound_alternative(alloc)?, second)?;
    assert_eq!(rt; refusal(alloc, &unseen)?, none);
    let first = alternative(alloc, Pat::PWild, Some(Guard::Test { exp: one() }), one())?;
    let second = alternative(alloc, Pat::PWild, None, one())?;
    assert_eq!(rt; refusal(alloc, &case(alloc, one(), first, second)?)?, none);
    Ok(())
}

#[test]
fn forms_that_are_not_covered(rt: HostRuntime) -> Result<(), Fail> {
    let alloc = rt.alloc();
    let nested = Exp::Let {
        decls: Items::new(alloc),
        body: Boxed::new(alloc, one())?,
    };
    assert_eq!(rt;
        refusal(alloc, &tuple(alloc, one(), nested)?)?,
        Some(Refusal::Uncovered)
    );
    let annotated = Exp::Annot {
        exp: Boxed::new(alloc, one())?,
        ty: Written::WVar {
            name: name(alloc, b"a")?,
        },
    };
    assert_eq!(rt; refusal(alloc, &annotated)?, Some(Refusal::Uncovered));
    Ok(())
}
