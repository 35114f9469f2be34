use bp_base::{Ident, Kind, Name, OrigName, Space, Special, Ty, Unit, base_prelude, special_name};
use hs_core::{Pat, Pats};
use infer_patterns::{Declared, infer_pat};
use sqlite_items::{Boxed, Items};
use std::alloc::{AllocError, Global};
use std::test::Fail;
use type_equations::{Binder, Equations, Failure};

fn app(alloc: Global, fun: Ty, arg: Ty) -> Result<Ty, AllocError> {
    Ok(Ty::App {
        fun: Boxed::new(alloc, fun)?,
        arg: Boxed::new(alloc, arg)?,
    })
}

fn arrow_kind(alloc: Global, from: Kind, to: Kind) -> Result<Kind, AllocError> {
    Ok(Kind::Arrow {
        from: Boxed::new(alloc, from)?,
        to: Boxed::new(alloc, to)?,
    })
}

/// `[a]`, of the variable 0.
fn list(alloc: Global) -> Result<Ty, AllocError> {
    let list = Ty::Con {
        name: special_name(alloc, Space::Types, Special::List)?,
        kind: arrow_kind(alloc, Kind::Star, Kind::Star)?,
    };
    app(alloc, list, Ty::Var { index: 0 })
}

/// `t -> u`
fn function(alloc: Global, from: Ty, to: Ty) -> Result<Ty, AllocError> {
    let to_star = arrow_kind(alloc, Kind::Star, Kind::Star)?;
    let arrow = Ty::Con {
        name: special_name(alloc, Space::Types, Special::Arrow)?,
        kind: arrow_kind(alloc, Kind::Star, to_star)?,
    };
    let front = app(alloc, arrow, from)?;
    app(alloc, front, to)
}

/// `(:) :: a -> [a] -> [a]`
fn cons(alloc: Global) -> Result<Declared, AllocError> {
    let mut kinds = Vec::new(alloc);
    kinds.push(Kind::Star)?;
    let rest = function(alloc, list(alloc)?, list(alloc)?)?;
    Ok(Declared {
        name: special_name(alloc, Space::Values, Special::Cons)?,
        kinds,
        fields: Some(2),
        ty: function(alloc, Ty::Var { index: 0 }, rest)?,
    })
}

fn variable(alloc: Global, text: &[u8]) -> Result<Pat, AllocError> {
    Ok(Pat::PVar {
        name: Name::from_bytes(alloc, text)?,
    })
}

fn two(alloc: Global, first: Pat, second: Pat) -> Result<Pats, AllocError> {
    let mut parts = Items::new(alloc);
    parts.push(first)?;
    parts.push(second)?;
    Ok(parts)
}

/// `x : xs`
fn cons_of(alloc: Global, first: Pat, second: Pat) -> Result<Pat, AllocError> {
    Ok(Pat::PCon {
        name: special_name(alloc, Space::Values, Special::Cons)?,
        args: two(alloc, first, second)?,
    })
}

fn number() -> Pat {
    Pat::PInt {
        negative: false,
        value: 1,
    }
}

/// How many names a pattern binds at a new unknown, or that it has no type.
fn bound(alloc: Global, pat: &Pat) -> Result<Option<usize>, AllocError> {
    let mut names = Vec::new(alloc);
    names.push(cons(alloc)?)?;
    let mut state = Equations::new(alloc);
    let mut binders: Vec<Binder> = Vec::new(alloc);
    let wanted = state.fresh(Kind::Star)?;
    match infer_pat(
        alloc,
        pat,
        wanted,
        names.as_slice(),
        &mut state,
        &mut binders,
    ) {
        Ok(()) => Ok(Some(binders.len())),
        Err(Failure::NoTyping) => Ok(None),
        Err(Failure::NoMemory) => Ok(Some(1000)),
    }
}

#[test]
fn patterns(rt: HostRuntime) -> Result<(), Fail> {
    let alloc = rt.alloc();
    let pair = Pat::PTuple {
        parts: two(alloc, variable(alloc, b"x")?, number())?,
    };
    assert_eq!(rt; bound(alloc, &pair)?, Some(1));
    let as_lazy = Pat::PAs {
        name: Name::from_bytes(alloc, b"y")?,
        pat: Boxed::new(
            alloc,
            Pat::PLazy {
                pat: Boxed::new(alloc, pair)?,
            },
        )?,
    };
    assert_eq!(rt; bound(alloc, &as_lazy)?, Some(2));
    let mixed = Pat::PList {
        parts: two(alloc, number(), Pat::PChr { code: 99 })?,
    };
    assert_eq!(rt; bound(alloc, &mixed)?, None);
    let long = cons_of(alloc, variable(alloc, b"x")?, variable(alloc, b"xs")?)?;
    assert_eq!(rt; bound(alloc, &long)?, Some(2));
    let ill = cons_of(alloc, number(), number())?;
    assert_eq!(rt; bound(alloc, &ill)?, None);
    let mut one = Items::new(alloc);
    one.push(Pat::PWild)?;
    let short = Pat::PCon {
        name: special_name(alloc, Space::Values, Special::Cons)?,
        args: one,
    };
    assert_eq!(rt; bound(alloc, &short)?, None);
    let text = cons_of(
        alloc,
        Pat::PChr { code: 97 },
        Pat::PStr {
            codes: Items::new(alloc),
        },
    )?;
    assert_eq!(rt; bound(alloc, &text)?, Some(0));
    Ok(())
}
