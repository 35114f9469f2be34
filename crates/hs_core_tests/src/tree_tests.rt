use crate::lists::only;
use bp_base::{
    Fill, Kind, Name, OrigName, Renaming, Shown, Showns, Space, Ty, same_fills, same_orig_name,
    same_ty,
};
use hs_core::{
    Body, Choice, Decl, Exp, Rhs, Written, compose_renamings, rename_body, rename_name, rename_ty,
    rename_written, same_body, same_written,
};
use sqlite_items::{Boxed, Items};
use std::alloc::{AllocError, Global};
use std::test::Fail;
use unit_identity::read_ident;

fn name(alloc: Global, text: &[u8]) -> Result<Name, AllocError> {
    Name::from_bytes(alloc, text)
}

fn orig(alloc: Global, at: &[u8], space: Space, occ: &[u8]) -> Result<OrigName, Fail> {
    Ok(OrigName {
        at: read_ident(alloc, at)?,
        space,
        occ: name(alloc, occ)?,
    })
}

/// Says that the module, which fills the hole, exports these names.
fn show(
    alloc: Global,
    shown: &mut Showns,
    hole: &[u8],
    module: &[u8],
    space: Space,
    names: &[&[u8]],
) -> Result<(), Fail> {
    for occ in names {
        let name = orig(alloc, module, space, *occ)?;
        shown.push(Shown {
            hole: Name::from_bytes(alloc, hole)?,
            name,
        })?;
    }
    Ok(())
}

fn fill(alloc: Global, hole: &[u8], module: &[u8]) -> Result<Fill, Fail> {
    Ok(Fill {
        hole: name(alloc, hole)?,
        ident: read_ident(alloc, module)?,
    })
}

/// The hole is filled by the module, which exports the types and the values of these names.
fn filling(
    alloc: Global,
    hole: &[u8],
    module: &[u8],
    types: &[&[u8]],
    values: &[&[u8]],
) -> Result<Renaming, Fail> {
    let mut shown = Items::new(alloc);
    show(alloc, &mut shown, hole, module, Space::Types, types)?;
    show(alloc, &mut shown, hole, module, Space::Values, values)?;
    let fills = only(alloc, fill(alloc, hole, module)?)?;
    Ok(Renaming { fills, shown })
}

/// `Str` is filled by `strs/Str.Chars`.
fn chars_for_str(alloc: Global) -> Result<Renaming, Fail> {
    let types = [b"Str".as_slice()];
    let values = [b"empty".as_slice()];
    filling(
        alloc,
        b"Str",
        b"strs/Str.Chars",
        types.as_slice(),
        values.as_slice(),
    )
}

/// Whether the name of the module `at` becomes that of the module `after`.
fn becomes(
    alloc: Global,
    by: &Renaming,
    at: &[u8],
    space: Space,
    occ: &[u8],
    after: &[u8],
) -> Result<bool, Fail> {
    let before = orig(alloc, at, space, occ)?;
    let renamed = rename_name(alloc, &before, by)?;
    let wanted = orig(alloc, after, space, occ)?;
    Ok(same_orig_name(&renamed, &wanted))
}

#[test]
fn names_become_what_the_filler_exports(rt: HostRuntime) -> Result<(), Fail> {
    let alloc = rt.alloc();
    let by = chars_for_str(alloc)?;
    for (at, space, occ, after) in [
        (
            b"<Str>".as_slice(),
            Space::Types,
            b"Str".as_slice(),
            b"strs/Str.Chars".as_slice(),
        ),
        (b"<Str>", Space::Values, b"empty", b"strs/Str.Chars"),
        (b"<Str>", Space::Values, b"Str", b"<Str>"),
        (b"<Str>", Space::Types, b"Other", b"<Str>"),
        (b"<Set>", Space::Types, b"Str", b"<Set>"),
        (
            b"regex[Str=<Str>]/Regex",
            Space::Types,
            b"Match",
            b"regex[Str=strs/Str.Chars]/Regex",
        ),
        (b"base/Prelude", Space::Types, b"Int", b"base/Prelude"),
    ] {
        assert!(rt; becomes(alloc, &by, at, space, occ, after)?);
    }
    Ok(())
}

/// `* -> *`
fn arrow(alloc: Global) -> Result<Kind, AllocError> {
    let from = Boxed::new(alloc, Kind::Star)?;
    Ok(Kind::Arrow {
        from,
        to: Boxed::new(alloc, Kind::Star)?,
    })
}

/// The type `Str` of the module
fn str_of(alloc: Global, at: &[u8]) -> Result<Boxed<Ty>, Fail> {
    let name = orig(alloc, at, Space::Types, b"Str")?;
    let con = Ty::Con {
        name,
        kind: arrow(alloc)?,
    };
    Ok(Boxed::new(alloc, con)?)
}

/// `Str x`, where `Str` is a name of the module and `x` is a variable.
fn applied(alloc: Global, at: &[u8]) -> Result<Boxed<Ty>, Fail> {
    let fun = str_of(alloc, at)?;
    let arg = Boxed::new(alloc, Ty::Var { index: 0 })?;
    Ok(Boxed::new(alloc, Ty::App { fun, arg })?)
}

/// Whether the type becomes the other one.
fn becomes_type(alloc: Global, by: &Renaming, ty: &Ty, wanted: &Ty) -> Result<bool, AllocError> {
    let renamed = rename_ty(alloc, ty, by)?;
    Ok(same_ty(&renamed, wanted))
}

#[test]
fn names_in_types_keep_their_kinds(rt: HostRuntime) -> Result<(), Fail> {
    let alloc = rt.alloc();
    let by = chars_for_str(alloc)?;
    let ty = applied(alloc, b"<Str>")?;
    let wanted = applied(alloc, b"strs/Str.Chars")?;
    assert!(rt; becomes_type(alloc, &by, ty.get(), wanted.get())?);
    Ok(())
}

/// The type `Str` of the module, as it is written
fn written(alloc: Global, at: &[u8]) -> Result<Boxed<Written>, Fail> {
    let name = orig(alloc, at, Space::Types, b"Str")?;
    Ok(Boxed::new(alloc, Written::WCon { name })?)
}

/// Whether the written type becomes the other one.
fn becomes_written(
    alloc: Global,
    by: &Renaming,
    ty: &Written,
    wanted: &Written,
) -> Result<bool, AllocError> {
    let renamed = rename_written(alloc, ty, by)?;
    Ok(same_written(&renamed, wanted))
}

#[test]
fn names_in_written_types_are_renamed(rt: HostRuntime) -> Result<(), Fail> {
    let alloc = rt.alloc();
    let by = chars_for_str(alloc)?;
    let ty = written(alloc, b"<Str>")?;
    let wanted = written(alloc, b"strs/Str.Chars")?;
    assert!(rt; becomes_written(alloc, &by, ty.get(), wanted.get())?);
    Ok(())
}

/// The value `empty` of the module
fn empty_of(alloc: Global, at: &[u8]) -> Result<Boxed<Exp>, Fail> {
    let name = orig(alloc, at, Space::Values, b"empty")?;
    Ok(Boxed::new(alloc, Exp::Global { name })?)
}

/// The value `empty` of the module, applied to a local of the same name
fn call(alloc: Global, at: &[u8]) -> Result<Exp, Fail> {
    let fun = empty_of(alloc, at)?;
    let local = Exp::Local {
        name: name(alloc, b"empty")?,
    };
    Ok(Exp::Apply {
        fun,
        args: only(alloc, local)?,
    })
}

/// The right side without guards
fn rhs(alloc: Global, exp: Exp) -> Result<Rhs, AllocError> {
    let choice = Choice {
        guards: Items::new(alloc),
        exp,
    };
    Ok(Rhs {
        choices: only(alloc, choice)?,
        local: Items::new(alloc),
    })
}

/// `f = empty empty`, where the first `empty` is that of the module
fn body(alloc: Global, at: &[u8]) -> Result<Body, Fail> {
    let rhs = rhs(alloc, call(alloc, at)?)?;
    let clause = Decl::Clause {
        occ: name(alloc, b"f")?,
        pats: Items::new(alloc),
        rhs,
    };
    Ok(Body {
        decls: only(alloc, clause)?,
    })
}

#[test]
fn locals_stay_where_names_of_modules_are_renamed(rt: HostRuntime) -> Result<(), Fail> {
    let alloc = rt.alloc();
    let by = chars_for_str(alloc)?;
    let before = body(alloc, b"<Str>")?;
    let renamed = rename_body(alloc, &before, &by)?;
    let wanted = body(alloc, b"strs/Str.Chars")?;
    assert!(rt; same_body(&renamed, &wanted));
    Ok(())
}

/// Whether both show the same names at the same holes.
fn same_shown(a: &[Shown], b: &[Shown]) -> bool {
    if a.len() != b.len() {
        return false;
    }
    for i in 0..a.len() {
        if a[i].hole != b[i].hole || !same_orig_name(&a[i].name, &b[i].name) {
            return false;
        }
    }
    true
}

/// The hole is filled by the module, which exports a type `Str`.
fn type_for(alloc: Global, hole: &[u8], module: &[u8]) -> Result<Renaming, Fail> {
    let types = [b"Str".as_slice()];
    filling(alloc, hole, module, types.as_slice(), &[])
}

#[test]
fn renamings_compose(rt: HostRuntime) -> Result<(), Fail> {
    let alloc = rt.alloc();
    let first = type_for(alloc, b"Str", b"<Chars>")?;
    let then = type_for(alloc, b"Chars", b"strs/Str.Chars")?;
    let both = compose_renamings(alloc, &first, &then)?;
    let wanted = type_for(alloc, b"Str", b"strs/Str.Chars")?;
    assert!(rt; same_fills(both.fills.as_slice(), wanted.fills.as_slice()));
    assert!(rt; same_shown(both.shown.as_slice(), wanted.shown.as_slice()));
    Ok(())
}
