//! The interface of the module `Prelude` of the component `base`, which is built in.
ghost use Rattle.std.specs.Prelude.{◌≡◌, [], ◌∷◌, ◌++◌, map, IfOk, OnOk};
ghost use Rattle.bp_base.specs.Specials.{base_prelude};
ghost use Rattle.bp_base.specs.declared.ty.Ty.TheVariants.{Var, App};
ghost use Rattle.hs_core.specs.Base.{kind_with, declared, special_type, list, pair, maybe, either, io, ◌⇒◌, value, field, synonym, base};
ghost use Rattle.hs_core.specs.Rows.{atomic_type, arrows, argument_type, row_type, row_export, row_con, row_data};

use crate::base_rows::{Argument, Atomic, ConRow, DATA_TYPES, DataRow, Row, VALUES};
use bp_base::{
    Con, Cons, Entity, Export, Exports, Field, Fields, Fixity, Interface, Kind, Name, Names,
    OrigName, Scheme, Space, Special, Ty, base_prelude, fixity_of_default, special_name,
};
use sqlite_items::{Boxed, Items};
use std::alloc::{AllocError, Global};

fn kind_with(alloc: Global, params: u64) -> Result<Kind, AllocError>
    ensures { IfOk result (λ kind. kind ≡ kind_with params) }
{
    let mut kind = Kind::Star;
    for _ in 0..params {
        kind = Kind::Arrow {
            from: Boxed::new(alloc, Kind::Star)?,
            to: Boxed::new(alloc, kind)?,
        };
    }
    Ok(kind)
}

fn name_in(alloc: Global, space: Space, occ: &[u8]) -> Result<OrigName, AllocError>
    ensures { IfOk result (λ name. name ≡ record { at = base_prelude; space = space; occ = occ.now }) }
{
    Ok(OrigName {
        at: base_prelude(alloc)?,
        space,
        occ: Name::from_bytes(alloc, occ)?,
    })
}

fn declared(alloc: Global, occ: &[u8], params: u64) -> Result<Ty, AllocError>
    ensures { IfOk result (λ ty. ty ≡ declared occ.now params) }
{
    Ok(Ty::Con {
        name: name_in(alloc, Space::Types, occ)?,
        kind: kind_with(alloc, params)?,
    })
}

fn special(alloc: Global, special: Special, params: u64) -> Result<Ty, AllocError>
    ensures { IfOk result (λ ty. ty ≡ special_type special params) }
{
    Ok(Ty::Con {
        name: special_name(alloc, Space::Types, special)?,
        kind: kind_with(alloc, params)?,
    })
}

fn applied(alloc: Global, fun: Ty, arg: Ty) -> Result<Ty, AllocError>
    ensures { IfOk result (λ ty. ty ≡ App fun arg) }
{
    Ok(Ty::App {
        fun: Boxed::new(alloc, fun)?,
        arg: Boxed::new(alloc, arg)?,
    })
}

fn applied_twice(alloc: Global, fun: Ty, first: Ty, second: Ty) -> Result<Ty, AllocError>
    ensures { IfOk result (λ ty. ty ≡ App (App fun first) second) }
{
    let once = applied(alloc, fun, first)?;
    applied(alloc, once, second)
}

fn list(alloc: Global, of: Ty) -> Result<Ty, AllocError>
    ensures { IfOk result (λ ty. ty ≡ list of) }
{
    let list = special(alloc, Special::List, 1)?;
    applied(alloc, list, of)
}

fn pair(alloc: Global, first: u64, second: u64) -> Result<Ty, AllocError>
    ensures { IfOk result (λ ty. ty ≡ pair (Var first) (Var second)) }
{
    let pair = special(alloc, Special::Tuple { parts: 2 }, 2)?;
    applied_twice(
        alloc,
        pair,
        Ty::Var { index: first },
        Ty::Var { index: second },
    )
}

fn maybe(alloc: Global, of: u64) -> Result<Ty, AllocError>
    ensures { IfOk result (λ ty. ty ≡ maybe (Var of)) }
{
    let maybe = declared(alloc, b"Maybe", 1)?;
    applied(alloc, maybe, Ty::Var { index: of })
}

fn either(alloc: Global, left: u64, right: u64) -> Result<Ty, AllocError>
    ensures { IfOk result (λ ty. ty ≡ either (Var left) (Var right)) }
{
    let either = declared(alloc, b"Either", 2)?;
    applied_twice(
        alloc,
        either,
        Ty::Var { index: left },
        Ty::Var { index: right },
    )
}

fn io(alloc: Global, of: Ty) -> Result<Ty, AllocError>
    ensures { IfOk result (λ ty. ty ≡ io of) }
{
    let io = declared(alloc, b"IO", 1)?;
    applied(alloc, io, of)
}

fn function(alloc: Global, from: Ty, to: Ty) -> Result<Ty, AllocError>
    ensures { IfOk result (λ ty. ty ≡ from ⇒ to) }
{
    let arrow = special(alloc, Special::Arrow, 2)?;
    applied_twice(alloc, arrow, from, to)
}

fn atomic_type(alloc: Global, atomic: Atomic) -> Result<Ty, AllocError>
    ensures { IfOk result (λ ty. ty ≡ atomic_type atomic) }
{
    match atomic {
        Atomic::Var { index } => Ok(Ty::Var { index }),
        Atomic::Bool => declared(alloc, b"Bool", 0),
        Atomic::Char => declared(alloc, b"Char", 0),
        Atomic::Int => declared(alloc, b"Int", 0),
        Atomic::Text => list(alloc, declared(alloc, b"Char", 0)?),
        Atomic::List { of } => list(alloc, Ty::Var { index: of }),
        Atomic::Lists { of } => list(alloc, list(alloc, Ty::Var { index: of })?),
        Atomic::Pair { first, second } => pair(alloc, first, second),
        Atomic::Pairs { first, second } => list(alloc, pair(alloc, first, second)?),
        Atomic::Maybe { of } => maybe(alloc, of),
        Atomic::Either { left, right } => either(alloc, left, right),
        Atomic::Io { of } => io(alloc, Ty::Var { index: of }),
        Atomic::IoUnit => io(alloc, special(alloc, Special::Unit, 0)?),
    }
}

fn arrows(alloc: Global, params: &[Atomic], gives: Ty) -> Result<Ty, AllocError>
    ensures { IfOk result (λ ty. ty ≡ arrows params.now gives) }
{
    let mut ty = gives;
    for behind in 0..params.len() {
        let from = atomic_type(alloc, params[params.len() - 1 - behind])?;
        ty = function(alloc, from, ty)?;
    }
    Ok(ty)
}

fn argument_type(alloc: Global, argument: Argument) -> Result<Ty, AllocError>
    ensures { IfOk result (λ ty. ty ≡ argument_type argument) }
{
    match argument {
        Argument::One(atomic) => atomic_type(alloc, atomic),
        Argument::Function(params, gives) => arrows(alloc, params, atomic_type(alloc, gives)?),
    }
}

fn row_type(alloc: Global, arguments: &[Argument], gives: Ty) -> Result<Ty, AllocError>
    ensures { IfOk result (λ ty. ty ≡ row_type arguments.now gives) }
{
    let mut ty = gives;
    for behind in 0..arguments.len() {
        let from = argument_type(alloc, arguments[arguments.len() - 1 - behind])?;
        ty = function(alloc, from, ty)?;
    }
    Ok(ty)
}

fn value(
    alloc: Global,
    occ: &[u8],
    fixity: Fixity,
    vars: u64,
    body: Ty,
) -> Result<Export, AllocError>
    ensures { IfOk result (λ export. export ≡ value occ.now fixity vars body) }
{
    Ok(Export {
        occ: Name::from_bytes(alloc, occ)?,
        entity: Entity::Value {
            name: name_in(alloc, Space::Values, occ)?,
            scheme: Scheme { vars, body },
            fixity,
        },
        cons: Items::new(alloc),
    })
}

fn row_export(alloc: Global, row: &Row) -> Result<Export, AllocError>
    ensures { IfOk result (λ export. export ≡ row_export row.now) }
{
    let gives = atomic_type(alloc, row.4)?;
    let body = row_type(alloc, row.3, gives)?;
    value(alloc, row.0, row.1, row.2, body)
}

fn push_values(alloc: Global, exports: &mut Exports, rows: &[Row]) -> Result<(), AllocError>
    ensures { OnOk result (exports.new ≡ exports.old ++ map row_export rows.now) }
{
    for row in rows {
        exports.push(row_export(alloc, row)?)?;
    }
    Ok(())
}

/// Fields whose types are these variables.
fn fields(alloc: Global, params: &[u64]) -> Result<Fields, AllocError>
    ensures { IfOk result (λ fields. fields ≡ map field (map (λ n. Var n) params.now)) }
{
    let mut fields = Items::new(alloc);
    for param in params {
        fields.push(Field {
            strict: false,
            ty: Ty::Var { index: *param },
        })?;
    }
    Ok(fields)
}

fn row_con(alloc: Global, row: &ConRow) -> Result<Con, AllocError>
    ensures { IfOk result (λ con. con ≡ row_con row.now) }
{
    Ok(Con {
        occ: Name::from_bytes(alloc, row.0)?,
        fields: fields(alloc, row.1)?,
        fixity: fixity_of_default(),
    })
}

fn row_cons(alloc: Global, rows: &[ConRow]) -> Result<Cons, AllocError>
    ensures { IfOk result (λ cons. cons ≡ map row_con rows.now) }
{
    let mut cons = Items::new(alloc);
    for row in rows {
        cons.push(row_con(alloc, row)?)?;
    }
    Ok(cons)
}

fn con_names(alloc: Global, cons: &[Con]) -> Result<Names, AllocError>
    ensures { IfOk result (λ names. names ≡ map (λ k. k.occ) cons.now) }
{
    let mut names = Items::new(alloc);
    for each in cons {
        names.push(each.occ.copied(alloc)?)?;
    }
    Ok(names)
}

fn row_data(alloc: Global, row: &DataRow) -> Result<Export, AllocError>
    ensures { IfOk result (λ export. export ≡ row_data row.now) }
{
    let cons = row_cons(alloc, row.2)?;
    let names = con_names(alloc, cons.as_slice())?;
    Ok(Export {
        occ: Name::from_bytes(alloc, row.0)?,
        entity: Entity::DataType {
            name: name_in(alloc, Space::Types, row.0)?,
            kind: kind_with(alloc, row.1)?,
            params: row.1,
            is_new: false,
            cons,
        },
        cons: names,
    })
}

fn push_data(alloc: Global, exports: &mut Exports, rows: &[DataRow]) -> Result<(), AllocError>
    ensures { OnOk result (exports.new ≡ exports.old ++ map row_data rows.now) }
{
    for row in rows {
        exports.push(row_data(alloc, row)?)?;
    }
    Ok(())
}

fn synonym(alloc: Global, occ: &[u8], body: Ty) -> Result<Export, AllocError>
    ensures { IfOk result (λ export. export ≡ synonym occ.now body) }
{
    Ok(Export {
        occ: Name::from_bytes(alloc, occ)?,
        entity: Entity::Synonym {
            name: name_in(alloc, Space::Types, occ)?,
            kind: Kind::Star,
            params: 0,
            body,
        },
        cons: Items::new(alloc),
    })
}

/// What the module `Prelude` of the component `base` shows: its types, then its values, each in byte order. What is written by syntax
/// alone, as `[]` and `->`, is not among its exports.
pub fn base_interface(alloc: Global) -> Result<Interface, AllocError>
    ensures { IfOk result (λ interface. interface ≡ base) }
{
    let mut exports = Items::new(alloc);
    push_data(alloc, &mut exports, &DATA_TYPES)?;
    let text = atomic_type(alloc, Atomic::Text)?;
    exports.push(synonym(alloc, b"String", text)?)?;
    push_values(alloc, &mut exports, &VALUES)?;
    Ok(Interface {
        module: base_prelude(alloc)?,
        exports,
    })
}
