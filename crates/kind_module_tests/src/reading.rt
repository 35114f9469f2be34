//! Types, kinds and declarations, read from texts in which a name is one letter: a capital letter is a type's name, a
//! small one a variable. Types and kinds are postfix: `f a @` applies f to a, and `* * >` is the kind `* -> *`.
use bp_base::{Entities, Entity, Ident, Kind, Name, Names, OrigName, Space, Ty};
use hs_core::{Choice, ConDecl, ConDecls, Decl, Decls, Exp, FieldDecl, Pat, Rhs, Written};
use sqlite_items::{Boxed, Items};
use std::alloc::{AllocError, Global};

/// The module whose declarations are tried.
pub fn module_here(alloc: Global) -> Result<Ident, AllocError> {
    Ok(Ident::Hole {
        name: Name::from_bytes(alloc, b"H")?,
    })
}

fn original(alloc: Global, letter: u8) -> Result<OrigName, AllocError> {
    Ok(OrigName {
        at: module_here(alloc)?,
        space: Space::Types,
        occ: Name::from_bytes(alloc, &[letter])?,
    })
}

fn put_type(alloc: Global, letter: u8, types: &mut Vec<Written>) -> Result<(), AllocError> {
    let next = match letter {
        b'@' => match (types.pop(), types.pop()) {
            (Some(arg), Some(fun)) => Written::WApp {
                fun: Boxed::new(alloc, fun)?,
                arg: Boxed::new(alloc, arg)?,
            },
            _ => return Ok(()),
        },
        b'a'..=b'z' => Written::WVar {
            name: Name::from_bytes(alloc, &[letter])?,
        },
        _ => Written::WCon {
            name: original(alloc, letter)?,
        },
    };
    types.push(next)?;
    Ok(())
}

fn type_of(alloc: Global, text: &[u8]) -> Result<Written, AllocError> {
    let mut types = Vec::new(alloc);
    for letter in text {
        put_type(alloc, *letter, &mut types)?;
    }
    match types.pop() {
        Some(ty) => Ok(ty),
        None => Ok(Written::WVar {
            name: Name::from_bytes(alloc, b"a")?,
        }),
    }
}

fn put_kind(alloc: Global, letter: u8, kinds: &mut Vec<Kind>) -> Result<(), AllocError> {
    let next = match letter {
        b'>' => match (kinds.pop(), kinds.pop()) {
            (Some(to), Some(from)) => Kind::Arrow {
                from: Boxed::new(alloc, from)?,
                to: Boxed::new(alloc, to)?,
            },
            _ => return Ok(()),
        },
        _ => Kind::Star,
    };
    kinds.push(next)?;
    Ok(())
}

fn kind_of(alloc: Global, text: &[u8]) -> Result<Kind, AllocError> {
    let mut kinds = Vec::new(alloc);
    for letter in text {
        put_kind(alloc, *letter, &mut kinds)?;
    }
    Ok(kinds.pop().unwrap_or(Kind::Star))
}

fn params_of(alloc: Global, text: &[u8]) -> Result<Names, AllocError> {
    let mut names = Items::new(alloc);
    for letter in text {
        names.push(Name::from_bytes(alloc, &[*letter])?)?;
    }
    Ok(names)
}

fn constructor(alloc: Global, field: &[u8]) -> Result<ConDecl, AllocError> {
    let mut fields = Items::new(alloc);
    fields.push(FieldDecl {
        strict: false,
        ty: type_of(alloc, field)?,
    })?;
    Ok(ConDecl {
        occ: Name::from_bytes(alloc, b"C")?,
        fields,
    })
}

fn constructors(alloc: Global, fields: &[u8]) -> Result<ConDecls, AllocError> {
    let mut cons = Items::new(alloc);
    for field in fields.split(|b| *b == b',') {
        if !field.is_empty() {
            cons.push(constructor(alloc, field)?)?;
        }
    }
    Ok(cons)
}

// `1 :: x`
fn annotated(alloc: Global, ty: &[u8]) -> Result<Rhs, AllocError> {
    let mut choices = Items::new(alloc);
    choices.push(Choice {
        guards: Items::new(alloc),
        exp: Exp::Annot {
            exp: Boxed::new(alloc, Exp::Int { value: 1 })?,
            ty: type_of(alloc, ty)?,
        },
    })?;
    Ok(Rhs {
        choices,
        local: Items::new(alloc),
    })
}

fn bound(alloc: Global, name: u8, ty: &[u8]) -> Result<Decl, AllocError> {
    let rhs = annotated(alloc, ty)?;
    if name == b'_' {
        return Ok(Decl::PatBind {
            pat: Pat::PWild,
            rhs,
        });
    }
    Ok(Decl::Clause {
        occ: Name::from_bytes(alloc, &[name])?,
        pats: Items::new(alloc),
        rhs,
    })
}

fn decl_of(alloc: Global, text: &[u8]) -> Result<Option<Decl>, AllocError> {
    let place = text
        .iter()
        .take_while(|b| !matches!(**b, b'=' | b'~' | b':' | b'!'))
        .count();
    if place == 0 || place >= text.len() {
        return Ok(None);
    }
    let occ = Name::from_bytes(alloc, &text[..1])?;
    let params = params_of(alloc, &text[1..place])?;
    let rest = &text[place + 1..];
    let decl = match text[place] {
        b'=' => Decl::DataDecl {
            occ,
            is_new: false,
            params,
            cons: constructors(alloc, rest)?,
        },
        b'~' => Decl::SynonymDecl {
            occ,
            params,
            body: type_of(alloc, rest)?,
        },
        b':' => Decl::TypeSig {
            occ,
            ty: type_of(alloc, rest)?,
        },
        _ => bound(alloc, text[0], rest)?,
    };
    Ok(Some(decl))
}

/// Declarations behind semicolons.
pub fn decls_of(alloc: Global, text: &[u8]) -> Result<Decls, AllocError> {
    let mut decls = Items::new(alloc);
    for part in text.split(|b| *b == b';') {
        if let Some(decl) = decl_of(alloc, part)? {
            decls.push(decl)?;
        }
    }
    Ok(decls)
}

fn put_part(alloc: Global, letter: u8, types: &mut Vec<Ty>) -> Result<(), AllocError> {
    let next = match letter {
        b'@' => match (types.pop(), types.pop()) {
            (Some(arg), Some(fun)) => Ty::App {
                fun: Boxed::new(alloc, fun)?,
                arg: Boxed::new(alloc, arg)?,
            },
            _ => return Ok(()),
        },
        b'a'..=b'z' => Ty::Var {
            index: u64::from(letter.saturating_sub(b'a')),
        },
        _ => Ty::Con {
            name: original(alloc, letter)?,
            kind: Kind::Star,
        },
    };
    types.push(next)?;
    Ok(())
}

fn resolved_of(alloc: Global, text: &[u8]) -> Result<Ty, AllocError> {
    let mut types = Vec::new(alloc);
    for letter in text {
        put_part(alloc, *letter, &mut types)?;
    }
    Ok(types.pop().unwrap_or(Ty::Var { index: 0 }))
}

// `M**>` is a type of kind `* -> *`, `S2***>>=ab@` a synonym with two parameters and its body.
fn entity_of(alloc: Global, text: &[u8]) -> Result<Option<Entity>, AllocError> {
    let mut halves = text.split(|b| *b == b'=');
    let head = halves.next().unwrap_or(b"");
    let body = resolved_of(alloc, halves.next().unwrap_or(b""))?;
    match head {
        [name, params @ b'0'..=b'9', kind @ ..] => Ok(Some(Entity::Synonym {
            name: original(alloc, *name)?,
            kind: kind_of(alloc, kind)?,
            params: u64::from(params.saturating_sub(b'0')),
            body,
        })),
        [name, kind @ ..] => Ok(Some(Entity::Abstract {
            name: original(alloc, *name)?,
            kind: kind_of(alloc, kind)?,
        })),
        [] => Ok(None),
    }
}

/// Names outside, behind semicolons.
pub fn entities_of(alloc: Global, text: &[u8]) -> Result<Entities, AllocError> {
    let mut entities = Items::new(alloc);
    for part in text.split(|b| *b == b';') {
        if let Some(entity) = entity_of(alloc, part)? {
            entities.push(entity)?;
        }
    }
    Ok(entities)
}

fn show_kind(kind: &Kind, out: &mut Vec<u8>) -> Result<(), AllocError> {
    match kind {
        Kind::Star => out.push(b'*')?,
        Kind::Arrow { from, to } => {
            show_kind(from.get(), out)?;
            show_kind(to.get(), out)?;
            out.push(b'>')?;
        }
    }
    Ok(())
}

fn show_type(ty: &Ty, out: &mut Vec<u8>) -> Result<(), AllocError> {
    match ty {
        Ty::Var { index } => out.push(b'a'.saturating_add((*index % 26) as u8))?,
        Ty::Con { name, .. } => out.extend_from_slice(name.occ.as_bytes())?,
        Ty::App { fun, arg } => {
            show_type(fun.get(), out)?;
            show_type(arg.get(), out)?;
            out.push(b'@')?;
        }
    }
    Ok(())
}

/// Writes an entity.
pub fn show_entity(entity: &Entity, out: &mut Vec<u8>) -> Result<(), AllocError> {
    out.push(b' ')?;
    match entity {
        Entity::Abstract { name, kind } => {
            out.extend_from_slice(name.occ.as_bytes())?;
            show_kind(kind, out)?;
        }
        Entity::DataType {
            name,
            kind,
            cons,
            ..
        } => {
            out.extend_from_slice(name.occ.as_bytes())?;
            show_kind(kind, out)?;
            for con in cons.as_slice() {
                for field in con.fields.as_slice() {
                    out.push(b'(')?;
                    show_type(&field.ty, out)?;
                    out.push(b')')?;
                }
            }
        }
        Entity::Synonym {
            name,
            kind,
            body,
            ..
        } => {
            out.extend_from_slice(name.occ.as_bytes())?;
            show_kind(kind, out)?;
            out.push(b'~')?;
            show_type(body, out)?;
        }
        Entity::Value { name, scheme, .. } => {
            out.extend_from_slice(name.occ.as_bytes())?;
            out.push(b':')?;
            show_type(&scheme.body, out)?;
        }
    }
    Ok(())
}
