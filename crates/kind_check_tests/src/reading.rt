//! Types, kinds and declarations, read from texts in which a name is one letter: a capital letter is a type's name, a small one a
//! variable. Types and kinds are postfix: `f a @` applies f to a, and `* * >` is the kind `* -> *`.
use bp_base::{Entities, Ident, Kind, Name, Names, OrigName, Space, Ty, base_prelude};
use hs_core::{ConDecl, FieldDecl, Written, base_interface};
use kind_check::{GroupDecl, GroupDecls, Known, Knowns, Says, Sense};
use sqlite_items::{Boxed, Items};
use std::alloc::{AllocError, Global};

fn original(alloc: Global, letter: u8) -> Result<OrigName, AllocError> {
    Ok(OrigName {
        at: Ident::Hole {
            name: Name::from_bytes(alloc, b"H")?,
        },
        space: Space::Types,
        occ: Name::from_bytes(alloc, &[letter])?,
    })
}

fn applied(alloc: Global, fun: Written, arg: Written) -> Result<Written, AllocError> {
    Ok(Written::WApp {
        fun: Boxed::new(alloc, fun)?,
        arg: Boxed::new(alloc, arg)?,
    })
}

fn arrow(alloc: Global, from: Kind, to: Kind) -> Result<Kind, AllocError> {
    Ok(Kind::Arrow {
        from: Boxed::new(alloc, from)?,
        to: Boxed::new(alloc, to)?,
    })
}

fn put_type(alloc: Global, letter: u8, types: &mut Vec<Written>) -> Result<(), AllocError> {
    let next = match letter {
        b'@' => match (types.pop(), types.pop()) {
            (Some(arg), Some(fun)) => applied(alloc, fun, arg)?,
            _ => return Ok(()),
        },
        b'a'..=b'z' => Written::WVar {
            name: Name::from_bytes(alloc, &[letter])?,
        },
        _ => Written::WCon {
            name: original(alloc, letter)?,
        },
    };
    types.push(next)?;
    Ok(())
}

/// The type of a text; the variable `a` where there is none.
pub fn type_of(alloc: Global, text: &[u8]) -> Result<Written, AllocError> {
    let mut types = Vec::new(alloc);
    for letter in text {
        put_type(alloc, *letter, &mut types)?;
    }
    match types.pop() {
        Some(ty) => Ok(ty),
        None => Ok(Written::WVar {
            name: Name::from_bytes(alloc, b"a")?,
        }),
    }
}

fn put_kind(alloc: Global, letter: u8, kinds: &mut Vec<Kind>) -> Result<(), AllocError> {
    let next = match letter {
        b'>' => match (kinds.pop(), kinds.pop()) {
            (Some(to), Some(from)) => arrow(alloc, from, to)?,
            _ => return Ok(()),
        },
        _ => Kind::Star,
    };
    kinds.push(next)?;
    Ok(())
}

fn kind_of(alloc: Global, text: &[u8]) -> Result<Kind, AllocError> {
    let mut kinds = Vec::new(alloc);
    for letter in text {
        put_kind(alloc, *letter, &mut kinds)?;
    }
    Ok(kinds.pop().unwrap_or(Kind::Star))
}

fn params_of(alloc: Global, text: &[u8]) -> Result<Names, AllocError> {
    let mut names = Items::new(alloc);
    for letter in text {
        names.push(Name::from_bytes(alloc, &[*letter])?)?;
    }
    Ok(names)
}

// One constructor for each field, so that there are several.
fn constructor(alloc: Global, field: &[u8]) -> Result<ConDecl, AllocError> {
    let mut fields = Items::new(alloc);
    fields.push(FieldDecl {
        strict: false,
        ty: type_of(alloc, field)?,
    })?;
    Ok(ConDecl {
        occ: Name::from_bytes(alloc, b"C")?,
        fields,
    })
}

// The fields are joined by commas.
fn says_data(alloc: Global, fields: &[u8]) -> Result<Says, AllocError> {
    let mut cons = Items::new(alloc);
    for field in fields.split(|b| *b == b',') {
        if !field.is_empty() {
            cons.push(constructor(alloc, field)?)?;
        }
    }
    Ok(Says::Fields { cons })
}

fn declaration(alloc: Global, head: &[u8], says: Says) -> Result<Option<GroupDecl>, AllocError> {
    match head {
        [name, params @ ..] => Ok(Some(GroupDecl {
            name: original(alloc, *name)?,
            params: params_of(alloc, params)?,
            says,
        })),
        [] => Ok(None),
    }
}

// `Tab=x,y` is a data type of fields x and y, `Tab~x` a synonym.
fn decl_of(alloc: Global, text: &[u8]) -> Result<Option<GroupDecl>, AllocError> {
    let mut halves = text.split(|b| *b == b'=');
    let head = halves.next().unwrap_or(b"");
    match halves.next() {
        Some(fields) => declaration(alloc, head, says_data(alloc, fields)?),
        None => {
            let mut halves = text.split(|b| *b == b'~');
            let head = halves.next().unwrap_or(b"");
            let body = type_of(alloc, halves.next().unwrap_or(b""))?;
            declaration(alloc, head, Says::Synonym { body })
        }
    }
}

/// Declarations behind semicolons.
pub fn decls_of(alloc: Global, text: &[u8]) -> Result<GroupDecls, AllocError> {
    let mut decls = Items::new(alloc);
    for part in text.split(|b| *b == b';') {
        if let Some(decl) = decl_of(alloc, part)? {
            decls.push(decl)?;
        }
    }
    Ok(decls)
}

fn put_part(alloc: Global, letter: u8, types: &mut Vec<Ty>) -> Result<(), AllocError> {
    let next = match letter {
        b'@' => match (types.pop(), types.pop()) {
            (Some(arg), Some(fun)) => Ty::App {
                fun: Boxed::new(alloc, fun)?,
                arg: Boxed::new(alloc, arg)?,
            },
            _ => return Ok(()),
        },
        b'a'..=b'z' => Ty::Var {
            index: u64::from(letter.saturating_sub(b'a')),
        },
        _ => Ty::Con {
            name: original(alloc, letter)?,
            kind: Kind::Star,
        },
    };
    types.push(next)?;
    Ok(())
}

/// The resolved type of a text, in which `a` is the variable 0; that variable where there is none.
pub fn resolved_of(alloc: Global, text: &[u8]) -> Result<Ty, AllocError> {
    let mut types = Vec::new(alloc);
    for letter in text {
        put_part(alloc, *letter, &mut types)?;
    }
    Ok(types.pop().unwrap_or(Ty::Var { index: 0 }))
}

/// Writes a resolved type as it is read.
pub fn show_type(ty: &Ty, out: &mut Vec<u8>) -> Result<(), AllocError> {
    match ty {
        Ty::Var { index } => out.push(b'a'.saturating_add((*index % 26) as u8))?,
        Ty::Con { name, .. } => out.extend_from_slice(name.occ.as_bytes())?,
        Ty::App { fun, arg } => {
            show_type(fun.get(), out)?;
            show_type(arg.get(), out)?;
            out.push(b'@')?;
        }
    }
    Ok(())
}

// `M**>` is a type of kind `* -> *`, `S2***>>=ab@` a synonym with two parameters and its body.
fn known_of(alloc: Global, text: &[u8]) -> Result<Option<Known>, AllocError> {
    let mut halves = text.split(|b| *b == b'=');
    let head = halves.next().unwrap_or(b"");
    let body = resolved_of(alloc, halves.next().unwrap_or(b""))?;
    match head {
        [name, params @ b'0'..=b'9', kind @ ..] => Ok(Some(Known {
            name: original(alloc, *name)?,
            sense: Sense::SynonymOf {
                kind: kind_of(alloc, kind)?,
                params: u64::from(params.saturating_sub(b'0')),
                body,
            },
        })),
        [name, kind @ ..] => Ok(Some(Known {
            name: original(alloc, *name)?,
            sense: Sense::TypeOf {
                kind: kind_of(alloc, kind)?,
            },
        })),
        [] => Ok(None),
    }
}

/// Names with their kinds, behind semicolons.
pub fn names_of(alloc: Global, text: &[u8]) -> Result<Knowns, AllocError> {
    let mut names = Items::new(alloc);
    for part in text.split(|b| *b == b';') {
        if let Some(known) = known_of(alloc, part)? {
            names.push(known)?;
        }
    }
    Ok(names)
}

/// Writes a kind as it is read.
pub fn show(kind: &Kind, out: &mut Vec<u8>) -> Result<(), AllocError> {
    match kind {
        Kind::Star => out.push(b'*')?,
        Kind::Arrow { from, to } => {
            show(from.get(), out)?;
            show(to.get(), out)?;
            out.push(b'>')?;
        }
    }
    Ok(())
}

/// A name of the module `Prelude` of `base`.
pub fn base_name(alloc: Global, occ: &[u8]) -> Result<OrigName, AllocError> {
    Ok(OrigName {
        at: base_prelude(alloc)?,
        space: Space::Types,
        occ: Name::from_bytes(alloc, occ)?,
    })
}

fn put_word(alloc: Global, word: &[u8], types: &mut Vec<Written>) -> Result<(), AllocError> {
    let next = match word {
        b"@" => match (types.pop(), types.pop()) {
            (Some(arg), Some(fun)) => applied(alloc, fun, arg)?,
            _ => return Ok(()),
        },
        [b'a'..=b'z', ..] => Written::WVar {
            name: Name::from_bytes(alloc, word)?,
        },
        _ => Written::WCon {
            name: base_name(alloc, word)?,
        },
    };
    types.push(next)?;
    Ok(())
}

/// The type of words, whose names are those of `base`.
pub fn base_type_of(alloc: Global, text: &[u8]) -> Result<Written, AllocError> {
    let mut types = Vec::new(alloc);
    for word in text.split(|b| *b == b' ') {
        put_word(alloc, word, &mut types)?;
    }
    match types.pop() {
        Some(ty) => Ok(ty),
        None => Ok(Written::WVar {
            name: Name::from_bytes(alloc, b"a")?,
        }),
    }
}

/// What `base` exports, the last first.
pub fn base_entities(alloc: Global) -> Result<Entities, AllocError> {
    let interface = base_interface(alloc)?;
    let mut exports = interface.exports;
    let mut entities = Items::new(alloc);
    for _index in 0..exports.len() {
        if let Some(export) = exports.pop() {
            entities.push(export.entity)?;
        }
    }
    Ok(entities)
}
