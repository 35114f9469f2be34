//! Resolved trees from programs of words: each word puts a tree on the stack of its sort, and takes its parts from the stacks.
use bp_base::{Assoc, Fixity, Ident, Name, Names, OrigName, Space, Unit};
use flat_text::{FlatExport, FlatExports};
use hs_core::{
    Alt, Alts, Choice, Choices, Codes, ConDecl, ConDecls, Decl, Decls, Exp, Exps, FieldDecl,
    FieldDecls, Guard, Guards, Pat, Pats, Rhs, Written,
};
use sqlite_items::{Boxed, Items};
use std::alloc::{AllocError, Global};

/// What stands on the stacks.
#[derive(Drop)]
pub struct Trees {
    types: Items<Written>,
    pats: Pats,
    exps: Exps,
    guards: Guards,
    choices: Choices,
    alts: Alts,
    fields: FieldDecls,
    cons: ConDecls,
    decls: Decls,
    exports: FlatExports,
}

pub fn new_trees(alloc: Global) -> Trees {
    Trees {
        types: Items::new(alloc),
        pats: Items::new(alloc),
        exps: Items::new(alloc),
        guards: Items::new(alloc),
        choices: Items::new(alloc),
        alts: Items::new(alloc),
        fields: Items::new(alloc),
        cons: Items::new(alloc),
        decls: Items::new(alloc),
        exports: Items::new(alloc),
    }
}

/// The declarations and exports that were built.
pub fn built(trees: Trees) -> (Decls, FlatExports) {
    let Trees {
        types: _,
        pats: _,
        exps: _,
        guards: _,
        choices: _,
        alts: _,
        fields: _,
        cons: _,
        decls,
        exports,
    } = trees;
    (decls, exports)
}

/// The text up to a slash, and what is behind it.
fn cut(text: &str) -> (&str, &str) {
    text.split_once('/').unwrap_or((text, ""))
}

fn number(text: &str) -> u64 {
    text.parse::<u64>().unwrap_or(0)
}

fn name(alloc: Global, text: &str) -> Result<Name, AllocError> {
    Name::from_bytes(alloc, text.as_bytes())
}

/// Names between slashes.
fn names(alloc: Global, text: &str) -> Result<Names, AllocError> {
    let mut all = Items::new(alloc);
    for each in text.split('/') {
        if !each.is_empty() {
            all.push(name(alloc, each)?)?;
        }
    }
    Ok(all)
}

/// Numbers of characters between slashes.
fn codes(alloc: Global, text: &str) -> Result<Codes, AllocError> {
    let mut all = Items::new(alloc);
    for each in text.split('/') {
        if !each.is_empty() {
            all.push(each.parse::<u32>().unwrap_or(0))?;
        }
    }
    Ok(all)
}

/// A component, a module and what it declares, between slashes.
fn global(alloc: Global, text: &str) -> Result<OrigName, AllocError> {
    let (component, rest) = cut(text);
    let (within, occ) = cut(rest);
    let unit = Unit {
        component: name(alloc, component)?,
        fills: Items::new(alloc),
    };
    Ok(OrigName {
        at: Ident::Module {
            unit: Boxed::new(alloc, unit)?,
            module: name(alloc, within)?,
        },
        space: Space::Values,
        occ: name(alloc, occ)?,
    })
}

/// So many of the last items, in their order.
fn last<T: Drop>(alloc: Global, from: &mut Items<T>, count: &str) -> Result<Items<T>, AllocError> {
    let mut all = Vec::new(alloc);
    for _ in 0..number(count) {
        if let Some(item) = from.pop() {
            all.push(item)?;
        }
    }
    all.reverse();
    Ok(Items::from_vec(all))
}

fn exp(alloc: Global, trees: &mut Trees) -> Result<Exp, AllocError> {
    match trees.exps.pop() {
        Some(exp) => Ok(exp),
        None => Ok(Exp::Local {
            name: name(alloc, "missing")?,
        }),
    }
}

fn boxed(alloc: Global, trees: &mut Trees) -> Result<Boxed<Exp>, AllocError> {
    let exp = exp(alloc, trees)?;
    Boxed::new(alloc, exp)
}

fn pat(trees: &mut Trees) -> Pat {
    match trees.pats.pop() {
        Some(pat) => pat,
        None => Pat::PWild,
    }
}

fn ty(alloc: Global, trees: &mut Trees) -> Result<Written, AllocError> {
    match trees.types.pop() {
        Some(ty) => Ok(ty),
        None => Ok(Written::WVar {
            name: name(alloc, "missing")?,
        }),
    }
}

/// `choices/locals`
fn rhs(alloc: Global, trees: &mut Trees, counts: &str) -> Result<Rhs, AllocError> {
    let (choices, locals) = cut(counts);
    Ok(Rhs {
        choices: last(alloc, &mut trees.choices, choices)?,
        local: last(alloc, &mut trees.decls, locals)?,
    })
}

/// Types: `tv/a`, `t/U0/M/T`, `ta` for an application.
pub fn put_type(alloc: Global, trees: &mut Trees, op: &str, text: &str) -> Result<(), AllocError> {
    let made = match op {
        "tv" => Written::WVar {
            name: name(alloc, text)?,
        },
        "t" => Written::WCon {
            name: global(alloc, text)?,
        },
        _ => {
            let arg = ty(alloc, trees)?;
            let fun = ty(alloc, trees)?;
            Written::WApp {
                fun: Boxed::new(alloc, fun)?,
                arg: Boxed::new(alloc, arg)?,
            }
        }
    };
    trees.types.push(made)?;
    Ok(())
}

/// Patterns.
pub fn put_pat(alloc: Global, trees: &mut Trees, op: &str, text: &str) -> Result<(), AllocError> {
    let (count, rest) = cut(text);
    let made = match op {
        "pv" => Pat::PVar {
            name: name(alloc, text)?,
        },
        "pn" | "pm" => Pat::PInt {
            negative: op == "pm",
            value: number(text),
        },
        "pc" => Pat::PChr {
            code: text.parse::<u32>().unwrap_or(0),
        },
        "ps" => Pat::PStr {
            codes: codes(alloc, text)?,
        },
        "pcon" => Pat::PCon {
            name: global(alloc, rest)?,
            args: last(alloc, &mut trees.pats, count)?,
        },
        "ptup" => Pat::PTuple {
            parts: last(alloc, &mut trees.pats, count)?,
        },
        "plist" => Pat::PList {
            parts: last(alloc, &mut trees.pats, count)?,
        },
        "pas" => {
            let inner = pat(trees);
            Pat::PAs {
                name: name(alloc, text)?,
                pat: Boxed::new(alloc, inner)?,
            }
        }
        "plz" => {
            let inner = pat(trees);
            Pat::PLazy {
                pat: Boxed::new(alloc, inner)?,
            }
        }
        _ => Pat::PWild,
    };
    trees.pats.push(made)?;
    Ok(())
}

/// Expressions without expressions in them.
pub fn put_atom(alloc: Global, trees: &mut Trees, op: &str, text: &str) -> Result<(), AllocError> {
    let made = match op {
        "l" => Exp::Local {
            name: name(alloc, text)?,
        },
        "g" => Exp::Global {
            name: global(alloc, text)?,
        },
        "n" => Exp::Int {
            value: number(text),
        },
        "c" => Exp::Chr {
            code: text.parse::<u32>().unwrap_or(0),
        },
        _ => Exp::Str {
            codes: codes(alloc, text)?,
        },
    };
    trees.exps.push(made)?;
    Ok(())
}

/// Applications, tuples, lists, sections and annotations.
pub fn put_exp(alloc: Global, trees: &mut Trees, op: &str, text: &str) -> Result<(), AllocError> {
    let made = match op {
        "app" => {
            let args = last(alloc, &mut trees.exps, text)?;
            Exp::Apply {
                fun: boxed(alloc, trees)?,
                args,
            }
        }
        "tup" => Exp::Tuple {
            parts: last(alloc, &mut trees.exps, text)?,
        },
        "list" => Exp::List {
            parts: last(alloc, &mut trees.exps, text)?,
        },
        "sec" => {
            let arg = boxed(alloc, trees)?;
            Exp::RightSection {
                op: boxed(alloc, trees)?,
                arg,
            }
        }
        _ => Exp::Annot {
            exp: boxed(alloc, trees)?,
            ty: ty(alloc, trees)?,
        },
    };
    trees.exps.push(made)?;
    Ok(())
}

/// `lam/patterns`, `let/declarations`, `if` and `case/alternatives`.
pub fn put_long(alloc: Global, trees: &mut Trees, op: &str, text: &str) -> Result<(), AllocError> {
    let body = boxed(alloc, trees)?;
    let made = match op {
        "lam" => Exp::Lambda {
            pats: last(alloc, &mut trees.pats, text)?,
            body,
        },
        "let" => Exp::Let {
            decls: last(alloc, &mut trees.decls, text)?,
            body,
        },
        "if" => {
            let yes = boxed(alloc, trees)?;
            Exp::If {
                test: boxed(alloc, trees)?,
                yes,
                no: body,
            }
        }
        _ => Exp::Case {
            of: body,
            alts: last(alloc, &mut trees.alts, text)?,
        },
    };
    trees.exps.push(made)?;
    Ok(())
}

/// Guards `gt` and `gb`, choices `ch/guards` and alternatives `alt/choices/locals`.
pub fn put_side(alloc: Global, trees: &mut Trees, op: &str, text: &str) -> Result<(), AllocError> {
    match op {
        "gt" => {
            let exp = exp(alloc, trees)?;
            trees.guards.push(Guard::Test { exp })?;
        }
        "gb" => {
            let exp = exp(alloc, trees)?;
            let pat = pat(trees);
            trees.guards.push(Guard::Bind { pat, exp })?;
        }
        "ch" => {
            let exp = exp(alloc, trees)?;
            let guards = last(alloc, &mut trees.guards, text)?;
            trees.choices.push(Choice { guards, exp })?;
        }
        _ => {
            let rhs = rhs(alloc, trees, text)?;
            let pat = pat(trees);
            trees.alts.push(Alt { pat, rhs })?;
        }
    }
    Ok(())
}

/// Fields `fl` and `fs`, and constructors `con/fields/C`.
pub fn put_part(alloc: Global, trees: &mut Trees, op: &str, text: &str) -> Result<(), AllocError> {
    match op {
        "fl" | "fs" => {
            let ty = ty(alloc, trees)?;
            trees.fields.push(FieldDecl {
                strict: op == "fs",
                ty,
            })?;
        }
        _ => {
            let (count, occ) = cut(text);
            let fields = last(alloc, &mut trees.fields, count)?;
            trees.cons.push(ConDecl {
                occ: name(alloc, occ)?,
                fields,
            })?;
        }
    }
    Ok(())
}

fn assoc_of(text: &str) -> Assoc {
    match text {
        "l" => Assoc::Left,
        "r" => Assoc::Right,
        _ => Assoc::Neither,
    }
}

fn fixity(alloc: Global, text: &str) -> Result<Decl, AllocError> {
    let (assoc, rest) = cut(text);
    let (level, occ) = cut(rest);
    Ok(Decl::FixityOf {
        occ: name(alloc, occ)?,
        fixity: Fixity {
            assoc: assoc_of(assoc),
            level: level.parse::<u8>().unwrap_or(0),
        },
    })
}

/// `data/constructors/T/a`, `newtype/..`, `type/T/a`, `sig/x`, `fix/r/5/x`.
pub fn put_decl(alloc: Global, trees: &mut Trees, op: &str, text: &str) -> Result<(), AllocError> {
    let (first, rest) = cut(text);
    let (occ, params) = cut(rest);
    let made = match op {
        "data" | "newtype" => Decl::DataDecl {
            occ: name(alloc, occ)?,
            is_new: op == "newtype",
            params: names(alloc, params)?,
            cons: last(alloc, &mut trees.cons, first)?,
        },
        "type" => Decl::SynonymDecl {
            occ: name(alloc, first)?,
            params: names(alloc, rest)?,
            body: ty(alloc, trees)?,
        },
        "sig" => Decl::TypeSig {
            occ: name(alloc, text)?,
            ty: ty(alloc, trees)?,
        },
        _ => fixity(alloc, text)?,
    };
    trees.decls.push(made)?;
    Ok(())
}

/// Clauses `cl/patterns/choices/locals/x` and pattern bindings `pb/choices/locals`.
pub fn put_bind(alloc: Global, trees: &mut Trees, op: &str, text: &str) -> Result<(), AllocError> {
    if op == "pb" {
        let rhs = rhs(alloc, trees, text)?;
        let pat = pat(trees);
        trees.decls.push(Decl::PatBind { pat, rhs })?;
        return Ok(());
    }
    let (pats, rest) = cut(text);
    let (choices, rest) = cut(rest);
    let (locals, occ) = cut(rest);
    let choices = last(alloc, &mut trees.choices, choices)?;
    let local = last(alloc, &mut trees.decls, locals)?;
    trees.decls.push(Decl::Clause {
        occ: name(alloc, occ)?,
        pats: last(alloc, &mut trees.pats, pats)?,
        rhs: Rhs { choices, local },
    })?;
    Ok(())
}

/// `ex/U0.M.T/C/D`
pub fn put_export(alloc: Global, trees: &mut Trees, text: &str) -> Result<(), AllocError> {
    let (flat, cons) = cut(text);
    trees.exports.push(FlatExport {
        name: name(alloc, flat)?,
        cons: names(alloc, cons)?,
    })?;
    Ok(())
}

/// A word of a program.
pub fn put(alloc: Global, trees: &mut Trees, word: &str) -> Result<(), AllocError> {
    let (op, text) = cut(word);
    match op {
        "tv" | "t" | "ta" => put_type(alloc, trees, op, text),
        "l" | "g" | "n" | "c" | "s" => put_atom(alloc, trees, op, text),
        "app" | "tup" | "list" | "sec" | "ann" => put_exp(alloc, trees, op, text),
        "lam" | "let" | "if" | "case" => put_long(alloc, trees, op, text),
        "gt" | "gb" | "ch" | "alt" => put_side(alloc, trees, op, text),
        "fl" | "fs" | "con" => put_part(alloc, trees, op, text),
        "data" | "newtype" | "type" | "sig" | "fix" => put_decl(alloc, trees, op, text),
        "cl" | "pb" => put_bind(alloc, trees, op, text),
        "ex" => put_export(alloc, trees, text),
        _ => put_pat(alloc, trees, op, text),
    }
}
