//! Original names, kinds and types.
ghost use Rattle.std.specs.Prelude.{◌≡◌, ◌↔◌, IfOk, IsTrue};

use crate::{Ident, Name, same_ident};
use sqlite_items::{Boxed, Items};
use std::alloc::{AllocError, Global};

/// Types and classes of names: a type and a value may bear one name (Haskell 2010 Report, section 1.4).
#[derive(Clone, Copy, Debug, PartialEq, Eq, PartialOrd, Ord, Hash)]
pub enum Space {
    Types,
    Values,
}

/// The original name of an entity: the identity of the module that declares it, and its name there (Haskell 2010 Report,
/// section 5.2).
#[derive(Debug, Drop)]
pub struct OrigName {
    pub at: Ident,
    pub space: Space,
    pub occ: Name,
}

/// Original names in order.
pub type OrigNames = Items<OrigName>;

/// The kind of a type (Haskell 2010 Report, section 4.1.1).
#[cycle(kind)]
#[derive(Debug, Drop)]
pub enum Kind {
    Star,
    Arrow { from: Boxed<Kind>, to: Boxed<Kind> },
}

/// A type. A name carries its kind, which renaming leaves as it is.
#[cycle(ty)]
#[derive(Debug, Drop)]
pub enum Ty {
    Var { index: u64 },
    Con { name: OrigName, kind: Kind },
    App { fun: Boxed<Ty>, arg: Boxed<Ty> },
}

/// Types in order.
pub type Tys = Items<Ty>;

/// A type for all types of its variables, which are numbered from 0 by first occurrence in the body.
#[derive(Debug, Drop)]
pub struct Scheme {
    pub vars: u64,
    pub body: Ty,
}

impl OrigName {
    /// The same name once more.
    pub fn copied(&self, alloc: Global) -> Result<OrigName, AllocError>
        ensures { IfOk result (λ r. r ≡ self.now) }
    {
        Ok(OrigName {
            at: self.at.copied(alloc)?,
            space: self.space,
            occ: self.occ.copied(alloc)?,
        })
    }
}

impl Kind {
    /// The same kind once more.
    pub fn copied(&self, alloc: Global) -> Result<Kind, AllocError>
        ensures { IfOk result (λ r. r ≡ self.now) }
    {
        match self {
            Kind::Star => Ok(Kind::Star),
            Kind::Arrow { from, to } => {
                let from = from.get().copied(alloc)?;
                let to = to.get().copied(alloc)?;
                Ok(Kind::Arrow {
                    from: Boxed::new(alloc, from)?,
                    to: Boxed::new(alloc, to)?,
                })
            }
        }
    }
}

impl Ty {
    /// The same type once more.
    pub fn copied(&self, alloc: Global) -> Result<Ty, AllocError>
        ensures { IfOk result (λ r. r ≡ self.now) }
    {
        match self {
            Ty::Var { index } => Ok(Ty::Var { index: *index }),
            Ty::Con { name, kind } => Ok(Ty::Con {
                name: name.copied(alloc)?,
                kind: kind.copied(alloc)?,
            }),
            Ty::App { fun, arg } => {
                let fun = fun.get().copied(alloc)?;
                let arg = arg.get().copied(alloc)?;
                Ok(Ty::App {
                    fun: Boxed::new(alloc, fun)?,
                    arg: Boxed::new(alloc, arg)?,
                })
            }
        }
    }
}

impl Scheme {
    /// The same scheme once more.
    pub fn copied(&self, alloc: Global) -> Result<Scheme, AllocError>
        ensures { IfOk result (λ r. r ≡ self.now) }
    {
        Ok(Scheme {
            vars: self.vars,
            body: self.body.copied(alloc)?,
        })
    }
}

/// Whether two original names are equal. It takes no memory.
pub fn same_orig_name(a: &OrigName, b: &OrigName) -> bool
    ensures { IsTrue result ↔ (a.now ≡ b.now) }
{
    a.space == b.space && a.occ == b.occ && same_ident(&a.at, &b.at)
}

/// Whether two kinds are equal. It takes no memory.
pub fn kind_eq(a: &Kind, b: &Kind) -> bool
    ensures { IsTrue result ↔ (a.now ≡ b.now) }
{
    match (a, b) {
        (Kind::Star, Kind::Star) => true,
        (Kind::Arrow { from: f, to: t }, Kind::Arrow { from: g, to: u }) => {
            kind_eq(f.get(), g.get()) && kind_eq(t.get(), u.get())
        }
        _ => false,
    }
}

/// Whether two types are the same term. It takes no memory.
pub fn same_ty(a: &Ty, b: &Ty) -> bool
    ensures { IsTrue result ↔ (a.now ≡ b.now) }
{
    match (a, b) {
        (Ty::Var { index: i }, Ty::Var { index: j }) => *i == *j,
        (Ty::Con { name: m, kind: k }, Ty::Con { name: n, kind: l }) => {
            kind_eq(k, l) && same_orig_name(m, n)
        }
        (Ty::App { fun: f, arg: x }, Ty::App { fun: g, arg: y }) => {
            same_ty(f.get(), g.get()) && same_ty(x.get(), y.get())
        }
        _ => false,
    }
}

/// Whether two schemes are the same. It takes no memory.
pub fn same_scheme(a: &Scheme, b: &Scheme) -> bool
    ensures { IsTrue result ↔ (a.now ≡ b.now) }
{
    a.vars == b.vars && same_ty(&a.body, &b.body)
}
