//! What modules declare and export, and what signatures ask for.
ghost use Rattle.std.specs.Prelude.{◌≡◌, ◌↔◌, IfOk, IsTrue};
ghost use Rattle.bp_base.specs.Entities.{default_fixity};

use crate::{
    Copied, Ident, Kind, Name, Names, OrigName, Same, Scheme, Ty, copied_all, kind_eq, same_all,
    same_ident, same_orig_name, same_scheme, same_ty,
};
use sqlite_items::Items;
use std::alloc::{AllocError, Global};

/// To which side an operator associates (Haskell 2010 Report, section 4.4.2).
#[derive(Clone, Copy, Debug, PartialEq, Eq)]
pub enum Assoc {
    Left,
    Right,
    Neither,
}

/// How tightly an operator binds, from 0 to 9, and to which side (Haskell 2010 Report, section 4.4.2).
#[derive(Clone, Copy, Debug, PartialEq, Eq)]
pub struct Fixity {
    pub assoc: Assoc,
    pub level: u8,
}

/// A field of a constructor, strict where it is written with `!`.
#[derive(Debug, Drop)]
pub struct Field {
    pub strict: bool,
    pub ty: Ty,
}

/// Fields in order of declaration.
pub type Fields = Items<Field>;

/// A constructor of a data type, whose parameters are the first variables of the fields' types.
#[derive(Debug, Drop)]
pub struct Con {
    pub occ: Name,
    pub fields: Fields,
    pub fixity: Fixity,
}

/// Constructors in order of declaration.
pub type Cons = Items<Con>;

/// A thing that a module declares. The parameters of a data type and of a synonym are the variables from 0 below `params`.
#[derive(Debug, Drop)]
pub enum Entity {
    /// A type of which a signature says its kind alone.
    Abstract {
        name: OrigName,
        kind: Kind,
    },
    /// A data type, or a newtype where `is_new`.
    DataType {
        name: OrigName,
        kind: Kind,
        params: u64,
        is_new: bool,
        cons: Cons,
    },
    Synonym {
        name: OrigName,
        kind: Kind,
        params: u64,
        body: Ty,
    },
    Value {
        name: OrigName,
        scheme: Scheme,
        fixity: Fixity,
    },
}

/// Entities: types, then values, each in byte order of the occurrence.
pub type Entities = Items<Entity>;

/// A name that a module exports: under which name, what it is, and which of its constructors are exported with it, in order of
/// declaration.
#[derive(Debug, Drop)]
pub struct Export {
    pub occ: Name,
    pub entity: Entity,
    pub cons: Names,
}

/// Exports: types, then values, each in byte order of the occurrence.
pub type Exports = Items<Export>;

/// What a module shows to others.
#[derive(Debug, Drop)]
pub struct Interface {
    pub module: Ident,
    pub exports: Exports,
}

/// Interfaces in order.
pub type Interfaces = Items<Interface>;

/// What a component asks of the module that fills one of its holes.
#[derive(Debug, Drop)]
pub struct Signature {
    pub hole: Name,
    pub entries: Entities,
}

/// Signatures in order of their holes.
pub type Signatures = Items<Signature>;

impl Copied for Field {
    fn copied(&self, alloc: Global) -> Result<Field, AllocError> {
        Ok(Field {
            strict: self.strict,
            ty: self.ty.copied(alloc)?,
        })
    }
}

impl Copied for Con {
    fn copied(&self, alloc: Global) -> Result<Con, AllocError> {
        Ok(Con {
            occ: self.occ.copied(alloc)?,
            fields: copied_all(alloc, &self.fields)?,
            fixity: self.fixity,
        })
    }
}

impl Copied for Entity {
    fn copied(&self, alloc: Global) -> Result<Entity, AllocError> {
        match self {
            Entity::Abstract { name, kind } => Ok(Entity::Abstract {
                name: name.copied(alloc)?,
                kind: kind.copied(alloc)?,
            }),
            Entity::DataType {
                name,
                kind,
                params,
                is_new,
                cons,
            } => Ok(Entity::DataType {
                name: name.copied(alloc)?,
                kind: kind.copied(alloc)?,
                params: *params,
                is_new: *is_new,
                cons: copied_all(alloc, cons)?,
            }),
            Entity::Synonym {
                name,
                kind,
                params,
                body,
            } => Ok(Entity::Synonym {
                name: name.copied(alloc)?,
                kind: kind.copied(alloc)?,
                params: *params,
                body: body.copied(alloc)?,
            }),
            Entity::Value {
                name,
                scheme,
                fixity,
            } => Ok(Entity::Value {
                name: name.copied(alloc)?,
                scheme: scheme.copied(alloc)?,
                fixity: *fixity,
            }),
        }
    }
}

impl Copied for Export {
    fn copied(&self, alloc: Global) -> Result<Export, AllocError> {
        Ok(Export {
            occ: self.occ.copied(alloc)?,
            entity: self.entity.copied(alloc)?,
            cons: copied_all(alloc, &self.cons)?,
        })
    }
}

impl Interface {
    /// The same interface once more.
    pub fn copied(&self, alloc: Global) -> Result<Interface, AllocError>
        ensures { IfOk result (λ r. r ≡ self.now) }
    {
        Ok(Interface {
            module: self.module.copied(alloc)?,
            exports: copied_all(alloc, &self.exports)?,
        })
    }
}

impl Copied for Signature {
    fn copied(&self, alloc: Global) -> Result<Signature, AllocError> {
        Ok(Signature {
            hole: self.hole.copied(alloc)?,
            entries: copied_all(alloc, &self.entries)?,
        })
    }
}

impl Copied for Interface {
    fn copied(&self, alloc: Global) -> Result<Interface, AllocError> {
        Interface::copied(self, alloc)
    }
}

/// The fixity of an operator without a fixity declaration: `infixl 9` (Haskell 2010 Report, section 4.4.2). It takes no memory.
pub fn fixity_of_default() -> Fixity
    ensures { result ≡ default_fixity }
{
    Fixity {
        assoc: Assoc::Left,
        level: 9,
    }
}

impl Same for Field {
    fn same(&self, other: &Field) -> bool {
        self.strict == other.strict && same_ty(&self.ty, &other.ty)
    }
}

impl Same for Con {
    fn same(&self, other: &Con) -> bool {
        self.occ == other.occ
            && self.fixity == other.fixity
            && same_all(self.fields.as_slice(), other.fields.as_slice())
    }
}

impl Same for Entity {
    fn same(&self, other: &Entity) -> bool {
        match (self, other) {
            (Entity::Abstract { name: m, kind: k }, Entity::Abstract { name: n, kind: l }) => {
                same_orig_name(m, n) && kind_eq(k, l)
            }
            (
                Entity::DataType {
                    name: m,
                    kind: k,
                    params: p,
                    is_new: x,
                    cons: c,
                },
                Entity::DataType {
                    name: n,
                    kind: l,
                    params: q,
                    is_new: y,
                    cons: d,
                },
            ) => {
                same_orig_name(m, n)
                    && kind_eq(k, l)
                    && *p == *q
                    && *x == *y
                    && same_all(c.as_slice(), d.as_slice())
            }
            (
                Entity::Synonym {
                    name: m,
                    kind: k,
                    params: p,
                    body: b,
                },
                Entity::Synonym {
                    name: n,
                    kind: l,
                    params: q,
                    body: c,
                },
            ) => same_orig_name(m, n) && kind_eq(k, l) && *p == *q && same_ty(b, c),
            (
                Entity::Value {
                    name: m,
                    scheme: s,
                    fixity: f,
                },
                Entity::Value {
                    name: n,
                    scheme: t,
                    fixity: g,
                },
            ) => same_orig_name(m, n) && same_scheme(s, t) && *f == *g,
            _ => false,
        }
    }
}

impl Same for Export {
    fn same(&self, other: &Export) -> bool {
        self.occ == other.occ
            && self.entity.same(&other.entity)
            && same_all(self.cons.as_slice(), other.cons.as_slice())
    }
}

impl Same for Interface {
    fn same(&self, other: &Interface) -> bool {
        same_ident(&self.module, &other.module)
            && same_all(self.exports.as_slice(), other.exports.as_slice())
    }
}

impl Same for Signature {
    fn same(&self, other: &Signature) -> bool {
        self.hole == other.hole && same_all(self.entries.as_slice(), other.entries.as_slice())
    }
}

/// Whether two exports are equal. It takes no memory.
pub fn same_export(a: &Export, b: &Export) -> bool
    ensures { IsTrue result ↔ (a.now ≡ b.now) }
{
    a.same(b)
}
