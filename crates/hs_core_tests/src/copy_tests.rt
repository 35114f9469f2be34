//! Small trees of each sort: a copy is equal to its tree, and differs from a tree with another name at its deepest place. One
//! generic function compares them: its proof sees nothing of the trees, which are large types.
use crate::lists::only;
use bp_base::{Ident, Interface, Name};
use hs_core::{
    Alt, Body, Checked, Choice, ConDecl, Decl, Exp, FieldDecl, Guard, Pat, Rhs, Written,
    copied_decls, same_alt, same_body, same_checked, same_choice, same_con_decl, same_decl,
    same_exp, same_field_decl, same_guard, same_pat, same_rhs, same_written,
};
use sqlite_items::{Boxed, Items};
use std::alloc::{AllocError, Global};
use std::test::Fail;

/// A sort of trees.
trait Tree: Drop {
    /// A small tree with the name at its deepest place.
    fn named(alloc: Global, text: &[u8]) -> Result<Self, AllocError>;

    /// The same tree once more.
    fn twin(&self, alloc: Global) -> Result<Self, AllocError>;

    /// Whether both are equal.
    fn is_same(&self, other: &Self) -> bool;
}

/// `f a`, where the argument has the name
impl Tree for Written {
    fn named(alloc: Global, text: &[u8]) -> Result<Written, AllocError> {
        let fun = Written::WVar {
            name: Name::from_bytes(alloc, b"f")?,
        };
        let fun = Boxed::new(alloc, fun)?;
        let arg = Written::WVar {
            name: Name::from_bytes(alloc, text)?,
        };
        Ok(Written::WApp {
            fun,
            arg: Boxed::new(alloc, arg)?,
        })
    }

    fn twin(&self, alloc: Global) -> Result<Written, AllocError> {
        self.copied(alloc)
    }

    fn is_same(&self, other: &Written) -> bool {
        same_written(self, other)
    }
}

/// `!(f a)`
impl Tree for FieldDecl {
    fn named(alloc: Global, text: &[u8]) -> Result<FieldDecl, AllocError> {
        Ok(FieldDecl {
            strict: true,
            ty: Written::named(alloc, text)?,
        })
    }

    fn twin(&self, alloc: Global) -> Result<FieldDecl, AllocError> {
        self.copied(alloc)
    }

    fn is_same(&self, other: &FieldDecl) -> bool {
        same_field_decl(self, other)
    }
}

/// `C !(f a)`
impl Tree for ConDecl {
    fn named(alloc: Global, text: &[u8]) -> Result<ConDecl, AllocError> {
        let fields = only(alloc, FieldDecl::named(alloc, text)?)?;
        Ok(ConDecl {
            occ: Name::from_bytes(alloc, b"C")?,
            fields,
        })
    }

    fn twin(&self, alloc: Global) -> Result<ConDecl, AllocError> {
        self.copied(alloc)
    }

    fn is_same(&self, other: &ConDecl) -> bool {
        same_con_decl(self, other)
    }
}

/// `~a`
impl Tree for Pat {
    fn named(alloc: Global, text: &[u8]) -> Result<Pat, AllocError> {
        let inner = Pat::PVar {
            name: Name::from_bytes(alloc, text)?,
        };
        Ok(Pat::PLazy {
            pat: Boxed::new(alloc, inner)?,
        })
    }

    fn twin(&self, alloc: Global) -> Result<Pat, AllocError> {
        self.copied(alloc)
    }

    fn is_same(&self, other: &Pat) -> bool {
        same_pat(self, other)
    }
}

/// `a`, as a local
impl Tree for Exp {
    fn named(alloc: Global, text: &[u8]) -> Result<Exp, AllocError> {
        Ok(Exp::Local {
            name: Name::from_bytes(alloc, text)?,
        })
    }

    fn twin(&self, alloc: Global) -> Result<Exp, AllocError> {
        self.copied(alloc)
    }

    fn is_same(&self, other: &Exp) -> bool {
        same_exp(self, other)
    }
}

/// `f :: f a`
impl Tree for Decl {
    fn named(alloc: Global, text: &[u8]) -> Result<Decl, AllocError> {
        let ty = Written::named(alloc, text)?;
        Ok(Decl::TypeSig {
            occ: Name::from_bytes(alloc, b"f")?,
            ty,
        })
    }

    fn twin(&self, alloc: Global) -> Result<Decl, AllocError> {
        self.copied(alloc)
    }

    fn is_same(&self, other: &Decl) -> bool {
        same_decl(self, other)
    }
}

/// `_ <- a`
impl Tree for Guard {
    fn named(alloc: Global, text: &[u8]) -> Result<Guard, AllocError> {
        Ok(Guard::Bind {
            pat: Pat::PWild,
            exp: Exp::named(alloc, text)?,
        })
    }

    fn twin(&self, alloc: Global) -> Result<Guard, AllocError> {
        self.copied(alloc)
    }

    fn is_same(&self, other: &Guard) -> bool {
        same_guard(self, other)
    }
}

/// `| _ <- a = 1`
impl Tree for Choice {
    fn named(alloc: Global, text: &[u8]) -> Result<Choice, AllocError> {
        Ok(Choice {
            guards: only(alloc, Guard::named(alloc, text)?)?,
            exp: Exp::Int { value: 1 },
        })
    }

    fn twin(&self, alloc: Global) -> Result<Choice, AllocError> {
        self.copied(alloc)
    }

    fn is_same(&self, other: &Choice) -> bool {
        same_choice(self, other)
    }
}

/// `| _ <- a = 1`
impl Tree for Rhs {
    fn named(alloc: Global, text: &[u8]) -> Result<Rhs, AllocError> {
        Ok(Rhs {
            choices: only(alloc, Choice::named(alloc, text)?)?,
            local: Items::new(alloc),
        })
    }

    fn twin(&self, alloc: Global) -> Result<Rhs, AllocError> {
        self.copied(alloc)
    }

    fn is_same(&self, other: &Rhs) -> bool {
        same_rhs(self, other)
    }
}

/// `_ | _ <- a -> 1`
impl Tree for Alt {
    fn named(alloc: Global, text: &[u8]) -> Result<Alt, AllocError> {
        Ok(Alt {
            pat: Pat::PWild,
            rhs: Rhs::named(alloc, text)?,
        })
    }

    fn twin(&self, alloc: Global) -> Result<Alt, AllocError> {
        self.copied(alloc)
    }

    fn is_same(&self, other: &Alt) -> bool {
        same_alt(self, other)
    }
}

/// `f :: f a`
impl Tree for Body {
    fn named(alloc: Global, text: &[u8]) -> Result<Body, AllocError> {
        Ok(Body {
            decls: only(alloc, Decl::named(alloc, text)?)?,
        })
    }

    fn twin(&self, alloc: Global) -> Result<Body, AllocError> {
        self.copied(alloc)
    }

    fn is_same(&self, other: &Body) -> bool {
        same_body(self, other)
    }
}

/// `f :: f a`, of a module that exports nothing
impl Tree for Checked {
    fn named(alloc: Global, text: &[u8]) -> Result<Checked, AllocError> {
        let body = Body::named(alloc, text)?;
        let interface = Interface {
            module: Ident::Hole {
                name: Name::from_bytes(alloc, b"H")?,
            },
            exports: Items::new(alloc),
        };
        Ok(Checked { interface, body })
    }

    fn twin(&self, alloc: Global) -> Result<Checked, AllocError> {
        self.copied(alloc)
    }

    fn is_same(&self, other: &Checked) -> bool {
        same_checked(self, other)
    }
}

/// Whether the copy of a tree is equal to it and differs from another tree.
fn is_copied<T: Tree>(alloc: Global) -> Result<bool, AllocError> {
    let tree = T::named(alloc, b"a")?;
    let other = T::named(alloc, b"b")?;
    let twin = tree.twin(alloc)?;
    Ok(twin.is_same(&tree) && !twin.is_same(&other))
}

#[test]
fn parts_of_types_are_copied(rt: HostRuntime) -> Result<(), Fail> {
    let alloc = rt.alloc();
    assert!(rt; is_copied::<Written>(alloc)?);
    assert!(rt; is_copied::<FieldDecl>(alloc)?);
    assert!(rt; is_copied::<ConDecl>(alloc)?);
    Ok(())
}

#[test]
fn parts_of_values_are_copied(rt: HostRuntime) -> Result<(), Fail> {
    let alloc = rt.alloc();
    assert!(rt; is_copied::<Pat>(alloc)?);
    assert!(rt; is_copied::<Exp>(alloc)?);
    assert!(rt; is_copied::<Guard>(alloc)?);
    assert!(rt; is_copied::<Choice>(alloc)?);
    assert!(rt; is_copied::<Rhs>(alloc)?);
    assert!(rt; is_copied::<Alt>(alloc)?);
    Ok(())
}

/// Whether a list of one declaration is copied.
fn are_decls_copied(alloc: Global) -> Result<bool, AllocError> {
    let decls = only(alloc, Decl::named(alloc, b"a")?)?;
    let twin = copied_decls(alloc, &decls)?;
    match (twin.as_slice(), decls.as_slice()) {
        ([copy], [decl]) => Ok(same_decl(copy, decl)),
        _ => Ok(false),
    }
}

#[test]
fn modules_are_copied(rt: HostRuntime) -> Result<(), Fail> {
    let alloc = rt.alloc();
    assert!(rt; is_copied::<Decl>(alloc)?);
    assert!(rt; are_decls_copied(alloc)?);
    assert!(rt; is_copied::<Body>(alloc)?);
    assert!(rt; is_copied::<Checked>(alloc)?);
    Ok(())
}
