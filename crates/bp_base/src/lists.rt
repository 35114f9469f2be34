//! Lists copied and compared, item by item.
ghost use Rattle.std.specs.Prelude.{◌≡◌, ◌↔◌, IfOk, IsTrue};

use crate::{Ident, Name, Names, OrigName, Ty, same_ident, same_orig_name, same_ty};
use sqlite_items::Items;
use std::alloc::{AllocError, Global};

/// What can be made once more.
pub trait Copied: Drop {
    /// The same value once more.
    fn copied(&self, alloc: Global) -> Result<Self, AllocError>
        ensures { IfOk result (λ r. r ≡ self.now) };
}

/// What can be compared without memory.
pub trait Same {
    /// Whether the two are equal. It takes no memory.
    fn same(&self, other: &Self) -> bool
        ensures { IsTrue result ↔ (self.now ≡ other.now) };
}

/// The same items once more.
pub fn copied_all<T: Copied>(alloc: Global, items: &Items<T>) -> Result<Items<T>, AllocError>
    ensures { IfOk result (λ r. r ≡ items.now) }
{
    let mut all = Items::new(alloc);
    for each in items.as_slice() {
        all.push(each.copied(alloc)?)?;
    }
    Ok(all)
}

/// Whether two lists are equal. It takes no memory.
pub fn same_all<T: Same>(a: &[T], b: &[T]) -> bool
    ensures { IsTrue result ↔ (a.now ≡ b.now) }
{
    if a.len() != b.len() {
        return false;
    }
    for i in 0..a.len() {
        if !a[i].same(&b[i]) {
            return false;
        }
    }
    true
}

impl Copied for Name {
    fn copied(&self, alloc: Global) -> Result<Name, AllocError> {
        Name::copied(self, alloc)
    }
}

impl Same for Name {
    fn same(&self, other: &Name) -> bool {
        *self == *other
    }
}

impl Copied for Ident {
    fn copied(&self, alloc: Global) -> Result<Ident, AllocError> {
        Ident::copied(self, alloc)
    }
}

impl Same for Ident {
    fn same(&self, other: &Ident) -> bool {
        same_ident(self, other)
    }
}

impl Copied for OrigName {
    fn copied(&self, alloc: Global) -> Result<OrigName, AllocError> {
        OrigName::copied(self, alloc)
    }
}

impl Same for OrigName {
    fn same(&self, other: &OrigName) -> bool {
        same_orig_name(self, other)
    }
}

impl Copied for Ty {
    fn copied(&self, alloc: Global) -> Result<Ty, AllocError> {
        Ty::copied(self, alloc)
    }
}

impl Same for Ty {
    fn same(&self, other: &Ty) -> bool {
        same_ty(self, other)
    }
}

/// The same names once more.
pub fn copied_names(alloc: Global, names: &Names) -> Result<Names, AllocError>
    ensures { IfOk result (λ r. r ≡ names.now) }
{
    copied_all(alloc, names)
}

/// Whether two lists of names are equal. It takes no memory.
pub fn same_names(a: &[Name], b: &[Name]) -> bool
    ensures { IsTrue result ↔ (a.now ≡ b.now) }
{
    same_all(a, b)
}
