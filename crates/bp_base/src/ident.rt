//! Module identities: holes, and modules of units. A unit is a component with one identity for each of its holes (Kilpatrick and
//! others, POPL 2014; Yang's thesis, 2017). `p[H=<A>]/M` is module M of the unit of component p whose hole H is the hole A.
ghost use Rattle.std.specs.Prelude.{◌≡◌, ◌↔◌, IfOk, IsTrue};

use crate::Name;
use sqlite_items::{Boxed, Items};
use std::alloc::{AllocError, Global};

/// Fills in order of their holes.
pub type Fills = Items<Fill>;

/// Which module is meant.
#[cycle(ident)]
#[derive(Debug, Drop)]
pub enum Ident {
    Hole { name: Name },
    Module { unit: Boxed<Unit>, module: Name },
}

/// A component with one identity for each of its holes, holes strictly rising in byte order.
#[cycle(ident)]
#[derive(Debug, Drop)]
pub struct Unit {
    pub component: Name,
    pub fills: Fills,
}

/// A hole with the identity that fills it.
#[cycle(ident)]
#[derive(Debug, Drop)]
pub struct Fill {
    pub hole: Name,
    pub ident: Ident,
}

impl Ident {
    /// The same identity once more.
    #[cycle(copied)]
    pub fn copied(&self, alloc: Global) -> Result<Ident, AllocError>
        ensures { IfOk result (λ r. r ≡ self.now) }
    {
        match self {
            Ident::Hole { name } => Ok(Ident::Hole {
                name: name.copied(alloc)?,
            }),
            Ident::Module { unit, module } => {
                let unit = unit.get().copied(alloc)?;
                Ok(Ident::Module {
                    unit: Boxed::new(alloc, unit)?,
                    module: module.copied(alloc)?,
                })
            }
        }
    }
}

impl Unit {
    /// The same unit once more.
    #[cycle(copied)]
    pub fn copied(&self, alloc: Global) -> Result<Unit, AllocError>
        ensures { IfOk result (λ r. r ≡ self.now) }
    {
        Ok(Unit {
            component: self.component.copied(alloc)?,
            fills: copied_fills(alloc, &self.fills)?,
        })
    }
}

/// The same fills once more.
#[cycle(copied)]
pub fn copied_fills(alloc: Global, fills: &Fills) -> Result<Fills, AllocError>
    ensures { IfOk result (λ r. r ≡ fills.now) }
{
    let mut all = Items::new(alloc);
    for each in fills.as_slice() {
        all.push(Fill {
            hole: each.hole.copied(alloc)?,
            ident: each.ident.copied(alloc)?,
        })?;
    }
    Ok(all)
}

/// Whether two identities are equal. It takes no memory.
#[cycle(same)]
pub fn same_ident(a: &Ident, b: &Ident) -> bool
    ensures { IsTrue result ↔ (a.now ≡ b.now) }
{
    match (a, b) {
        (Ident::Hole { name: x }, Ident::Hole { name: y }) => *x == *y,
        (Ident::Module { unit: u, module: m }, Ident::Module { unit: v, module: n }) => {
            *m == *n && same_unit(u.get(), v.get())
        }
        _ => false,
    }
}

/// Whether two units are equal: the components are, and all fills. It takes no memory.
#[cycle(same)]
#[tactic(auto, using(crate::proofs::IdentLemmas::unit_sameness))]
pub fn same_unit(a: &Unit, b: &Unit) -> bool
    ensures { IsTrue result ↔ (a.now ≡ b.now) }
{
    a.component == b.component && same_fills(a.fills.as_slice(), b.fills.as_slice())
}

/// Whether two lists of fills are equal. It takes no memory.
#[cycle(same)]
pub fn same_fills(a: &[Fill], b: &[Fill]) -> bool
    ensures { IsTrue result ↔ (a.now ≡ b.now) }
{
    if a.len() != b.len() {
        return false;
    }
    for i in 0..a.len() {
        if !same_fill(&a[i], &b[i]) {
            return false;
        }
    }
    true
}

#[cycle(same)]
fn same_fill(a: &Fill, b: &Fill) -> bool
    ensures { IsTrue result ↔ (a.now ≡ b.now) }
{
    a.hole == b.hole && same_ident(&a.ident, &b.ident)
}
