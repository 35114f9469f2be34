//! The table of identities.
ghost use Rattle.std.specs.Prelude.{◌≡◌, ◌<◌, ◌≤◌, ◌⊎◌, List, [], length, slice_get, Some, IfOk};
ghost use Rattle.bp_base.specs.Lists.{Among};
ghost use Rattle.bp_base.specs.declared.ident.Ident.{Ident};
ghost use Rattle.ident_table.specs.Parts.{terms_of, terms_in_fills};
ghost use Rattle.ident_table.specs.Numbers.{ident_of, fills_of, node_of, module_of, AreFillsBelow, IsNodeBelow, IsIdentTable, Grows};

use crate::node::{IdentNode, NumberFill, NumberFills};
use bp_base::{Fill, Fills, Ident, Name, Unit};
use indexmap::IndexSet;
use sqlite_items::{Boxed, Items};
use std::alloc::{AllocError, Global};
use std::marker::Model;

/// Identities, each once and after those that it is made of. Their numbers are their places, from 0. Contracts see the list of the
/// identities.
#[derive(Drop)]
pub struct IdentTable {
    alloc: Global,
    nodes: IndexSet<IdentNode>,
}

impl Model for IdentTable {
    ghost use Rattle.std.specs.Prelude.{◌≡◌, List, []};
    ghost use Rattle.bp_base.specs.declared.ident.Ident.{Ident};
    ghost use Rattle.bp_base.specs.contracts.ident.Ident as e;
    ghost use Rattle.std.specs.Coded.{codes};
    ghost use Rattle.ident_table.specs.Numbers.{idents_of};
    ghost use Rattle.ident_table.specs.Nodes.{AreNodes};

    ghost Value = { List Ident };

    ghost coded = { Prim.hlevel (codes, e.the_row.coded) };

    ghost view = { λ t. idents_of [] t.nodes.keys };

    ghost invariant = { λ t. AreNodes t.nodes.keys };
}

impl IdentTable {
    /// No identities. The table takes its memory, and that of what it writes out, from this allocator.
    pub fn new(alloc: Global) -> IdentTable
        ensures { result ≡ [] }
    {
        IdentTable {
            alloc,
            nodes: IndexSet::new(alloc),
        }
    }

    /// How many identities there are. It takes no memory.
    pub fn len(&self) -> usize
        ensures len { result ≡ length self.now }
        ensures table { IsIdentTable self.now }
    {
        self.nodes.len()
    }

    /// What the identity of this number is made of.
    pub fn node_at(&self, number: usize) -> &IdentNode
        requires { number < length self.now }
        ensures ident { slice_get self.now number ≡ Some (node_of self.now result.now) }
        ensures below { IsNodeBelow number result.now }
    {
        &self.nodes[number]
    }

    /// The number of an identity, which is put into the table with all that it is made of, as far as that is not there. Old numbers keep
    /// their identities, also where memory is wanting.
    #[cycle(number)]
    pub fn number(&mut self, ident: &Ident) -> Result<usize, AllocError>
        ensures number { IfOk result (λ n. slice_get self.new n ≡ Some ident.now) }
        ensures grows { Grows self.old self.new }
        ensures parts { IfOk result (λ n. (t : Ident) → Among t self.new → Among t self.old ⊎ Among t (terms_of ident.now)) }
        ensures table { IfOk result (λ n. IsIdentTable self.new) }
    {
        let alloc = self.alloc;
        match ident {
            Ident::Hole { name } => self.insert(IdentNode::Hole {
                name: name.copied(alloc)?,
            }),
            Ident::Module { unit, module } => {
                let unit = unit.get();
                let fills = self.number_fills(unit.fills.as_slice())?;
                self.number_module(unit.component.copied(alloc)?, fills, module.copied(alloc)?)
            }
        }
    }

    // The fills with the numbers of their identities, in order.
    #[cycle(number)]
    fn number_fills(&mut self, fills: &[Fill]) -> Result<NumberFills, AllocError>
        ensures numbers { IfOk result (λ r. fills_of self.new r ≡ fills.now) }
        ensures below { IfOk result (AreFillsBelow (length self.new)) }
        ensures grows { Grows self.old self.new }
        ensures parts { IfOk result (λ r. (t : Ident) → Among t self.new → Among t self.old ⊎ Among t (terms_in_fills fills.now)) }
    {
        let alloc = self.alloc;
        let mut numbers = NumberFills::new(alloc);
        for fill in fills {
            let ident = self.number(&fill.ident)?;
            numbers.push(NumberFill {
                hole: fill.hole.copied(alloc)?,
                ident,
            })?;
        }
        Ok(numbers)
    }

    // The number of a node, which is put at the end where it is not there.
    fn insert(&mut self, node: IdentNode) -> Result<usize, AllocError>
        requires { IsNodeBelow (length self.old) node }
        ensures number { IfOk result (λ n. slice_get self.new n ≡ Some (node_of self.old node)) }
        ensures grows { Grows self.old self.new }
        ensures parts { (t : Ident) → Among t self.new → Among t self.old ⊎ (node_of self.old node ≡ t) }
        ensures table { IsIdentTable self.new }
    {
        let (number, _) = self.nodes.insert_full(node)?;
        Ok(number)
    }

    /// The number of the module of a unit whose fills have these numbers. Old numbers keep their identities, also where memory is
    /// wanting.
    pub fn number_module(
        &mut self,
        component: Name,
        fills: NumberFills,
        module: Name,
    ) -> Result<usize, AllocError>
        requires { AreFillsBelow (length self.old) fills }
        ensures number { IfOk result (λ n. slice_get self.new n ≡ Some (module_of self.old component fills «module»)) }
        ensures grows { Grows self.old self.new }
        ensures parts { (t : Ident) → Among t self.new → Among t self.old ⊎ (module_of self.old component fills «module» ≡ t) }
        ensures table { IfOk result (λ n. IsIdentTable self.new) }
    {
        self.insert(IdentNode::Module {
            component,
            fills,
            module,
        })
    }

    /// The identity of a number, written out.
    #[cycle(written)]
    pub fn ident_at(&self, number: usize) -> Result<Ident, AllocError>
        requires { number < length self.now }
        ensures { IfOk result (λ t. slice_get self.now number ≡ Some t) }
    {
        let alloc = self.alloc;
        match self.node_at(number) {
            IdentNode::Hole { name } => Ok(Ident::Hole {
                name: name.copied(alloc)?,
            }),
            IdentNode::Module {
                component,
                fills,
                module,
            } => {
                let unit = Unit {
                    component: component.copied(alloc)?,
                    fills: self.fills_below(fills.as_slice(), number)?,
                };
                Ok(Ident::Module {
                    unit: Boxed::new(alloc, unit)?,
                    module: module.copied(alloc)?,
                })
            }
        }
    }

    /// Fills with their identities written out.
    pub fn fills_at(&self, fills: &NumberFills) -> Result<Fills, AllocError>
        requires { AreFillsBelow (length self.now) fills.now }
        ensures { IfOk result (λ r. r ≡ fills_of self.now fills.now) }
    {
        self.fills_below(fills.as_slice(), self.len())
    }

    // Fills at numbers below this one, written out.
    #[cycle(written)]
    fn fills_below(&self, fills: &[NumberFill], limit: usize) -> Result<Fills, AllocError>
        requires limit { limit ≤ length self.now }
        requires below { AreFillsBelow limit fills.now }
        ensures { IfOk result (λ r. r ≡ fills_of self.now fills.now) }
    {
        let alloc = self.alloc;
        let mut written = Items::new(alloc);
        for fill in fills {
            written.push(Fill {
                hole: fill.hole.copied(alloc)?,
                ident: self.ident_at(fill.ident)?,
            })?;
        }
        Ok(written)
    }
}
