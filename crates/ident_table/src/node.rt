//! Identities whose parts are numbers of a table.
ghost use Rattle.std.specs.Prelude.{◌≡◌, [], ◌∷◌, ◌++◌, length, OnOk, OnErr};
ghost use Rattle.std.specs.Cmp.Rules.{comparing, hashing};
ghost use Rattle.std.specs.Cmp.Lexicographic.{pointwise};
ghost use Rattle.std.specs.Hash as fed;
ghost use Rattle.std.proofs.Common.{rules};
ghost use Rattle.ident_table.specs.Sameness.{fill_eq, fill_input};

use bp_base::Name;
use std::alloc::{AllocError, Global};
use std::hash::{Hash, Hasher};
use std::marker::Model;

/// A hole with the number of the identity that fills it.
#[derive(Debug, Drop)]
pub struct NumberFill {
    pub hole: Name,
    pub ident: usize,
}

impl PartialEq for NumberFill {
    ghost eq = { fill_eq };

    ghost laws = { Prim.search (comparing, rules) };

    fn eq(&self, other: &NumberFill) -> bool {
        self.hole == other.hole && self.ident == other.ident
    }
}

impl Eq for NumberFill {
    ghost laws = { Prim.search (comparing, rules) };
}

impl Hash for NumberFill {
    ghost hash_input = { fill_input };

    ghost respects_eq = { Prim.search (comparing, hashing, rules) };

    fn hash<H: Hasher>(&self, state: &mut H) {
        self.hole.hash(state);
        self.ident.hash(state);
    }
}

/// Fills in order of their holes.
#[derive(Debug, Drop)]
pub struct NumberFills {
    fills: Vec<NumberFill>,
}

impl Model for NumberFills {
    ghost use Rattle.std.specs.Prelude.{List};
    ghost use Rattle.ident_table.specs.declared.node.NumberFill.{NumberFill};

    ghost Value = { List NumberFill };

    ghost view = { λ f. f.fills.items };
}

impl NumberFills {
    /// No fills.
    pub fn new(alloc: Global) -> NumberFills
        ensures { result ≡ [] }
    {
        NumberFills {
            fills: Vec::new(alloc),
        }
    }

    /// These fills, without a copy.
    pub fn from_vec(fills: Vec<NumberFill>) -> NumberFills
        ensures { result ≡ fills.items }
    {
        NumberFills { fills }
    }

    pub fn as_slice(&self) -> &[NumberFill]
        ensures { result.now ≡ self.now }
    {
        self.fills.as_slice()
    }

    /// Puts a fill at the end.
    pub fn push(&mut self, fill: NumberFill) -> Result<(), AllocError>
        ensures ok { OnOk result (self.new ≡ self.old ++ fill ∷ []) }
        ensures err { OnErr result (self.new ≡ self.old) }
    {
        self.fills.push(fill)?;
        Ok(())
    }
}

impl PartialEq for NumberFills {
    ghost eq = { pointwise fill_eq };

    ghost laws = { Prim.search (comparing, rules) };

    fn eq(&self, other: &NumberFills) -> bool {
        self.as_slice() == other.as_slice()
    }
}

impl Eq for NumberFills {
    ghost laws = { Prim.search (comparing, rules) };
}

impl Hash for NumberFills {
    ghost use Rattle.std.specs.Hash.{items_Alike};
    ghost use Rattle.ident_table.specs.contracts.node.NumberFillHash.TheImpl.Laws.{respects_eq-law};

    ghost hash_input = { fed.slice fill_input };

    ghost respects_eq = { (items_Alike (record { fed = respects_eq-law })).fed };

    fn hash<H: Hasher>(&self, state: &mut H) {
        self.as_slice().hash(state);
    }
}

/// An identity of a table: a hole, or a module of the unit whose fills are at these numbers.
#[derive(PartialEq, Eq, Hash, Debug, Drop)]
pub enum IdentNode {
    Hole {
        name: Name,
    },
    Module {
        component: Name,
        fills: NumberFills,
        module: Name,
    },
}
