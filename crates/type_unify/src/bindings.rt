//! Bindings of unknowns, and unification.
ghost use Rattle.std.specs.Prelude.{◌≡◌, [], length, slice_get, OnOk, OnErr, IfErr, IfOk};
ghost use Rattle.type_unify.specs.Types.{ids, resolved};
ghost use Rattle.type_unify.specs.Unified.{IsUnified, NotSolvable};
ghost use Rattle.type_unify.specs.Cells.{bounds, IsTable};
ghost use Rattle.type_unify.specs.Outcomes.{Grows};
ghost use Rattle.type_unify.specs.Taken.{IsLonger};
ghost use Rattle.type_unify.specs.Attempts.{Attempted};

use crate::cell::Cell;
use crate::resolve::resolved_nodes;
use crate::solve::{UnifyError, solve};
use crate::take_in::take_in;
use crate::term::Term;
use indexmap::IndexMap;
use std::alloc::{AllocError, Global};
use std::marker::Model;

/// What unknowns stand for, the oldest binding first. A binding's type has the older ones applied.
#[derive(Drop)]
pub struct Bindings {
    cells: Vec<Cell>,
    entries: IndexMap<u64, usize>,
}

impl Model for Bindings {
    ghost use Rattle.std.specs.Prelude.{List};
    ghost use Rattle.type_unify.specs.Codes.{coded_bounds};
    ghost use Rattle.type_unify.specs.Types.{Bound};
    ghost use Rattle.type_unify.specs.Cells.{bounds, IsTable};

    ghost Value = { List Bound };

    ghost coded = { coded_bounds };

    ghost view = { λ b. bounds b.cells.items b.entries.entries };

    ghost invariant = { λ b. IsTable b.cells.items b.entries.entries };
}

impl Bindings {
    /// No binding.
    pub fn new(alloc: Global) -> Self
        ensures { result ≡ [] }
    {
        Bindings {
            cells: Vec::new(alloc),
            entries: IndexMap::new(alloc),
        }
    }

    /// How many unknowns are bound.
    pub fn len(&self) -> usize
        ensures { result ≡ length self.now }
    {
        self.entries.len()
    }

    /// The unknown that was bound as the one of this index, from 0.
    pub fn id_at(&self, index: usize) -> Option<u64>
        ensures { result ≡ slice_get (ids self.now) index }
    {
        match self.entries.get_index(index) {
            Some((id, _)) => Some(*id),
            None => None,
        }
    }

    /// A type with all bindings applied. Where bindings share parts it can be very large. The bindings stay; their table serves as a
    /// scratch pad and is cut back.
    pub fn resolve(&mut self, alloc: Global, term: &Term) -> Result<Term, AllocError>
        ensures ok { IfOk result (λ t. t ≡ resolved self.old term.now) }
        ensures same { self.new ≡ self.old }
    {
        let mark = self.cells.len();
        let nodes = resolved_nodes(alloc, &mut self.cells, &self.entries, term.nodes());
        self.cells.truncate(mark);
        Ok(Term::from_nodes(nodes?))
    }
}

// Brings both types into the table and solves. After an error some of what was made stays.
fn attempt(
    alloc: Global,
    cells: &mut Vec<Cell>,
    entries: &mut IndexMap<u64, usize>,
    s: &Term,
    t: &Term,
) -> Result<(), UnifyError>
    requires { IsTable cells.old.items entries.old.entries }
    ensures ok { OnOk result (Attempted cells.old.items cells.new.items entries.old.entries entries.new.entries s.now t.now) }
    ensures longer { IsLonger cells.old.items cells.new.items }
    ensures grows { Grows entries.old.entries entries.new.entries }
    ensures none { IfErr result (λ e. e ≡ UnifyError.NoUnifier → NotSolvable (bounds cells.old.items entries.old.entries) s.now t.now) }
{
    let one = take_in(alloc, cells, s.nodes())?;
    let other = take_in(alloc, cells, t.nodes())?;
    solve(alloc, cells, entries, one, other)
}

/// Binds unknowns so that the two types become equal, in the most general way (Robinson's unification). Types are equal where they
/// are one term over original names and variables: the kinds that names carry take no part. NoUnifier comes exactly where no
/// assignment that meets the bindings makes them equal; the bindings are unchanged after every error.
pub fn unify(alloc: Global, bindings: &mut Bindings, s: &Term, t: &Term) -> Result<(), UnifyError>
    ensures ok { OnOk result (IsUnified bindings.old bindings.new s.now t.now) }
    ensures none { IfErr result (λ e. e ≡ UnifyError.NoUnifier → NotSolvable bindings.old s.now t.now) }
    ensures err { OnErr result (bindings.new ≡ bindings.old) }
{
    let cells = bindings.cells.len();
    let entries = bindings.entries.len();
    match attempt(alloc, &mut bindings.cells, &mut bindings.entries, s, t) {
        Ok(()) => Ok(()),
        Err(error) => {
            bindings.cells.truncate(cells);
            bindings.entries.truncate(entries);
            Err(error)
        }
    }
}
