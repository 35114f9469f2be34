//! Unknown types with their kinds, and equations between types.
ghost use Rattle.std.specs.Prelude.{◌≡◌, ◌++◌, ◌∷◌, [], length, replicate, IfOk, OnOk, IfErr};
ghost use Rattle.std.specs.List.{range_with_len};
ghost use Rattle.bp_base.specs.declared.ty.Kind.TheVariants.{Star};
ghost use Rattle.type_unify.specs.Types.{Plain};
ghost use Rattle.type_equations.specs.States.{state_of, Equates, Refuses};

use bp_base::{Kind, Name};
use std::alloc::{AllocError, Global};
use type_unify::{Bindings, Term, UnifyError, unify};

/// Why there is no typing.
#[derive(Clone, Copy, Debug, PartialEq, Eq)]
pub enum Failure {
    NoTyping,
    NoMemory,
}

impl From<AllocError> for Failure {
    ghost use Rattle.type_equations.specs.declared.equations.Failure.{Failure};

    ghost from_gives = { λ _ r. r ≡ Failure.NoMemory };

    fn from(_error: AllocError) -> Self {
        Failure::NoMemory
    }
}

/// A local name and the unknown that stands for its type.
#[derive(Debug, Drop)]
pub struct Binder {
    pub name: Name,
    pub unknown: u64,
}

/// What unknowns are bound to, and the kind of each, by its number from 0.
#[derive(Drop)]
pub struct Equations {
    pub bindings: Bindings,
    pub kinds: Vec<Kind>,
}

impl Equations {
    /// No unknown, and no equation.
    pub fn new(alloc: Global) -> Self
        ensures bindings { result.bindings ≡ [] }
        ensures kinds { result.kinds.items ≡ [] }
    {
        Equations {
            bindings: Bindings::new(alloc),
            kinds: Vec::new(alloc),
        }
    }

    /// A new unknown of a kind.
    pub fn fresh(&mut self, kind: Kind) -> Result<u64, AllocError>
        ensures first { IfOk result (λ id. id ≡ length self.old.kinds.items) }
        ensures kinds { OnOk result (self.new.kinds.items ≡ self.old.kinds.items ++ kind ∷ []) }
        ensures same { self.new.bindings ≡ self.old.bindings }
    {
        let id = self.kinds.len() as u64;
        self.kinds.push(kind)?;
        Ok(id)
    }

    /// So many new unknowns of kind `*`.
    pub fn stars(&mut self, alloc: Global, many: usize) -> Result<Vec<u64>, AllocError>
        ensures ids { IfOk result (λ ids. ids.items ≡ range_with_len (length self.old.kinds.items) many) }
        ensures kinds { OnOk result (self.new.kinds.items ≡ self.old.kinds.items ++ replicate many Star) }
        ensures same { self.new.bindings ≡ self.old.bindings }
    {
        let mut ids = Vec::with_capacity(alloc, many)?;
        for _index in 0..many {
            ids.push(self.fresh(Kind::Star)?)?;
        }
        Ok(ids)
    }

    /// Makes two types of one kind equal. NoTyping comes exactly where no guess that meets the equations makes them
    /// equal.
    pub fn equate(&mut self, alloc: Global, s: &Term, t: &Term) -> Result<(), Failure>
        ensures ok { OnOk result (Equates (state_of self.old) (state_of self.new) s.now t.now) }
        ensures none { IfErr result (λ e. e ≡ Failure.NoTyping → Refuses (state_of self.old) s.now t.now) }
    {
        match unify(alloc, &mut self.bindings, s, t) {
            Ok(()) => Ok(()),
            Err(UnifyError::NoUnifier) => Err(Failure::NoTyping),
            Err(UnifyError::NoMemory) => Err(Failure::NoMemory),
        }
    }
}
