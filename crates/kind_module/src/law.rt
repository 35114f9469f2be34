//! Laws of the types of a module.
ghost use Rattle.kind_module.specs.Laws.{KindsAreExact};

/// The types of a module have one outcome at most: one list of entities, or one refusal, and never both.
pub fn kinds_have_one_outcome()
    ensures { KindsAreExact }
{}
