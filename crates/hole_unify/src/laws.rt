//! Laws of the definitions.
ghost use Rattle.hole_unify.specs.Laws.{ClashHasNoUnifier, CycleHasNoUnifier, AnswersAreOne, CausesAreOne, NoCauseBesideAnswer};

/// Equations with two different heads in one class have no unifier.
pub fn clash_has_no_unifier()
    ensures { ClashHasNoUnifier }
{}

/// Equations with a hole whose class reaches itself have no unifier.
pub fn cycle_has_no_unifier()
    ensures { CycleHasNoUnifier }
{}

/// There is one answer at most.
pub fn answers_are_one()
    ensures { AnswersAreOne }
{}

/// Two causes of one list of equations have one kind, one label and one hole.
pub fn causes_are_one()
    ensures { CausesAreOne }
{}

/// Where equations have an answer, no refusal has a cause.
pub fn no_cause_beside_answer()
    ensures { NoCauseBesideAnswer }
{}
