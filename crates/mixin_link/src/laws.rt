//! Laws of the definitions.
ghost use Rattle.mixin_link.specs.Laws.{LinkingsAreUnifiers, AnswersArePrincipal, PrincipalIsOne, CausesLeaveNone};
ghost use Rattle.mixin_link.specs.Laws.{NamesAreOrdered, LinkingsAreLawful, LinkingHasOneOutcome};

/// The linkings of a component are the unifiers of its equations.
pub fn linkings_are_unifiers()
    ensures { LinkingsAreUnifiers }
{}

/// The answer to the equations is the principal linking.
pub fn answers_are_principal()
    ensures { AnswersArePrincipal }
{}

/// There is one principal linking at most.
pub fn principal_is_one()
    ensures { PrincipalIsOne }
{}

/// Where the equations have no unifier, there is no linking.
pub fn causes_leave_none()
    ensures { CausesLeaveNone }
{}

/// The required names are in byte order, each once.
pub fn names_are_ordered()
    ensures { NamesAreOrdered }
{}

/// What a linked component provides meets the condition of `link_names` for the next component.
pub fn linkings_are_lawful()
    ensures { LinkingsAreLawful }
{}

/// `link_names` has one answer at most, up to want of memory.
pub fn linking_has_one_outcome()
    ensures { LinkingHasOneOutcome }
{}
