//! What holds of the definitions: each function's contract is a law.
ghost use Rattle.name_resolve.specs.Laws.{NamesAreExact};
ghost use Rattle.name_resolve.specs.Examples.{GroupsAreRuled};

/// A module and a scope have one list of resolved declarations, or one refusal: what is declared at the top level and
/// each declaration by themselves, and both one after the other.
pub fn names_are_exact()
    ensures { NamesAreExact }
{}

/// Clauses of one name stand together and have as many arguments; no name has two type signatures; a type and a
/// constructor may share a name; a fixity declaration names what its group binds.
pub fn groups_are_ruled()
    ensures { GroupsAreRuled }
{}
