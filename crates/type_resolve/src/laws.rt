//! What holds of the definitions.
ghost use Rattle.type_resolve.specs.Laws.{NamesAreExact, TypesAreExact};

/// A name has one meaning or one fault, and a type is resolved in one way or refused for one reason.
pub fn types_are_exact()
    ensures names { NamesAreExact }
    ensures types { TypesAreExact }
{}
