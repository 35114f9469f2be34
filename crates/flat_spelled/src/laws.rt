//! What the terminals of a flat text spell, by the grammar without limits.
ghost use Rattle.flat_spelled.specs.Spelled.{TypesAreSpelled, PatternsAreSpelled, ExpressionsAreSpelled};
ghost use Rattle.flat_spelled.specs.Spelled.{DeclarationsAreSpelled};

/// The terminals of a printable type's marks spell a type.
pub fn types_are_spelled()
    ensures { TypesAreSpelled }
{}

/// The terminals of a printable pattern's marks spell a pattern.
pub fn patterns_are_spelled()
    ensures { PatternsAreSpelled }
{}

/// The terminals of a printable expression's marks spell a well formed expression.
pub fn expressions_are_spelled()
    ensures { ExpressionsAreSpelled }
{}

/// The terminals of a printable declaration's marks, of one that is no type, spell a well formed declaration.
pub fn declarations_are_spelled()
    ensures { DeclarationsAreSpelled }
{}
