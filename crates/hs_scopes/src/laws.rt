//! What holds of the definitions: each function's contract is a law.
ghost use Rattle.hs_scopes.specs.Laws.{ChainsAreRead, SectionsAreRead, OneReading, MeaningsAreInScope, MeantIsMeaning, NamesAreExact};

/// A chain has at most one reading.
pub fn one_reading()
    ensures { OneReading }
{}

/// What the report's reader finds is the reading, and it finds each.
pub fn chains_are_read()
    ensures { ChainsAreRead }
{}

/// What is found of a section is what it means that the chain reads with the section's operator outermost.
pub fn sections_are_read()
    ensures { SectionsAreRead }
{}

/// What a name means is in scope, and it is the one thing that it may mean where there is one.
pub fn meanings_are_in_scope()
    ensures seen { MeaningsAreInScope }
    ensures meant { MeantIsMeaning }
{}

/// A name has one meaning, or there is one reason why it has none.
pub fn names_have_one_meaning()
    ensures { NamesAreExact }
{}
