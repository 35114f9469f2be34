//! What a reader finds in the flat text of a module, by the grammar without limits.
ghost use Rattle.flat_whole.specs.Whole.{FlatTextIsSpelled};

/// The flat text of each printable module whose names and literals are lawful is read as tokens that are their own layout, and
/// those spell a module of the grammar.
pub fn flat_text_is_spelled()
    ensures { FlatTextIsSpelled }
{}
