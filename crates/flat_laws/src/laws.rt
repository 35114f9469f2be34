//! What a reader finds in every flat text.
ghost use Rattle.flat_laws.specs.Reading.{NamesAreLawful, MarksAreRead, FlatTextIsSpaced, FlatTextIsRead};

/// A text of lawful marks, of which no two touch that could be one, is read as its terminals.
pub fn marks_are_read()
    ensures { MarksAreRead }
{}

/// No two marks of a module touch that could be read as one, whatever its names are.
pub fn flat_text_is_spaced()
    ensures { FlatTextIsSpaced }
{}

/// The flat text of every module whose terminals are lawful is read as exactly the terminals of its marks, and its tokens are
/// their own layout.
pub fn flat_text_is_read()
    ensures { FlatTextIsRead }
{}

/// The names, symbols and literals that are lawful.
pub fn names_are_lawful()
    ensures { NamesAreLawful }
{}
