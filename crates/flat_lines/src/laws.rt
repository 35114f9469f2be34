//! The lines of flat texts.
ghost use Rattle.flat_lines.specs.Lines.{FlatTextsFallApart, NamesKeepLines};

/// The flat texts of modules, one behind the other, fall apart behind each line that begins with `}`, and nowhere else.
pub fn flat_texts_fall_apart()
    ensures { FlatTextsFallApart }
{}

/// The names, symbols and literals that stand on one line, and don't begin with `}`.
pub fn names_keep_lines()
    ensures { NamesKeepLines }
{}
