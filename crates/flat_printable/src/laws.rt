//! What holds of the flat text of each printable module.
ghost use Rattle.flat_printable.specs.Laws.{PrintableTextsAreSpelled, PrintableTextsFallApart};
ghost use Rattle.flat_printable.specs.Examples.{NamesTell, LiteralsTell, FormsTell, LocalsTell};

/// The flat text of each printable module is read as tokens that are their own layout, and those spell a module of the grammar,
/// whatever its depth.
pub fn printable_texts_are_spelled()
    ensures { PrintableTextsAreSpelled }
{}

/// The flat texts of printable modules, one behind the other, fall apart behind each line that begins with `}`, and nowhere
/// else.
pub fn printable_texts_fall_apart()
    ensures { PrintableTextsFallApart }
{}

/// What the conditions say of small names and trees.
pub fn conditions_tell()
    ensures names { NamesTell }
    ensures literals { LiteralsTell }
    ensures forms { FormsTell }
    ensures locals { LocalsTell }
{}
