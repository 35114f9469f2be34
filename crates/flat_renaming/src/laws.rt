//! What renaming keeps of a module's declarations.
ghost use Rattle.flat_renaming.specs.Closed.{RenamingKeepsTexts};

/// Renaming a module's declarations changes neither whether they have a text of the grammar, nor which locals they mention and
/// don't bind.
pub fn renaming_keeps_texts()
    ensures { RenamingKeepsTexts }
{}
