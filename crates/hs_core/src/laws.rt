//! Laws of renaming, of expansion and of what names mean. The first renaming is to fill each hole that occurs, and to show each name at a hole that occurs.
ghost use Rattle.hs_core.specs.RenameLaws.{NameRenamingComposes, TypeRenamingComposes, BodyRenamingComposes, NothingRenames};
ghost use Rattle.hs_core.specs.Globals.{KindIsOne, FirstCounts};
ghost use Rattle.hs_core.specs.Expansion.{ExpansionExists, ExpansionIsOne, NoneIsLeft};

/// Renaming a name by `f` and then by `g` is renaming it by their composition, where `f` covers the name.
pub fn name_renaming_composes()
    ensures { NameRenamingComposes }
{}

/// Renaming a type by `f` and then by `g` is renaming it by their composition, where `f` covers each name that occurs in it.
pub fn type_renaming_composes()
    ensures { TypeRenamingComposes }
{}

/// Renaming a module's declarations by `f` and then by `g` is renaming them by their composition, where `f` covers each name that
/// occurs in them.
pub fn body_renaming_composes()
    ensures { BodyRenamingComposes }
{}

/// Renaming by nothing changes nothing.
pub fn nothing_renames()
    ensures { NothingRenames }
{}

/// Of finitely many synonyms, a type has an expansion exactly where those that are met are acyclic and fully applied; it has one
/// alone, and no synonym is left in it.
pub fn types_expand()
    ensures exists { ExpansionExists }
    ensures one { ExpansionIsOne }
    ensures none_left { NoneIsLeft }
{}

/// A name has one kind; of two entries of one name the first counts.
pub fn names_mean_one_thing()
    ensures kind { KindIsOne }
    ensures first { FirstCounts }
{}
