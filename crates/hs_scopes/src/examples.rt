//! What the definitions say of small sources: each function's contract is one group of statements, which stand in
//! `specs/Examples`.
ghost use Rattle.hs_scopes.specs.Examples.{MinusGroupsLeft, SignBindsAsPlus, EqualityDoesNotGroup, SectionsResolve, RightGroups, LocalsHide, LocalFixities, NamesMean};

/// `1 - 2 - 3` groups to the left, `- 1 + 2` takes the sign first, `1 == 2 == 3` has no reading, `(+ 1 * 2)` is a
/// section and `(* 1 + 2)` none, `1 ++ 2 ++ 3` groups to the right; `\\negate -> negate` means its variable; a local
/// operator has the fixity that its group declares.
pub fn expressions_resolve()
    ensures left { MinusGroupsLeft }
    ensures sign { SignBindsAsPlus }
    ensures equality { EqualityDoesNotGroup }
    ensures sections { SectionsResolve }
    ensures right { RightGroups }
    ensures hide { LocalsHide }
    ensures local { LocalFixities }
{}

/// One entity by two imports is meant; two entities are ambiguous; a name that is only there behind a qualifier is not
/// in scope plainly.
pub fn names_mean()
    ensures { NamesMean }
{}
