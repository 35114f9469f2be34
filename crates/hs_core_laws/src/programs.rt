//! More small programs: each function's contract is one group of statements, which stand in `specs/Programs`.
ghost use Rattle.hs_core_laws.specs.Programs.{HiddenTypesHaveKinds, NegateIsKnown, FirstExportCounts, NumberingIsFree, MaybeHasKind, PartialSynonymsDoNotExpand, GroupAfterGroupIsTyped, PolymorphicRecursionIsTyped, WhereIsSeenInGuards, AnnotationIsTyped, DepthIsMeasured, ModuleIsWellTyped, ClausesAreOneBinding, StubIsWellTyped};

/// What names mean: a type has its kind also where its name is not exported, and `negate` its type whatever is seen.
pub fn names_that_are_not_seen()
    ensures hidden_type { HiddenTypesHaveKinds }
    ensures negate { NegateIsKnown }
{}

/// Of two exports of one name the first counts, and types of values match whatever numbers their variables have.
pub fn exports_that_match()
    ensures first { FirstExportCounts }
    ensures numbering { NumberingIsFree }
{}

/// `Maybe` has kind `* -> *`.
pub fn kind_of_a_type()
    ensures { MaybeHasKind }
{}

/// After `type Ap f x = f x; type L a = [a]` the type `Ap L Int` has no expansion.
pub fn partial_synonyms()
    ensures { PartialSynonymsDoNotExpand }
{}

/// Local declarations: two groups, a function that calls itself at another type by its type signature, a `where` over guards.
pub fn local_declarations()
    ensures groups { GroupAfterGroupIsTyped }
    ensures recursion { PolymorphicRecursionIsTyped }
    ensures guards { WhereIsSeenInGuards }
{}

/// `(\x -> x) :: a -> a` is accepted at `Int -> Int`.
pub fn annotations()
    ensures { AnnotationIsTyped }
{}

/// `i :: a -> a; i x = x` has a typing within 1,000 and none within 2.
pub fn depths()
    ensures { DepthIsMeasured }
{}

/// The module of `x :: Int; x = 1` is well typed; all clauses of one name are one binding; a stub module keeps the kinds of its
/// entries, though they are not the least.
pub fn modules()
    ensures well_typed { ModuleIsWellTyped }
    ensures bindings { ClausesAreOneBinding }
    ensures stub { StubIsWellTyped }
{}
