//! What the definitions say of small programs: each function's contract is one group of statements, which stand in
//! `specs/Examples`.
ghost use Rattle.hs_core_laws.specs.Examples.{IdentityIsTyped, ConversionIsNotTyped, RigidVariablesStay, LetIsGeneralised, LambdaIsNotGeneralised, KindsAreKept, ClausesAreTyped, ArgumentsAreCounted, KindsAreLeast, StringExpands, ValuesMatch};

/// `i :: a -> a; i x = x` has its declared type, and `j :: a -> b; j x = x` has not; `\x -> (x :: a)` has no type.
pub fn rigid_variables()
    ensures typed { IdentityIsTyped }
    ensures refuted { ConversionIsNotTyped }
    ensures escaping { RigidVariablesStay }
{}

/// `let i = \x -> x in (i 1, i 'c')` has a type, and `\i -> (i 1, i 'c')` has none.
pub fn generalisation()
    ensures typed { LetIsGeneralised }
    ensures refuted { LambdaIsNotGeneralised }
{}

/// After `data P f a = P (f a); data T m = T (m Int); v :: T Maybe` the expression `case P v of P x -> 1` has no type.
pub fn kinds_of_variables()
    ensures { KindsAreKept }
{}

/// `g :: Int -> Int; g 0 = 1; g x | y <- x = y` has its declared type.
pub fn clauses()
    ensures { ClausesAreTyped }
{}

/// `(:) x` is no pattern.
pub fn arguments_of_patterns()
    ensures { ArgumentsAreCounted }
{}

/// Of `data P a = P` the kind is `* -> *`, and `data A f = A (f f)` has none.
pub fn least_kinds()
    ensures { KindsAreLeast }
{}

/// `String` expands to `[Char]`.
pub fn expansion()
    ensures { StringExpands }
{}

/// `f :: Int` is met by `f :: Int`, and neither by `f :: Char` nor by `f :: a`, nor where nothing is exported.
pub fn matching()
    ensures { ValuesMatch }
{}
