//! Sources of the plain form, with what becomes of them.

const ONE: &[u8] =
    b"module U0.M (U0.M.x) where {\nimport qualified Prelude;\nx :: Prelude.Int;\nx = 1;\n}\n";

const EMPTY: &[u8] = b"module U0.M () where {\nimport qualified Prelude;\n}\n";

const HIDDEN: &[u8] = b"module U0.M (U0.M.a, U0.M.f) where {\n\
import qualified Prelude;\n\
f :: Prelude.Int -> Prelude.Int;\n\
f a = a;\n\
a :: Prelude.Int;\n\
a = U0.M.f 9223372036854775807;\n\
}\n";

const LONG: &[u8] = b"module U0.M (U0.M.xY, U0.M.x_1') where {\n\
import qualified Prelude;\n\
x_1' :: Prelude.Int -> Prelude.Int;\n\
x_1' id = id;\n\
xY :: Prelude.Int;\n\
xY = U0.M.x_1' 31;\n\
}\n";

const ARROWS: &[u8] = b"module U0.M (U0.M.f) where {\n\
import qualified Prelude;\n\
f :: Prelude.Int -> Prelude.Int -> Prelude.Int -> Prelude.Int -> Prelude.Int -> Prelude.Int -> Prelude.Int -> Prelude.Int -> Prelude.Int -> Prelude.Int -> Prelude.Int -> Prelude.Int -> Prelude.Int -> Prelude.Int -> Prelude.Int -> Prelude.Int -> Prelude.Int -> Prelude.Int;\n\
f = U0.M.f;\n\
}\n";

const APPLIED: &[u8] = b"module U0.M (U0.M.f, U0.M.g) where {\n\
import qualified Prelude;\n\
g :: Prelude.Int;\n\
g = U0.M.f 2;\n\
f :: Prelude.Int -> Prelude.Int;\n\
f a = a;\n\
}\n";

/// Sources with the flat texts of what they spell.
pub const SPELLED: [(&[u8], &[u8]); 18] = [
    (
        b"module M where { g :: Int; g = f 2; f :: Int -> Int; f a = a; }",
        APPLIED,
    ),
    (b"module M where {\nx :: Int;\nx = 1\n}\n", ONE),
    (b"module M where{x::Int;x=1;}", ONE),
    (b"\n module\nM where { x::Int ; x = 001 } \n", ONE),
    (b"module M where {\tx :: Int; x = 1 }", ONE),
    (b"module M where\nx :: Int\nx = 1\n", ONE),
    (
        b"module M where\n-- one\n  x :: Int {- a number -}\n  x =\n   1\n",
        ONE,
    ),
    (b"module M where\r\nx :: Int\r\nx = 1\r\n", ONE),
    (b"module M where { }", EMPTY),
    (b"module M where {;}", EMPTY),
    (b"module M where { x :: Int; x = 1;; }", ONE),
    (b"module M where { x :: Int;; x = 1 }", ONE),
    (b"module M where { x :: (Int); x = ((1)) }", ONE),
    (b"module M where { x :: Int; x = 0x1 }", ONE),
    (
        b"module M where { x_1' :: Int -> Int; x_1' id = id; xY :: Int; xY = x_1' (0X1f) }",
        LONG,
    ),
    (
        b"module M where { f :: Int->Int->Int->Int->Int->Int->Int->Int->Int->Int->Int->Int->Int->Int->Int->Int->Int->Int; f = f }",
        ARROWS,
    ),
    (
        b"module M where{f::Int->Int;f a=a;a::Int;a=f 9223372036854775807}",
        HIDDEN,
    ),
    (
        b"module M where {f :: Int -> Int; f a = a; a :: Int; a = f 9223372036854775807;}",
        HIDDEN,
    ),
];

/// Sources that are no plain module M, with the notes on them.
pub const REFUSED: [(&[u8], &[u8]); 26] = [
    (
        b"module M (x) where { x :: Int; x = 1 }",
        b"refused 10 Syntax one M 0\n",
    ),
    (b"x :: Int\nx = 1\n", b"refused 10 Syntax one M 0\n"),
    (b"  -- M\n  x :: Int\n", b"refused 10 Syntax one M 9\n"),
    (b"", b"refused 10 Syntax one M 0\n"),
    (b"module N where { }", b"refused 10 Syntax one M 7\n"),
    (
        b"module M where\nx :: Int\nx = (1\n",
        b"refused 10 Syntax one M 31\n",
    ),
    (b"module M where { x = 1 }", b"refused 10 Syntax one M 0\n"),
    (
        b"module M where { x :: Int }",
        b"refused 10 Syntax one M 0\n",
    ),
    (
        b"module M where { x :: Int; x = }",
        b"refused 10 Syntax one M 31\n",
    ),
    (
        b"module M where { x :: Int; y = 1 }",
        b"refused 10 Syntax one M 0\n",
    ),
    (
        b"module M where { x :: Int; x = 1 y :: Int; y = 1 }",
        b"refused 10 Syntax one M 0\n",
    ),
    (
        b"module M where { x :: Int; x = 1; x :: Int; x = 1 }",
        b"refused 10 Syntax one M 0\n",
    ),
    (
        b"module M where { x :: Int; x = y }",
        b"refused 10 Syntax one M 0\n",
    ),
    (
        b"module M where { x :: Int; x a a = 1 }",
        b"refused 10 Syntax one M 0\n",
    ),
    (
        b"module M where { x :: Int; x 1 = 1 }",
        b"refused 10 Syntax one M 0\n",
    ),
    (
        b"module M where { x :: Int -> ; x = 1 }",
        b"refused 10 Syntax one M 29\n",
    ),
    (
        b"module M where { x :: Int; x = 1a }",
        b"refused 10 Syntax one M 0\n",
    ),
    (
        b"module M where { id :: Int; id = 1; x :: Int; x = id }",
        b"refused 10 Syntax one M 0\n",
    ),
    (
        b"module M where { f :: Int -> Int; f 0 = 1; f x = x }",
        b"refused 10 Syntax one M 0\n",
    ),
    (
        b"module M where { x :: Int; x = 1 + 2 }",
        b"refused 10 Syntax one M 0\n",
    ),
    (
        b"module M where { x :: Int; x = y where { y = 1 } }",
        b"refused 10 Syntax one M 0\n",
    ),
    (
        b"module M where { import Prelude; x :: Int; x = 1 }",
        b"refused 10 Syntax one M 0\n",
    ),
    (
        b"module M where { x :: * }",
        b"refused 10 Syntax one M 22\n",
    ),
    (
        b"module M where { x = - - 1 }",
        b"refused 10 Syntax one M 23\n",
    ),
    (b"signature M where { }", b"refused 10 Syntax one M 0\n"),
    (b"module M x = 1", b"refused 10 Syntax one M 9\n"),
];

/// Sources with the notes on them: none where each value has its declared type, else on the first that has not.
pub const TYPED: [(&[u8], &[u8]); 9] = [
    (b"module M where { x :: Int; x = 1 }", b""),
    (
        b"module M where { x :: Int; x = x 1 }",
        b"refused 28 IllTyped one M x\n",
    ),
    (
        b"module M where { x :: Int; x a = 1 }",
        b"refused 28 IllTyped one M x\n",
    ),
    (
        b"module M where { f :: Int -> Int; f a = a; x :: Int; x = f 1 }",
        b"",
    ),
    (
        b"module M where { f :: Int -> Int; f = f; x :: Int; x = f }",
        b"refused 28 IllTyped one M x\n",
    ),
    (
        b"module M where { f :: Int -> Int -> Int; f a = g 1; g :: Int -> Int; g a = f a a }",
        b"refused 28 IllTyped one M f\n",
    ),
    (
        b"module M where { f :: Int -> Int -> Int; f a = g; g :: Int -> Int; g a = f a a }",
        b"",
    ),
    (
        b"module M where { f :: Int -> Int; f a = f f }",
        b"refused 28 IllTyped one M f\n",
    ),
    (
        b"module M where { f :: Int -> Int; f a = a 1; x :: Int; x = x 1 }",
        b"refused 28 IllTyped one M f\n",
    ),
];

/// Targets, sources and how many of the three files are there, with the status and the note.
pub const REFUSALS: [(&[u8], &[u8], usize, u8, &[u8]); 6] = [
    (b"one", b"", 0, 1, b"refused 6 NoSource - - cabal.project\n"),
    (b"one", b"", 1, 1, b"refused 6 NoSource - - one/one.cabal\n"),
    (b"one", b"", 2, 1, b"refused 6 NoSource one M one/M.hs\n"),
    (b"two", b"", 3, 1, b"refused 3 NoComponent - - two\n"),
    (
        b"one",
        b"module M where { x = 1 }",
        3,
        1,
        b"refused 10 Syntax one M 0\n",
    ),
    (
        b"",
        b"",
        3,
        2,
        b"usage: backpack build|check|link|show|units NAME or sample N\n",
    ),
];

/// Projects, as path, `~` and content between `|`, with the target, the reading that fails, the status, and the note.
pub const PROJECTS: [(&[u8], &[u8], u64, u8, &[u8]); 25] = [
    (
        b"cabal.project~packages: .\n",
        b"a",
        1,
        1,
        b"refused 1 ProjectSyntax - - 1\n",
    ),
    (
        b"cabal.project~packages:\n",
        b"a",
        9,
        1,
        b"refused 3 NoComponent - - a\n",
    ),
    (
        b"cabal.project~packages: a\n|a/a.cabal~library\n",
        b"a",
        2,
        1,
        b"refused 2 ComponentSyntax a/a.cabal - 1\n",
    ),
    (
        b"cabal.project~packages: a\n|a/a.cabal~name: a\nlibrary\n  exposed-modules: M\n  exposed-modules: N\n",
        b"a",
        9,
        1,
        b"refused 2 ComponentSyntax a/a.cabal - 4\n",
    ),
    (
        b"cabal.project~packages: a b\n|a/a.cabal~name: a\nlibrary\n|b/b.cabal~name: a\nlibrary\n",
        b"a",
        9,
        1,
        b"refused 4 TwiceComponent a - -\n",
    ),
    (
        b"cabal.project~packages: a\n|a/a.cabal~name: a\nlibrary\n  exposed-modules: M\n  build-depends: base, x\n",
        b"a",
        9,
        1,
        b"refused 3 NoComponent a - x\n",
    ),
    (
        b"cabal.project~packages: a b\n|a/a.cabal~name: a\nlibrary\n  build-depends: b\n|b/b.cabal~name: b\nlibrary\n  build-depends: a\n",
        b"b",
        9,
        1,
        b"refused 5 DependencyCycle b - -\n",
    ),
    (b"", b"a", 9, 1, b"refused 6 NoSource - - cabal.project\n"),
    (
        b"cabal.project~packages: a/\n",
        b"a",
        9,
        1,
        b"refused 6 NoSource - - a/a.cabal\n",
    ),
    (
        b"cabal.project~packages: a\n|a/a.cabal~name: a\nlibrary\n  exposed-modules: Data.M\n  hs-source-dirs: src, .\n",
        b"a",
        9,
        1,
        b"refused 6 NoSource a Data.M a/src/Data/M.hs\n",
    ),
    (
        b"cabal.project~packages: a\n|a/a.cabal~name: a\nlibrary\n  exposed-modules: M\n|a/M.hs~module M where { x :: Int; x = 1.5 }",
        b"a",
        9,
        1,
        b"refused 7 LeftOut a M 31\n",
    ),
    (
        b"cabal.project~packages: a\n|a/a.cabal~name: a\nlibrary\n  exposed-modules: M\n|a/M.hs~module M where { x :: Int; x = \" }",
        b"a",
        9,
        1,
        b"refused 8 Lexical a M 31\n",
    ),
    (
        b"cabal.project~packages: a\n|a/a.cabal~name: a\nlibrary\n  exposed-modules: M\n|a/M.hs~module M where { x :: Int; x = 9223372036854775808 }",
        b"a",
        9,
        1,
        b"refused 8 Lexical a M 31\n",
    ),
    (
        b"cabal.project~packages: a\n|a/a.cabal~name: a\nlibrary\n  exposed-modules: M\n|a/M.hs~module M where { } }",
        b"a",
        9,
        1,
        b"refused 9 Layout a M 19\n",
    ),
    (
        b"cabal.project~packages: a\n|a/a.cabal~name: a\nlibrary\n  exposed-modules: M\n|a/M.hs~module M where { x = 1",
        b"a",
        9,
        1,
        b"refused 9 Layout a M 22\n",
    ),
    (
        b"cabal.project~packages: a\n|a/a.cabal~name: a\nlibrary\n  exposed-modules: M\n|a/M.hs~module N where { }",
        b"a",
        9,
        1,
        b"refused 10 Syntax a M 7\n",
    ),
    (
        b"cabal.project~packages: a\n|a/a.cabal~name: a\nlibrary\n  exposed-modules: M\n  build-depends: base\n  mixins: base (Prelude)\n",
        b"a",
        9,
        1,
        b"refused 2 ComponentSyntax a/a.cabal - 5\n",
    ),
    (
        b"cabal.project~packages: a\n|a/a.cabal~name: a\nlibrary\n  signatures: H\n  exposed-modules: M\n",
        b"a",
        9,
        1,
        b"refused 2 ComponentSyntax a/a.cabal - 3\n",
    ),
    (
        b"cabal.project~packages: a\n|a/a.cabal~name: a\nlibrary\n  exposed-modules: M\n  other-modules: N\n",
        b"a",
        9,
        1,
        b"refused 2 ComponentSyntax a/a.cabal - 3\n",
    ),
    (
        b"cabal.project~packages: a\n|a/a.cabal~name: a\nlibrary\n",
        b"a",
        9,
        1,
        b"refused 2 ComponentSyntax a/a.cabal - 2\n",
    ),
    (
        b"cabal.project~packages: a\n|a/a.cabal~name: a\nexecutable e\n  main-is: M.hs\n",
        b"a:exe:e",
        9,
        1,
        b"refused 2 ComponentSyntax a/a.cabal - 2\n",
    ),
    (
        b"cabal.project~packages: a b\n|a/a.cabal~name: a\nlibrary\n  exposed-modules: M\n  build-depends: base, b\n|b/b.cabal~name: b\nlibrary\n  exposed-modules: N\n",
        b"a",
        9,
        1,
        b"refused 2 ComponentSyntax a/a.cabal - 4\n",
    ),
    (
        b"cabal.project~packages: a\n|a/a.cabal~name: a\nlibrary\n  exposed-modules: M\n|a/M.hs~module M where",
        b"a",
        2,
        3,
        b"fault read\n",
    ),
    (
        b"cabal.project~packages: a\n|a/a.cabal~name: a\nlibrary\n  exposed-modules: M\n|a/M.hs~module M where",
        b"a",
        9,
        0,
        b"",
    ),
    (
        b"cabal.project~packages: a b\n|a/a.cabal~name: a\nlibrary s\n  exposed-modules: M\n  hs-source-dirs: x y\n|b/b.cabal~name: b\nlibrary\n  exposed-modules: N P\n|a/y/M.hs~module M where",
        b"a:s",
        9,
        0,
        b"",
    ),
];
