use crate::trees::{built, new_trees, put};
use bp_base::{Bytes, Name, Names};
use flat_text::{FlatModule, print_module};
use sqlite_items::Items;
use std::alloc::{AllocError, Global};
use std::test::Fail;

/// The text of the module `U0.M` with what a program builds.
fn printed(alloc: Global, program: &str, imports: Names) -> Result<Bytes, AllocError> {
    let mut trees = new_trees(alloc);
    for word in program.split_ascii_whitespace() {
        put(alloc, &mut trees, word)?;
    }
    let (decls, exports) = built(trees);
    let flat = FlatModule {
        name: Name::from_bytes(alloc, b"U0.M")?,
        exports,
        imports,
        decls,
    };
    print_module(alloc, &flat)
}

/// Whether a row is right: a program, and the line that it is written as.
fn is_right(alloc: Global, row: &str) -> Result<bool, AllocError> {
    let (program, line) = row.split_once('#').unwrap_or(("", ""));
    let text = printed(alloc, program, Items::new(alloc))?;
    let line = line.trim();
    let want = format!(in alloc;
        "module U0.M () where {{\nimport qualified Prelude;\n{line};\n}}\n"
    )?;
    Ok(text.as_bytes() == want.as_str().as_bytes())
}

/// The first row that is not right.
fn wrong_row<'a>(alloc: Global, rows: &'a str) -> Result<&'a str, AllocError> {
    for row in rows.lines() {
        if !is_right(alloc, row)? {
            return Ok(row);
        }
    }
    Ok("")
}

/// Types, and declarations of types.
const TYPES: &str = "\
t/base/Prelude/Int sig/x                                                   # x :: Prelude.Int
tv/b t/U0/M/T sig/+++                                                      # (+++) :: U0.M.T
t/base/Prelude/-> tv/a ta tv/b ta sig/f                                    # f :: a -> b
t/base/Prelude/-> t/base/Prelude/-> tv/a ta tv/b ta ta tv/c ta sig/f       # f :: (a -> b) -> c
t/base/Prelude/-> tv/a ta t/base/Prelude/-> tv/b ta tv/c ta ta sig/f       # f :: a -> b -> c
t/base/Prelude/-> tv/m tv/a ta ta tv/b ta sig/f                            # f :: m a -> b
t/base/Prelude/[] t/base/Prelude/-> tv/a ta tv/b ta ta sig/f               # f :: [a -> b]
t/base/Prelude/(,) tv/a ta tv/m tv/b ta ta sig/f                           # f :: (a, m b)
t/base/Prelude/(,,) tv/a ta tv/b ta tv/c ta sig/f                          # f :: (a, b, c)
t/base/Prelude/(,,) tv/a ta tv/b ta sig/f                                  # f :: (,,) a b
t/base/Prelude/(,) sig/f                                                   # f :: (,)
t/base/Prelude/[] sig/f                                                    # f :: []
t/base/Prelude/-> tv/a ta sig/f                                            # f :: (->) a
tv/f t/base/Prelude/-> ta t/base/Prelude/[] ta t/base/Prelude/() ta sig/f  # f :: f (->) [] ()
tv/m tv/n tv/a ta ta sig/f                                                 # f :: m (n a)
t/U1/Str.Chars/T tv/a ta sig/x'                                            # x' :: U1.Str.Chars.T a
data/0/T                                                                   # data T
data/0/T/a/b                                                               # data T a b
tv/a fl tv/m tv/a ta fs con/2/C con/0/D data/2/T/m/a                       # data T m a = C a !(m a) | D
t/base/Prelude/Int fs t/base/Prelude/[] tv/a ta fs con/2/:+ data/1/T/a     # data T a = (:+) !Prelude.Int ![a]
tv/a fl con/1/N newtype/1/N/a                                              # newtype N a = N a
t/base/Prelude/[] t/base/Prelude/Char ta type/Str                          # type Str = [Prelude.Char]
t/base/Prelude/-> tv/a ta tv/b ta type/F/a/b                               # type F a b = a -> b
fix/r/5/+++                                                                # infixr 5 +++
fix/l/0/f                                                                  # infixl 0 `f`
fix/n/9/C                                                                  # infix 9 `C`
fix/n/4/:+                                                                 # infix 4 :+";

/// Patterns.
const PATTERNS: &str = "\
pv/x pw pn/5 pm/5 n/1 ch/0 cl/4/1/0/f                                      # f x _ 5 (-5) = 1
pv/+++ n/1 ch/0 cl/1/1/0/f                                                 # f (+++) = 1
pv/x pcon/1/U0/M/C pcon/0/U0/M/D n/1 ch/0 cl/2/1/0/f                       # f (U0.M.C x) U0.M.D = 1
pv/x pv/y pcon/2/base/Prelude/: n/1 ch/0 cl/1/1/0/f                        # f ((:) x y) = 1
pv/x pv/y pcon/2/U1/N/:+ n/1 ch/0 cl/1/1/0/f                               # f ((U1.N.:+) x y) = 1
pcon/0/base/Prelude/[] pcon/0/base/Prelude/() n/1 ch/0 cl/2/1/0/f          # f [] () = 1
pv/x pv/y ptup/2 pv/z plist/1 plist/0 n/1 ch/0 cl/3/1/0/f                  # f (x, y) [z] [] = 1
pv/y pas/x pw plz pas/z n/1 ch/0 cl/2/1/0/f                                # f x@y z@(~_) = 1
pv/x plz plz n/1 lam/1 ch/0 cl/0/1/0/f                                     # f = \\(~(~x)) -> 1
pc/97 pc/39 pc/10 pc/34 n/1 ch/0 cl/4/1/0/f                                # f 'a' '\\'' '\\10' '\"' = 1
ps/97 ps n/1 ch/0 cl/2/1/0/f                                               # f \"a\" \"\" = 1
pv/x pv/y ptup/2 n/1 ch/0 pb/1/0                                           # (x, y) = 1";

/// Expressions.
const EXPRESSIONS: &str = "\
n/0 ch/0 cl/0/1/0/x                                                        # x = 0
g/U0/Op/+++ n/1 g/U0/Op/+++ n/2 n/3 app/2 app/2 ch/0 cl/0/1/0/x            # x = (U0.Op.+++) 1 ((U0.Op.+++) 2 3)
g/U0/M/f l/x g/base/Prelude/return g/base/Prelude/() app/1 app/2 ch/0 cl/0/1/0/x # x = U0.M.f x (Prelude.return ())
g/base/Prelude/negate n/5 app/1 ch/0 cl/0/1/0/x                            # x = Prelude.negate 5
g/base/Prelude/: l/x g/base/Prelude/[] app/2 ch/0 cl/0/1/0/x               # x = (:) x []
g/base/Prelude/(,) l/+ app/1 ch/0 cl/0/1/0/x                               # x = (,) (+)
pv/x pv/y l/x lam/2 ch/0 cl/0/1/0/f                                        # f = \\x y -> x
g/U0/M/f pw n/1 lam/1 app/1 ch/0 cl/0/1/0/x                                # x = U0.M.f (\\_ -> 1)
n/1 ch/0 cl/0/1/0/a n/2 ch/0 cl/0/1/0/b l/a let/2 ch/0 cl/0/1/0/x          # x = let {a = 1; b = 2} in a
l/a l/b l/c if ch/0 cl/0/1/0/x                                             # x = if a then b else c
l/a l/b l/c if l/d app/1 ch/0 cl/0/1/0/x                                   # x = (if a then b else c) d
n/1 n/2 tup/2 list/0 n/3 list/1 tup/3 ch/0 cl/0/1/0/x                      # x = ((1, 2), [], [3])
g/base/Prelude/+ n/1 sec ch/0 cl/0/1/0/x                                   # x = (Prelude.+ 1)
g/base/Prelude/div l/f n/1 app/1 sec ch/0 cl/0/1/0/x                       # x = (`Prelude.div` (f 1))
l/f n/1 sec l/+++ n/1 sec g/base/Prelude/: n/1 sec g/U0/M/C n/1 sec list/4 ch/0 cl/0/1/0/x # x = [(`f` 1), (+++ 1), (: 1), (`U0.M.C` 1)]
l/a t/base/Prelude/-> tv/a ta tv/a ta ann ch/0 cl/0/1/0/x                  # x = a :: a -> a
l/a t/base/Prelude/Int ann list/1 ch/0 cl/0/1/0/x                          # x = [a :: Prelude.Int]
c/97 c/39 c/34 c/92 c/10 c/955 list/6 ch/0 cl/0/1/0/x                      # x = ['a', '\\'', '\"', '\\\\', '\\10', '\\955']
s s/97/39/34/92/127 s/7/49 s/49/7/97 s/955/48/57 list/5 ch/0 cl/0/1/0/x    # x = [\"\", \"a'\\\"\\\\\\127\", \"\\7\\&1\", \"1\\7a\", \"\\955\\&09\"]";

/// Right sides, guards and alternatives.
const SIDES: &str = "\
pv/x l/a gt pv/y l/b gb l/c ch/2 g/base/Prelude/True gt l/d ch/1 cl/1/2/0/f # f x | a, y <- b = c | Prelude.True = d
pv/x l/p l/x app/1 gt l/c ch/1 cl/1/1/0/f                                  # f x | (p x) = c
n/1 ch/0 cl/0/1/0/y l/y ch/0 cl/0/1/1/x                                    # x = y where {y = 1}
t/base/Prelude/Int sig/y n/1 ch/0 cl/0/1/0/y l/y gt l/y ch/1 cl/0/1/2/x    # x | y = y where {y :: Prelude.Int; y = 1}
pcon/0/U0/W/A l/y ch/0 alt/1/0 pcon/0/U0/W/C n/2 ch/0 alt/1/0 l/x case/2 n/1 ch/0 cl/0/1/0/y ch/0 pv/x cl/1/1/1/f # f x = case x of {U0.W.A -> y; U0.W.C -> 2} where {y = 1}
pcon/0/U0/W/A n/1 ch/0 alt/1/0 pcon/0/U0/W/C n/3 ch/0 alt/1/0 l/x case/2 n/2 tup/2 ch/0 pv/x cl/1/1/0/g # g x = (case x of {U0.W.A -> 1; U0.W.C -> 3}, 2)
pv/y n/1 ch/0 cl/0/1/0/z l/a gt l/b gt l/z ch/2 l/c gt l/d ch/1 alt/2/1 l/x case/1 ch/0 cl/0/1/0/f # f = case x of {y | a, b -> z | c -> d where {z = 1}}
l/x case/0 ch/0 cl/0/1/0/f                                                 # f = case x of {}";

#[test]
fn lines(rt: HostRuntime) -> Result<(), Fail> {
    let alloc = rt.alloc();
    assert_eq!(rt; wrong_row(alloc, TYPES)?, "");
    assert_eq!(rt; wrong_row(alloc, PATTERNS)?, "");
    assert_eq!(rt; wrong_row(alloc, EXPRESSIONS)?, "");
    assert_eq!(rt; wrong_row(alloc, SIDES)?, "");
    Ok(())
}

/// A module with exports of each form, imports and two declarations.
const PROGRAM: &str = "ex/U0.M.Match/Match/:+ ex/Prelude.Int ex/U0.M.size ex/U0.M.+++ ex/U0.M..+. \
tv/a fl con/1/Match data/1/Match/a n/4 ch/0 cl/0/1/0/size";

const MODULE: &str = "\
module U0.M (U0.M.Match(Match, (:+)), Prelude.Int, U0.M.size, (U0.M.+++), (U0.M..+.)) where {
import qualified Prelude;
import qualified U0.Str.Chars;
import qualified U1.N;
data Match a = Match a;
size = 4;
}
";

#[test]
fn modules(rt: HostRuntime) -> Result<(), Fail> {
    let alloc = rt.alloc();
    let mut imports = Items::new(alloc);
    imports.push(Name::from_bytes(alloc, b"U0.Str.Chars")?)?;
    imports.push(Name::from_bytes(alloc, b"U1.N")?)?;
    let text = printed(alloc, PROGRAM, imports)?;
    assert_eq!(rt; text.as_bytes(), MODULE.as_bytes());
    Ok(())
}
