//! Tables of worked fields and components, in the form of those of files.

/// Fields of a library, with the line that is refused; the field stands on line 3.
pub const LIBRARY_FIELDS: &[u8] = b"\
=> 3
exposed-modules: a
=> 3
exposed-modules: A.b
=> 3
exposed-modules: A..B
=> 3
exposed-modules: .A
=> 3
exposed-modules: A.
=> 3
exposed-modules: A-B
=> 3
exposed-modules: (A)
=> 3
exposed-modules: A as
=> 3
exposed-modules: A
    b
=> 3
exposed-modules: A, \xc3\x84
=> 3
other-modules: a
=> 3
other-modules: A.b
=> 3
other-modules: A, 1
=> 3
other-modules: B
    , c
=> 3
signatures: a
=> 3
signatures: H.
=> 3
signatures: H as
=> 3
reexported-modules: p:A
=> 3
reexported-modules: A as
=> 3
reexported-modules: A as b
=> 3
reexported-modules: a as B
=> 3
reexported-modules: A of B
=> 3
reexported-modules: A B
=> 3
reexported-modules: A as B C
=> 3
reexported-modules: A,,B
=> 3
reexported-modules: ,,
=> 3
reexported-modules: as
=> 3
reexported-modules: (A)
=> 3
build-depends: ?
=> 3
build-depends: ba_se
=> 3
build-depends: base 4.17
=> 3
build-depends: a--b
=> 3
build-depends: -a
=> 3
build-depends: a-
=> 3
build-depends: one:exe:e
=> 3
build-depends: two:{a, b}
=> 3
build-depends: a:
=> 3
build-depends: a::b
=> 3
build-depends: :a
=> 3
build-depends: a,,b
=> 3
build-depends: ,,
=> 3
build-depends: a b
=> 3
build-depends: a, b *
=> 3
build-depends: base @ 4
=> 3
mixins: ?
=> 3
mixins: q (A
=> 3
mixins: q A)
=> 3
mixins: q (A))
=> 3
mixins: q ((A))
=> 3
mixins: q (A) (B)
=> 3
mixins: q (A) B
=> 3
mixins: q (a)
=> 3
mixins: q (A as)
=> 3
mixins: q (A as b)
=> 3
mixins: q (A of B)
=> 3
mixins: q (A,,B)
=> 3
mixins: q (A as B, C as B)
=> 3
mixins: q (B, A as B)
=> 3
mixins: q hiding
=> 3
mixins: q hiding A
=> 3
mixins: q hiding (A as B)
=> 3
mixins: q hiding (a)
=> 3
mixins: q hiding (A
=> 3
mixins: q requires
=> 3
mixins: q requires H
=> 3
mixins: q requires (H) (G)
=> 3
mixins: q requires (h)
=> 3
mixins: q requires (H as G, H as K)
=> 3
mixins: q requires (H, H)
=> 3
mixins: q requires (H) A
=> 3
mixins: q (A) requires (H
=> 3
mixins: q:exe:e
=> 3
mixins: q,,r
=> 3
mixins: q -any
=> 3
mixins: q >=1
=> 3
mixins: q (A) hiding (B)
=> 3
mixins: q hiding (A) (B)
=> 3
mixins: q requires (H) hiding (A)
=> 3
mixins: (A)
=> 3
hs-source-dirs: ..
=> 3
hs-source-dirs: ../a
=> 3
hs-source-dirs: a/..
=> 3
hs-source-dirs: src/../x
=> 3
hs-source-dirs: a
    ..
=> 3
hs-source-dirs: a, b/..
";

/// Fields of an executable, with the line that is refused; the field stands on line 4.
pub const EXECUTABLE_FIELDS: &[u8] = b"\
=> 4
other-modules: Main
=> 4
other-modules: A, Main
=> 4
other-modules: A
    Main
=> 4
other-modules: a
=> 4
build-depends: ?
=> 4
build-depends: a,,b
=> 4
mixins: q (A
=> 4
mixins: q requires (H, H)
=> 4
hs-source-dirs: a/..
=> 4
signatures: 
=> 4
signatures: H
=> 4
signatures: h
";

/// Values of `main-is`, with the line that is refused; the field stands on line 3.
pub const MAIN_FILES: &[u8] = b"\
=> 3

=> 3
M
=> 3
M.hsc
=> 3
M.hs N.hs
=> 3
M.hs, N.hs
=> 3
M.HS
=> 3
M.hs
    N.hs
";

/// Fields of the library of a package p that has a library `own` too, with that library.
pub const FIELDS: &[u8] = b"\
=> p|M ||||||. |p/p.cabal
exposed-modules: M
=> p|M A.B2.C_' X ||||||. |p/p.cabal
exposed-modules: , M,A.B2.C_' X
=> p|A B C ||||||. |p/p.cabal
Exposed-Modules :
      A
    , B
        C
=> p|||||||. |p/p.cabal
exposed-modules:
=> p|||||||. |p/p.cabal
exposed-modules: ,,
=> p||Main |||||. |p/p.cabal
other-modules: Main
=> p||A B |||||. |p/p.cabal
other-modules: A, B
=> p||||H H.G |||. |p/p.cabal
signatures: H H.G
=> p|||||A>A ||. |p/p.cabal
reexported-modules: A
=> p|||||A>B C.D>E.F ||. |p/p.cabal
reexported-modules: , A as B, C.D as E.F,
=> p|||||A>A A>B ||. |p/p.cabal
reexported-modules: A as A, A as B
=> p|||||||. |p/p.cabal
reexported-modules:
=> p|||||||. |p/p.cabal
reexported-modules: ,
=> p|||||||. |p/p.cabal
main-is: anything
=> p||||||base |. |p/p.cabal
build-depends: base
=> p||||||base |. |p/p.cabal
build-depends: ,base,
=> p|||||||. |p/p.cabal
build-depends:
=> p|||||||. |p/p.cabal
build-depends: ,
=> p||||||base |. |p/p.cabal
build-depends: base ^>=4.17.0.0
=> p||||||base |. |p/p.cabal
build-depends: base (>= 4 && < 5), base -any, base>=4, base
=> p||||||a b-2 3c |. |p/p.cabal
build-depends: a, b-2, 3c, a
=> p||||||a b c d e |. |p/p.cabal
build-depends: a <1 || ==2.*, b==1, c^>=1 && <2, d (<1), e -none
=> p||||||a b |. |p/p.cabal
build-depends: a =={1.2, 2.0}, b ^>={ 1, 2 } || =={3,4}
=> p||||||one one:s one:t |. |p/p.cabal
build-depends: one, one:s, one:t >=1
=> p||||||a b |. |p/p.cabal
build-depends:
    , a
      >=1
    , b
    -- c
      <2
=> p||||||p:own base |. |p/p.cabal
build-depends: own, base
=> p||||||q:own p p:own |. |p/p.cabal
build-depends: q:own, p, p:own
=> p|||||||src |p/p.cabal
hs-source-dirs: src
=> p|||||||. |p/p.cabal
hs-source-dirs: ./
=> p|||||||. |p/p.cabal
hs-source-dirs: , . ,
=> p|||||||. |p/p.cabal
hs-source-dirs:
=> p|||||||a b c/d /e ..f |p/p.cabal
hs-source-dirs: a, ./b/ c/d
    /e ..f
=> p||||||base |base listed|Prelude>P ||. |p/p.cabal
mixins: base (Prelude as P)
=> p||||||regex |regex listed|Regex>R1 |Str>Str.Chars |regex listed|Regex>R2 |Str>Str.Ints |. |p/p.cabal
mixins: regex (Regex as R1) requires (Str as Str.Chars), regex (Regex as R2) requires (Str as Str.Ints)
=> p||||||mid |mid whole|A>Str.Chars B>Str.Chars |. |p/p.cabal
mixins: mid requires (A as Str.Chars, B as Str.Chars)
=> p||||||base |base listed|Foo>Foo ||. |p/p.cabal
mixins: base (Foo)
=> p||||||q |q whole|G>H |. |p/p.cabal
mixins: q requires (G as H)
=> p||||||q |q listed|M>M X>X ||. |p/p.cabal
mixins: q (M, X)
=> p||||||q |q listed|M>A |H>B |q listed|M>B |H>A |. |p/p.cabal
mixins: q (M as A) requires (H as B), q (M as B) requires (H as A)
=> p||||||q |q whole||. |p/p.cabal
mixins: q
=> p||||||q |q whole||. |p/p.cabal
mixins: q,
=> p||||||q |q whole||q whole||. |p/p.cabal
mixins: q, q
=> p||||||impl |impl listed|Impl>I ||impl listed|Impl>J ||. |p/p.cabal
mixins: impl (Impl as I), impl (Impl as J)
=> p||||||h s |h whole||s whole|G>H H>G |. |p/p.cabal
mixins: h, s requires (G as H, H as G)
=> p||||||base |base whole|H>H |base listed|Foo>Foo ||. |p/p.cabal
mixins: base requires (H), base (Foo)
=> p||||||base |base hiding|Prelude ||. |p/p.cabal
mixins: base hiding (Prelude)
=> p||||||base |base hiding|||. |p/p.cabal
mixins: base hiding ()
=> p||||||base |base hiding|A B |H>H |. |p/p.cabal
mixins: base hiding (A, B,) requires (H,)
=> p||||||base |base listed|Prelude>Prelude Prelude>P ||. |p/p.cabal
mixins: base (Prelude, Prelude as P)
=> p||||||a |a whole||a listed|H>H ||. |p/p.cabal
mixins: a, a (H)
=> p||||||base |base listed|||. |p/p.cabal
mixins: base ()
=> p||||||base |base listed|||. |p/p.cabal
mixins: base () requires ()
=> p||||||base |base listed|A>A |B>B |. |p/p.cabal
mixins: base(A)requires(B)
=> p||||||base |base listed|Prelude>P.Q ||. |p/p.cabal
mixins: 
      base (
        Prelude as P.Q
      , )
=> p||||||p:own q:own |p:own listed|A>A ||q:own whole||. |p/p.cabal
mixins: own (A), q:own
=> p||||||hiding requires |hiding hiding|A ||requires whole|B>B |. |p/p.cabal
mixins: hiding hiding (A), requires requires (B)
=> p|||||||. |p/p.cabal
mixins: 
=> p|||||||. |p/p.cabal
mixins: ,
";

/// Package files, with their last component.
pub const COMPONENTS: &[u8] = b"\
=> p|||||||. |p/p.cabal
name: p
library
=> p:s|||||||. |p/p.cabal
name: p
library s
=> p:exe:e|||src/Go.hs||||. |p/p.cabal
name: p
executable e
  main-is: src/Go.hs
=> p:exe:e||A |Go.hs||||. |p/p.cabal
NAME: p
EXECUTABLE e
  MAIN-IS:
    Go.hs
  OTHER-MODULES: A
=> p|A ||||||. |p/p.cabal
library
  exposed-modules: A
name: p
=> p|||||||. |p/p.cabal
name: p
library
common c
flag f
  x: y
test-suite t
  main-is: x
=: p|M |||||base |. |p/p.cabal
name: p\r
library\r
\texposed-modules: M\r
\tbuild-depends: base
=> p|||||||. |p/p.cabal
name: p
version: 1
version: 2
build-depends: ?
library
  import: a
  import: b
  ghc-options: -Wall
  main-is: X
  main-is: Y
=> p:exe:e|||M.hs||||. |p/p.cabal
name: p
executable e
  main-is: M.hs
  exposed-modules: a
  reexported-modules: b c
=> p:exe:s|||M.hs|||p:s |. |p/p.cabal
name: p
library s
executable s
  main-is: M.hs
  build-depends: s
=> p:exe:e|||M.hs|||e p:s p |. |p/p.cabal
name: p
library
  build-depends: s, e
library s
  build-depends: s, p
executable e
  main-is: M.hs
  build-depends: e, s, p
=> none
name: p
flag f
=> strs|Str.Chars Str.Ints |||||base |src |p/p.cabal
cabal-version:      3.0
name:               strs
version:            0.1.0.0
license:            BSD-3-Clause
build-type:         Simple

common warnings
    ghc-options: -Wall

library
    import:           warnings
    exposed-modules:  Str.Chars, Str.Ints
    build-depends:    base ^>=4.17.0.0
    hs-source-dirs:   src
    default-language: Haskell2010
=> app:exe:app|||Main.hs|||base strs regex |regex listed|Regex>R1 |Str>Str.Chars |regex listed|Regex>R2 |Str>Str.Ints |. |p/p.cabal
name: app
executable app
  main-is: Main.hs
  build-depends: base, strs, regex
  mixins: regex (Regex as R1) requires (Str as Str.Chars), regex (Regex as R2) requires (Str as Str.Ints)
=> p||A B ||H |C>C D>E |x p:s x:y base q |q hiding|A B ||p:s listed|||x whole||src . |p/p.cabal
name: p
library s
library
  other-modules: A
   , B ,
  signatures: H
  reexported-modules: C, D as E
  build-depends: x >={1,2}, s, x:y>=1, base -any,
  mixins: q hiding (A, B), s (), x
  hs-source-dirs: ./src/ .
";

/// Package files, with what their last component includes.
pub const INCLUDES: &[u8] = b"\
=> |base whole||q listed|B>B ||q listed|D>D ||r listed|A>A ||r hiding|C ||s whole|
name: p
library
  build-depends: base, q, r
  mixins: r (A), s, q (B), r hiding (C), q (D)
=> |base whole||p:own listed|A>A ||p:own whole|H>G 
name: p
library own
library
  build-depends: base
  mixins: own (A), own requires (H as G)
=> 
name: p
library
=> |base whole|
name: one
library
  exposed-modules: M
  build-depends: base
=> |mid whole|A>C |strs whole||strs listed|B>B |
name: outer
library
  build-depends: mid, strs
  mixins: strs, mid requires (A as C), strs (B)
";
