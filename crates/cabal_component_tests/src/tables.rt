//! Tables of worked files. A case is a line `=> ANSWER` and the lines of its text; behind `=: ` the text has no line end at its end.

/// Project files, with the package files that they name, or the line that is refused.
pub const PROJECTS: &[u8] = b"\
=> 1
packages: *.cabal
=> 1
packages: a?
=> 1
packages: [a]
=> 1
packages: {a,b}
=> 1
packages: a}
=> 1
packages: a]
=> 1
packages: ../one
=> 1
packages: a/../b
=> 1
packages: /one
=> 1
packages: /
=> 1
packages: .
=> 1
packages: ./
=> 1
packages: ./.
=> 1
packages: http://host/one.cabal
=> 3
packages: a
  b
  .
=> 2
packages: one
Else
=> 1
else
import: x
packages: .
=> 2
packages: a
IMPORT : x
=> 1
if x
  packages: a
=> 2
packages: a
elif x
=> 4
packages: a

-- c
if x
  y: z
=> 1
  packages: a
=> 3
other
    y: z
  w: z
=> 5
packages: a
other x
    y: z

   packages: .
=> 4
packages: a
packages:
  b
  *
packages: .
=> |one.cabal 
packages: one.cabal
=> |a/a.cabal b/b.cabal 
packages:\r
\ta\r
\t\tb\r
=> |d/a/a.cabal e/other.cabal 
packages: d/a e/other.cabal
=> |
-- nothing
=: |
packages:
=: |

=> |a/a.cabal b/b.cabal c/c.cabal 
packages: ,a,,b,
PACKAGES: ./c/
=> |
optional-packages: ./*/*.cabal
source-repository-package
  type: git
  if x
else: x
if(x)
=> |a.cabal b.cabal 
packages: a.cabal/ ./b.cabal
=> |.x/.x.cabal 
packages: .x
=> |a/a.cabal b/b.cabal 
packages: a ./b/
=> |a/a.cabal b/c.cabal 
-- x\r
Packages : a,\r

\t, b/c.cabal
other
  if x
=> 2
packages: a
if x
  y: z
=> 1
import: x
=> |\xff\xc3\xa9/\xff\xc3\xa9.cabal 
packages: \xff\xc3\xa9
=: |a\r/a\r.cabal 
packages: a\r
=> 1
packages: .//etc/x
=> |.//x/x.cabal 
packages: ././/x
";

/// Package files, with the line that is refused, or 0.
pub const FILES: &[u8] = b"\
=: 1

=> 1
version: 1
=> 1
library
  name: a
=> 1
name:
=> 1
name: a b
=> 1
name: a--b
=> 2
version: 1
name: on--e
=> 1
name: -a
=> 1
name: a-
=> 1
name: a_b
=> 1
name: a:b
=> 1
name: a,
=> 3
name: a

name: a
=> 3
name: one
version: 1
NAME : one
=> 1
name: a b
name: c
=> 0
name:
  a
=> 0
name: 1
=> 0
Name :  a-1-b2
=> 1
  x: y
name: a
=> 4
name: a
library
    x: y
  z: w
=> 5
name: a
library
    x: y
      z
    w
=> 0
name: a
library
    x: y
      -- z

    w: v
=> 5
name: one
library
  exposed-modules: M
  build-depends: base
  if x
=> 4
name: a
library
  exposed-modules: M
  M
=> 3
name: a
library
  x y: z
=> 3
name: a
library
  : z
=> 4
name: a
flag f
    x: y
  z: w
=> 0
name: a
flag f
  x
  if y
=> 0
name: a
LIBRARY
=> 0
name: a
library s
=> 0
name: a
library s-1
=> 2
name: a
library s t
=> 2
name: a
library s_t
=> 2
name: a
library {
}
=> 2
name: a
library,
=> 2
name: a
executable
  main-is: M.hs
=> 2
name: a
executable e f
  main-is: M.hs
=> 0
name: a
Executable e
  main-is: M.hs
=> 2
name: a
executable e_f
  main-is: M.hs
=> 0
name: a
flag f
source-repository head
test-suite t
benchmark b
custom-setup
foreign-library f
common c
=> 0
name: a
Flag
Test-Suite
=> 2
name: a
funny x
=> 2
name: a
if x
=> 2
name: a
libraries
=> 4
name: a
common c
  x: y
  mixins: q
=> 3
name: a
common c
  exposed-modules: A
=> 3
name: a
common c
  other-modules: A
=> 3
name: a
common c
  signatures: A
=> 3
name: a
common c
  reexported-modules: A
=> 3
name: a
common c
  main-is: A
=> 3
name: a
common c
  Build-Depends: a
=> 3
name: a
common c
  hs-source-dirs: a
=> 0
name: a
common c
  import: d
  ghc-options: -Wall
   mixins: q
  if x
=> 4
name: a
common c
    x: y
  z: w
=> 5
name: a
library
  exposed-modules: A
  x: y
  Exposed-Modules: B
=> 4
name: a
library
  other-modules: A
  other-modules:
=> 4
name: a
library
  signatures: A
  signatures: B
=> 4
name: a
library
  reexported-modules: A
  reexported-modules: B
=> 4
name: a
library
  build-depends: x
  build-depends: y
  build-depends: z
=> 4
name: a
library
  mixins: x
  mixins: y
=> 4
name: a
library
  hs-source-dirs: x
  hs-source-dirs: y
=> 0
name: a
library
  main-is: X
  main-is: Y
  ghc-options: -O
  ghc-options: -O
=> 4
name: a
executable e
  main-is: M.hs
  main-is: N.hs
=> 0
name: a
executable e
  main-is: M.hs
  exposed-modules: a
  exposed-modules: b
  reexported-modules: a b
  reexported-modules: c
=> 0
name: a
library s
  build-depends: x
library t
  build-depends: x
=> 3
name: a
library
  exposed-modules: M,
    M
=> 4
name: a
library
  signatures: A
  exposed-modules:
    B,
    A
=> 4
name: a
library
  other-modules: A
  signatures: A
=> 4
name: a
library
  exposed-modules: A
  other-modules: B C A
=> 3
name: a
executable e
  other-modules: A A
  main-is: M.hs
=> 0
name: a
executable e
  main-is: M.hs
  exposed-modules: A
  other-modules: A
=> 3
name: a
version: 1
executable e
  build-depends: base
=> 2
name: a
executable e
=> 4
name: a
library
executable e
  main-is: X
=> 3
name: one
library
  exposed-modules: m
  build-depends: ?
foo
=> 2
name: a
foo
name: b
=> 3
name: a
library
  mixins: (
name: a
=> 3
name: a
library
  x
  build-depends: ?
=> 2
name: a
executable e
  signatures: A
  other-modules: Main
=> 3
name: a
library
  build-depends: ?
  build-depends: b
=> 4
name: a
library
  exposed-modules: A
  exposed-modules: a
=> 1
library
  mixins: (
=> 3
name: a

name: b
=> 2
name: a
executable
=> 2
name: a
executable e
  other-modules: A
=> 4
name: a
executable e
    main-is: M.hs
  x: y
    Main-Is: N.hs
=> 3
name: a
executable e
  main-is: a b.hs
=> 4
name: a
executable e
  main-is: M.hs
  signatures: H
=> 4
name: a
executable e
  main-is: M.hs
  other-modules: A, Main
=> 3
name: a
library
  exposed-modules: a
=> 3
name: a
library
  reexported-modules: p:A
=> 3
name: a
library
  build-depends: base, q:{a, b}
=> 3
name: a
library
  build-depends: base,, q
=> 3
name: a
library
  mixins: q (A as B, C as B)
=> 3
name: a
library
  mixins: q requires (A as B, A as C)
=> 3
name: a
library
  mixins: q (A
=> 3
name: a
library
  hs-source-dirs: src/../x
=> 4
name: a
library
  build-depends: x
  build-depends: y
=> 0
name: a
test-suite t
  if x
   y
mixins: q
=> 0
name: p\r
\r
\t\r
library\r
\tx: y\r
=: 0
name: p
library
\tx: y
 z: w
  v: u
=> 4
name: p
library
\t\tx: y
\tz: w
=: 1
name: p\rlibrary
=: 1
name: p\r
=> 3
name: p
library
  exposed-modules: A\rB
=> 1
name: p\0
=> 1



=> 1
-- name: p
=> 2
name: p
\xff\xfe
=> 0
name: p
author: \xff\xfe \xc3\xa9
=> 1
\xef\xbb\xbfname: p
=> 2
name: a
flag{
=> 0
name: a
flag f{
=> 2
name: a
benchmark,x
=> 2
name: a
library(s)
";
