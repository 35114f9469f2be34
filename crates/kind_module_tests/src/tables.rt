//! Declarations of the module H, names outside, and the answer.

/// `declarations|names|answer`: entities behind spaces, or `!x` for Kind, `?x` for SynonymUse, `^` for TypeDepth.
/// `Pa=x,y` is a data type with a constructor for each of these fields, `Sa~x` a synonym, `v:x` a type signature,
/// `v!x` a binding with an annotation of this type, `_!x` one of a pattern without variables. Names outside are types
/// with kinds, or synonyms with parameters, kinds and bodies. `Pa` is shown as `P**>(x)(y)`, a synonym as `S**>~x`, a
/// value as `v:x`.
pub const MODULES: &[u8] = b"\
Pa=|| P**>
Pfa=fa@|| P**>**>>(ab@)
Af=ff@||!A
Af=Bf@;Bg=gAg@@|| A**>*>(Ba@) B**>*>(aAa@@)
Ta=;U=TM@|M**>|!U
Ta=U;U=TM@|M**>| T**>*>(U) U*(TM@)
A~B;B=A|| A*~B B*(B)
A~B;B~A||?A
B~A;A~B||?B
A~A||?A
D=A;B~C;C~B;A~A||?A
D=A;C~D;A~A||?A
v:SI@;Sf~fI@|I*|!v
v:SI@;Sa~La@|I*;L**>| v:LI@ S**>~La@
v:S;Sa~La@|I*;L**>|!v
v:FS@;Sa~La@|F**>*>;L**>|?v
T~FS@;Sa~La@|F**>*>;L**>|?T
T=FS@;Sa~La@;v:FT@|F**>*>;L**>|!v
v:PI@a@b@;Pab~b|I*|!v
v:Pb@a@;Pab~aa@||!P
v:Lb@a@|L***>>| v:La@b@
v:ZRb@@a@;Ra~I|Z***>>;I*| v:ZI@a@ R**>~I
v!II@|I*|!v
v!FS@;Sa~La@|F**>*>;L**>|?v
_!II@|I*|!
T=X||!T
v:S|S0*=II@;I*| v:II@
w:a;v:M;A~A|M**>|!v
A~A;v:FS@;Sa~La@|F**>*>;L**>|?A
v:FS@;T=FS@;Sa~La@|F**>*>;L**>|?v
";
