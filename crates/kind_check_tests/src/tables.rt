//! Tables of groups and of written types: what is declared or written, the names outside, and the answer.

/// Groups: `declarations|names|kinds`, or `!T` where there are none.
pub const GROUPS: &[u8] = b"\
Pa=|| **>
Afx=fx@|| **>**>>
Af=ff@||!A
Af=Bf@;Bg=gAg@@|| **>*> **>*>
Ta=T||!T
Ta=U;U=TM@|M**>| **>*> *
U=TM@|T**>;M**>|!U
F~E|E***>>| ***>>
La~Ia@|I***>>| ***>>
Sa~a|| **>
Tfab=fa@b@,a|| ***>>***>>>
T=M|M**>|!T
T=X||!T
A=;Aa=a|| * **>
T=AA@|A*;A**>|!T
T=M|M*;M**>| *
Xfg=fg@,gI@|I*| **>*>**>*>>
";

/// Written types: `type|names|kind`, `!` for none, `?` for a synonym without all its arguments.
pub const TYPES: &[u8] = b"\
MI@|M**>;I*|*
II@|I*|!
a||*
fa@||*
ff@||!
M|M**>|**>
EI@|E***>>;I*|**>
FX@|F**>*>;X**>|*
FM@|F**>*>;M*|!
SI@|S1**>;I*|*
S|S1**>|?
FS@|F**>*>;S1**>|?
S|S0**>|**>
TI@J@|T1***>>;I*;J*|*
SM@|S1**>;M**>|!
SS@|S1**>|!
afa@@gb@@||*
";

/// Modules: `declarations|names|groups`, each group behind a space with its declarations and their kinds, or `!T`.
pub const MODULES: &[u8] = b"\
Ta=;U=TM@|M**>|!U
U=TM@;Ta=|M**>|!U
Ta=U;U=TM@|M**>| T**>*>U*
Aa=Ba@;Ba=a|| B**> A**>
A=B;B=C;C=A|| A*B*C*
A=X;B=||!A
B=;A=BX@|X*|!A
A~B;B=A|| A*B*
C=D,E;E=;D=|| D* E* C*
";

/// Types and their expansions: `type|names|expansion`, `?` for a synonym that is cyclic or isn't fully applied.
pub const EXPANSIONS: &[u8] = b"\
SI@|S1**>=Ca@a@;C***>>|CI@I@
LC@|L**>;C*|LC@
T|T0*=SI@;S1**>=La@|LI@
S|S1**>=La@|?
FS@|S1**>=La@|?
AL@I@|A2**>*>*>>=ab@;L1**>=a|?
A|A0*=B;B0*=A|?
A|A0*=B;B0*=FA@|?
PX@|P1**>=I;X0*=X|?
SSI@@|S1**>=Ca@a@|CCI@I@@CI@I@@
PIJ@@K@|P1***>>=a|IJ@K@
KIJ@@|K0**>=M|MIJ@@
S|S*;S0*=I|S
";

/// Names that are no lawful synonyms: `|names|index`, `-` for none.
pub const LAWFUL: &[u8] = b"\
|A0*=B;B0*=A|0
|M**>;A0*=MB@;B0*=A|1
|A0*=T;T*|-
|S1**>=a;X0*=S|1
|S1**>=a;X0*=SI@;I*|-
|A0*=B;B0*=FC@;C0*=A;F**>|0
|A0*=B;B0*=B|0
|A0*=B;B0*=I;I*|-
||-
";

/// Written types over the names of `base`, in words: `type||kind`, with `!` and `?` as above.
pub const BASE_TYPES: &[u8] = b"\
Maybe Int @||*
Int Int @||!
Maybe||**>
String||*
[] Char @||*
(,) a @||**>
-> a @ a @||*
Maybe Maybe @||!
IO () @||*
Nothing||!
";
