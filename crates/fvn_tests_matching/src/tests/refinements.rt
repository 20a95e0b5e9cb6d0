//! Substitutions on kinds with their refinements.

/// Blocks: a signature, and then substitutions with their refinements, or `no`.
///
/// First stand the variables whose values are to have their sorts, where there are any, and then each variable with
/// its term. Of refinements only the terms are shown. A term is written with each operator after its arguments, a
/// variable as the letter of its sort and a number, behind 9 a letter from b on, which is shown as 0, 1 and so on.
/// The summands of a flat sum stand in square brackets. Kinds have the letters after the sorts.
///
/// The signatures are: even and odd numbers with a free sum; sets of elements with the empty set; numbers of which
/// some are zero, with a sum that has no identity; two sorts with two maximal lower ones, and a partial operator; two
/// kinds, with a commutative operator.
pub const ROWS: &str =
    "A B C; A < C; B < C; f : C C -> C; f : A A -> A; f : B B -> A; f : A B -> B; f : B A -> B
A9, C8, C7 | A9 D0 D1 f; C8 D0; C7 D1 => f(A0 A1); A0; A1 & f(B0 B1); B0; B1
B9 | B9 D0 D0 f => no
A9 | A9 D0 D0 f => f(A0 A0) & f(B0 B0)
D9 | D9 D0 => D0
C9 | C9 D0 => C0
C9 | C9 D0 D1 f D2 f => f(f(C0 C1) C2)
A9 | A9 D0 D1 f D2 f => f(f(A0 A1) A2) & f(f(A0 B1) B2) & f(f(B0 A1) B2) & f(f(B0 B1) A2)
A9, B8 | A9 D0 D1 f; B8 D1 D2 f => f(A0 A1); f(A1 B2) & f(B0 B1); f(B1 A2)
A9, B8 | A9 D0 D1 f; B8 D1 D0 f => no
A9, B8, C7 | C7 D2; A9 D0 D1 f; B8 D1 D2 f => A2; f(B0 B1); f(B1 A2) & B2; f(A0 A1); f(A1 B2)
A9 D0 D1 f; B8 D1 D2 f => f(D0 D1); f(D1 D2)
A9 | A9 D0 D1 f; B8 D1 D2 f => f(A0 A1); f(A1 D2) & f(B0 B1); f(B1 D2)
A9, A9 | A9 D0 D1 f; B8 D2 => f(A0 A1); D2 & f(B0 B1); D2
A0, C1, C2, C3, C4, C5, C6, C7, C8, C9, Cb, Cc, Cd, Ce, Cf, Cg, Ch, Ci, Cj, Ck | A0 D0 D1 f; C1 D1; C2 D2; C3 D3; C4 D4; C5 D5; C6 D6; C7 D7; C8 D8; C9 D9; Cb Db; Cc Dc; Cd Dd; Ce De; Cf Df; Cg Dg; Ch Dh; Ci Di; Cj Dj; Ck Dk => f(A0 A1); A1; C2; C3; C4; C5; C6; C7; C8; C9; C0; C1; C2; C3; C4; C5; C6; C7; C8; C9 & f(B0 B1); B1; C2; C3; C4; C5; C6; C7; C8; C9; C0; C1; C2; C3; C4; C5; C6; C7; C8; C9

A B; A < B; f : B B -> B [assoc comm id: g]; g : -> B; h : -> A
A9, B8, B7 | A9 C0 C1 f; B8 C0; B7 C1 => no
A9 | A9 C0; B9 C0 => A0; A0
A9, B9 | A9 C0; B9 C0 => A0; A0
A9 | A9 g => no
B9 | B9 g => g
B9 | B9 h C1 f C0 f => f[B0 B1 h]
C9 | C9 C0 C1 f C2 f => f[C0 C1 C2]

A B C; A < C; B < C; f : C C -> C [assoc comm]; f : A C -> A [assoc comm]; g : -> B; h : C -> A
A9 | A9 D0 D1 f D2 f => f[A0 C1 C2] & f[C0 A1 C2] & f[C0 C1 A2]
A9, B8 | A9 D0 D1 f D2 f; B8 D0 => f[B0 A1 C2]; B0 & f[B0 C1 A2]; B0
B9 | B9 D0 h => no
A9 | A9 D0 h => h(C0)
A9 | A9 D0 h D1 f => f[C1 h(C0)]
B9 | B9 D0 D1 f => no
A9 | A9 g g f => no
A9 | A9 D0 D1 f h D2 f D3 f => f[C2 C3 h(f[C0 C1])]
A9, A8 | A9 D0 D1 f; A8 D1 D2 f => f[A0 C1]; f[C1 A2] & f[C0 A1]; f[A1 C2]

A B C D E; A < E; B < E; C < A; C < B; D < A; D < B; f : A -> A; g : B -> B; h : E ~> A
A9, B8 | A9 F0; B8 F0 => C0; C0 & D0; D0
A9, B8 | A9 F0 f; B8 F0 g => f(C0); g(C0) & f(D0); g(D0)
F9 | F9 F0 f => f(F0)
A9, C8 | A9 F0; C8 F0 => C0; C0
C9 | C9 F0 f => no
A9 | A9 F0 h => no
E9 | E9 F0 f g => no

A B; f : A B -> A; g : B B -> B [comm]; h : A -> B
A9 | A9 C0 D0 f => f(A0 B0)
A9, B8 | A9 C0 D0 f; B8 D0 D1 g => f(A0 B0); g(B0 B1)
D9 | D9 C0 h D1 g => g(D1 h(C0))";
