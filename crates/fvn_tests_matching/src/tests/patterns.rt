//! Patterns and targets, variants, and substitutions on kinds, each with what is found of them.
use super::refinements;
use super::rows::{Asked, assert_table};
use fvn_terms::NoMemory;

// Blocks: a signature, and then patterns and targets with the one matcher that there is, `yes` where there
// are more or where no variable is bound, and `no` where there is none.
//
// A term is written with each operator after its arguments, a variable as the letter of its sort and a
// number. The summands of a flat sum stand in square brackets. Kinds have the letters after the sorts.
//
// The signatures are: a free operator; a free, a commutative operator and a sum; a commutative operator and a
// sum with an identity; sets of elements with the empty set; numbers and sets of them with a sum that has no
// identity; two sums, one with an identity; three sums, two with one identity and one with another; two free
// operators on two sorts; even and odd numbers; a partial operator.
const ROWS: &str = "A; f : -> A; g : -> A; h : A A -> A
A0 | f => A0 f
A0 | A0 => A0 A0
A0 | A1 => A0 A1
f | f => yes
f | g => no
f | A0 => no
A0 A1 h | f g h => A0 f; A1 g
A0 A0 h | f g h => no
A0 A0 h | f f h => A0 f
A0 A1 h | f f h => A0 f; A1 f
A0 f h | A1 f h => A0 A1
A0 f h | A1 A0 h => no
A0 A1 h | A1 A0 h => A0 A1; A1 A0
A0 A0 h A1 h | f g h f h => no
A0 A0 h A1 h | g g h f h => A0 g; A1 f
A0, A0 | f, g => no
A0, A0 | f, f => A0 f
A0, A1 | A1, A0 => A0 A1; A1 A0
A0 A1 h, A1 | f g h, g => A0 f; A1 g
A0 A1 h, A1 | f g h, f => no

A; f : -> A; g : -> A; h : A -> A; i : A A -> A [comm]; j : A A -> A [assoc comm]
A0 A1 i | f g i => yes
A0 f i | g f i => A0 g
A0 f i | f g i => A0 g
A0 f i | g g i => no
A0 A0 i | f g i => no
A0 A0 i | A1 A1 i => A0 A1
A0 f i A1 i | f g i g i => A1 g; A0 g
A0 f i, A0 | f g i, g => A0 g
A0 f i, A0 | f g i, f => no
A0 A1 i | f f i => A0 f; A1 f
A0, A0 A1 i | g, f g i => A0 g; A1 f
A0, A0 A1 i | f h, f g i => no
A0, A1, A0 A1 i | f, f, f g i => no
A0 A1 i, A0 | f g i, f h => no
A0 A1 i, A1 A2 i, A2 A3 i, A3 | f g i, f g i, f g i, f => A0 g; A1 f; A2 g; A3 f
A0 h A1 h i, A0 | f h g h i, g => A0 g; A1 f
A0 f i g i | f h f i g i => A0 h(f)
A0 f i A1 i | f g i f h f i i => yes
A0 A1 i A2 f i i, A2 | f g i g h f i i, g h => A2 h(g)
A0 A1 i A2 A3 i i | f g i f g i i => yes
A0, A1, A0 A1 i A0 A0 i i | f, g, f g i f f i i => A0 f; A1 g
A0, A1, A0 A1 i A0 A0 i i | f, g, f g i g g i i => no
A0~ f i~, A0~ g i~ | g~ f i~, g~ g i~ => A0 g
A0~ f i~, A0~ g i~ | g~ f i~, f~ g i~ => no
A0~ f i~, A0~ f i~, A0~ f i~, A0~ f i~, A0~ f i~, A0~ f i~, A0~ f i~, A0~ f i~, A0~ f i~, A0~ f i~, A0~ f i~, A0~ f i~, A0~ f i~, A0~ f i~, A0~ f i~, A0~ f i~, A0~ f i~, A0~ f i~, A0~ f i~, A0~ f i~, A0~ f i~, A0~ f i~, A0~ f i~, A0~ f i~, A0~ f i~, A0~ f i~, A0~ f i~, A0~ f i~, A0~ f i~, A0~ f i~, A0~ f i~, A0~ f i~, A0~ f i~, A0~ f i~, A0~ f i~, A0~ f i~, A0~ f i~, A0~ f i~, A0~ f i~, A0~ f i~ | g~ f i~, g~ f i~, g~ f i~, g~ f i~, g~ f i~, g~ f i~, g~ f i~, g~ f i~, g~ f i~, g~ f i~, g~ f i~, g~ f i~, g~ f i~, g~ f i~, g~ f i~, g~ f i~, g~ f i~, g~ f i~, g~ f i~, g~ f i~, g~ f i~, g~ f i~, g~ f i~, g~ f i~, g~ f i~, g~ f i~, g~ f i~, g~ f i~, g~ f i~, g~ f i~, g~ f i~, g~ f i~, g~ f i~, g~ f i~, g~ f i~, g~ f i~, g~ f i~, g~ f i~, g~ f i~, g~ f i~ => A0 g
A0 A1 i, A0 h | f g i, g h => A0 g; A1 f
A0 A1 i, A0 h | f g i, f g j h => no
A0 A1 j | f g j => yes
A0 A1 j | f => no
A0 f j | f g j => A0 g
A0 f j | g g j => no
A0 A0 j | f g f g j j j => A0 j[f g]
A0 A0 j | f g f j j => no
A0 A0 A1 j j | f g f j j => A0 f; A1 g
A0 A0 A1 j j | f g j h f j => no
A0 A1 A2 j j | f g j => no
A0 A1 A2 j j | f f f j j => A0 f; A1 f; A2 f
A0 h A1 j | f h g h j => yes
A0 h A0 j | f h f j => A0 f
A0 h A0 j | f h g j => no
A0 h A0 j | f g j h f g j j => A0 j[f g]
A0 A1 i A0 j | f g i g j => A0 g; A1 f
A0 A1 i A0 j | f g i g h j => no
A0 A1 j h | f g j h => yes
A0 A1 j h | f h => no
A0 A1 j, A0 h | f g j, g h => A0 g; A1 f
A0 A1 j, A0 h, A1 | f g j, g h, f => A0 g; A1 f
A0 A1 j, A0 h, A1 | f g j, g h, g => no
A0 f f j j | f g f j j => A0 g
A0 f f j j | f f j => no
A0 A0 A0 A1 A1 j j j j | f g f g f j j j j => A0 f; A1 g
A0 A0 A0 A1 A1 j j j j | f g f g g f j j j j j => no
f g j | f g j => yes
f g j | f f j => no
f g j A0 i | A1 f g j i => A0 A1
A0 f g j j | g f g j j => A0 g
A0 f g j j | f f f j j => no
A0 f g j j, A0 | g f g j j, g => A0 g
A0 f g j j, A0 | g f g j j, f => no
A0 A0 f g j j j | f f f g j j j => A0 f
A0, A0 f j h A0 j | g, g f j h g j => A0 g
A0, A0 f j h A0 j | g, f f j h g j => no

A; f : -> A; g : -> A; h : A A -> A [comm]; i : A A -> A [assoc comm id: f]
A0 A1 h, A0 | f f h, f => A0 f; A1 f
A0 g i A1 h | g g i f h => A0 g; A1 f
g g i A0 h | g g i g h => A0 g
g g i A0 h | g g g i i g h => no
A0 A0 i A1 h, A1 | g g i g h, g => A0 g; A1 g
A0 A0 i A1 h, A1 | g g i g h, f => no

A B; A < B; f : -> A; g : -> A; h : -> B; i : B B -> B [assoc comm id: h]
B0 | f => B0 f
B0 | h => B0 h
A0 | h => no
A0 | f => A0 f
A0 | f g i => no
B0 A0 i | f => A0 f; B0 h
B0 A0 i | h => no
B0 A0 i | f g i => yes
A0 A1 i | f g i => yes
A0 A1 i | f => no
A0 A1 i | f g f i i => no
B0 B1 i | f => yes
B0 B1 i | h => B0 h; B1 h
B0 B0 i | h => B0 h
B0 B0 i | f f i => B0 f
B0 B0 i | f => no
B0 B0 A0 i i | f g f i i => A0 g; B0 f
B0 B0 A0 i i | f g i => no
B0 f i | f => B0 h
B0 f i | g => no
B0 f i | f B0 i => B0 B0
A0 B0 i | B0 => no
A0 B0 i | A1 => A0 A1; B0 h
A0 B0 i | A1 B0 i => A0 A1; B0 B0
C0 B0 i | B1 f i => yes
B0 f i, B0 | f g i, g => B0 g
B0 f i, B0 | f g i, h => no
B0 B1 i, B0 | f g f i i, g => B0 g; B1 i[f f]
B0 B1 i, B0 | f g f i i, f f i => B0 i[f f]; B1 g
B0 B1 i, B0 | f g f i i, g g i => no

A B; A < B; f : -> A; g : A -> A; h : -> B; i : B B -> B [assoc comm]
C0 C1 i | f h i => yes
A0 C0 i | f h i => A0 f; C0 h
A0 C0 i | h h i => no
A0 A1 i | f h i => no
A0 g C0 i | f g h i => C0 h; A0 f
A0 g A0 i | f g f i => A0 f
C0 C0 i | f h f h i i i => C0 i[f h]
C0 C0 C1 i i | f h f h i i i => yes
C0 C0 h i i | f h f i i => C0 f

A; f : -> A; g : -> A; h : -> A; i : -> A; j : -> A; k : A A -> A [assoc comm id: j]; l : A A -> A [assoc comm]
A0 f g l k | h f g l k => A0 h
A0 f g l k | f g l => A0 j
A0 f g l k | f g k => no
A0 A1 l h k | f g l h k => yes
A0 A1 l A2 k | f g l => yes
A0 A1 l A2 k | f => no
A0 A1 k A2 l | f g l => yes
A0 A1 k f l | f g l => yes
A0 A1 k A1 l | f g k g l => A1 g; A0 f
A0 j l | f j l => A0 f
A0 j l | f g l => no

A; f : -> A; g : -> A; h : A A -> A [assoc comm id: f]; i : A A -> A [assoc comm id: g]; j : A A -> A [assoc comm id: f]
A0 A1 h A2 i | g => yes
A0 A1 h A2 i | f => yes
A0 A1 i A1 h | f => A1 f; A0 g
A0 A0 h A1 i | f f i => A1 f; A0 f
A0 A1 h A0 A1 j i | f f i => A0 f; A1 f
A0 g h A1 f i j | g => A0 f; A1 g

A B; f : -> A; g : -> B; h : A B -> A; i : A B -> A
A0 B0 h B0 i | f g h g i => A0 f; B0 g
A0 B0 h B0 i | f B0 h B1 i => no
A0 B0 h B1 i | f B0 h B1 i => A0 f; B0 B0; B1 B1
A0 | g => no
f | g => no
C0 | f => C0 f
C0 | g => no
C0 D0 h | f g h => C0 f; D0 g
D0, C0 | g, f => D0 g; C0 f
D0, C0 | g, g => no

A B C; A < C; B < C; f : C C -> C; f : A A -> A; f : B B -> A; f : A B -> B; f : B A -> B
A0 C0 f | B0 B1 f C1 f => A0 f(B0 B1); C0 C1
B0 C0 f | B0 B1 f C1 f => no
A0 B0 f | A1 A2 f B1 f => A0 f(A1 A2); B0 B1
A0 | B0 B1 f => A0 f(B0 B1)
A0 | C0 C0 f => no

A B; A < B; f : B ~> A; g : -> A
A0 f | g f => A0 g
A0 f | g f f => no
C0 f | g f f => C0 f(g)
A0 | g f => no
B0 f | B1 f => B0 B1";

// The same for sums of 200 and of 201 equal pieces, for sums of six and more variables, for a sum of many different pieces
// beside one of two that shares a variable, in the next three blocks for sums of many different pieces, and of even and odd
// ones, and in the last one for a sum of 24 different pieces, one of which stands there twice, or is of a low sort.
const COUNTED: &str = "A; f : -> A; g : -> A; h : A A -> A [assoc comm]
A0 A0 A0 h h | f~ f h~ => no
A0 A0 A0 h h | f~ f h~ f h => yes
A0 A0 A0 A1 A1 h h h h | f~ f h~ => yes
A0 A0 h A0 A0 h h A1 A1 h A1 A1 h h h | f~ f h~ f h => no
A0 g h | f~ f h~ => no

A B; A < B; f : -> A; g : -> B; h : B B -> B [assoc comm id: g]
A0 A1 A2 h h | f~ f h~ => no
A0 A1 B0 h h | f~ f h~ => yes
B0 B0 B0 h h | f~ f h~ => no
A0 A0 h B0 B0 B0 h h h | f~ f h~ => yes
A0 A0 h B0 B0 B0 h h h | f~ f h~ f h => no

A B; A < B; f : -> A; g : -> B; h : B B -> B [assoc comm]
B0 B1 B2 B3 B4 B5 h h h h h | C0 B1 B2 B3 B4 B5 h h h h h => no
B0 B1 B2 B3 B4 B5 B6 h h h h h h | C0 B1 B2 B3 B4 B5 B6 h h h h h h => no
B0 B1 B2 B3 B4 B5 h h h h h | g g h g h g h g h g h => yes
B0 B1 B2 B3 B4 B5 B6 B7 B8 h h h h h h h h | g g h g h g h g h g h g h g h g h => yes
B0 B1 B2 B3 B4 B5 B6 B7 B8 h h h h h h h h | g g h g h g h g h g h g h g h g h g h g h g h => yes
B0 B1 B2 B3 B4 B5 B6 B7 B8 h h h h h h h h | g g h g h g h g h g h g h g h => no
A0 A1 A2 A3 A4 A5 h h h h h | f f h f h f h f h f h => yes
A0 A1 A2 A3 A4 A5 h h h h h | g g h g h g h g h g h => no
A0 A1 A2 A3 A4 A5 h h h h h | f f f f f g h h h h h => no

A; f : -> A; g : -> A; h : A -> A; i : A A -> A [assoc comm]; j : A A -> A [assoc comm]
A0 A1 i A1 A2 i A3 i A4 i A5 i A6 i A7 i A8 i A9 i j | g g h i f f h i f h h i f h h h i f h h h h i f h h h h h i f h h h h h h i f h h h h h h h i f h h h h h h h h i j => no
A0 A1 i A1 A2 i A3 i A4 i A5 i A6 i A7 i A8 i A9 i j | g f h h i f f h i f h h i f h h h i f h h h h i f h h h h h i f h h h h h h i f h h h h h h h i f h h h h h h h h i j => yes

A B; A < B; f : -> A; g : -> B; h : A -> A; i : B B -> B [assoc comm]
A0 A1 i A2 i A3 i A4 i A5 i A6 i A7 i A8 i A9 i | f f h i f h h i f h h h i f h h h h i f h h h h h i f h h h h h h i f h h h h h h h i f h h h h h h h h i g i => no
A0 A1 i A2 i A3 i A4 i A5 i A6 i A7 i A8 i A9 i | f f h i f h h i f h h h i f h h h h i f h h h h h i f h h h h h h i f h h h h h h h i f h h h h h h h h i f h h h h h h h h h i f h h h h h h h h h h i => no
A0 A1 i A2 i A3 i A4 i A5 i A6 i A7 i A8 i A9 i | f f h i f h h i f h h h i f h h h h i f h h h h h i f h h h h h h i f h h h h h h h i f h h h h h h h h i f h h h h h h h h h i => yes
A0 A1 i A2 i A3 i A4 i A5 i A6 i A7 i A8 i C0 i | f f h i f h h i f h h h i f h h h h i f h h h h h i f h h h h h h i f h h h h h h h i f h h h h h h h h i f h h h h h h h h h i g i => yes
A0 A1 i A1 i A2 i A2 i A3 i A3 i A4 i A4 i A5 i A5 i A6 i A6 i A7 i A7 i A8 i A8 i A9 i A9 i | f f i f h i f h i f h h i f h h i f h h h i f h h h i f h h h h i f h h h h i f h h h h h i f h h h h h i f h h h h h h i f h h h h h h i f h h h h h h h i f h h h h h h h i f h h h h h h h h i f h h h h h h h h h i f h h h h h h h h h h i => no
A0 A1 i A1 i A2 i A2 i A3 i A3 i A4 i A4 i A5 i A5 i A6 i A6 i A7 i A7 i A8 i A8 i A9 i A9 i | f f i f h i f h i f h h i f h h i f h h h i f h h h i f h h h h i f h h h h i f h h h h h i f h h h h h i f h h h h h h i f h h h h h h i f h h h h h h h i f h h h h h h h i f h h h h h h h h i f h h h h h h h h i f h h h h h h h h h i => yes
A0 h A1 h i A2 h i A3 h i A4 h i A5 h i A6 h i A7 h i | f h f h h i f h h h i f h h h h i f h h h h h i f h h h h h h i f h h h h h h h i f h h h h h h h h i f h h h h h h h h h i => no
B0 B0 i B1 i B1 i B2 i B2 i B3 i B3 i B4 i B4 i B5 i B5 i B6 i B6 i B7 i B7 i B8 i B8 i | f f h i f h h i f h h h i f h h h h i f h h h h h i f h h h h h h i f h h h h h h h i f h h h h h h h h i f h h h h h h h h h i f i f h i f h h i f h h h i f h h h h i f h h h h h i f h h h h h h i f h h h h h h h i f h h h h h h h h i f h h h h h h h h h i f h h h h h h h h h h i g i => no
B0 B0 i B1 i B1 i B2 i B2 i B3 i B3 i B4 i B4 i B5 i B5 i B6 i B6 i B7 i B7 i B8 i B8 i | f f h i f h h i f h h h i f h h h h i f h h h h h i f h h h h h h i f h h h h h h h i f h h h h h h h h i f h h h h h h h h h i f i f h i f h h i f h h h i f h h h h i f h h h h h i f h h h h h h i f h h h h h h h i f h h h h h h h h i f h h h h h h h h h i => yes

A B; A < B; f : -> A; g : -> B; h : A -> A; i : B B -> B [assoc comm]; i : A A -> A [assoc comm]
A0 A1 i A2 i A3 i A4 i A5 i A6 i A7 i A8 i C0 i | f f h i f h h i f h h h i f h h h h i f h h h h h i f h h h h h h i f h h h h h h h i g i g i g i => no
A0 A1 i A2 i A3 i A4 i A5 i A6 i A7 i A8 i C0 i | f f h i f h h i f h h h i f h h h h i f h h h h h i f h h h h h h i f h h h h h h h i f h h h h h h h h i f h h h h h h h h h i g i => yes

A B C; A < C; B < C; f : -> A; g : -> B; h : C C -> C [assoc comm]; h : A A -> A [assoc comm]; h : B B -> A [assoc comm]; h : A B -> B [assoc comm]
A0 A1 h A2 h A3 h A4 h A5 h | g g h g h g h g h g h g h g h g h g h g h g h => yes
A0 A1 h A2 h A3 h A4 h A5 h | g g h g h g h g h g h g h g h g h g h g h => no

A B; A < B; f : -> A; g : -> B; h : -> B; i : -> B; j : -> B; k : -> B; l : -> B; m : -> B; n : -> B; o : -> B; p : -> B; q : -> B; r : -> B; s : -> B; t : -> B; u : -> B; v : -> B; w : -> B; x : -> B; y : B B -> B [assoc comm]
B0 B0 B1 y y | f g y h y i y j y k y l y m y n y o y p y q y r y s y t y u y v y w y x y B2 y B3 y B4 y B5 y B6 y m y => B0 m; B1 y[B2 B3 B4 B5 B6 f g h i j k l n o p q r s t u v w x]
A0 B1 y | f g y h y i y j y k y l y m y n y o y p y q y r y s y t y u y v y w y x y B2 y B3 y B4 y B5 y B6 y => A0 f; B1 y[B2 B3 B4 B5 B6 g h i j k l m n o p q r s t u v w x]";

// Blocks: a signature, and then two variants with whether the first covers the second, and the second the first.
//
// A variant is its terms, a bar, and the values of its variables. A term is written with each operator after
// its arguments, a variable as the letter of its sort and a number.
//
// The signatures are: constants and a free operator; sets of elements with the empty set; constants, a
// commutative operator and a sum without an identity.
const COVERED: &str = "A; f : -> A; g : -> A; h : A A -> A
A0 | A9 A0 / f | A9 f => yes no
A0 | A9 A0 / f | A9 g => no no
A0 | A9 A0 / A1 | A9 A1 => yes yes
A0 | A9 A0 / f g h | A9 f g h => yes no
A0 | A9 A1 / f | A9 g => yes no
A0 | A9 f / A0 | A9 g => no no
f | A9 A0 / g | A9 A0 => no no
A9 A0 / A9 f => yes no
A9 A0 A1 h / A9 A0 A0 h => yes no
A9 A0 A1 h; A8 A0 / A9 f g h; A8 f => yes no
A9 A0 A1 h; A8 A0 / A9 f g h; A8 g => no no
A9 A0; A8 A1 / A9 A1; A8 A0 => yes yes
A0, A1 | A9 A1 / f, g | A9 g => yes no
A0, A1 | A9 A1 / f, g | A9 f => no no

A B; A < B; f : -> A; g : -> A; h : -> B; i : B B -> B [assoc comm id: h]
B0 | B8 B0; B9 h / B0 | B8 h; B9 B0 => no no
B0 | B9 B0 / A0 | B9 A0 => yes no
B0 B1 i | B9 B0 / B0 | B9 B0 => yes no
B9 B0 B1 i / B9 B0 => yes yes
B9 B0 B1 i; B8 B0 / B9 f g i; B8 g => yes no
B9 A0 B0 i / B9 f => yes no
B9 A0 B0 i / B9 h => no no
B9 A0 B0 i / B9 B0 => no yes

A; f : -> A; g : -> A; h : A A -> A [comm]; i : A A -> A [assoc comm]
A9 A0 f h / A9 f g h => yes no
A9 A0 A1 i / A9 f g f i i => yes no
A9 A0 A0 i / A9 f g i => no no
A9 A0 A0 i; A8 A0 / A9 f f i; A8 f => yes no
A9 A0 A1 i; A8 A0 / A9 A0 A1 i; A8 A1 => yes yes";

// Blocks: a signature, and then variants with the first values of those that are left.
const PRUNED: &str = "A; f : -> A; g : -> A; h : A A -> A
A9 A0 => A0
A0 | A9 A0 & A1 | A9 A1 & A2 | A9 A2 => A0
A9 f & A9 A0 => A0
A9 A0 & A9 f => A0
A9 f & A9 g => f, g
A9 f & A9 g & A9 f => f, g
A9 f & A9 f g h & A9 g & A9 A0 A1 h & A9 f f h => f, g, h(A0 A1)
A9 f f h & A9 A0 A0 h & A9 A1 A2 h & A9 A3 A3 h => h(A1 A2)
A9 A0 A1 h & A9 A2 A3 h & A9 f => h(A0 A1), f
A9 f f h & A9 g & A9 A0 A0 h & A9 A1 & A9 A2 => A1
A0 | A9 f & A1 | A9 f & f | A9 f => f
A0 | A9 f & A0 | A9 g => f, g

A B; A < B; f : -> A; g : -> A; h : -> B; i : B B -> B [assoc comm id: h]
B8 B0; B9 h & B8 h; B9 B0 => B0, h
B8 B0; B9 h & B8 h; B9 B0 & B8 B0; B9 B1 => B0
B9 f & B9 f g i & B9 A0 & B9 B0 B1 i & B9 B0 => i[B0 B1]";

// A signature, and then a number of workers, kept variants and candidates with the marks of these.
const MARKED: &str = "A; f : -> A; g : -> A; h : A A -> A
1 / A0 | A9 A0 / f | A9 f & f | A9 g & f g h | A9 f g h => yes no yes
1 / A9 f & A9 g / A9 g => yes
1 / A9 f / A9 g & A9 f & A9 A0 & A9 f & A9 f f h => no yes no yes no
1 / A9 f & A9 A0 A1 h / A9 g & A9 f f h & A9 f & A9 A0 f h & A9 A0 & A9 g g h & A9 g => no yes yes yes no yes no
1 / A9 f & A9 g / A9 f & A9 f & A9 g & A9 A0 & A9 f & A9 A0 & A9 f & A9 f & A9 f & A9 g & A9 A0 & A9 f & A9 f & A9 f & A9 A0 & A9 g & A9 A0 & A9 f => yes yes yes no yes no yes yes yes yes no yes yes yes no yes no yes
2 / A0 | A9 A0 / f | A9 f & f | A9 g & f g h | A9 f g h => yes no yes
2 / A9 f & A9 g / A9 g => yes
2 / A9 f / A9 g & A9 f & A9 A0 & A9 f & A9 f f h => no yes no yes no
2 / A9 f & A9 A0 A1 h / A9 g & A9 f f h & A9 f & A9 A0 f h & A9 A0 & A9 g g h & A9 g => no yes yes yes no yes no
2 / A9 f & A9 g / A9 f & A9 f & A9 g & A9 A0 & A9 f & A9 A0 & A9 f & A9 f & A9 f & A9 g & A9 A0 & A9 f & A9 f & A9 f & A9 A0 & A9 g & A9 A0 & A9 f => yes yes yes no yes no yes yes yes yes no yes yes yes no yes no yes
3 / A0 | A9 A0 / f | A9 f & f | A9 g & f g h | A9 f g h => yes no yes
3 / A9 f & A9 g / A9 g => yes
3 / A9 f / A9 g & A9 f & A9 A0 & A9 f & A9 f f h => no yes no yes no
3 / A9 f & A9 A0 A1 h / A9 g & A9 f f h & A9 f & A9 A0 f h & A9 A0 & A9 g g h & A9 g => no yes yes yes no yes no
3 / A9 f & A9 g / A9 f & A9 f & A9 g & A9 A0 & A9 f & A9 A0 & A9 f & A9 f & A9 f & A9 g & A9 A0 & A9 f & A9 f & A9 f & A9 A0 & A9 g & A9 A0 & A9 f => yes yes yes no yes no yes yes yes yes no yes yes yes no yes no yes
16 / A0 | A9 A0 / f | A9 f & f | A9 g & f g h | A9 f g h => yes no yes
16 / A9 f & A9 g / A9 g => yes
16 / A9 f / A9 g & A9 f & A9 A0 & A9 f & A9 f f h => no yes no yes no
16 / A9 f & A9 A0 A1 h / A9 g & A9 f f h & A9 f & A9 A0 f h & A9 A0 & A9 g g h & A9 g => no yes yes yes no yes no
16 / A9 f & A9 g / A9 f & A9 f & A9 g & A9 A0 & A9 f & A9 A0 & A9 f & A9 f & A9 f & A9 g & A9 A0 & A9 f & A9 f & A9 f & A9 A0 & A9 g & A9 A0 & A9 f => yes yes yes no yes no yes yes yes yes no yes yes yes no yes no yes";

#[test]
fn matchers_are_found(rt: HostRuntime) -> Result<(), NoMemory> {
    let alloc = rt.alloc();
    assert_table(&rt, alloc, Asked::Match, ROWS)?;
    assert_table(&rt, alloc, Asked::Match, COUNTED)?;
    assert_table(&rt, alloc, Asked::Covers, COVERED)?;
    assert_table(&rt, alloc, Asked::Pruned, PRUNED)?;
    assert_table(&rt, alloc, Asked::Marked, MARKED)?;
    assert_table(&rt, alloc, Asked::Refined, refinements::ROWS)
}
