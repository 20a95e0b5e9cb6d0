//! Terms with their flat forms, and what renaming and substitutions make of them.
use super::rows::{Asked, assert_table};
use fvn_terms::NoMemory;

// Blocks: a signature, and then terms with their flat form, size and least sort.
//
// A term is written with each operator after its arguments, a variable as the letter of its sort and a
// number. The summands of a flat sum stand in square brackets. Kinds have the letters after the sorts.
//
// The signatures are: constants, a unary, a commutative operator and a sum; sets of elements; numbers and
// sets of them with a sum that has no identity; three sums, two with one identity and one with another; even
// and odd numbers with a free sum; the same with a sum whose identity is zero; a partial operator; one half
// of a commutative operator; sets whose union has the empty set as its identity; 400 constants, nested to the left, to
// the right, and in pairs.
const FORMS: &str =
    "A; f : -> A; g : -> A; h : A -> A; i : A A -> A [comm]; j : A A -> A [assoc comm]
f => f 1 A
A0 => A0 1 A
g f j => j[f g] 3 A
f g j => j[f g] 3 A
f A0 j => j[A0 f] 3 A
f g j f j => j[f f g] 5 A
f f g j j => j[f f g] 5 A
A1 A0 j A1 f j j => j[A0 A1 A1 f] 7 A
g f i => i(f g) 3 A
f g i => i(f g) 3 A
f g j h => h(j[f g]) 4 A
g h f h i => i(h(f) h(g)) 5 A
f g j g f j i => i(j[f g] j[f g]) 7 A
f g i f g i j => j[i(f g) i(f g)] 7 A
A0 h A0 i => i(A0 h(A0)) 4 A
f g j h f j => j[f h(j[f g])] 6 A
A2 A1 i A0 i => i(A0 i(A1 A2)) 5 A
f f j f f j j => j[f f f f] 7 A
g A0 j h h => h(h(j[A0 g])) 5 A

A B; A < B; f : -> A; g : -> A; h : -> B; i : B B -> B [assoc comm id: h]
h => h 1 B
f h i => f 1 A
h f i => f 1 A
h h i => h 1 B
f g i => i[f g] 3 B
g h i f i => i[f g] 3 B
A0 h i => A0 1 A
B0 A0 i => i[A0 B0] 3 B
h h i f i h i => f 1 A
f f i => i[f f] 3 B
C0 f i => i[C0 f] 3 C
B1 A1 i B0 i => i[B0 A1 B1] 5 B

A B; A < B; f : -> A; g : A -> A; h : -> B; i : B B -> B [assoc comm]
h f i => i[f h] 3 B
f g f i => i[f g(f)] 4 B
f g g => g(g(f)) 3 A
C0 h i => i[C0 h] 3 C
A0 A0 i A0 i => i[A0 A0 A0] 5 B
h h i h i => i[h h h] 5 B
h g => g(h) 2 C
f h i => i[f h] 3 B
f g f h i i => i[f g(f) h] 6 B
f h i g => g(i[f h]) 4 C

A; f : -> A; g : -> A; h : A A -> A [assoc comm id: f]; i : A A -> A [assoc comm id: g]; j : A A -> A [assoc comm id: f]
f g i => f 1 A
f g i f h => f 1 A
f g h => g 1 A
f g h g i => g 1 A
A0 f h g i => A0 1 A
A0 g i f h A1 j => j[A0 A1] 3 A
f f h => f 1 A
f f i => i[f f] 3 A
g g h => h[g g] 3 A
A0 f j A1 h => h[A0 A1] 3 A
A0 A1 h f j A2 h => h[A0 A1 A2] 5 A
g g i f j => g 1 A

A B C; A < C; B < C; f : C C -> C; f : A A -> A; f : B B -> A; f : A B -> B; f : B A -> B
A0 B0 f => f(A0 B0) 3 B
B0 A0 f => f(B0 A0) 3 B
B0 B1 f => f(B0 B1) 3 A
C0 A0 f => f(C0 A0) 3 C
B0 B0 f B0 f => f(f(B0 B0) B0) 5 B
D0 A0 f => f(D0 A0) 3 D

A B C; A < C; B < C; f : -> A; g : A -> B; g : B -> A; g : C -> C; h : C C -> C [assoc comm id: f]; h : A A -> A [assoc comm id: f]; h : B B -> A [assoc comm id: f]; h : A B -> B [assoc comm id: f]
f g f h => g(f) 2 B
f g f g h => h[g(f) g(f)] 5 A
f g f g h f g h => h[g(f) g(f) g(f)] 8 B
C0 f h g => g(C0) 2 C
A0 f h g => g(A0) 2 B
B0 f h => B0 1 B
B0 => B0 1 B
f g => g(f) 2 B
f g g => g(g(f)) 3 A
C0 g => g(C0) 2 C
B0 A1 h => h[B0 A1] 3 B
f g B0 h => h[B0 g(f)] 4 A
C0 B1 h => h[C0 B1] 3 C
D0 f h => D0 1 D

A B; A < B; f : B ~> A; g : -> A
g f => f(g) 2 C
A0 f f => f(f(A0)) 3 C

A B; A < B; f : B B -> B [comm]; f : A B -> A [comm]; g : -> B; h : -> A
B0 A0 f => f(A0 B0) 3 A
g h f => f(g h) 3 A

A B; A < B; f : -> B; g : B B -> B [assoc comm id: f]
f => f 1 B
A0 A0 g => g[A0 A0] 3 B
A0 f g => A0 1 A
f A0 g => A0 1 A
f A0 f g g => A0 1 A
f f g => f 1 B
C0 A0 g => g[A0 C0] 3 C

A; f : -> A; g : -> A; h : A A -> A [assoc comm]
f g h~ f h g h~ => h[f~ f~~ g~ g] 799 A
f~ g f~ g~ h~~ h~ h => h[f~ f~~ g~ g] 799 A
f g h~ f g h h~ => h[f~ f~~ g~ g] 799 A";

// A signature, and then terms with what renaming makes of them from 3 on, and the next free number.
const RENAMED: &str = "A B; A < B; f : -> A; g : B B -> B; h : B B -> B [assoc comm]
f => f 3
A0 => #A3 4
B1 A0 g => g(#B3 #A4) 5
A0 A0 g => g(#A3 #A3) 4
A0 B0 g A0 g => g(g(#A3 #B4) #A3) 5
B2 A0 h A0 B2 g h => h[#A3 #B4 g(#A3 #B4)] 5";

// Blocks: a signature, and then substitutions with a term and what they make of it, all bound variables
// replaced at once; two substitutions one after the other.
const INSTANCES: &str = "A B; A < B; f : -> A; g : B B -> B; h : B B -> B [assoc comm]
B0 f | B0 B1 h => h[B1 f]
B0 A0 A1 h | B0 A2 h => h[A0 A1 A2]
B0 B1; B1 f | B0 B1 g => g(B1 f)
B0 B1 then B1 f | B0 B1 g => g(f f)
B0 A0 A1 h then A0 f | B0 A0 g => g(h[A1 f] f)

A; f : -> A; g : -> A; h : -> A; i : -> A; j : A A -> A [assoc comm id: i]; k : A A -> A
A0 f g j | A0 A0 j h j => j[f f g g h]
A0 i | A0 h j => h
A0 i | A0 A0 j => i
A0 i | A0 f k => k(i f)
A0 A1; A1 A0 | A0 A1 k => k(A1 A0)
A0 A1 f j; A1 g | A0 A1 k => k(j[A1 f] g)
A0 A1 f j then A1 g | A0 A1 k => k(j[f g] g)
A0 A1 f j then A1 i | A0 A1 k => k(f i)
A0 f then A0 g | A0 A1 k => k(f A1)";

#[test]
fn terms_have_flat_forms(rt: HostRuntime) -> Result<(), NoMemory> {
    let alloc = rt.alloc();
    assert_table(&rt, alloc, Asked::Form, FORMS)?;
    assert_table(&rt, alloc, Asked::Renamed, RENAMED)?;
    assert_table(&rt, alloc, Asked::Instance, INSTANCES)
}
