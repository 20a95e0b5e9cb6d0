//! Problems with their unifiers.
use super::searching::shown_searched;
use super::solving::shown_solved;
use fvn_signature::Signature;
use fvn_terms::NoMemory;
use fvn_tests_samples::signature_of;
use std::alloc::Global;
use std::process::Abort;

/// One sort A; constants f, g and o, free operators h and i, a commutative operator j, sums k and n, and sums l and m
/// with the identity g.
pub const OPERATORS: &str =
    "A; f : -> A; g : -> A; h : A -> A; i : A A -> A; j : A A -> A [comm]; k : A A -> A [assoc comm]; l : A A -> A [assoc comm id: g]; m : A A -> A [assoc comm id: g]; n : A A -> A [assoc comm]; o : -> A";

/// The same, and a sort B of elements below A, of which o is one; a sum with g is no element, so that l and m are not
/// neutral.
pub const WITH_ELEMENTS: &str =
    "A B; B < A; f : -> A; g : -> A; h : A -> A; i : A A -> A; j : A A -> A [comm]; k : A A -> A [assoc comm]; l : A A -> A [assoc comm id: g]; m : A A -> A [assoc comm id: g]; n : A A -> A [assoc comm]; o : -> B";

/// Elements A below bags B; the empty bag f, the elements g to s, the sum t of bags, and elements u and v of one bag and
/// of two.
pub const BAGS: &str =
    "A B; A < B; f : -> B; g : -> A; h : -> A; i : -> A; j : -> A; k : -> A; l : -> A; m : -> A; n : -> A; o : -> A; p : -> A; q : -> A; r : -> A; s : -> A; t : B B -> B [assoc comm id: f]; u : B -> A; v : B B -> A";

/// Elements A below filled bags B below bags C; the empty bag f, an element g, and the sum h of bags, which is filled where one
/// of the two is.
const FILLED: &str =
    "A B C; A < B; B < C; f : -> C; g : -> A; h : C C -> C [assoc comm id: f]; h : B C -> B [assoc comm id: f]";

/// One sort A; constants f, g and j, sums h and k with the identity f, and a sum i with the identity g.
pub const RINGS: &str =
    "A; f : -> A; g : -> A; h : A A -> A [assoc comm id: f]; i : A A -> A [assoc comm id: g]; j : -> A; k : A A -> A [assoc comm id: f]";

// Numbers of unifiers and of symbols at which a solver stops, and a problem; how the solver ends with it and how many
// unifiers it gives; then terms over the problem's variables, each with what a known unifier makes of it.
//
// A term is written with each operator after its arguments; a star stands for the operator h 499 times. The numbers of
// unifiers are those of Maude's `irredundant unify` in the same signature, where no limit is met, and so are the known
// unifiers.
const SOLVED: &str = "4 20 A0 A1 k = A2 A3 k => unifiers 4
4 20 A0 A0 k = A1 A2 k => unifiers 4
4 20 A0 A1 j = f g j => complete 2
4 20 A0 f k = A1 g k => complete 2
4 20 A0 A1 l = A2 A3 l => complete 1
4 20 A0 = A0 f k => complete 0
4 20 f h = g h => complete 0
4 20 A0 A0 i = A1; A1 A1 i = A2; A2 A2 i = A3 => complete 1
4 20 A0 A0 i = A1; A1 A1 i = A2; A2 A2 i = A3; A3 A3 i = A4 => size 0
4 20 f f i f f i i f f i f f i i i = f f i f f i i f f i f f i i i => problem 0
4 20 A0 A1 k A2 k A3 k A4 k = A5 A6 k A7 k A8 k A9 k => basis 0
4 20 A0 A1 l A2 l A3 l A4 l = A5 A6 l A7 l A8 l A9 l => complete 1
4 30 A0 A1 l A2 l A3 l A4 l Ab l = A5 A6 l A7 l A8 l A9 l Ac l => complete 1
4 60 A0 A1 l A2 l A3 l A4 l A5 l A6 l A7 l A8 l A9 l Ab l Ac l Ad l Ae l Af l Ag l = Ah Ai l Aj l Ak l Al l Am l An l Ao l => basis 0
4 200 A0 = A1 A2 k h A3 k h A4 k h A5 k h A6 k h A7 k h A8 k h A9 k h Ab k h Ac k h Ad k h Ae k h Af k h Ag k h => complete 1
4 200 A0 = A1 A2 l h A3 l h A4 l h A5 l h A6 l h A7 l h A8 l h A9 l h Ab l h Ac l h Ad l h Ae l h Af l h Ag l h => complete 1
4 200 A0 = A1 f k h f k h f k h f k h f k h f k h f k h f k h f k h f k h f k h f k h f k h f k h f k h f k h f k h f k h f k h f k h f k h f k h f k h f k h f k h f k h f k h f k h f k h f k h => complete 1
4 20 A0 = A1; A2 = A3; A4 = A5; A6 = A7; A8 = A9; Ab = Ac; Ad = Ae; Af = Ag; Ah = Ai; Aj = Ak => complete 1
8 1000 A0 A1 k = A2 A3 k => complete 7
7 1000 A0 A1 k = A2 A3 k => unifiers 7
8 1000 f* = f* => complete 1
8 1000 f* = f* h => problem 0
8 1000 f* = f h h => complete 0
100 200 A0 A1 i = f h A2 i => complete 1 | A0 A1 i A2 i = f h A1 i A1 i
100 200 A0 h A1 i = A1 A2 i => complete 1 | A0 A1 i A2 i = A1 A1 h i A1 h i
100 200 A0 A1 i A2 i A3 i A4 i A5 i A6 i A7 i A8 i A9 i Ab i Ac i Ad i Ae i Af i Ag i Ah i Ai i Aj i Ak i = f g i f i g i f i g i f i g i f i g i f i g i f i g i f i g i f i g i f i g i => complete 1 | A0 A1 i A2 i A3 i A4 i A5 i A6 i A7 i A8 i A9 i Ab i Ac i Ad i Ae i Af i Ag i Ah i Ai i Aj i Ak i = f g i f i g i f i g i f i g i f i g i f i g i f i g i f i g i f i g i f i g i
100 200 A0 A0 i = A1 A1 h i => complete 0
100 200 f h = g h => complete 0
100 200 f = f => complete 1
100 200 A0 A1 j = f g j => complete 2 | A0 A1 i = f g i; A0 A1 i = g f i
100 200 A0 A1 j A2 j = f g j f j => complete 2 | A0 A1 i A2 i = f g i f i; A0 A1 i A2 i = g f i f i
100 200 A0 A1 j A2 A3 j j = A4 A5 j f g j j => complete 8 | A0 A1 i A2 i A3 i A4 i A5 i = f g i A1 i A2 i A1 i A2 i; A0 A1 i A2 i A3 i A4 i A5 i = g f i A1 i A2 i A1 i A2 i; A0 A1 i A2 i A3 i A4 i A5 i = f g i A2 i A1 i A1 i A2 i; A0 A1 i A2 i A3 i A4 i A5 i = g f i A2 i A1 i A1 i A2 i
100 200 A0 A1 k = A2 A3 k => complete 7 | A0 A1 i A2 i A3 i = A1 A3 k A2 A4 k i A1 A2 k i A3 A4 k i; A0 A1 i A2 i A3 i = A2 A3 k A1 i A1 A3 k i A2 i; A0 A1 i A2 i A3 i = A1 A2 A3 k i A1 A3 k i A2 i; A0 A1 i A2 i A3 i = A2 A3 k A1 i A2 i A1 A3 k i; A0 A1 i A2 i A3 i = A1 A2 i A1 i A2 i; A0 A1 i A2 i A3 i = A1 A2 A3 k i A2 i A1 A3 k i; A0 A1 i A2 i A3 i = A2 A1 i A1 i A2 i
100 200 A0 A0 k = A1 A1 k => complete 1 | A0 A1 i = A1 A1 i
100 200 A0 A0 k = A1 A2 k => complete 5 | A0 A1 i A2 i = A1 A2 k A3 k A1 A1 k A2 k i A2 A3 k A3 k i; A0 A1 i A2 i = A1 A2 k A1 A2 k A2 k i A1 i; A0 A1 i A2 i = A1 A2 k A1 A1 k i A2 A2 k i; A0 A1 i A2 i = A1 A2 k A1 i A1 A2 k A2 k i
100 200 A0 f k = A1 g k => complete 2 | A0 A1 i = g A1 k f A1 k i; A0 A1 i = g f i
100 200 A0 A1 h k = A2 h f k => complete 1 | A0 A1 i A2 i = f A1 i A1 i
100 200 A0 = A0 f k => complete 0
100 200 A0 = A0 A1 l => complete 1 | A0 A1 i = A1 g i
100 200 A0 A1 l = f => complete 2 | A0 A1 i = f g i; A0 A1 i = g f i
100 200 A0 A1 l = g => complete 1 | A0 A1 i = g g i
100 200 A0 A1 l = A2 A3 l => complete 1 | A0 A1 i A2 i A3 i = A1 A3 l A2 A4 l i A1 A2 l i A3 A4 l i
100 200 A0 = A0 h A1 l => complete 0
100 200 A0 A1 l A2 h l = f h => complete 1 | A0 A1 i A2 i = g g i f i
100 200 A0 A1 l = A0 A1 m => complete 2 | A0 A1 i = A1 g i; A0 A1 i = g A1 i
100 200 A0 A1 l A2 m = f => complete 3 | A0 A1 i A2 i = g g i f i; A0 A1 i A2 i = f g i g i; A0 A1 i A2 i = g f i g i
100 200 A0 = A1 A2 l; A1 = A0 A3 m => complete 1 | A0 A1 i A2 i A3 i = A1 A1 i g i g i; A0 A1 i A2 i A3 i = g g i g i g i
100 200 A0 A1 k A0 A1 l i = A2 A2 i => complete 0
100 200 A0 A1 k = A2 f k; A0 A3 n = A4 g n => complete 12 | A0 A1 i A2 i A3 i A4 i = f A2 k A1 i A1 A2 k i g A3 n i A3 f A2 k n i; A0 A1 i A2 i A3 i A4 i = f A2 k A1 i A1 A2 k i g i f A2 k i; A0 A1 i A2 i A3 i A4 i = f A1 i A1 i g A2 n i f A2 n i; A0 A1 i A2 i A3 i A4 i = f A1 i A1 i g i f i
100 200 A0 A1 n A2 k = A3 A4 n A5 k => complete 9 | A0 A1 i A2 i A3 i A4 i A5 i = A1 A2 i A5 A3 A4 n k i A3 i A4 i A5 A1 A2 n k i; A0 A1 i A2 i A3 i A4 i A5 i = A2 A3 n A4 A5 n i A1 i A2 A4 n i A3 A5 n i A1 i; A0 A1 i A2 i A3 i A4 i A5 i = A3 A4 n A1 i A2 i A1 A4 n i A3 i A2 i; A0 A1 i A2 i A3 i A4 i A5 i = A3 A4 n A1 i A2 i A3 i A1 A4 n i A2 i
100 200 A0 A1 k A2 l = A3 A4 l => complete 2 | A0 A1 i A2 i A3 i A4 i = A1 A2 i A3 A4 l i A4 A1 A2 k l i A3 i; A0 A1 i A2 i A3 i A4 i = A1 A2 i A3 A4 l i A3 i A4 A1 A2 k l i
100 200 A0 A1 j A2 k = A2 f g j k => complete 2 | A0 A1 i A2 i = f g i A1 i; A0 A1 i A2 i = g f i A1 i
100 200 A0 A1 k = f => complete 0
100 200 A0 A1 l = A2 h; A0 = f; A1 = f => complete 0
100 200 A0 A1 l = A2 f l; A0 A3 m = A4 g m => complete 2 | A0 A1 i A2 i A3 i A4 i = f A3 l A1 i A1 A3 l i A2 i A2 f A3 l m i; A0 A1 i A2 i A3 i A4 i = A1 f A3 l i A1 A3 l i A2 i A1 A2 m i
100 200 A0 A1 k = A2 f k; A0 A3 l = A4 f l => complete 6 | A0 A1 i A2 i A3 i A4 i = f A2 k A1 i A1 A2 k i f A3 l i A3 f A2 k l i; A0 A1 i A2 i A3 i A4 i = f A1 i A1 i A2 i A2 i; A0 A1 i A2 i A3 i A4 i = f A3 l f A2 k i A2 f A3 l k i A1 i A1 A3 l i; A0 A1 i A2 i A3 i A4 i = A1 f A2 k i A1 A2 k i f A3 l i A1 A3 l i; A0 A1 i A2 i A3 i A4 i = f A2 l f i f A2 l i A1 i A1 A2 l i; A0 A1 i A2 i A3 i A4 i = A1 f i A1 i f A2 l i A1 A2 l i
100 200 A0 A1 k = A2 f k; A1 A0 n = A3 g n => complete 8 | A0 A1 i A2 i A3 i = f A1 k g A2 n i A1 g A2 n k i A2 f A1 k n i; A0 A1 i A2 i A3 i = f A1 k g i g A1 k i f A1 k i; A0 A1 i A2 i A3 i = f g A1 n i g A1 n i f A1 n i; A0 A1 i A2 i A3 i = f g i g i f i; A0 A1 i A2 i A3 i = g A2 n f A1 k i A1 g A2 n k i A2 f A1 k n i; A0 A1 i A2 i A3 i = g f A1 k i g A1 k i f A1 k i; A0 A1 i A2 i A3 i = g A1 n f i g A1 n i f A1 n i; A0 A1 i A2 i A3 i = g f i g i f i
100 200 A0 A1 k = f g k; A0 A2 n = f g n => complete 2 | A0 A1 i A2 i = f g i g i; A0 A1 i A2 i = g f i f i
100 200 A0 A1 k = A2 f k; A0 A3 l = f => complete 3 | A0 A1 i A2 i A3 i = f A1 i A1 i g i; A0 A1 i A2 i A3 i = g f A1 k i g A1 k i f i; A0 A1 i A2 i A3 i = g f i g i f i
100 200 A0 A1 l = f h; A0 A1 m = f h => complete 2 | A0 A1 i = f h g i; A0 A1 i = g f h i
100 200 A0 A1 A2 m h l = f h => complete 2 | A0 A1 i A2 i = g f i g i; A0 A1 i A2 i = g g i f i
100 200 A0 A1 l A2 m A3 l = f => complete 4 | A0 A1 i A2 i A3 i = g g i g i f i; A0 A1 i A2 i A3 i = g g i f i g i; A0 A1 i A2 i A3 i = f g i g i g i; A0 A1 i A2 i A3 i = g f i g i g i
100 200 A0 A1 l A2 m = A3 h => complete 3 | A0 A1 i A2 i A3 i = g g i A1 h i A1 i; A0 A1 i A2 i A3 i = A1 h g i g i A1 i; A0 A1 i A2 i A3 i = g A1 h i g i A1 i
100 200 A0 A1 l A2 m = A3 f m => complete 3 | A0 A1 i A2 i A3 i = A1 A2 i f A3 m i A3 A1 A2 l m i; A0 A1 i A2 i A3 i = f A2 m g i A1 i A1 A2 m i; A0 A1 i A2 i A3 i = g f A2 m i A1 i A1 A2 m i
100 200 A0 A1 l h A2 m = A2 => complete 0
100 200 A0 A0 i = A1; A1 A1 i = A2; A2 A2 i = A3; A3 A3 i = A4; A4 A4 i = A5; A5 A5 i = A6 => complete 1 | A0 A1 i A2 i A6 i = A1 A1 A1 i i A1 A1 i A1 A1 i i i A1 A1 i A1 A1 i i A1 A1 i A1 A1 i i i A1 A1 i A1 A1 i i A1 A1 i A1 A1 i i i i A1 A1 i A1 A1 i i A1 A1 i A1 A1 i i i A1 A1 i A1 A1 i i A1 A1 i A1 A1 i i i i i A1 A1 i A1 A1 i i A1 A1 i A1 A1 i i i A1 A1 i A1 A1 i i A1 A1 i A1 A1 i i i i A1 A1 i A1 A1 i i A1 A1 i A1 A1 i i i A1 A1 i A1 A1 i i A1 A1 i A1 A1 i i i i i i i
100 200 A0 A1 j = f f h h h h h h h h h h j; A0 A0 i = A2; A2 A2 i = A3; A3 A3 i = A4; A4 A4 i = A5; A5 A5 i = A6 => size 1 | A0 A1 i A2 i = f f h h h h h h h h h h i f f i i
100 200 A0 A0 i = A1; A1 A1 i = A2; A2 A2 i = A3; A3 A3 i = A4; A4 A4 i = A5; A5 A5 i = A6; A6 A6 i = A7 => size 0
100 200 A0 = A0 => complete 1
100 200 A0 = A1 => complete 1
100 200 f = g => complete 0
100 200 A0 h = f h => complete 1
100 200 A0 h = f => complete 0
100 200 A0 h h = A1 h => complete 1
100 200 A0 = A0 h => complete 0
100 200 A0 = A1 h; A1 = A0 h => complete 0
100 200 A0 h = A1; A1 h = A2 h => complete 1
100 200 A0 A1 i = A1 f i => complete 1
100 200 A0 A1 i = f f i; A0 h = A2 => complete 1
100 200 A0 A1 i = A2 h => complete 0
100 200 A0 f i h = A1 h; A1 = A2 => complete 1
100 200 A0 A1 j = A2 A3 j => complete 2
100 200 A0 A1 j = A0 f j => complete 1
100 200 A1 A1 j = A0 f j => complete 1
100 200 f f j = g g j => complete 0
100 200 A0 A1 j h = A1 f j h => complete 1
100 200 A0 h A1 h j = f h g h j => complete 2
100 200 A0 A1 j h f i = A1 A2 j h A2 i => complete 1
100 200 A0 A1 l = A0 A1 k => complete 0
100 200 A0 f l = A0 f l; A1 h = f h => complete 1
100 200 A0 A1 j = A1 f j; A0 = A2 => complete 1
100 200 A1 A0 h l = A0 => complete 0
100 200 A0 A1 l h = A2 => complete 1
100 200 A0 f l h = A1 h; A1 = A2 => complete 1
100 200 A0 A1 j h = A2 h => complete 1
100 200 A0 A1 k h = A1 A2 k h => complete 1
100 200 f A0 h j = f A1 h j => complete 1
100 200 A0 A1 l = A0 A1 j => complete 0
100 200 A0 A1 l = A2 h => complete 2
100 200 A1 A0 h k = A2 f j => complete 0
100 200 A0 f l = A1 f j => complete 0
100 200 f A0 h l = A1 h => complete 0
100 200 A0 h = A1 h; A0 A2 k = f => complete 0
100 200 A0 A1 h k = f A2 h k => complete 1
100 200 A0 = A1 A2 l => complete 1
100 200 A0 h A0 h j = f h f h j => complete 1
100 200 A0 h A1 k = A2 A3 k => complete 4
100 200 A0 A1 k = A2 A0 h l => complete 0
100 200 A0 A1 k h = A2 h => complete 1
100 200 A0 A1 l = A0 A2 k => complete 1
100 200 A0 A1 k A2 k = A3 => complete 1
100 200 A0 A1 l = A2; A0 A3 k = A4 => complete 1
100 200 A0 = A1 h => complete 1
100 200 A0 A1 k A0 A2 l i = A3 => complete 1
100 200 A0 A1 k A0 A1 l i = A2 => complete 1
100 200 A0 A0 k A0 f l i = A1 => complete 1
100 200 A0 A1 k = A2; A0 A1 l A3 A3 l i = A4 => complete 1
100 200 A0 A1 l f k = o f l f k => complete 4
100 200 A0 A1 l f k A2 l f k = o f l f k f l f k => complete 4
100 200 A0 A1 l f k A2 l f k A3 l f k = o f l f k f l f k f l f k => complete 4
100 200 A0 A1 i A2 A3 i k = f A4 h i f A5 h i k => complete 2
100 200 A0 A1 i A2 A3 i A4 A5 i k k = f A6 h i f A7 h i f A8 h i k k => complete 6
100 200 A0 A1 i A2 A3 i k = f A4 h i g A5 h i k => complete 2
100 200 A0 h A1 k o h l = A2 h f k A3 h l => complete 1
100 200 o f k A0 l = f g k A1 h l => complete 0
100 200 A0 f k = A0 o k => complete 0
100 200 A0 f k = A1 f k => complete 1
100 200 A0 f h l = o h => complete 0
100 200 f h A0 l = f h A1 l => complete 1
100 200 A1 h A0 l Aa k A2 h A0 l Aa k k A3 h A0 l Aa k k A4 h A0 l Aa k k A5 h A0 l Aa k k A6 h A0 l Aa k k = Ab h Ac k Ad l => complete 8
100 200 A1 h A0 l Aa k A2 h A0 l Aa k k A3 h A0 l Aa k k A4 h A0 l Aa k k A5 h A0 l Aa k k A6 h A0 l Aa k k A7 h A0 l Aa k k = Ab h Ac k Ad l => complete 9
100 1000 A0* = A1* => complete 1 | A0 A1 i = A0 A0 i
100 1000 f* = g* => complete 0";

// The same over sums that are not neutral: 25 solutions are listed where all may be the identity, and where all but one
// stand in columns of elements.
const SOLVED_WITH_ELEMENTS: &str =
    "4 20 A0 A1 l A2 l A3 l A4 l = A5 A6 l A7 l A8 l A9 l => complete 1
4 20 B0 B1 l B2 l A3 l A4 l = A5 B6 l B7 l B8 l A9 l => unifiers 4
4 20 B0 B1 l B2 l B3 l A4 l = B5 B6 l B7 l B8 l A9 l => unifiers 4
100 200 A0 A1 l = A2 A3 l => complete 1 | A0 A1 i A2 i A3 i = A1 A3 l A2 A4 l i A1 A2 l i A3 A4 l i
100 200 A0 A1 k A2 l = A3 A4 l => complete 2 | A0 A1 i A2 i A3 i A4 i = A1 A2 i A3 A4 l i A4 A1 A2 k l i A3 i; A0 A1 i A2 i A3 i A4 i = A1 A2 i A3 A4 l i A3 i A4 A1 A2 k l i
100 200 B0 A1 l = B2 A3 l => complete 2 | B0 A1 i B2 i A3 i = B1 A3 B2 l i B2 i A3 B1 l i; B0 A1 i B2 i A3 i = B2 A1 i B2 i A1 i
100 200 B0 B1 l = B2 B3 l => complete 2 | B0 B1 i B2 i B3 i = B2 B1 i B1 i B2 i; B0 B1 i B2 i B3 i = B1 B2 i B1 i B2 i
100 200 B0 o l = B1 A2 l => complete 2 | B0 B1 i A2 i = B1 o i B1 i; B0 B1 i A2 i = B1 B1 i o i
100 200 A0 A1 l = B2 => complete 2 | A0 A1 i B2 i = B1 g i B1 i; A0 A1 i B2 i = g B1 i B1 i
100 200 A0 A1 l = o => complete 2 | A0 A1 i = o g i; A0 A1 i = g o i
100 200 B0 A1 k = B2 A3 k => complete 3 | B0 A1 i B2 i A3 i = B1 B2 i B2 i B1 i
100 200 B0 f l = B1 A2 l => complete 1
100 200 A0 A1 l = A2; A0 A3 k = A4 => complete 1
100 200 B0 A1 k B0 A2 l i = A3 => complete 1
100 200 A0 A1 k = A2; A0 A1 l A3 A3 l i = A4 => complete 1
100 200 A0 A1 l = B2 B3 l B4 l => complete 8
100 200 A0 A1 l = B2 B3 l B4 l B5 l B6 l B7 l => complete 64";

// The same over bags: an element is one summand, so that of thirteen elements only one is it. What no element is in may
// be empty, so that four bags are four others in one way, also inside an element, and so are five, eight, and five beside
// elements, though they have 25 minimal solutions and more.
const SOLVED_OF_BAGS: &str = "100 200 A0 B1 t = g => complete 1
100 200 A0 B1 t = g h t => complete 2
100 200 A0 B1 t = g h i t t => complete 3
100 200 A0 B1 t = g h i j k l m n o p q r s t t t t t t t t t t t t => complete 13
100 200 A0 A1 B2 t t = g h i t t => complete 6
100 200 A0 A1 t = g => complete 0
100 200 A0 A1 t = B2 => complete 1
100 200 B0 B1 t = g h t => complete 4
100 200 B0 B1 t = B2 B3 t => complete 1
100 200 A0 B1 B2 t t = A3 B4 B5 t t => complete 5
100 200 A0 B1 B2 t t = B3 B4 B5 t t => complete 3
100 200 B0 B1 A2 t t = B3 B4 g h t t t => complete 12
100 200 B0 B1 t u = B2 B3 t u => complete 1
100 200 B0 B1 B0 B1 t u t t = g B2 B3 B4 t u t t => complete 8
100 200 B0 B1 t B0 B2 t v = B3 B4 t B3 B5 t v => complete 1
100 200 B0 B1 B2 B3 t t t = B4 B5 B6 B7 t t t => complete 1
100 200 B0 B1 B2 B3 t t t u = B4 B5 B6 B7 t t t u => complete 1
100 200 B0 B1 B2 B3 B4 t t t t = B5 B6 B7 B8 B9 t t t t => complete 1
100 200 B0 B1 B2 B3 B4 Bb Bc Bd t t t t t t t = B5 B6 B7 B8 B9 Be Bf Bg t t t t t t t => complete 1
100 200 A0 B1 B2 B3 B4 t t t t = B5 B6 B7 B8 B9 t t t t => complete 5
100 200 A0 B1 B2 B3 B4 t t t t = A5 B6 B7 B8 B9 t t t t => complete 17
100 200 B0 B1 B2 B3 g t t t t = B4 B5 B6 B7 h t t t t => complete 16
100 200 B0 B1 B2 B3 B4 t t t t u = B5 B6 B7 B8 B9 t t t t u => complete 1";

// The same over bags of which some are filled: where a filled one has five summands, one of them is filled, which leaves many
// ways, and such systems are not gone through.
const SOLVED_OF_FILLED: &str = "100 200 B0 B1 h = B2 B3 h => complete 2
100 200 C0 C1 C2 C3 C4 h h h h = C5 C6 C7 C8 C9 h h h h => complete 1
100 200 B0 C1 C2 C3 C4 h h h h = C5 C6 C7 C8 C9 h h h h => basis 0
100 200 B0 B1 B2 B3 B4 h h h h = B5 B6 B7 B8 B9 h h h h => basis 0";

// The same over sums with different identities, first over two: a class that both use may be the identity of either. Then
// over all three, where it may be the one that two of them have.
const SOLVED_OF_RINGS: &str = "100 200 A0 A1 h A2 i = j => complete 4
100 200 A0 A1 h A2 i = A0 => complete 2
100 200 A0 A1 h A0 i = A1 => complete 0
100 200 A0 A0 h = A1 A1 i => complete 0
100 200 A0 A1 h = A0 A2 i => complete 3
100 200 A0 A1 h A0 i = A2 A3 i => complete 5
100 200 A0 A1 h A2 i = A3 A4 i => complete 4
100 200 A0 A1 h A2 i = A0 A2 h A1 i => complete 2
100 200 A0 A1 i A2 h = A3 j h => complete 3
100 200 A0 A1 h = g; A0 A1 i = f => complete 2
100 200 A0 A0 h A1 A1 h A2 A2 h A3 i i i = A4 j i => complete 1
100 200 A0 A0 h A1 A1 h A2 A2 h A3 i i i = A4 A5 i => complete 8
100 200 A0 A1 h A2 A3 h i A0 i = A0 A2 h A1 A3 h i A1 i => complete 2
100 200 A0 A1 h = A0 A1 k => complete 2
100 200 A0 A1 h = A0 A2 k => complete 2
100 200 A0 A1 h = j; A0 A2 k = j; A0 A3 i = j => complete 1
100 200 A0 A1 h = A0 A2 k; A0 A3 i = j => complete 2
100 200 A0 A1 h A0 A2 k i = j => complete 2
100 200 A0 A1 h A2 k A0 i = j => complete 0
100 200 A0 A1 h A2 i = A0 A3 k A4 i => complete 3
100 200 A0 A1 h A0 k A2 i = A0 j i => complete 4
100 200 A0 A1 h A0 k = A2 A0 i => complete 2
100 200 A0 A1 h A2 k = A0 A2 i => complete 1";

/// What is shown of a row: of a search for most general unifiers, where its text begins with this word, else of a solver.
fn shown_of_general(
    alloc: Global,
    sig: &Signature,
    text: &str,
    known: &str,
) -> Result<String, NoMemory> {
    match text.strip_prefix("general ") {
        Some(problem) => shown_searched(alloc, sig, problem, true, known),
        None => shown_solved(alloc, sig, text, known),
    }
}

/// The same, and of a search for all unifiers, where its text begins with this word.
fn shown_row(alloc: Global, sig: &Signature, text: &str, known: &str) -> Result<String, NoMemory> {
    match text.strip_prefix("search ") {
        Some(problem) => shown_searched(alloc, sig, problem, false, known),
        None => shown_of_general(alloc, sig, text, known),
    }
}

/// Of each row is shown what it says.
pub fn assert_rows(
    rt: &impl Abort,
    alloc: Global,
    signature: &str,
    lines: &str,
) -> Result<(), NoMemory> {
    let Some(sig) = signature_of(alloc, signature)? else {
        return Err(NoMemory);
    };
    for line in lines.lines() {
        let (text, told) = line.split_once(" => ").unwrap_or((line, "no row"));
        let (want, known) = told.split_once(" | ").unwrap_or((told, ""));
        let found = shown_row(alloc, &sig, text, known)?;
        assert_eq!(rt; found.as_str(), want, "at {text}");
    }
    Ok(())
}

#[test]
fn problems_are_solved_within_limits(rt: HostRuntime) -> Result<(), NoMemory> {
    assert_rows(&rt, rt.alloc(), OPERATORS, SOLVED)?;
    assert_rows(&rt, rt.alloc(), WITH_ELEMENTS, SOLVED_WITH_ELEMENTS)?;
    assert_rows(&rt, rt.alloc(), BAGS, SOLVED_OF_BAGS)?;
    assert_rows(&rt, rt.alloc(), FILLED, SOLVED_OF_FILLED)?;
    assert_rows(&rt, rt.alloc(), RINGS, SOLVED_OF_RINGS)
}
