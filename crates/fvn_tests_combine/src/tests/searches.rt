//! Problems with how far the search for their unifiers may go.
use super::unifiers::{BAGS, OPERATORS, RINGS, WITH_ELEMENTS, assert_rows};
use fvn_terms::NoMemory;

// A problem; how many states the search for its unifiers on kinds asks, and how many choices it tries, at most.
//
// A state is asked when no further fact is found of it. A term is written with each operator after its
// arguments. Families of problems come first, each with one size after another: sums with an identity below sums
// without one, sums of these that can't be equal, bags of free terms, towers of both sums, and commutative terms below
// a sum. Then problems that one rule decides: what stands on both sides is taken out, and one class is left on each, or
// on one side alone; there are more summands than the other side can have; a summand is only one of the other side's, or
// none; a class is inside itself; a class has a summand, and is no identity. Last, sums of six and of seven terms with one
// variable that is the identity in most unifiers: all terms lose it at once. Their numbers of unifiers are Maude's.
const SEARCHED: &str = "search A0 A1 l f k = o f l f k => few | 1 4
search A0 A1 l f k A2 l f k = o f l f k f l f k => few | 1 4
search A0 A1 l f k A2 l f k A3 l f k = o f l f k f l f k f l f k => few | 1 4
search A0 o k A1 l = f f k A1 h l => few | 1 0
search A0 o k A1 l o k A2 l = f f k A1 h l f k A2 h l => few | 1 0
search A0 o k A1 l o k A2 l o k A3 l = f f k A1 h l f k A2 h l f k A3 h l => few | 1 0
search A0 A1 i A2 A3 i k = f A4 h i f A5 h i k => few | 3 2
search A0 A1 i A2 A3 i A4 A5 i k k = f A6 h i f A7 h i f A8 h i k k => few | 11 6
search A0 h A1 k o h l = A5 h A6 h k A8 h l => few | 3 2
search A0 h A1 k o h l A2 k o h l = A5 h A6 h k A8 h l A7 h k A9 h l => few | 3 2
search A1 f j h A2 f j h k A0 k = f f j h f o j h k A9 k => few | 13 12
search A1 f j h A2 f j h k A3 f j h k A0 k = f f j h f o j h k f f j h k A9 k => few | 37 35
search A0 A1 j A2 A3 j i A4 A5 j i = f o j f o j i f o j i => few | 15 8
search A0 A0 k = A1 A1 k => few | 1 1
search A0 f k = A1 f k => few | 1 1
search f h A0 l = f h A1 l => few | 1 1
search A0 f k A1 h k = A1 h f k A2 k => few | 1 1
search A0 f l A1 l = f A1 l => few | 1 1
search A0 f k A1 k = f A1 k => few | 1 0
search A0 f k = A0 o k => few | 0 0
search A0 A1 l = g => few | 1 1
search A0 A1 k A2 k = f o k => few | 1 0
search A0 h A1 h k A2 k = f h o k => few | 1 0
search A0 h A1 k = f h o k => few | 1 1
search A0 A1 i A2 h k = f g i o h k => few | 1 1
search A0 A1 i A2 h k = f g i o k => few | 1 0
search A0 f h l = o h => few | 0 0
search o f k A0 l = f g k A1 h l => few | 0 0
search A0 A1 k A2 h l = f h A3 A4 k l => few | 1 7
search A0 = A0 h A1 l => few | 1 0
search A0 = A1 f n; A1 = A0 f k => few | 1 0
search A0 = A1 o h l; A1 = A0 f m => few | 1 0
search A0 = A1 o h l; A1 = A2 f m; A2 = A0 f l => few | 1 0
search A0 A1 l A2 m = A0 A2 l A1 m => few | 19 8
search A0 A1 l A2 m A0 l = A2 A1 l A0 m A1 l => few | 13 5
search A0 A1 k h A2 l = f h h A3 l => few | 2 1
search A0 A1 k = A2 f k; A0 A3 l = A4 f l => few | 3 11
search A0 A1 l A2 m A3 l = f => few | 7 4
general A1 h A0 l Aa k A2 h A0 l Aa k k A3 h A0 l Aa k k A4 h A0 l Aa k k A5 h A0 l Aa k k A6 h A0 l Aa k k = Ab h Ac k Ad l => few | 13 8
general A1 h A0 l Aa k A2 h A0 l Aa k k A3 h A0 l Aa k k A4 h A0 l Aa k k A5 h A0 l Aa k k A6 h A0 l Aa k k A7 h A0 l Aa k k = Ab h Ac k Ad l => few | 15 9";

// The same over sums that are not neutral, with elements: an element is one summand at most. Six elements are split in
// two in 64 ways, of which each is a choice, and nothing is asked: a row with no room shows both numbers as they are.
const SEARCHED_WITH_ELEMENTS: &str = "search A0 A1 l = B2 B3 l B4 l => few | 1 8
search A0 A1 l = B2 B3 l B4 l B5 l B6 l B7 l => 1 64 | 0 0
search B0 A1 l = B2 A3 l => few | 1 2
search B0 B1 l = B2 B3 l => few | 3 2
search B0 f l = B1 A2 l => few | 3 2
search B0 f k = B1 A2 k => few | 3 2";

// The same over bags: which element is which is asked before solutions, so that of thirteen elements only one is it. A
// solution in which no element is stands in each choice: of four bags and four others, also inside an element, there is
// one choice, and of two bags and an element on each side there are five, which differ in where the elements are.
const SEARCHED_OF_BAGS: &str = "search A0 B1 t = g => few | 1 1
search A0 B1 t = g h t => few | 3 2
search A0 B1 t = g h i j k l m n o p q r s t t t t t t t t t t t t => few | 25 13
search A0 A1 B2 t t = g h i t t => few | 11 6
search A0 A1 B2 t t = A3 A4 B5 t t => few | 1 7
search A0 A1 t = g => few | 1 0
search A0 A1 t = B2 => few | 1 1
search B0 B1 t = g h t => few | 1 4
search B0 B1 t = A2 A3 t A4 t A5 t A6 t A7 t => few | 1 64
search A0 B1 B2 t t = A3 B4 B5 t t => few | 1 5
search B0 B1 B2 B3 t t t = B4 B5 B6 B7 t t t => few | 1 1
search B0 B1 B2 B3 t t t u = B4 B5 B6 B7 t t t u => few | 1 1
search B0 B1 B2 B3 B4 t t t t = B5 B6 B7 B8 B9 t t t t => few | 1 1
search A0 B1 B2 B3 B4 t t t t = A5 B6 B7 B8 B9 t t t t => few | 1 17";

// The same over two sums with different identities, where nearly every class is added by both: it is asked of none
// whether it is an identity. First families where each size has one summand more: such a class is asked only whether it
// is the constant, so that each adds two states, and nothing where there is none, so that there are as many choices as
// unifiers. Then problems where a class is a summand of its own factor, or of the other side's.
const SEARCHED_OF_RINGS: &str = "search A0 A0 h A1 i = A2 j i => few | 3 1
search A0 A0 h A1 A1 h A2 i i = A3 j i => few | 5 1
search A0 A0 h A1 A1 h A2 A2 h A3 i i i = A4 j i => few | 7 1
search A0 A0 h A1 A1 h A2 A2 h A3 A3 h A4 i i i i = A5 j i => few | 9 1
search A0 A0 h A1 i = A2 A3 i => few | 1 2
search A0 A0 h A1 A1 h A2 i i = A3 A4 i => few | 1 4
search A0 A0 h A1 A1 h A2 A2 h A3 i i i = A4 A5 i => few | 1 8
search A0 A0 h A1 A1 h A2 A2 h A3 A3 h A4 i i i i = A5 A6 i => few | 1 16
search A0 A0 h = A1 A1 i => few | 1 0
search A0 A1 h A2 i = A3 A4 i => few | 1 8
search A0 A1 h = A0 A2 i => few | 5 3
search A0 A1 h A0 i = A1 => few | 7 3
search A0 A1 h A0 i = A2 A3 i => few | 3 23
search A0 A1 h A2 i = A0 A2 h A1 i => few | 10 27
search A0 A1 h A2 A3 h i A0 i = A0 A2 h A1 A3 h i A1 i => few | 122 137
search A0 A1 i A2 h A3 i = A2 A3 i A0 h A1 i => few | 89 130
search A0 A1 A2 i h A1 A0 A3 i h i = A2 A3 i => few | 89 100";

#[test]
fn searches_stay_short(rt: HostRuntime) -> Result<(), NoMemory> {
    assert_rows(&rt, rt.alloc(), OPERATORS, SEARCHED)?;
    assert_rows(&rt, rt.alloc(), WITH_ELEMENTS, SEARCHED_WITH_ELEMENTS)?;
    assert_rows(&rt, rt.alloc(), BAGS, SEARCHED_OF_BAGS)?;
    assert_rows(&rt, rt.alloc(), RINGS, SEARCHED_OF_RINGS)
}

// Bags of a term and of a sum with an identity that adds a constant, which is so the constant or a sum, and not the term: the
// same one within another, where the constant is the last of three that are added, and bags of two such sums.
const SEARCHED_OF_HEADS: &str = "search A0 h f A1 l k = A2 h f A3 l k => few | 1 1
search A0 h f A1 l k h f A4 l k = A2 h f A3 l k h f A5 l k => few | 1 1
search A0 h A1 A2 f l l k = A3 h A4 A5 f l l k => few | 1 1
search f A1 l o A2 m k = f A3 l o A4 m k => few | 1 1";

// One sort A; constants f, g and j, a sum h with the identity f, a sum i with the identity g, a sum k with none, and free
// operators l and m.
const SUMS: &str =
    "A; f : -> A; g : -> A; h : A A -> A [assoc comm id: f]; i : A A -> A [assoc comm id: g]; j : -> A; k : A A -> A [assoc comm]; l : A -> A; m : A A -> A";

// Sums of two products below a free operator, one product with the same within it, and one variable on both sides: what is
// known to be a sum is no constant of its operator, so that nothing is asked of it.
const SEARCHED_OF_SUMS: &str =
    "general j A1 i j A0 i A2 A3 i h l A3 i h l = j A4 i j A5 i A6 A3 i h l A3 i h l => few | 15 7
100 200 j A1 i j A0 i A2 A3 i h l A3 i h l = j A4 i j A5 i A6 A3 i h l A3 i h l => complete 5";

// Towers: a sum below another one, beside a summand with a constant, and this put into itself. Those of k over h against a
// sum of two variables by i, which they lack, with two and three levels, by k, and against the like; those of i over h against
// one by h, and beside a variable against a sum with a term; those of h over i against a term. A class with members of two
// operators is one of its parts, and that is asked at once; one with a member of an operator is taken as a sum by it, so that it
// is asked of no two of them whether they are the same constant. The last two of each kind have variables that stand twice: a
// tower of all three against the like, and one of h over i. All numbers of unifiers are Maude's.
const TOWERS: &str = "general A0 A1 h j A2 h k A3 h j A4 h k = A5 A6 i => few | 3 2
general A0 A1 h j A2 h k A3 h j A4 h k A5 h j A6 h k = A7 A8 i => few | 3 2
general A0 A1 h j A2 h k A3 h j A4 h k = A5 A6 k => few | 3 48
general A0 A1 h j A2 h k A3 h j A4 h k = A5 A6 h j A7 h k A8 h j A9 h k => few | 61 97
general A0 A1 h j A2 h i A3 h j A4 h i = A5 A6 h => few | 11 2
general A0 A1 h j A2 h i A3 h j A4 h i A5 i = A6 j l i => few | 17 14
general A0 A1 i j A2 i h A3 i j A4 i h A5 i j A6 i h = A7 l => few | 1 0
general A0 A1 h A2 i A1 k A2 h A3 i A2 k = A4 A5 h A6 i A5 k A6 h A7 i A6 k => few | 497 794
general A0 A1 i A2 h A2 i A3 h = A4 A5 i A6 h A6 i A7 h => few | 240 1753
100 200 A0 A1 h j A2 h k A3 h j A4 h k = A5 A6 i => complete 2 | A0 A1 m A2 m A3 m A4 m A5 m A6 m = A0 A1 m A2 m A3 m A4 m j A4 h A3 j A2 h A0 A1 h k h k m g m; A0 A1 m A2 m A3 m A4 m A5 m A6 m = A0 A1 m A2 m A3 m A4 m g m j A4 h A3 j A2 h A0 A1 h k h k m
100 200 A0 A1 h j A2 h k A3 h j A4 h k A5 h j A6 h k = A7 A8 i => complete 2
100 200 A0 A1 h j A2 h k A3 h j A4 h k = A5 A6 k => complete 14
100 200 A0 A1 h j A2 h k A3 h j A4 h k = A5 A6 h j A7 h k A8 h j A9 h k => complete 44
100 200 A0 A1 h j A2 h i A3 h j A4 h i = A5 A6 h => complete 2
100 200 A0 A1 h j A2 h i A3 h j A4 h i A5 i = A6 j l i => complete 3 | A0 A1 m A2 m A3 m A4 m A5 m A6 m = A0 A1 m A2 m A3 m A4 m A5 j l i m A5 j A4 h i A3 j A2 h A0 A1 h i h i m; A0 A1 m A2 m A3 m A4 m A5 m A6 m = A0 j l i f m A1 m f m A2 m A3 m A3 A0 i j A2 h i j A1 h i m; A0 A1 m A2 m A3 m A4 m A5 m A6 m = f A0 j l i m A1 m f m A2 m A3 m A3 A0 i j A2 h i j A1 h i m
100 200 A0 A1 i j A2 i h A3 i j A4 i h A5 i j A6 i h = A7 l => complete 0
100 200 A0 A1 h A2 i A1 k A2 h A3 i A2 k = A4 A5 h A6 i A5 k A6 h A7 i A6 k => complete 6
100 200 A0 A1 i A2 h A2 i A3 h = A4 A5 i A6 h A6 i A7 h => complete 39";

#[test]
fn possible_heads_are_seen(rt: HostRuntime) -> Result<(), NoMemory> {
    assert_rows(&rt, rt.alloc(), OPERATORS, SEARCHED_OF_HEADS)?;
    assert_rows(&rt, rt.alloc(), SUMS, SEARCHED_OF_SUMS)?;
    assert_rows(&rt, rt.alloc(), SUMS, TOWERS)
}

// Problems that are solved as they stand, beside each other and one within another: each has one most general unifier,
// under which each variable of a sum is a new one, so that nothing is asked of what only such variables tell apart. Twelve
// levels have 37 minimal solutions, which are listed since it is known which classes the other sum heads; six pairs have
// 729 lists of tags, of which one is tried, since new variables have none. Then three levels with a summand beside them
// that the other side has too: they are put together with the variable, under one operator in another order, and under one
// of their own as a sum that stands. Then the same beside a sum that has seven unifiers, and beside sums that share
// variables, where questions are left.
const SOLVED_AS_THEY_STAND: &str = "general A0 = A1 A2 h A3 A4 h i A5 j h i => few | 1 1
general A0 = A1 A2 h A3 A4 h i A5 j h i; A6 = A7 A8 h A9 Ab h i Ac j h i => few | 1 1
general A0 = A1 A2 h A3 A4 h i A5 j h i; A6 = A7 A8 h A9 Ab h i Ac j h i; Ad = Ae Af h Ag Ah h i Ai j h i => few | 1 1
general A0 A1 h j A2 h i A3 h j A4 h i = A5 => few | 1 1
general A0 A1 h j A2 h i A3 h j A4 h i A5 h j A6 h i A7 h j A8 h i = A9 => few | 1 1
general A1 A2 h j A3 h i A4 h j A5 h i A6 h j A7 h i A8 h j A9 h i Aa h j Ab h i Ac h j Ad h i Ae h j Af h i Ag h j Ah h i Ai h j Aj h i Ak h j Al h i Am h j An h i Ao h j Ap h i = A0 => few | 1 1
general A0 = A1 A1 l h A2 i A2 j h i; A3 = A4 A4 l h A5 i A5 j h i; A6 = A7 A7 l h A8 i A8 j h i; A9 = Aa Aa l h Ab i Ab j h i; Ac = Ad Ad l h Ae i Ae j h i; Af = Ag Ag l h Ah i Ah j h i => few | 1 1
general A0 j k = A1 A2 h j A3 h i A4 h j A5 h i A6 h j A7 h i j k => few | 1 1
general A0 f i = A1 A2 h j A3 h i A4 h j A5 h i A6 h j A7 h i f i => few | 1 1
general A0 A1 k = A2 A3 k; A4 = A3 A5 h A6 A7 h i A8 j h i => few | 1 31
general A0 A1 h = A2 A3 h; A0 A4 i = A2 A5 i => few | 3 20
100 200 A0 = A1 A2 h A3 A4 h i A5 j h i => complete 1
100 200 A0 = A1 A2 h A3 A4 h i A5 j h i; A6 = A7 A8 h A9 Ab h i Ac j h i; Ad = Ae Af h Ag Ah h i Ai j h i => complete 1
100 200 A0 A1 h j A2 h i A3 h j A4 h i A5 h j A6 h i A7 h j A8 h i = A9 => complete 1
100 200 A1 A2 h j A3 h i A4 h j A5 h i A6 h j A7 h i A8 h j A9 h i Aa h j Ab h i Ac h j Ad h i Ae h j Af h i Ag h j Ah h i Ai h j Aj h i Ak h j Al h i Am h j An h i Ao h j Ap h i = A0 => complete 1
100 200 A0 = A1 A1 l h A2 i A2 j h i; A3 = A4 A4 l h A5 i A5 j h i; A6 = A7 A7 l h A8 i A8 j h i; A9 = Aa Aa l h Ab i Ab j h i; Ac = Ad Ad l h Ae i Ae j h i; Af = Ag Ag l h Ah i Ah j h i => complete 1
100 200 A0 j k = A1 A2 h j A3 h i A4 h j A5 h i A6 h j A7 h i j k => complete 1
100 200 A0 f i = A1 A2 h j A3 h i A4 h j A5 h i A6 h j A7 h i f i => complete 1
100 200 A0 A1 k = A2 A3 k; A4 = A3 A5 h A6 A7 h i A8 j h i => complete 7
100 200 A0 A1 h = A2 A3 h; A0 A4 i = A2 A5 i => complete 3";

// Two sums in turn, of which one has an identity, against this one of a variable beside the constant and another variable: the
// sum below the topmost is one of its summands, and so is one of the other side's variable, which takes it as it is. So nothing is
// asked of what makes it. Eight and twelve levels. All numbers of unifiers are Maude's.
const SUMS_IN_TURN: &str =
    "general A0 j k A1 h A2 h A3 k j k A4 h A5 h A6 k j k A7 h A8 h A9 k j k Aa h Ab h Ac k = Ad j k Ae h => few | 3 3
general A0 j k A1 h A2 h A3 k j k A4 h A5 h A6 k j k A7 h A8 h A9 k j k Aa h Ab h Ac k j k Ad h Ae h Af k j k Ag h Ah h Ai k = Aj j k Ak h => few | 3 3
100 200 A0 j k A1 h A2 h A3 k j k A4 h A5 h A6 k j k A7 h A8 h A9 k j k Aa h Ab h Ac k = Ad j k Ae h => complete 3
100 200 A0 j k A1 h A2 h A3 k j k A4 h A5 h A6 k j k A7 h A8 h A9 k j k Aa h Ab h Ac k j k Ad h Ae h Af k j k Ag h Ah h Ai k = Aj j k Ak h => complete 3";

// An element is no sum of two: there a variable may not be a new one, and both are found.
const SOLVED_OF_ELEMENTS: &str = "general B0 B1 t = A2 => few | 1 2
100 200 B0 B1 t = A2 => complete 2";

#[test]
fn what_is_solved_as_it_stands_stays_short(rt: HostRuntime) -> Result<(), NoMemory> {
    assert_rows(&rt, rt.alloc(), SUMS, SOLVED_AS_THEY_STAND)?;
    assert_rows(&rt, rt.alloc(), SUMS, SUMS_IN_TURN)?;
    assert_rows(&rt, rt.alloc(), BAGS, SOLVED_OF_ELEMENTS)
}

// Elements B below A, of which f to q are constants; a sum r with no identity, a sum s with the identity t, and free operators
// u and v.
const CONSTANTS: &str =
    "A B; B < A; f : -> B; g : -> B; h : -> B; i : -> B; j : -> B; k : -> B; l : -> B; m : -> B; n : -> B; o : -> B; p : -> B; q : -> B; r : A A -> A [assoc comm]; s : A A -> A [assoc comm id: t]; t : -> A; u : A -> A; v : A A -> A";

// A variable beside constants against another one beside others, with no identity and with one: there are many minimal
// solutions of two constants, which are never taken. An element beside a variable against twelve elements, and against these
// beside a variable; a variable that stands twice beside constants against one that stands three times; constants of which the
// other side has half; and terms of two operators in place of constants. Fifteen constants and terms beside a variable that
// stands twice, or three times: each is taken in one way, and other solutions have it more often. Then twelve terms of two
// operators, or constants, against twelve terms of another one: 169 minimal solutions, of which the 25 are listed that have no
// two different ones. All numbers of unifiers are Maude's.
const SEARCHED_OF_CONSTANTS: &str =
    "general A0 f r g r h r i r j r k r = A1 l r m r n r o r => few | 1 2
general A0 f s g s h s i s j s k s = A1 l s m s n s o s => few | 1 1
general A0 B1 r = f g r h r i r j r k r l r m r n r o r p r q r => few | 23 12
general A0 B1 r = A2 f r g r h r i r j r k r l r m r n r o r p r q r => few | 1 14
general A0 A0 r f r g r h r i r j r = A1 A1 r A1 r => few | 1 2
general A0 f r g r h r i r j r k r l r m r n r o r p r q r = A1 f r g r h r i r j r k r => few | 1 1
general A0 f u r g u r h u r i u r j u r = A9 A1 f v r A2 f v r A3 f v r A4 f v r A5 f v r => few | 1 2
general A0 A0 r = A1 A1 r A1 r f r g r h r i r j r k r l r m r n r o r p r q r t r f u r f g v r => few | 1 2
general A0 A0 r f r g r h r i r j r k r l r m r n r o r p r q r t r f u r f g v r = A1 A1 r A1 r => few | 1 2
general A0 f u r g u r h u r i u r j u r k u r l u r m u r n u r o u r p u r q u r = Ad A1 f v r A2 f v r A3 f v r A4 f v r A5 f v r A6 f v r A7 f v r A8 f v r A9 f v r Aa f v r Ab f v r Ac f v r => few | 1 2
general A0 f u r g u r h u r i u r j u r k u r l r m r n r o r p r q r = Ad A1 f v r A2 f v r A3 f v r A4 f v r A5 f v r A6 f v r A7 f v r A8 f v r A9 f v r Aa f v r Ab f v r Ac f v r => few | 1 2
general A0 f r g r h r i r j r k r l r m r n r o r p r q r = Ad f u r g u r h u r i u r j u r k u r l u r m u r n u r o u r p u r q u r => few | 1 2
general A0 f s g s h s i s j s k s l s m s n s o s p s q s = Ad f u s g u s h u s i u s j u s k u s l u s m u s n u s o u s p u s q u s => few | 1 1
100 200 A0 f r g r h r i r j r k r = A1 l r m r n r o r => complete 2 | A0 A1 v = l m r n r o r A2 r f g r h r i r j r k r A2 r v; A0 A1 v = l m r n r o r f g r h r i r j r k r v
100 200 A0 f s g s h s i s j s k s = A1 l s m s n s o s => complete 1 | A0 A1 v = l m s n s o s A2 s f g s h s i s j s k s A2 s v
100 200 A0 B1 r = f g r h r i r j r k r l r m r n r o r p r q r => complete 12
100 200 A0 B1 r = A2 f r g r h r i r j r k r l r m r n r o r p r q r => complete 14
100 200 A0 A0 r f r g r h r i r j r = A1 A1 r A1 r => complete 2 | A0 A1 v = f g r h r i r j r A2 r A2 r A2 r f g r h r i r j r A2 r A2 r v; A0 A1 v = f g r h r i r j r f g r h r i r j r v
100 200 A0 f r g r h r i r j r k r l r m r n r o r p r q r = A1 f r g r h r i r j r k r => complete 1 | A0 A1 v = A0 A0 l r m r n r o r p r q r v
100 200 A0 f u r g u r h u r i u r j u r = A9 A1 f v r A2 f v r A3 f v r A4 f v r A5 f v r => complete 2
100 200 A0 A0 r = A1 A1 r A1 r f r g r h r i r j r k r l r m r n r o r p r q r t r f u r f g v r => complete 2 | A0 A1 v = f g r h r i r j r k r l r m r n r o r p r q r t r f u r f g v r f g r h r i r j r k r l r m r n r o r p r q r t r f u r f g v r r A2 r A2 r A2 r f g r h r i r j r k r l r m r n r o r p r q r t r f u r f g v r A2 r A2 r v; A0 A1 v = f g r h r i r j r k r l r m r n r o r p r q r t r f u r f g v r f g r h r i r j r k r l r m r n r o r p r q r t r f u r f g v r r f g r h r i r j r k r l r m r n r o r p r q r t r f u r f g v r v
100 200 A0 A0 r f r g r h r i r j r k r l r m r n r o r p r q r t r f u r f g v r = A1 A1 r A1 r => complete 2 | A0 A1 v = f g r h r i r j r k r l r m r n r o r p r q r t r f u r f g v r A2 r A2 r A2 r f g r h r i r j r k r l r m r n r o r p r q r t r f u r f g v r A2 r A2 r v; A0 A1 v = f g r h r i r j r k r l r m r n r o r p r q r t r f u r f g v r f g r h r i r j r k r l r m r n r o r p r q r t r f u r f g v r v
100 200 A0 f u r g u r h u r i u r j u r k u r l u r m u r n u r o u r p u r q u r = Ad A1 f v r A2 f v r A3 f v r A4 f v r A5 f v r A6 f v r A7 f v r A8 f v r A9 f v r Aa f v r Ab f v r Ac f v r => complete 2 | A0 Ad v = A1 f v A2 f v r A3 f v r A4 f v r A5 f v r A6 f v r A7 f v r A8 f v r A9 f v r Aa f v r Ab f v r Ac f v r Ae r f u g u r h u r i u r j u r k u r l u r m u r n u r o u r p u r q u r Ae r v; A0 Ad v = A1 f v A2 f v r A3 f v r A4 f v r A5 f v r A6 f v r A7 f v r A8 f v r A9 f v r Aa f v r Ab f v r Ac f v r f u g u r h u r i u r j u r k u r l u r m u r n u r o u r p u r q u r v
100 200 A0 f u r g u r h u r i u r j u r k u r l r m r n r o r p r q r = Ad A1 f v r A2 f v r A3 f v r A4 f v r A5 f v r A6 f v r A7 f v r A8 f v r A9 f v r Aa f v r Ab f v r Ac f v r => complete 2 | A0 Ad v = A1 f v A2 f v r A3 f v r A4 f v r A5 f v r A6 f v r A7 f v r A8 f v r A9 f v r Aa f v r Ab f v r Ac f v r Ae r f u g u r h u r i u r j u r k u r l r m r n r o r p r q r Ae r v; A0 Ad v = A1 f v A2 f v r A3 f v r A4 f v r A5 f v r A6 f v r A7 f v r A8 f v r A9 f v r Aa f v r Ab f v r Ac f v r f u g u r h u r i u r j u r k u r l r m r n r o r p r q r v
100 200 A0 f r g r h r i r j r k r l r m r n r o r p r q r = Ad f u r g u r h u r i u r j u r k u r l u r m u r n u r o u r p u r q u r => complete 2 | A0 Ad v = f u g u r h u r i u r j u r k u r l u r m u r n u r o u r p u r q u r Ae r f g r h r i r j r k r l r m r n r o r p r q r Ae r v; A0 Ad v = f u g u r h u r i u r j u r k u r l u r m u r n u r o u r p u r q u r f g r h r i r j r k r l r m r n r o r p r q r v
100 200 A0 f s g s h s i s j s k s l s m s n s o s p s q s = Ad f u s g u s h u s i u s j u s k u s l u s m u s n u s o u s p u s q u s => complete 1 | A0 Ad v = f u g u s h u s i u s j u s k u s l u s m u s n u s o u s p u s q u s Ae s f g s h s i s j s k s l s m s n s o s p s q s Ae s v";

// The same of a variable and a constant against 65 commutative pairs, each beside another constant: 196 minimal solutions, 130 of
// which have the constant and a pair, or the other constant. None of the 66 others has the constant, so that there is no choice.
const SEARCHED_OF_PAIRS: &str =
    "general Az o l = A0 A2 j f l A0 A3 j l f l A0 A4 j l f l A0 A5 j l f l A0 A6 j l f l A0 A7 j l f l A0 A8 j l f l A0 A9 j l f l A0 Aa j l f l A0 Ab j l f l A0 Ac j l f l A0 Ad j l f l A0 Ae j l f l A0 Af j l f l A0 Ag j l f l A0 Ah j l f l A0 Ai j l f l A0 Aj j l f l A0 Ak j l f l A0 Al j l f l A0 Am j l f l A0 An j l f l A0 Ao j l f l A0 Ap j l f l A0 Aq j l f l A0 Ar j l f l A0 As j l f l A0 At j l f l A0 Au j l f l A0 Av j l f l A0 Aw j l f l A0 Ax j l f l A0 Ay j l f l A1 A2 j l f l A1 A3 j l f l A1 A4 j l f l A1 A5 j l f l A1 A6 j l f l A1 A7 j l f l A1 A8 j l f l A1 A9 j l f l A1 Aa j l f l A1 Ab j l f l A1 Ac j l f l A1 Ad j l f l A1 Ae j l f l A1 Af j l f l A1 Ag j l f l A1 Ah j l f l A1 Ai j l f l A1 Aj j l f l A1 Ak j l f l A1 Al j l f l A1 Am j l f l A1 An j l f l A1 Ao j l f l A1 Ap j l f l A1 Aq j l f l A1 Ar j l f l A1 As j l f l A1 At j l f l A1 Au j l f l A1 Av j l f l A1 Aw j l f l A1 Ax j l f l => few | 1 0
100 1000 Az o l = A0 A2 j f l A0 A3 j l f l A0 A4 j l f l A0 A5 j l f l A0 A6 j l f l A0 A7 j l f l A0 A8 j l f l A0 A9 j l f l A0 Aa j l f l A0 Ab j l f l A0 Ac j l f l A0 Ad j l f l A0 Ae j l f l A0 Af j l f l A0 Ag j l f l A0 Ah j l f l A0 Ai j l f l A0 Aj j l f l A0 Ak j l f l A0 Al j l f l A0 Am j l f l A0 An j l f l A0 Ao j l f l A0 Ap j l f l A0 Aq j l f l A0 Ar j l f l A0 As j l f l A0 At j l f l A0 Au j l f l A0 Av j l f l A0 Aw j l f l A0 Ax j l f l A0 Ay j l f l A1 A2 j l f l A1 A3 j l f l A1 A4 j l f l A1 A5 j l f l A1 A6 j l f l A1 A7 j l f l A1 A8 j l f l A1 A9 j l f l A1 Aa j l f l A1 Ab j l f l A1 Ac j l f l A1 Ad j l f l A1 Ae j l f l A1 Af j l f l A1 Ag j l f l A1 Ah j l f l A1 Ai j l f l A1 Aj j l f l A1 Ak j l f l A1 Al j l f l A1 Am j l f l A1 An j l f l A1 Ao j l f l A1 Ap j l f l A1 Aq j l f l A1 Ar j l f l A1 As j l f l A1 At j l f l A1 Au j l f l A1 Av j l f l A1 Aw j l f l A1 Ax j l f l => complete 0";

#[test]
fn different_constants_are_no_choice(rt: HostRuntime) -> Result<(), NoMemory> {
    assert_rows(&rt, rt.alloc(), CONSTANTS, SEARCHED_OF_CONSTANTS)?;
    assert_rows(&rt, rt.alloc(), OPERATORS, SEARCHED_OF_PAIRS)
}

// A variable twice beside terms of one operator, against another one twice beside as many terms of another operator: a minimal
// solution that has the first term has it twice, or another term besides. As soon as it is told that this term is none of the
// others no more is asked, and there is no unifier: with six terms and with eight. Then four terms beside a variable that stands
// four times, against the like. The number of unifiers is Maude's.
const SEARCHED_OF_TERMS: &str =
    "general A0 A0 r f u r g u r h u r i u r j u r k u r = A1 A1 r A2 f v r A3 f v r A4 f v r A5 f v r A6 f v r A7 f v r => few | 12 0
general A0 A0 r f u r g u r h u r i u r j u r k u r l u r m u r = A1 A1 r A2 f v r A3 f v r A4 f v r A5 f v r A6 f v r A7 f v r A8 f v r A9 f v r => few | 23 0
general A1 u A0 r A2 u r A0 r A3 u r A0 r A4 u r A0 r = A6 u A5 r A7 u r A5 r A8 u r A5 r A9 u r A5 r => few | 165 26
100 200 A0 A0 r f u r g u r h u r i u r j u r k u r = A1 A1 r A2 f v r A3 f v r A4 f v r A5 f v r A6 f v r A7 f v r => complete 0
100 200 A1 u A0 r A2 u r A0 r A3 u r A0 r A4 u r A0 r = A6 u A5 r A7 u r A5 r A8 u r A5 r A9 u r A5 r => complete 26";

#[test]
fn classes_without_a_summand_are_passed_over(rt: HostRuntime) -> Result<(), NoMemory> {
    assert_rows(&rt, rt.alloc(), CONSTANTS, SEARCHED_OF_TERMS)
}
