//! Modules with what they declare, and their first faults.
use super::rows::{Asked, assert_rows};
use fvn_terms::NoMemory;

// Each line has the statements of a module, and the numbers of its sorts, kinds, operators and equations.
const MODULES: &str = "sort S . ops a b : -> S . op p : S S -> S . vars X Y : S . => 1 1 3 0
sort S . ops a b : -> S . op g : S -> S . op c : S S -> S [comm] . op _+_ : S S -> S [assoc comm] . vars X Y Z U V : S . => 1 1 5 0
sorts Elt Set . subsort Elt < Set . ops a b : -> Elt . op mt : -> Set . op _;_ : Set Set -> Set [assoc comm id: mt] . vars X Y : Set . => 2 1 4 0
sorts Nat NatSet . subsort Nat < NatSet . op 0 : -> Nat [ctor] . op s : Nat -> Nat [ctor] . op mt : -> NatSet [ctor] . op _*_ : NatSet NatSet -> NatSet [ctor assoc comm] . vars X Y Z : [NatSet] . eq [idem] : _*_(X,X) = mt [variant] . eq [idem-Coh] : _*_(X,X,Z) = Z [variant] . eq [id] : _*_(X,mt) = X [variant] . => 2 1 4 3
sort S . ops a b c d e : -> S . op h : S S -> S [assoc comm id: e] . op f : S S -> S [assoc comm] . var X : S . eq h(X,f(a,b)) = c [variant] . => 1 1 7 1
sorts Msg Key . op a : -> Msg . op k : -> Key . ops enc dec : Msg Key -> Msg . vars X M : Msg . vars Y K : Key . eq dec(enc(M,K),K) = M [variant] . => 2 2 4 1
sort Nat . op 0 : -> Nat . op s : Nat -> Nat . op + : Nat Nat -> Nat . vars X Y : Nat . eq +(0,Y) = Y [variant] . eq +(s(X),Y) = s(+(X,Y)) [variant] . => 1 1 3 2
sorts A B . subsort A < B . op f : B -> A . op g : B -> B . var X : B . eq f(X) = g(X) [variant] . => 2 1 2 1
sorts Even Odd Nat . subsorts Even Odd < Nat . op + : Nat Nat -> Nat . op + : Even Even -> Even . op + : Odd Odd -> Even . op + : Even Odd -> Odd . op + : Odd Even -> Odd . => 3 1 1 0
sort Bag . ops a b none : -> Bag . op _,_ : Bag Bag -> Bag [assoc comm id: none prec 121] . var X : Bag . => 1 1 4 0
sort A . op a:B : -> A . => 1 1 1 0
sort A . var X : A . vars X Y : A . => 1 1 0 0
sorts A B . subsort A < B . var X : [A] . var X : [B,A] . => 2 1 0 0
sort A . op f : A A -> A [comm] . op f : A A -> A [ditto] . => 1 1 1 0
sort A . op f : A A -> A [assoc comm id: e] . op e : -> A . => 1 1 2 0
sort A . op f : A ~> A . => 1 1 1 0
sort A . sort A B . subsort A < B . op a : -> A . op a : -> A . => 2 1 1 0
sort A . op a : -> A . eq [l] : a = a [variant label x] . => 1 1 1 1
sort A . op a : -> A . eq (a) = ((a)) [label x label x variant variant] . => 1 1 1 1
sort A . op _+_ : A A -> A [assoc comm] . eq _+_(X:A,X:A,X:A) = X:A [variant] . => 1 1 1 1
sort A . op f : A -> A . var f : A . eq f(f) = f [variant] . => 1 1 1 1
sort A . op g : A -> A . eq g(#1:A) = #1:A [variant] . => 1 1 1 1
sort A . op g : A -> A . eq g(X:[A]) = X:[A,A] [variant] . => 1 1 1 1
op f : A -> A . eq f(X:A) = X:A [variant] . sort A . => 1 1 1 1";

// Each line has the statements of a module that is refused, and its first fault.
const FAULTS: &str = "sort A . subsort A < B . => UnknownName(2)
sorts A B . subsorts A < B < A . => SortCycle(SortId(0))
sorts A B . op a : -> A . op a : -> B . => KindsDiffer(OpId(0))
sort A . op f : A -> A [comm] . => AxiomShape(OpId(0))
sort A . op f : A A -> A [comm] . op f : A A -> A . => AxiomsDiffer(OpId(0))
sort A . op g : A -> A . op f : A A -> A [assoc comm id: g] . => IdentityBad(OpId(1))
sorts A B C . subsorts A < B . subsorts A < C . op f : B -> B . op f : C -> C . => NotPreregular(OpId(0), Seq { items: [SortId(0)] })
sorts A B C . subsorts A B < C . op f : C C -> C [assoc comm] . op f : A A -> B [ditto] . op f : B B -> A [ditto] . => NotAssocSorts(OpId(0), SortId(0), SortId(0), SortId(1))
sorts A B . subsort A < B . op e : -> B . op f : B B -> A [assoc comm id: e] . => NotCollapsing(OpId(1), SortId(1))
sort A . op f : A A A A A A A A A -> A . => TooMany
sort A . op a : -> A . eq a = X:A [variant] . => ExtraVariable(1)
sort A . op a : -> A . eq a = a . => LeftOut(3, Equation)
protecting NAT . sort S . => LeftOut(1, Import)
sort A . op f : B -> A . protecting X . => LeftOut(3, Import)
sort A . op f : B -> A . sort . => Statement(3)
sort A . eq q = q [variant] . subsort A < B . => UnknownName(3)
sorts A B . subsort A < B < A . eq q = q [variant] . => SortCycle(SortId(0))
sort A . eq q = q [variant] . => UnknownName(2)
sort A . op f : A -> A . eq f(X:A,X:A) = X:A [variant] . => Arity(3)
sort A . op f : A -> A . eq f = X:A [variant] . => UnknownName(3)
sort A . op a : -> A . eq a(a) = a [variant] . => Arity(3)
sort A . op _+_ : A A -> A [assoc comm] . eq _+_(X:A) = X:A [variant] . => Arity(3)
sort A . op _+_ : A A -> A [comm] . eq _+_(X:A,X:A,X:A) = X:A [variant] . => Arity(3)
sorts A B . op f : A -> A . op b : -> B . eq f(b) = b [variant] . => WrongKind(4)
sorts A B . op a : -> A . op b : -> B . eq a = b [variant] . => WrongKind(4)
sorts A B . op f : A -> A . op b : -> B . eq f(b,q) = b [variant] . => UnknownName(4)
sorts A B . op f : A -> A . op b : -> B . eq f(b,b) = q [variant] . => Arity(4)
sorts A B . op a : -> A . eq a = q [variant] . => UnknownName(3)
sorts A B . op a : -> A . eq a = X:B [variant] . => WrongKind(3)
sort A . op a : -> A . eq a = a [variant] . eq a = X:A [variant] . eq q = q [variant] . => ExtraVariable(2)
sort A . op a : -> A . eq a = X:A [variant] . sort B . eq a = b [variant] . => ExtraVariable(1)
sort A . op a: : -> A . => Twice(2)
sort A . op a:A : -> A . => Twice(2)
op a:A : -> A . sort A . => Twice(1)
sort A . var a : A . op a : -> A . => Twice(3)
sort A . op a : -> A . var a : A . => Twice(3)
sort A . vars b a : A . ops c a : -> A . subsort A < B . => Twice(3)
sorts A B . var X : A . var X : B . => Twice(3)
sorts A B . var X : [A] . var X : A . => Twice(3)
sorts A B . var X : A . var X : C . => UnknownName(3)
sorts A B . var X : [A,B] . => UnknownName(2)
sort A . var X : [B] . => UnknownName(2)
sort A . var X : [A,B] . => UnknownName(2)
sorts A B . op f : [A,B] -> A . => UnknownName(2)
sorts A B . op f : A -> [B,A] . => UnknownName(2)
sorts A B . op a : -> A . eq a = X:[A,B] [variant] . => UnknownName(3)
sort A . op f : A A -> A [ditto] . => UnknownName(2)
sort A . op f : A A -> A [ditto] . op f : A A -> A [comm] . => UnknownName(2)
sort A . op f : A A -> A [assoc comm id: e] . => UnknownName(2)
sort A . subsort A < B . var a : C . => UnknownName(2)
sort A . . => Statement(2)
sort A => Statement(1)
sort A . foo bar . => Statement(2)
sort A:B . => Statement(1)
sort A . subsort A . => Statement(2)
sort A . subsort A < < A . => Statement(2)
sort A . op f A -> A . => LeftOut(2, Name)
sort A . op : -> A . => Statement(2)
sort A . var X Y A . => Statement(2)
sort A . op a : -> A . eq a a . => LeftOut(3, Equation)
sort A . op a : -> A . eq a a [variant] . => Statement(3)
sort A . op a : -> A . eq a = [variant] . => Statement(3)
sort A . mb a : A . => LeftOut(2, Membership)
sort A . cmb a : A if a = a . => LeftOut(2, Membership)
sort A . ceq a = a if a = a . => LeftOut(2, Condition)
sort A . cq a = a if a = a . => LeftOut(2, Condition)
sort A . rl a => a . => LeftOut(2, Rule)
sort A . crl a => a if a = a . => LeftOut(2, Rule)
sort A . op f g : A -> A . => LeftOut(2, Name)
sort A . op f : A A -> A [assoc] . => LeftOut(2, Assoc)
sort A . op e : -> A . op f : A A -> A [comm id: e] . => LeftOut(3, Identity)
sort A . op e : -> A . op f : A A -> A [assoc comm left id: e] . => LeftOut(3, Identity)
sort A . op f : A A -> A [assoc comm id: s 0] . => LeftOut(2, Identity)
sort A . op f : A A -> A [assoc comm id: s memo] . => LeftOut(2, Attribute)
sort A . op f : A A -> A [comm memo] . => LeftOut(2, Attribute)
sort A . op a : -> A . eq a = a [variant owise] . => LeftOut(3, Attribute)";

// Each line has the statements of a module, and the numbers of what it declares, or the first fault of its signature.
//
// Sorts are A, B, C and on, and operators f, g, h and on.
const SIGNATURES: &str = "sorts A B . subsort A < B . subsort B < A . => SortCycle(SortId(0))
sorts A B . subsort B < B . => SortCycle(SortId(1))
sorts A B C . subsort A < B . subsort B < C . subsort C < B . => SortCycle(SortId(1))
sorts A B . op f : -> A . op f : -> B . => KindsDiffer(OpId(0))
sort A . op f : A -> A . op f : -> A . => KindsDiffer(OpId(0))
sorts A B C . subsort B < A . subsort B < C . op f : A -> A . op f : C -> A . => 3 1 1 0
sorts A B . subsort A < B . op f : A ~> A . op f : [B] -> B . => 2 1 1 0
sort A . op f : A -> A [comm] . => AxiomShape(OpId(0))
sort A . op f : A A A -> A [assoc comm] . => AxiomShape(OpId(0))
sorts A B . op f : A B -> A [comm] . => AxiomShape(OpId(0))
sorts A B . op f : A A -> B [assoc comm] . => AxiomShape(OpId(0))
sorts A B . op f : A A -> B [comm] . => 2 2 1 0
sort A . op f : A A -> A [comm] . op f : A A -> A . => AxiomsDiffer(OpId(0))
sort A . op f : -> A . op g : -> A . op h : A A -> A [assoc comm id: f] . op h : A A -> A [assoc comm id: g] . => AxiomsDiffer(OpId(2))
sort A . op f : A -> A . op g : A A -> A [assoc comm id: f] . => IdentityBad(OpId(1))
sorts A B . op f : -> B . op g : A A -> A [assoc comm id: f] . => IdentityBad(OpId(1))
sorts A B C . subsort A < B . subsort A < C . op f : B -> B . op f : C -> C . => NotPreregular(OpId(0), Seq { items: [SortId(0)] })
sorts A B C . subsort A < C . subsort B < C . op f : -> A . op f : -> B . => NotPreregular(OpId(0), Seq { items: [] })
sorts A B C . subsort C < A . subsort C < B . op f : A A -> A . op f : A B -> B . => NotPreregular(OpId(0), Seq { items: [SortId(0), SortId(2)] })
sorts A B C . subsort C < A . subsort C < B . op f : C A A -> A . op f : A A B -> B . => NotPreregular(OpId(0), Seq { items: [SortId(2), SortId(0), SortId(2)] })
sorts A B C . subsort A < C . subsort B < C . op f : C C -> C [assoc comm] . op f : A A -> B [assoc comm] . op f : B B -> A [assoc comm] . => NotAssocSorts(OpId(0), SortId(0), SortId(0), SortId(1))
sorts A B C . subsort A < C . subsort B < C . op f : C C -> C [assoc comm] . op f : A A -> A [assoc comm] . op f : B B -> A [assoc comm] . => NotAssocSorts(OpId(0), SortId(0), SortId(1), SortId(1))
sorts A B C D . subsort C < A . subsort C < B . subsort D < A . subsort D < B . op f : A A -> A . op f : B B -> B . => NotPreregular(OpId(0), Seq { items: [SortId(2), SortId(2)] })
sorts A B C D . subsort C < A . subsort C < B . subsort D < A . subsort D < B . op f : A A -> A . op f : B B -> B . op f : C C -> C . op f : D D -> D . => NotPreregular(OpId(0), Seq { items: [SortId(2), SortId(3)] })
sorts A B C D . subsort C < A . subsort C < B . subsort D < A . subsort D < B . op f : A A -> A . op f : B B -> B . op f : C C -> C . op f : C D -> C . op f : D D -> D . => NotPreregular(OpId(0), Seq { items: [SortId(3), SortId(2)] })
sorts A B C D . subsort C < A . subsort C < B . subsort D < A . subsort D < B . op f : A A -> A . op f : B B -> B . op f : C C -> C . op f : C D -> C . op f : D C -> D . op f : D D -> D . => 4 1 1 0
sorts A B C D . subsort C < A . subsort C < B . subsort D < A . subsort D < B . op f : A A -> A . op f : B B -> B . op f : C A -> C . op f : D A -> D . => 4 1 1 0
sorts A B C D . subsort C < A . subsort C < B . subsort D < A . subsort D < B . op f : A A -> A . op f : B B -> B . op f : A C -> C . => NotPreregular(OpId(0), Seq { items: [SortId(2), SortId(3)] })
sorts A B C D . subsort A < D . subsort B < D . subsort C < A . subsort C < B . op f : [A] -> A . op f : [A] -> B . op f : D -> C . => NotPreregular(OpId(0), Seq { items: [SortId(4)] })
sorts A B . subsort A < B . op f : [A] [A] -> B [assoc comm] . op f : B B -> A [assoc comm] . => NotAssocSorts(OpId(0), SortId(0), SortId(0), SortId(2))
sort A . op f : -> A . op g : [A] [A] -> A [assoc comm id: f] . => NotCollapsing(OpId(1), SortId(1))
sorts A B C . subsort A < C . subsort B < C . op f : -> A . op g : C C -> B [assoc comm id: f] . => NotCollapsing(OpId(1), SortId(0))
sorts A B . subsort A < B . op f : -> B . op g : B B -> A [assoc comm id: f] . => NotCollapsing(OpId(1), SortId(1))
sorts A B . subsort A < B . op f : -> A . op g : B B -> B [assoc comm id: f] . op g : A B -> A [assoc comm id: f] . => NotCollapsing(OpId(1), SortId(1))
sort A . op f : A A A A A A A A -> A . => 1 1 1 0
sort A . op f : A A A A A A A A A -> A . => TooMany
sort A . subsort A < A . op f : A A A A A A A A A -> A . => TooMany
sorts A B . subsort A < A . op f : -> A . op f : -> B . => SortCycle(SortId(0))
sorts A B . op f : A -> A [comm] . op g : -> A . op g : -> B . op h : -> A . op h : -> B . => KindsDiffer(OpId(1))
sort A . op f : A A -> A [comm] . op f : A A -> A . op g : A -> A [comm] . => AxiomShape(OpId(1))
sort A . op f : A -> A . op g : A A -> A [assoc comm id: f] . op h : A A -> A . op h : A A -> A [comm] . => AxiomsDiffer(OpId(2))
sorts A B C . subsort A < B . subsort A < C . op f : B -> B . op f : C -> C . op g : A A -> A [assoc comm id: f] . => IdentityBad(OpId(1))
sorts A B C . subsort A < C . subsort B < C . op f : C C -> C [assoc comm] . op f : A A -> B [assoc comm] . op f : B B -> A [assoc comm] . op g : -> A . op g : -> B . => NotPreregular(OpId(1), Seq { items: [] })
sorts A B C . subsort A < C . subsort B < C . op f : -> C . op g : C C -> A [assoc comm id: f] . op h : C C -> C [assoc comm] . op h : A A -> B [assoc comm] . op h : B B -> A [assoc comm] . => NotAssocSorts(OpId(2), SortId(0), SortId(0), SortId(1))";

// Each line has the statements of a module at a limit, and the numbers of what it declares, or the first fault.
const LARGE: &str = "sorts |64 S% |. => 64 64 0 0
sorts |65 S% |. => TooMany
sorts |70000 S% |. => TooMany
sorts |64 S% |. subsort S0 < T . => UnknownName(2)
sorts |65 S% |. subsort S0 < T . => UnknownName(2)
sorts |70000 S% |. subsort S0 < T . => UnknownName(2)
sort S . ops |256 a% |: -> S . => 1 1 256 0
sort S . ops |257 a% |: -> S . => TooMany
sort S . op f : |8 S |-> S . => 1 1 1 0
sort S . op f : |9 S |-> S . => TooMany
sort S . op a : -> S . op g : S -> S . |256 eq g(a) = a [variant] . | => 1 1 2 256
sort S . op a : -> S . op g : S -> S . |257 eq g(a) = a [variant] . | => TooMany(Statement(260))
sort S . op a : -> S . op g : S -> S . |300 eq g(a) = a [variant] . | => TooMany(Statement(260))
sort S . op a : -> S . op g : S -> S . eq |399 g(|a|399 )| = a [variant] . => 1 1 2 1
sort S . op a : -> S . op g : S -> S . eq |400 g(|a|400 )| = a [variant] . => TooMany(Equation(1))
sort S . op a : -> S . op g : S -> S . eq |100000 g(|a|100000 )| = a [variant] . => TooMany(Equation(1))
sort S . op a : -> S . op g : S -> S . eq a = |399 g(|a|399 )| [variant] . => 1 1 2 1
sort S . op a : -> S . op g : S -> S . eq a = |400 g(|a|400 )| [variant] . => TooMany(Equation(1))
sort S . op a : -> S . op g : S -> S . eq a = |100000 g(|a|100000 )| [variant] . => TooMany(Equation(1))
sort S . op a : -> S . op g : S -> S . eq |399 g(|a|399 )| = q [variant] . => UnknownName(4)
sort S . op a : -> S . op g : S -> S . eq |400 g(|a|400 )| = q [variant] . => UnknownName(4)
sort S . op a : -> S . op g : S -> S . eq |100000 g(|a|100000 )| = q [variant] . => UnknownName(4)
sort S . op a : -> S . op g : S -> S . eq |100000 (|g(a)|100000 )| = a [variant] . => 1 1 2 1
sorts |64 S% |. ops |256 a% |: |8 S0 |-> S0 . => 64 64 256 0
sorts A B |30 S% |C . subsorts B < |30 S% |< C . |30 op f : A -> S% . |op f : A -> B . => 33 2 1 0
sorts A |30 S% |C . subsorts |30 S% |< C . |30 op f : A -> S% . | => NotPreregular(OpId(0), Seq { items: [SortId(0)] })";

// Each line has a whole text, and the numbers of what it declares, or the first fault.
const TEXTS: &str = "fmod M is => Header
endfm => Header
fmod M is sort A . => Header
fmod M is sort A . endfm x => Header
fmod M is sort A . endfm endfm => Header
fmod M is op endfm : -> A . endfm => Header
fmod is sort A . endfm => Header
mod M is sort A . endfm => Header
fmod M is é => Lex(BadByte(10))
fmod M is sort ***( x ) endfm => Lex(BlockComment(15))
fmod M is é ***( x ) => Lex(BadByte(10))
fmod M is sort A . ( endfm => Statement(2)
 => Header
fmod M is endfm --- ***( no fault => 0 0 0 0";

// Each module comes with its sorts, each with the sorts above it and its kind, which is a star and its number; with its
// operators, each with its axioms and the least sort for each list of sorts and kinds of its arguments; and with its
// equations.
const WORKED: &str =
    "fmod FREE is sort S . ops a b : -> S . op p : S S -> S . vars X Y : S . endfm => S in *1; a free >S; b free >S; p free S,S>S S,*1>*1 *1,S>*1 *1,*1>*1
fmod AC is sort S . ops a b : -> S . op g : S -> S . op c : S S -> S [comm] . op _+_ : S S -> S [assoc comm] . vars X Y Z U V : S . endfm => S in *1; a free >S; b free >S; g free S>S *1>*1; c comm S,S>S S,*1>*1 *1,S>*1 *1,*1>*1; _+_ ac S,S>S S,*1>*1 *1,S>*1 *1,*1>*1
fmod SET is sorts Elt Set . subsort Elt < Set . ops a b : -> Elt . op mt : -> Set . op _;_ : Set Set -> Set [assoc comm id: mt] . vars X Y : Set . endfm => Elt<Set in *2; Set in *2; a free >Elt; b free >Elt; mt free >Set; _;_ acu mt Elt,Elt>Set Elt,Set>Set Elt,*2>*2 Set,Elt>Set Set,Set>Set Set,*2>*2 *2,Elt>*2 *2,Set>*2 *2,*2>*2
fmod XOR is sorts Nat NatSet . subsort Nat < NatSet . op 0 : -> Nat [ctor] . op s : Nat -> Nat [ctor] . op mt : -> NatSet [ctor] . op _*_ : NatSet NatSet -> NatSet [ctor assoc comm] . vars X Y Z : [NatSet] . eq [idem] : _*_(X,X) = mt [variant] . eq [idem-Coh] : _*_(X,X,Z) = Z [variant] . eq [id] : _*_(X,mt) = X [variant] . endfm => Nat<NatSet in *2; NatSet in *2; 0 free >Nat; s free Nat>Nat NatSet>*2 *2>*2; mt free >NatSet; _*_ ac Nat,Nat>NatSet Nat,NatSet>NatSet Nat,*2>*2 NatSet,Nat>NatSet NatSet,NatSet>NatSet NatSet,*2>*2 *2,Nat>*2 *2,NatSet>*2 *2,*2>*2; _*_(0:*2,0:*2) = mt; _*_(0:*2,_*_(0:*2,1:*2)) = 1:*2; _*_(0:*2,mt) = 0:*2
fmod XORN is sorts Nat NatSet . subsort Nat < NatSet . op 0 : -> Nat [ctor] . op s : Nat -> Nat [ctor] . op mt : -> NatSet [ctor] . op _*_ : NatSet NatSet -> NatSet [ctor assoc comm] . vars X Y Z : [NatSet] . eq [idem] : _*_(X,X) = mt [variant] . eq [id] : _*_(X,mt) = X [variant] . endfm => Nat<NatSet in *2; NatSet in *2; 0 free >Nat; s free Nat>Nat NatSet>*2 *2>*2; mt free >NatSet; _*_ ac Nat,Nat>NatSet Nat,NatSet>NatSet Nat,*2>*2 NatSet,Nat>NatSet NatSet,NatSet>NatSet NatSet,*2>*2 *2,Nat>*2 *2,NatSet>*2 *2,*2>*2; _*_(0:*2,0:*2) = mt; _*_(0:*2,mt) = 0:*2
fmod COLLAPSE is sort S . ops a b c d e : -> S . op h : S S -> S [assoc comm id: e] . op f : S S -> S [assoc comm] . var X : S . eq h(X,f(a,b)) = c [variant] . endfm => S in *1; a free >S; b free >S; c free >S; d free >S; e free >S; h acu e S,S>S S,*1>*1 *1,S>*1 *1,*1>*1; f ac S,S>S S,*1>*1 *1,S>*1 *1,*1>*1; h(0:S,f(a,b)) = c
fmod BADXOR is sort S . op mt : -> S . op _*_ : S S -> S [assoc comm id: mt] . var X : S . eq _*_(X,X) = mt [variant] . endfm => S in *1; mt free >S; _*_ acu mt S,S>S S,*1>*1 *1,S>*1 *1,*1>*1; _*_(0:S,0:S) = mt
fmod ENC is sorts Msg Key . op a : -> Msg . op k : -> Key . ops enc dec : Msg Key -> Msg . vars X M : Msg . vars Y K : Key . eq dec(enc(M,K),K) = M [variant] . endfm => Msg in *2; Key in *3; a free >Msg; k free >Key; enc free Msg,Key>Msg Msg,*3>*2 *2,Key>*2 *2,*3>*2; dec free Msg,Key>Msg Msg,*3>*2 *2,Key>*2 *2,*3>*2; dec(enc(0:Msg,1:Key),1:Key) = 0:Msg
fmod PLUS is sort Nat . op 0 : -> Nat . op s : Nat -> Nat . op + : Nat Nat -> Nat . vars X Y : Nat . eq +(0,Y) = Y [variant] . eq +(s(X),Y) = s(+(X,Y)) [variant] . endfm => Nat in *1; 0 free >Nat; s free Nat>Nat *1>*1; + free Nat,Nat>Nat Nat,*1>*1 *1,Nat>*1 *1,*1>*1; +(0,0:Nat) = 0:Nat; +(s(0:Nat),1:Nat) = s(+(0:Nat,1:Nat))
fmod RAISE is sorts A B . subsort A < B . op f : B -> A . op g : B -> B . var X : B . eq f(X) = g(X) [variant] . endfm => A<B in *2; B in *2; f free A>A B>A *2>*2; g free A>B B>B *2>*2; f(0:B) = g(0:B)
fmod LOOP is sort S . op a : -> S . op f : S -> S . var X : S . eq f(X) = f(X) [variant] . endfm => S in *1; a free >S; f free S>S *1>*1; f(0:S) = f(0:S)
fmod PARITY is sorts Even Odd Nat . subsorts Even Odd < Nat . op + : Nat Nat -> Nat . op + : Even Even -> Even . op + : Odd Odd -> Even . op + : Even Odd -> Odd . op + : Odd Even -> Odd . endfm => Even<Nat in *3; Odd<Nat in *3; Nat in *3; + free Even,Even>Even Even,Odd>Odd Even,Nat>Nat Even,*3>*3 Odd,Even>Odd Odd,Odd>Even Odd,Nat>Nat Odd,*3>*3 Nat,Even>Nat Nat,Odd>Nat Nat,Nat>Nat Nat,*3>*3 *3,Even>*3 *3,Odd>*3 *3,Nat>*3 *3,*3>*3
fmod BAG is --- a bag, with the comma as its union|| sort Bag . ops a b none : -> Bag . op _,_ : Bag Bag -> Bag [assoc comm id: none prec 121] . var X : Bag . endfm => Bag in *1; a free >Bag; b free >Bag; none free >Bag; _`,_ acu none Bag,Bag>Bag Bag,*1>*1 *1,Bag>*1 *1,*1>*1";

// The same of signatures alone.
//
// The first three are: even and odd numbers with their sum; the same with zero, a successor and a sum whose identity is
// zero; sets of numbers with the symmetric difference. Then come partial declarations, those on kinds, one half of a
// commutative operator, a diamond, a pair that is no direct one, and two kinds.
const ANSWERS: &str =
    "fmod M is sorts A B C . subsort A < C . subsort B < C . op f : C C -> C . op f : A A -> A . op f : B B -> A . op f : A B -> B . op f : B A -> B . endfm => A<C in *3; B<C in *3; C in *3; f free A,A>A A,B>B A,C>C A,*3>*3 B,A>B B,B>A B,C>C B,*3>*3 C,A>C C,B>C C,C>C C,*3>*3 *3,A>*3 *3,B>*3 *3,C>*3 *3,*3>*3
fmod M is sorts A B C . subsort A < C . subsort B < C . op f : -> A . op g : A -> B . op g : B -> A . op g : C -> C . op h : C C -> C [assoc comm id: f] . op h : A A -> A [assoc comm id: f] . op h : B B -> A [assoc comm id: f] . op h : A B -> B [assoc comm id: f] . endfm => A<C in *3; B<C in *3; C in *3; f free >A; g free A>B B>A C>C *3>*3; h acu f A,A>A A,B>B A,C>C A,*3>*3 B,A>B B,B>A B,C>C B,*3>*3 C,A>C C,B>C C,C>C C,*3>*3 *3,A>*3 *3,B>*3 *3,C>*3 *3,*3>*3
fmod M is sorts A B . subsort A < B . op f : -> A . op g : A -> A . op h : -> B . op i : B B -> B [assoc comm] . endfm => A<B in *2; B in *2; f free >A; g free A>A B>*2 *2>*2; h free >B; i ac A,A>B A,B>B A,*2>*2 B,A>B B,B>B B,*2>*2 *2,A>*2 *2,B>*2 *2,*2>*2
fmod M is sorts A B . op f : A ~> B . op g : [A] -> [B] . endfm => A in *2; B in *3; f free A>*3 *2>*3; g free A>*3 *2>*3
fmod M is sorts A B . subsort A < B . op f : A ~> A . op f : B -> B . op g : [B] A -> B [comm] . endfm => A<B in *2; B in *2; f free A>B B>B *2>*2; g comm A,A>B A,B>B A,*2>B B,A>B B,B>*2 B,*2>*2 *2,A>B *2,B>*2 *2,*2>*2
fmod M is sorts A B C . subsort A < C . subsort B < C . op f : A B -> C [comm] . endfm => A<C in *3; B<C in *3; C in *3; f comm A,A>*3 A,B>C A,C>*3 A,*3>*3 B,A>C B,B>*3 B,C>*3 B,*3>*3 C,A>*3 C,B>*3 C,C>*3 C,*3>*3 *3,A>*3 *3,B>*3 *3,C>*3 *3,*3>*3
fmod M is sorts A B C D . subsort A < B . subsort A < C . subsort B < D . subsort C < D . endfm => A<B<C<D in *4; B<D in *4; C<D in *4; D in *4
fmod M is sorts A B C . subsort A < B . subsort B < C . subsort A < C . endfm => A<B<C in *3; B<C in *3; C in *3
fmod M is sorts A B C D . subsort B < A . subsort B < C . endfm => A in *4; B<A<C in *4; C in *4; D in *5";

#[test]
fn modules_are_read(rt: HostRuntime) -> Result<(), NoMemory> {
    let alloc = rt.alloc();
    assert_rows(&rt, alloc, Asked::Statements, MODULES)?;
    assert_rows(&rt, alloc, Asked::Statements, FAULTS)?;
    assert_rows(&rt, alloc, Asked::Statements, SIGNATURES)?;
    assert_rows(&rt, alloc, Asked::Statements, LARGE)?;
    assert_rows(&rt, alloc, Asked::Module, TEXTS)?;
    assert_rows(&rt, alloc, Asked::Answers, WORKED)?;
    assert_rows(&rt, alloc, Asked::Answers, ANSWERS)
}
