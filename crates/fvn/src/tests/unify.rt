//! What `unify` prints over operators with axioms, over several sorts, and of several pairs, and what `work` prints.
use super::table_told;
use fvn_terms::NoMemory;

/// Modules, and problems over each with the lines that are printed of them, worked out by hand or by Maude. The lines of one
/// module end with carriage returns, and its names have backquotes. `work` reads none, and counts 3 to the power of its number,
/// less 2.
const PROBLEMS: &str = "\
fmod FREE is
  sort S .
  ops a b : -> S .
  op p : S S -> S .
  vars X Y : S .
endfm
 <=
unify | X =? X ==> 0 | {X:S --> #1:S} | complete 1
unify | a =? b ==> 1 | complete 0
unify | X =? ==> 4 | problem 2
unify | p(X,b) =? p(a,Y) ==> 0 | {X:S --> a, Y:S --> b} | complete 1
unify | X =? Y ==> 0 | {X:S --> #1:S, Y:S --> #1:S} | complete 1
unify | X =? a ==> 0 | {X:S --> a} | complete 1
unify | a =? X ==> 0 | {X:S --> a} | complete 1
unify | a =? a ==> 0 | {} | complete 1
unify | p(a,b) =? p(a,b) ==> 0 | {} | complete 1
unify | p(p(a,b),p(a,b)) =? p(p(a,b),p(a,b)) ==> 0 | {} | complete 1
unify | p(X,Y) =? p(Y,X) ==> 0 | {X:S --> #1:S, Y:S --> #1:S} | complete 1
unify | p(X,X) =? p(Y,Z:S) ==> 0 | {X:S --> #1:S, Y:S --> #1:S, Z:S --> #1:S} | complete 1
unify | p(X,X) =? p(a,Y) ==> 0 | {X:S --> a, Y:S --> a} | complete 1
unify | X =? p(Y,Y) ==> 0 | {X:S --> p(#1:S,#1:S), Y:S --> #1:S} | complete 1
unify | p(X,Y) =? p(p(Y,Y),Z:S) ==> 0 | {X:S --> p(#1:S,#1:S), Y:S --> #1:S, Z:S --> #1:S} | complete 1
unify | (X) =? ((a)) ==> 0 | {X:S --> a} | complete 1
unify | p((X),(b)) =? (p(a,Y)) ==> 0 | {X:S --> a, Y:S --> b} | complete 1
unify | p(X:S,X) =? p(a,Y) ==> 0 | {X:S --> a, Y:S --> a} | complete 1
unify | X:S =? X ==> 0 | {X:S --> #1:S} | complete 1
unify | p(p(a,b),X) =? p(X,p(a,b)) ==> 0 | {X:S --> p(a,b)} | complete 1
unify | p(X,p(Y,Z:S)) =? p(p(Y,Z:S),X) ==> 0 | {X:S --> p(#1:S,#2:S), Y:S --> #1:S, Z:S --> #2:S} | complete 1
unify | p(X,Y) =? p(Z:S,W:S) ==> 0 | {X:S --> #1:S, Y:S --> #2:S, Z:S --> #1:S, W:S --> #2:S} | complete 1
unify | p(X,p(X,Y)) =? p(p(Y,Y),Z:S) ==> 0 | {X:S --> p(#1:S,#1:S), Y:S --> #1:S, Z:S --> p(p(#1:S,#1:S),#1:S)} | complete 1
unify | X =? a . ==> 0 | {X:S --> a} | complete 1
unify | X =? a --- a constant ==> 0 | {X:S --> a} | complete 1
unify | p(p(X,Y),p(Y,X)) =? p(Z:S,Z:S) ==> 0 | {X:S --> #1:S, Y:S --> #1:S, Z:S --> p(#1:S,#1:S)} | complete 1
unify | p(p(X,a),p(b,Y)) =? p(p(b,Y),p(X,a)) ==> 0 | {X:S --> b, Y:S --> a} | complete 1
unify | Z:S =? p(X,p(Y,X)) ==> 0 | {Z:S --> p(#1:S,p(#2:S,#1:S)), X:S --> #1:S, Y:S --> #2:S} | complete 1
unify | p(p(p(p(a,X),X),X),X) =? p(p(p(p(a,b),Y),Z:S),W:S) ==> 0 | {X:S --> b, Y:S --> b, Z:S --> b, W:S --> b} | complete 1
unify | p(X,X) =? p(a,b) ==> 1 | complete 0
unify | a =? p(a,b) ==> 1 | complete 0
unify | p(a,b) =? p(b,a) ==> 1 | complete 0
unify | p(a,X) =? p(X,b) ==> 1 | complete 0
unify | p(X,a) =? p(b,X) ==> 1 | complete 0
unify | X =? p(X,Y) ==> 1 | complete 0
unify | p(X,X) =? p(Y,p(Y,Y)) ==> 1 | complete 0
unify | p(X,Y) =? p(p(Y,a),p(X,a)) ==> 1 | complete 0
unify | p(X,p(Y,Z:S)) =? p(p(Y,a),p(p(Z:S,a),p(X,a))) ==> 1 | complete 0
unify | p(X,p(Y,b)) =? p(p(a,Y),p(b,X)) ==> 1 | complete 0
unify | - ==> 4 | problem 2
unify |  ==> 4 | problem 2
unify | p(X,Y ==> 4 | problem 2
unify | X =? q ==> 4 | problem 3
unify | X =? p(a) ==> 4 | problem 4
unify | #1:S =? a ==> 4 | problem 7
unify | X =? a b ==> 4 | problem 2

 <=
unify | X =? X ==> 3 | module 2
work | 3 ==> 0 | complete 25
work | 4 ==> 0 | complete 79
work | 5 ==> 0 | complete 241
work | 6 ==> 0 | complete 727

fmod QUOTED is\r
  sort S .\r
  ops a` `( : -> S .\r
  op s : S -> S .\r
  op f` : S S -> S .\r
  vars X Y : S .\r
endfm\r
 <=
unify | X =? a` ==> 0 | {X:S --> a` } | complete 1
unify | X =? f` (a` ,`() ==> 0 | {X:S --> f` (a` ,`()} | complete 1
unify | f` (X,Y) =? f` (a` ,`() ==> 0 | {X:S --> a` , Y:S --> `(} | complete 1
unify | s(X) =? s(s(a` )) ==> 0 | {X:S --> s(a` )} | complete 1

fmod AC is sort S . ops a b : -> S . op g : S -> S . op c : S S -> S [comm] . op _+_ : S S -> S [assoc comm] . vars X Y Z U V : S . endfm <=
unify | _+_(X,Y) =? _+_(U,V) ==> 0 | {X:S --> #1:S, Y:S --> #2:S, U:S --> #1:S, V:S --> #2:S} | {X:S --> #1:S, Y:S --> #2:S, U:S --> #2:S, V:S --> #1:S} | {X:S --> #1:S, Y:S --> _+_(#2:S,#3:S), U:S --> #2:S, V:S --> _+_(#1:S,#3:S)} | {X:S --> #1:S, Y:S --> _+_(#2:S,#3:S), U:S --> _+_(#1:S,#2:S), V:S --> #3:S} | {X:S --> _+_(#1:S,#2:S), Y:S --> #3:S, U:S --> #1:S, V:S --> _+_(#2:S,#3:S)} | {X:S --> _+_(#1:S,#2:S), Y:S --> #3:S, U:S --> _+_(#1:S,#3:S), V:S --> #2:S} | {X:S --> _+_(#1:S,#2:S), Y:S --> _+_(#3:S,#4:S), U:S --> _+_(#1:S,#3:S), V:S --> _+_(#2:S,#4:S)} | complete 7
unify | _+_(X,X) =? _+_(Y,Z) ==> 0 | {X:S --> #1:S, Y:S --> #1:S, Z:S --> #1:S} | {X:S --> _+_(#1:S,#2:S), Y:S --> #1:S, Z:S --> _+_(#1:S,#2:S,#2:S)} | {X:S --> _+_(#1:S,#2:S), Y:S --> _+_(#1:S,#1:S), Z:S --> _+_(#2:S,#2:S)} | {X:S --> _+_(#1:S,#2:S), Y:S --> _+_(#1:S,#1:S,#2:S), Z:S --> #2:S} | {X:S --> _+_(#1:S,#2:S,#3:S), Y:S --> _+_(#1:S,#1:S,#2:S), Z:S --> _+_(#2:S,#3:S,#3:S)} | complete 5
unify | _+_(X,a) =? _+_(Y,b) ==> 0 | {X:S --> _+_(#1:S,b), Y:S --> _+_(#1:S,a)} | {X:S --> b, Y:S --> a} | complete 2
unify | _+_(X,g(U)) =? _+_(g(V),a) ==> 0 | {X:S --> a, U:S --> #1:S, V:S --> #1:S} | complete 1
unify | c(X,Y) =? c(a,b) ==> 0 | {X:S --> a, Y:S --> b} | {X:S --> b, Y:S --> a} | complete 2
unify | X =? g(X) ==> 1 | complete 0
unify | X =? _+_(X,a) ==> 1 | complete 0
unify | a =? a ==> 0 | {} | complete 1
unify | _+_(X,Y,Z,U,V) =? _+_(A:S,B:S,C:S,D:S,E:S) ==> 5 | bound basis _+_
unify | X =? ==> 4 | problem 2
unify | X =? q ==> 4 | problem 3
unify | X =? g(X,X) ==> 4 | problem 4
unify | #1:S =? a ==> 4 | problem 7
unify | c(_+_(X,Y),g(X)) =? c(g(Z),_+_(a,b)) ==> 0 | {X:S --> a, Y:S --> b, Z:S --> a} | {X:S --> b, Y:S --> a, Z:S --> b} | complete 2
unify | _+_(X,Y) =? _+_(a,b) ==> 0 | {X:S --> a, Y:S --> b} | {X:S --> b, Y:S --> a} | complete 2
unify | _+_(X,X,Y) =? _+_(a,a,b) ==> 0 | {X:S --> a, Y:S --> b} | complete 1
unify | g(_+_(X,a)) =? g(_+_(Y,Z)) ==> 0 | {X:S --> #1:S, Y:S --> #1:S, Z:S --> a} | {X:S --> #1:S, Y:S --> a, Z:S --> #1:S} | {X:S --> _+_(#1:S,#2:S), Y:S --> #1:S, Z:S --> _+_(#2:S,a)} | {X:S --> _+_(#1:S,#2:S), Y:S --> _+_(#1:S,a), Z:S --> #2:S} | complete 4
unify | c(X,a) =? c(Y,b) ==> 0 | {X:S --> b, Y:S --> a} | complete 1
unify | X =? a /\\ Y =? g(X) ==> 0 | {X:S --> a, Y:S --> g(a)} | complete 1
unify | X =? Y /\\ Y =? g(X) ==> 1 | complete 0

fmod SET is sorts Elt Set . subsort Elt < Set . ops a b : -> Elt . op mt : -> Set . op _;_ : Set Set -> Set [assoc comm id: mt] . vars X Y : Set . endfm <=
unify | X =? _;_(X,Y) ==> 0 | {X:Set --> #1:Set, Y:Set --> mt} | complete 1
unify | E:Elt =? _;_(X,Y) ==> 0 | {E:Elt --> #1:Elt, X:Set --> #1:Elt, Y:Set --> mt} | {E:Elt --> #1:Elt, X:Set --> mt, Y:Set --> #1:Elt} | complete 2
unify | _;_(X,a) =? _;_(Y,b) ==> 0 | {X:Set --> _;_(#1:Set,b), Y:Set --> _;_(#1:Set,a)} | complete 1
unify | _;_(X,Y) =? a ==> 0 | {X:Set --> a, Y:Set --> mt} | {X:Set --> mt, Y:Set --> a} | complete 2
unify | _;_(X,Y) =? _;_(a,b) ==> 0 | {X:Set --> _;_(a,b), Y:Set --> mt} | {X:Set --> a, Y:Set --> b} | {X:Set --> b, Y:Set --> a} | {X:Set --> mt, Y:Set --> _;_(a,b)} | complete 4
unify | _;_(X,X) =? Y ==> 0 | {X:Set --> #1:Set, Y:Set --> _;_(#1:Set,#1:Set)} | complete 1
unify | E:Elt =? mt ==> 1 | complete 0
unify | _;_(E:Elt,X) =? _;_(a,b) ==> 0 | {E:Elt --> a, X:Set --> b} | {E:Elt --> b, X:Set --> a} | complete 2
unify | _;_(E:Elt,F:Elt) =? _;_(X,a) ==> 0 | {E:Elt --> #1:Elt, F:Elt --> a, X:Set --> #1:Elt} | {E:Elt --> a, F:Elt --> #1:Elt, X:Set --> #1:Elt} | complete 2

fmod PARITY is sorts Even Odd Nat . subsorts Even Odd < Nat . op + : Nat Nat -> Nat . op + : Even Even -> Even . op + : Odd Odd -> Even . op + : Even Odd -> Odd . op + : Odd Even -> Odd . endfm <=
unify | E:Even =? +(X:Nat,Y:Nat) ==> 0 | {E:Even --> +(#1:Even,#2:Even), X:Nat --> #1:Even, Y:Nat --> #2:Even} | {E:Even --> +(#1:Odd,#2:Odd), X:Nat --> #1:Odd, Y:Nat --> #2:Odd} | complete 2
unify | X:Odd =? +(Y:Nat,Z:Odd) ==> 0 | {X:Odd --> +(#1:Even,#2:Odd), Y:Nat --> #1:Even, Z:Odd --> #2:Odd} | complete 1
unify | X:Even =? Y:Odd ==> 1 | complete 0
unify | +(X:Nat,Y:Nat) =? +(Z:Even,W:Odd) ==> 0 | {X:Nat --> #1:Even, Y:Nat --> #2:Odd, Z:Even --> #1:Even, W:Odd --> #2:Odd} | complete 1
unify | X:Nat =? Y:Odd ==> 0 | {X:Nat --> #1:Odd, Y:Odd --> #1:Odd} | complete 1

fmod BAG is sort Bag . ops a b none : -> Bag . op _,_ : Bag Bag -> Bag [assoc comm id: none prec 121] . var X : Bag . endfm <=
unify | _`,_(X, a) =? _`,_(a, b) ==> 0 | {X:Bag --> b} | complete 1
unify | _`,_(X,Y:Bag) =? a ==> 0 | {X:Bag --> a, Y:Bag --> none} | {X:Bag --> none, Y:Bag --> a} | complete 2
unify | X =? _`,_(X,Y:Bag) ==> 0 | {X:Bag --> #1:Bag, Y:Bag --> none} | complete 1
unify | X =? none ==> 0 | {X:Bag --> none} | complete 1

fmod SUMS is sort S . ops b 0 1 : -> S . op _&_ : S S -> S [assoc comm id: 0] . op _*_ : S S -> S [assoc comm id: 1] . endfm <=
unify | Z:S =? _*_(_&_(V:S,b),Y:S) ==> 0 | {Z:S --> _*_(#1:S,_&_(#2:S,b)), V:S --> #2:S, Y:S --> #1:S} | complete 1
unify | Z1:S =? _*_(_&_(V1:S,W1:S),_&_(X1:S,Y1:S),_&_(U1:S,b)) /\\ Z2:S =? _*_(_&_(V2:S,W2:S),_&_(X2:S,Y2:S),_&_(U2:S,b)) /\\ Z3:S =? _*_(_&_(V3:S,W3:S),_&_(X3:S,Y3:S),_&_(U3:S,b)) /\\ Z4:S =? _*_(_&_(V4:S,W4:S),_&_(X4:S,Y4:S),_&_(U4:S,b)) /\\ Z5:S =? _*_(_&_(V5:S,W5:S),_&_(X5:S,Y5:S),_&_(U5:S,b)) /\\ Z6:S =? _*_(_&_(V6:S,W6:S),_&_(X6:S,Y6:S),_&_(U6:S,b)) ==> 0 | 1 lines | complete 1

fmod XOR is sorts Nat NatSet . subsort Nat < NatSet . op 0 : -> Nat [ctor] . op s : Nat -> Nat [ctor] . op mt : -> NatSet [ctor] . op _*_ : NatSet NatSet -> NatSet [ctor assoc comm] . vars X Y Z : [NatSet] . eq [idem] : _*_(X,X) = mt [variant] . eq [idem-Coh] : _*_(X,X,Z) = Z [variant] . eq [id] : _*_(X,mt) = X [variant] . endfm <=
unify | _*_(X,X) =? mt ==> 1 | complete 0
unify | X =? _*_(Y,Z) ==> 0 | {X:[NatSet] --> _*_(#1:[NatSet],#2:[NatSet]), Y:[NatSet] --> #1:[NatSet], Z:[NatSet] --> #2:[NatSet]} | complete 1
unify | N:Nat =? _*_(Y,Z) ==> 1 | complete 0
unify | s(N:Nat) =? s(s(M:Nat)) ==> 0 | {N:Nat --> s(#1:Nat), M:Nat --> #1:Nat} | complete 1

fmod ENC is sorts Msg Key . op a : -> Msg . op k : -> Key . ops enc dec : Msg Key -> Msg . vars X M : Msg . vars Y K : Key . eq dec(enc(M,K),K) = M [variant] . endfm <=
unify | a =? k ==> 4 | problem 5
unify | dec(X,k) =? a ==> 1 | complete 0
unify | enc(X,Y) =? enc(M,k) ==> 0 | {X:Msg --> #1:Msg, Y:Key --> k, M:Msg --> #1:Msg} | complete 1

fmod PLUS is sort Nat . op 0 : -> Nat . op s : Nat -> Nat . op + : Nat Nat -> Nat . vars X Y : Nat . eq +(0,Y) = Y [variant] . eq +(s(X),Y) = s(+(X,Y)) [variant] . endfm <=
unify | +(X,Y) =? +(s(Y),0) ==> 0 | {X:Nat --> s(0), Y:Nat --> 0} | complete 1

fmod BADXOR is sort S . op mt : -> S . op _*_ : S S -> S [assoc comm id: mt] . var X : S . eq _*_(X,X) = mt [variant] . endfm <=
unify | X =? mt ==> 3 | module 12 equation 1
unify | X =? ==> 3 | module 12 equation 1

fmod M is sort A . op a : -> A . <=
unify | a =? a ==> 3 | module 2
unify | a =? ==> 3 | module 2

fmod NOPRE is sorts A B C . subsorts A < B . subsorts A < C . op f : B -> B . op f : C -> C . endfm <=
unify | X =? X ==> 3 | module 9.6 f A

fmod FREE is
  sort S .
  ops a b : -> S .
  op p : S S -> S .
  vars X Y : S .
 <=
unify | X =? X ==> 3 | module 2";

#[test]
fn problems_are_unified(rt: HostRuntime) -> Result<(), NoMemory> {
    table_told(&rt, rt.alloc(), PROBLEMS)
}
