//! What `verify` says of bindings.
use super::table_told;
use fvn_terms::NoMemory;

/// Modules, and over each a problem, bindings and perhaps a number of steps, and what is said of them. Over the module F
/// a term of 15 symbols has a variable eight times: with terms of 124 symbols for it that is 999 symbols, with 125 it is
/// 1,007.
const BINDINGS: &str = "\
fmod AC is sort S . ops a b : -> S . op g : S -> S . op c : S S -> S [comm] . op _+_ : S S -> S [assoc comm] . vars X Y Z U V : S . endfm <=
verify | _+_(a,_+_(b,X)) =? _+_(X,a,b) | {} ==> 0 | yes
verify | _+_(X,Y) =? _+_(a,b) | {X:S --> b, Y:S --> a} ==> 0 | yes
verify | _+_(X,Y) =? _+_(a,b) | {X:S --> a, Y:S --> a} ==> 1 | no 1
verify | _+_(X,Y) =? _+_(a,b,b) | {X:S --> _+_(b,a), Y:S --> b} ==> 0 | yes
verify | c(X,g(Y)) =? c(g(b),a) | {X:S --> a, Y:S --> b} ==> 0 | yes
verify | c(X,g(Y)) =? c(g(b),a) | {X:S --> a, Y:S --> a} ==> 1 | no 1
verify | X =? a /\\ Y =? g(X) | {X:S --> a, Y:S --> g(a)} ==> 0 | yes
verify | X =? a /\\ Y =? g(X) | {X:S --> a, Y:S --> g(b)} ==> 1 | no 2
verify | X =? a /\\ Y =? b /\\ Z =? c(X,Y) | {X:S --> a, Y:S --> a, Z:S --> b} ==> 1 | no 2
verify | X =? X | {} ==> 0 | yes
verify | X =? Y | {X:S --> #1:S, Y:S --> #1:S} ==> 0 | yes
verify | X =? Y | {X:S --> #1:S, Y:S --> #2:S} ==> 1 | no 1
verify | X =? a | {X:S --> a, X:S --> b} ==> 4 | problem 2
verify | X =? a | {Y:S --> a} ==> 4 | problem 3
verify | X =? a | {X:S --> } ==> 4 | problem 2
verify | X =? | {} ==> 4 | problem 2
verify | X =? d | {} ==> 4 | problem 3
verify | #1:S =? a | {} ==> 4 | problem 7
verify | c(X) =? a | {} ==> 4 | problem 4
verify | X =? d | {Y:S --> a} ==> 4 | problem 3
verify | _+_(X,a) =? b | {X:S --> b} ==> 1 | no 1

fmod FREE is sort S . ops a b : -> S . op p : S S -> S . vars X Y : S . endfm <=
verify | p(X,b) =? p(a,Y) | {X:S --> a, Y:S --> b} ==> 0 | yes
verify | p(X,b) =? p(a,Y) | {X:S --> a, Y:S --> a} ==> 1 | no 1
verify | p(X,Y) =? p(Y,X) | {X:S --> #1:S, Y:S --> #1:S} ==> 0 | yes
verify | p(X,Y) =? p(Y,X) | {} ==> 1 | no 1

fmod SET is sorts Elt Set . subsort Elt < Set . ops a b : -> Elt . op mt : -> Set . op _;_ : Set Set -> Set [assoc comm id: mt] . vars X Y : Set . endfm <=
verify | _;_(X,mt) =? X | {} ==> 0 | yes
verify | _;_(X,Y) =? a | {X:Set --> mt, Y:Set --> a} ==> 0 | yes
verify | _;_(X,Y) =? a | {X:Set --> a, Y:Set --> a} ==> 1 | no 1
verify | E:Elt =? a | {E:Elt --> _;_(a,b)} ==> 4 | problem 8
verify | E:Elt =? a | {E:Elt --> _;_(mt,a)} ==> 0 | yes

fmod ENC is sorts Msg Key . op a : -> Msg . op k : -> Key . ops enc dec : Msg Key -> Msg . vars X M : Msg . vars Y K : Key . eq dec(enc(M,K),K) = M [variant] . endfm <=
verify | dec(X,k) =? a | {X:Msg --> enc(a,k)} ==> 0 | yes
verify | dec(X,Y) =? M | {X:Msg --> enc(M,Y)} ==> 0 | yes
verify | dec(X,K) =? M | {X:Msg --> enc(M,Y)} ==> 1 | no 1
verify | X =? a | {} ==> 1 | no 1
verify | X =? | { ==> 4 | problem 2

fmod NOPRE is sorts A B C . subsorts A < B . subsorts A < C . op f : B -> B . op f : C -> C . endfm <=
verify | X =? a | {} ==> 3 | module 9.6 f A

fmod BADXOR is sort S . op mt : -> S . op _*_ : S S -> S [assoc comm id: mt] . var X : S . eq _*_(X,X) = mt [variant] . endfm <=
verify | X =? mt | {} ==> 3 | module 12 equation 1
verify | X =? | { ==> 3 | module 12 equation 1

fmod M was sort A . endfm <=
verify | X =? a | {} ==> 3 | module 2

fmod T is sorts A B . op a : -> A . op b : -> B . op f : A -> A . vars X : A . endfm <=
verify | f(X) =? b | {} ==> 4 | problem 5
verify | X =? a | {X:A --> b} ==> 4 | problem 5
verify | f(X) =? f(a) | {X:A --> a} ==> 0 | yes

fmod COLLAPSE is sort S . ops a b c d e : -> S . op h : S S -> S [assoc comm id: e] . op f : S S -> S [assoc comm] . var X : S . eq h(X,f(a,b)) = c [variant] . endfm <=
verify | f(a,b,d) =? f(c,d) | {} ==> 0 | yes
verify | f(a,d) =? f(c,d) | {} ==> 1 | no 1

fmod LOOP is sort S . op a : -> S . op f : S -> S . var X : S . eq f(X) = f(X) [variant] . endfm <=
verify | f(a) =? a | {} | --steps | 5 ==> 5 | bound steps 5 f(a)
verify | X =? a /\\ f(a) =? a | {} | --steps | 5 ==> 5 | bound steps 5 f(a)
verify | X =? a /\\ X =? X | {} | --steps | 5 ==> 1 | no 1
verify | f(a) =? a | --steps=5 | {} ==> 5 | bound steps 5 f(a)
verify | --steps | 5 | f(a) =? a | -- | {} ==> 5 | bound steps 5 f(a)

fmod PLUS is sort Nat . op 0 : -> Nat . op s : Nat -> Nat . op + : Nat Nat -> Nat . vars X Y : Nat . eq +(0,Y) = Y [variant] . eq +(s(X),Y) = s(+(X,Y)) [variant] . endfm <=
verify | +(s(s(s(0))),0) =? s(s(s(0))) | {} ==> 0 | yes
verify | +(X,Y) =? s(0) | {X:Nat --> s(0), Y:Nat --> 0} | --steps | 1000000 ==> 0 | yes
verify | +(X,Y) =? s(0) | {X:Nat --> s(0), Y:Nat --> 0} | --steps | 000000002 ==> 0 | yes
verify | +(X,Y) =? s(0) | {X:Nat --> 0, Y:Nat --> 0} | --steps | 2 ==> 1 | no 1

fmod XORN is sorts Nat NatSet . subsort Nat < NatSet . op 0 : -> Nat [ctor] . op s : Nat -> Nat [ctor] . op mt : -> NatSet [ctor] . op _*_ : NatSet NatSet -> NatSet [ctor assoc comm] . vars X Y Z : [NatSet] . eq [idem] : _*_(X,X) = mt [variant] . eq [id] : _*_(X,mt) = X [variant] . endfm <=
verify | _*_(0,s(0),0) =? s(0) | {} ==> 0 | yes
verify | _*_(0,s(0)) =? s(0) | {} ==> 1 | no 1

fmod GROW is sort S . op a : -> S . op g : S -> S . op p : S S -> S . var X : S . eq g(X) = g(p(X,X)) [variant] . endfm <=
verify | g(a) =? a | {} ==> 5 | bound size 1000
verify | g(a) =? a | {} | --steps | 5 ==> 5 | bound steps 5 g(a)

fmod F is sort A . op a : -> A . op f : A A -> A . op s : A -> A . var X : A . endfm <=
verify | X =? f(f(f(X,X),f(X,X)),f(f(X,X),f(X,X))) | {X:A --> ~123%s(~a~123%)~} ==> 1 | no 1
verify | X =? f(f(f(X,X),f(X,X)),f(f(X,X),f(X,X))) | {X:A --> ~124%s(~a~124%)~} ==> 5 | bound size 1000";

#[test]
fn bindings_are_verified(rt: HostRuntime) -> Result<(), NoMemory> {
    table_told(&rt, rt.alloc(), BINDINGS)
}
