//! What `terminates` says of weights.
use super::table_told;
use fvn_terms::NoMemory;

/// Modules, weights of their operators, and what is said of these.
const WEIGHTS: &str = "\
fmod XOR is sorts Nat NatSet . subsort Nat < NatSet . op 0 : -> Nat [ctor] . op s : Nat -> Nat [ctor] . op mt : -> NatSet [ctor] . op _*_ : NatSet NatSet -> NatSet [ctor assoc comm] . vars X Y Z : [NatSet] . eq [idem] : _*_(X,X) = mt [variant] . eq [idem-Coh] : _*_(X,X,Z) = Z [variant] . eq [id] : _*_(X,mt) = X [variant] . endfm <=
terminates | _*_ : 1 1 1 ==> 0 | terminates
terminates |  ==> 1 | weights grows 1

fmod PLUS is sort Nat . op 0 : -> Nat . op s : Nat -> Nat . op + : Nat Nat -> Nat . vars X Y : Nat . eq +(0,Y) = Y [variant] . eq +(s(X),Y) = s(+(X,Y)) [variant] . endfm <=
terminates | + : 2 1 1 , s : 1 1 ==> 0 | terminates
terminates | + : 2 1 1 , s : 1 0 ==> 1 | weights grows 2
terminates | + : 2 1 0 , s : 1 1 ==> 1 | weights grows 1

fmod AC is sort S . ops a b : -> S . op g : S -> S . op c : S S -> S [comm] . op _+_ : S S -> S [assoc comm] . vars X Y Z U V : S . endfm <=
terminates | _+_ : 2 2 0 ==> 1 | weights shape _+_
terminates |  ==> 0 | terminates

fmod LOOP is sort S . op a : -> S . op f : S -> S . var X : S . eq f(X) = f(X) [variant] . endfm <=
terminates | f : 1 1 ==> 1 | weights grows 1
terminates | f : 1 ==> 4 | problem 4
terminates | q : 1 , f : 1 ==> 4 | problem 3
terminates | f : 1 1 , ==> 4 | problem 2
terminates | é ==> 4 | problem 1
terminates | f : 0 1 ==> 1 | weights shape f
terminates | f : 1 1 , f : 1 1 ==> 4 | problem 2
terminates | f 1 1 ==> 4 | problem 2
terminates | f : 1 , q : 1 ==> 4 | problem 4

fmod BIG is sort S . op a : -> S . op g : S -> S . eq g(g(g(g(a)))) = a [variant] . endfm <=
terminates | g : 999999999 1 ==> 1 | weights big 1

fmod ENC is sorts Msg Key . op a : -> Msg . op k : -> Key . ops enc dec : Msg Key -> Msg . vars X M : Msg . vars Y K : Key . eq dec(enc(M,K),K) = M [variant] . endfm <=
terminates | enc : 1 1 1 ==> 0 | terminates
terminates |  ==> 1 | weights grows 1

fmod SET is sorts Elt Set . subsort Elt < Set . ops a b : -> Elt . op mt : -> Set . op _;_ : Set Set -> Set [assoc comm id: mt] . vars X Y : Set . endfm <=
terminates | mt : 1 ==> 1 | weights shape _;_
terminates | _;_ : 1 1 1 ==> 1 | weights shape _;_

fmod COLLAPSE is sort S . ops a b c d e : -> S . op h : S S -> S [assoc comm id: e] . op f : S S -> S [assoc comm] . var X : S . eq h(X,f(a,b)) = c [variant] . endfm <=
terminates | f : 1 1 1 ==> 0 | terminates

fmod BIG is sort S . op a : -> S . op g : S -> S . eq g(g(g(a))) = a [variant] . endfm <=
terminates | g : 999999999 1 ==> 0 | terminates

fmod EDGE is sort S . op a : -> S . ops g h : S -> S . eq h(g(a)) = a [variant] . endfm <=
terminates | a : 922337204 , g : 10 6 , h : 999999999 78147853 ==> 0 | terminates
terminates | a : 922337204 , g : 10 6 , h : 999999999 78147854 ==> 1 | weights big 1

fmod COMM is sort S . op f : S S -> S [comm] . op g : S -> S . var X : S . eq f(X,X) = g(X) [variant] . endfm <=
terminates | f : 1 1 1 , g : 3 0 ==> 1 | weights grows 1
terminates | f : 1 1 1 , g : 2 0 ==> 0 | terminates
terminates | f : 1 2 1 ==> 1 | weights shape f

fmod NOPRE is sorts A B C . subsorts A < B . subsorts A < C . op f : B -> B . op f : C -> C . endfm <=
terminates | f ==> 3 | module 9.6 f A";

#[test]
fn weights_are_told(rt: HostRuntime) -> Result<(), NoMemory> {
    table_told(&rt, rt.alloc(), WEIGHTS)
}
