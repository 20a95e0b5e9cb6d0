//! What `check` prints of a module.
use super::table_told;
use fvn_terms::NoMemory;

/// Whole texts, and what is printed of them.
const TEXTS: &str = "\
check <= fmod ==> 3 | module 2
check <=  ==> 3 | module 2
check <= fmod M is sort A . ==> 3 | module 2
check <= fmod M is sort A . endfm sort B . ==> 3 | module 2
check <= fmod M is endfm endfm ==> 3 | module 2
check <= fmod M was sort A . endfm ==> 3 | module 2
check <= mod M is sort A . endfm ==> 3 | module 2
check <= fmod ( is sort A . endfm ==> 3 | module 2
check <= fmod M is sort A ---( no ) . endfm ==> 3 | module 1 byte 17
check <= fmod M is sort é . endfm ==> 3 | module 1 byte 15
check <= é ==> 3 | module 1 byte 0
check <= fmod M is endfm ==> 0 | module M sorts 0 kinds 0 operators 0 equations 0 | sorts kept
check <= fmod FREE is sort S . ops a b : -> S . op p : S S -> S . vars X Y : S . endfm ==> 0 | module FREE sorts 1 kinds 1 operators 3 equations 0 | sorts kept
check <= fmod AC is sort S . ops a b : -> S . op g : S -> S . op c : S S -> S [comm] . op _+_ : S S -> S [assoc comm] . vars X Y Z U V : S . endfm ==> 0 | module AC sorts 1 kinds 1 operators 5 equations 0 | sorts kept
check <= fmod SET is sorts Elt Set . subsort Elt < Set . ops a b : -> Elt . op mt : -> Set . op _;_ : Set Set -> Set [assoc comm id: mt] . vars X Y : Set . endfm ==> 0 | module SET sorts 2 kinds 1 operators 4 equations 0 | sorts kept
check <= fmod XOR is sorts Nat NatSet . subsort Nat < NatSet . op 0 : -> Nat [ctor] . op s : Nat -> Nat [ctor] . op mt : -> NatSet [ctor] . op _*_ : NatSet NatSet -> NatSet [ctor assoc comm] . vars X Y Z : [NatSet] . eq [idem] : _*_(X,X) = mt [variant] . eq [idem-Coh] : _*_(X,X,Z) = Z [variant] . eq [id] : _*_(X,mt) = X [variant] . endfm ==> 0 | module XOR sorts 2 kinds 1 operators 4 equations 3 | sorts kept
check <= fmod ENC is sorts Msg Key . op a : -> Msg . op k : -> Key . ops enc dec : Msg Key -> Msg . vars X M : Msg . vars Y K : Key . eq dec(enc(M,K),K) = M [variant] . endfm ==> 0 | module ENC sorts 2 kinds 2 operators 4 equations 1 | sorts kept
check <= fmod PLUS is sort Nat . op 0 : -> Nat . op s : Nat -> Nat . op + : Nat Nat -> Nat . vars X Y : Nat . eq +(0,Y) = Y [variant] . eq +(s(X),Y) = s(+(X,Y)) [variant] . endfm ==> 0 | module PLUS sorts 1 kinds 1 operators 3 equations 2 | sorts kept
check <= fmod RAISE is sorts A B . subsort A < B . op f : B -> A . op g : B -> B . var X : B . eq f(X) = g(X) [variant] . endfm ==> 0 | module RAISE sorts 2 kinds 1 operators 2 equations 1 | cause sorts 1
check <= fmod XORN is sorts Nat NatSet . subsort Nat < NatSet . op 0 : -> Nat [ctor] . op s : Nat -> Nat [ctor] . op mt : -> NatSet [ctor] . op _*_ : NatSet NatSet -> NatSet [ctor assoc comm] . vars X Y Z : [NatSet] . eq [idem] : _*_(X,X) = mt [variant] . eq [id] : _*_(X,mt) = X [variant] . endfm ==> 0 | module XORN sorts 2 kinds 1 operators 4 equations 2 | sorts kept
check <= fmod BADXOR is sort S . op mt : -> S . op _*_ : S S -> S [assoc comm id: mt] . var X : S . eq _*_(X,X) = mt [variant] . endfm ==> 3 | module 12 equation 1
check <= fmod LOOP is sort S . op a : -> S . op f : S -> S . var X : S . eq f(X) = f(X) [variant] . endfm ==> 0 | module LOOP sorts 1 kinds 1 operators 2 equations 1 | sorts kept
check <= fmod COLLAPSE is sort S . ops a b c d e : -> S . op h : S S -> S [assoc comm id: e] . op f : S S -> S [assoc comm] . var X : S . eq h(X,f(a,b)) = c [variant] . endfm ==> 0 | module COLLAPSE sorts 1 kinds 1 operators 7 equations 1 | sorts kept
check <= fmod FREE is sort S . ops a b : -> S . op p : S S -> S . vars X Y : S . eq X = a [variant] . endfm ==> 3 | module 10 equation 1
check <= fmod PARITY is sorts Even Odd Nat . subsorts Even Odd < Nat . op + : Nat Nat -> Nat . op + : Even Even -> Even . op + : Odd Odd -> Even . op + : Even Odd -> Odd . op + : Odd Even -> Odd . endfm ==> 0 | module PARITY sorts 3 kinds 1 operators 1 equations 0 | sorts kept
check <= fmod BAG is sort Bag . ops a b none : -> Bag . op _,_ : Bag Bag -> Bag [assoc comm id: none prec 121] . var X : Bag . endfm ==> 0 | module BAG sorts 1 kinds 1 operators 4 equations 0 | sorts kept
check <= fmod NOPRE is sorts A B C . subsorts A < B . subsorts A < C . op f : B -> B . op f : C -> C . endfm ==> 3 | module 9.6 f A
check <= fmod IMPORT is protecting NAT . sort S . endfm ==> 3 | module 8 statement 1 import
check <= fmod M is sort A . subsort A < B . endfm ==> 3 | module 4 statement 2
check <= fmod M is sorts A B . subsorts A < B < A . endfm ==> 3 | module 9.1 A
check <= fmod M is sorts A B . op a : -> A . op a : -> B . endfm ==> 3 | module 9.2 a
check <= fmod M is sort A . op f : A -> A [comm] . endfm ==> 3 | module 9.3 f
check <= fmod M is sort A . op f : A A -> A [comm] . op f : A A -> A . endfm ==> 3 | module 9.4 f
check <= fmod M is sort A . op g : A -> A . op f : A A -> A [assoc comm id: g] . endfm ==> 3 | module 9.5 f
check <= fmod M is sorts A B C . subsorts A B < C . op f : C C -> C [assoc comm] . op f : A A -> B [ditto] . op f : B B -> A [ditto] . endfm ==> 3 | module 9.7 f A A B
check <= fmod M is sorts A B . subsort A < B . op e : -> B . op f : B B -> A [assoc comm id: e] . endfm ==> 3 | module 9.8 f B
check <= fmod M is sort A . op a : -> A . eq a = X:A [variant] . endfm ==> 3 | module 11 equation 1
check <= fmod M is sort A . op a : -> A . eq a = a . endfm ==> 3 | module 8 statement 3 equation
check <= fmod M is sort . endfm ==> 3 | module 3 statement 1
check <= fmod M is sort A . . sort B . endfm ==> 3 | module 3 statement 2
check <= fmod M is sort A . sort B endfm ==> 3 | module 3 statement 2
check <= fmod M is sort A:B . endfm ==> 3 | module 3 statement 1
check <= fmod M is sort A . op a : -> A . eq b = a [variant] . endfm ==> 3 | module 4 statement 3
check <= fmod M is sort A . op a : -> A . eq a = b [variant] . endfm ==> 3 | module 4 statement 3
check <= fmod M is sorts A B . var X : [A,B] . endfm ==> 3 | module 4 statement 2
check <= fmod M is sort A . op f : A A -> A [ditto] . endfm ==> 3 | module 4 statement 2
check <= fmod M is sort A . var X : A . op X : -> A . endfm ==> 3 | module 5 statement 3
check <= fmod M is sort A . op X : -> A . var X : A . endfm ==> 3 | module 5 statement 3
check <= fmod M is sorts A B . var X : A . var X : B . endfm ==> 3 | module 5 statement 3
check <= fmod M is sort A . op X:A : -> A . endfm ==> 3 | module 5 statement 2
check <= fmod M is sort A . op f : A -> A . eq f(X:A,X:A) = X:A [variant] . endfm ==> 3 | module 6 statement 3
check <= fmod M is sorts A B . op a : -> A . op b : -> B . eq a = b [variant] . endfm ==> 3 | module 7 statement 4
check <= fmod M is sorts A B . op a : -> A . op f : B -> B . eq f(a) = a [variant] . endfm ==> 3 | module 7 statement 4
check <= fmod M is protecting NAT . endfm ==> 3 | module 8 statement 1 import
check <= fmod M is sort A . mb X:A : A . endfm ==> 3 | module 8 statement 2 membership
check <= fmod M is sort A . op a : -> A . ceq a = a if a = a . endfm ==> 3 | module 8 statement 3 condition
check <= fmod M is sort A . op a : -> A . rl a => a . endfm ==> 3 | module 8 statement 3 rule
check <= fmod M is sort A . op a b : A A -> A . endfm ==> 3 | module 8 statement 2 name
check <= fmod M is sort A . op f : A A -> A [assoc] . endfm ==> 3 | module 8 statement 2 assoc
check <= fmod M is sort A . op e : -> A . op f : A A -> A [comm id: e] . endfm ==> 3 | module 8 statement 3 identity
check <= fmod M is sort A . op f : A A -> A [idem] . endfm ==> 3 | module 8 statement 2 attribute
check <= fmod M is sort A . op f : A A A A A A A A A -> A . endfm ==> 3 | module 9.9
check <= fmod M is sorts A B C D . subsorts A B < C . subsorts D < A B . op f : [A] -> A . op f : [A] -> B . op f : C -> D . endfm ==> 3 | module 9.6 f [C]
check <= fmod M is sort B . op e : -> B . op f : [B] [B] -> B [assoc comm id: e] . endfm ==> 3 | module 9.8 f [B]
check <= fmod M is sort B` . op e : -> B` . op f : [B` ] [B` ] -> B` [assoc comm id: e] . endfm ==> 3 | module 9.8 f [B`]
check <= fmod M is sorts A B . op a : -> A . op b : -> B . eq a = a [variant] . eq b = Y:B [variant] . endfm ==> 3 | module 11 equation 2
check <= fmod M is sort A . op a : -> A . eq a = a [variant] . eq X:A = a [variant] . endfm ==> 3 | module 10 equation 2
check <= fmod M is sort A . op a : -> A . eq X:A = a [variant] . eq a = Y:A [variant] . endfm ==> 3 | module 11 equation 2
check <= fmod M is sort A . ops a e : -> A . op f : A A -> A [assoc comm id: e] . eq f(X:A,Y:A) = a [variant] . endfm ==> 3 | module 10 equation 1
check <= fmod M is sort A . ops a e : -> A . op f : A A -> A [assoc comm id: e] . eq f(X:A,a) = a [variant] . endfm ==> 0 | module M sorts 1 kinds 1 operators 3 equations 1 | sorts kept
check <= fmod M is sort A . ops a e : -> A . op f : A A -> A [assoc comm id: e] . eq e = a [variant] . eq X:A = a [variant] . endfm ==> 3 | module 12 equation 1
check <= fmod M is sorts A B . subsort A < B . op a : -> A . op b : -> B . eq b = a [variant] . eq a = b [variant] . endfm ==> 0 | module M sorts 2 kinds 1 operators 2 equations 2 | cause sorts 2
check <= fmod M is sorts A B . subsort A < B . ops c e : -> A . op b : -> B . op h : B B -> B [assoc comm id: e] . eq h(X:B,b) = b [variant] . eq h(X:B,c) = b [variant] . endfm ==> 0 | module M sorts 2 kinds 1 operators 4 equations 2 | cause sorts 2";

#[test]
fn module_texts_are_told_or_refused(rt: HostRuntime) -> Result<(), NoMemory> {
    table_told(&rt, rt.alloc(), TEXTS)
}
