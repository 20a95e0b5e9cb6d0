//! The rules of modules, and those that are needed under each head.
use crate::tests::texts::module_of;
use fvn_module::{Module, read_module};
use fvn_rewrite_rules::{Rule, Rules, extend};
use fvn_terms::{Args, NoMemory, OpId, Plain};
use std::alloc::Global;
use std::process::Abort;
use std::string::String;

// Each line has the statements of a module. Then come its rules, each with the number of its equation; behind a bar comes
// for each operator that heads a left side how many of these rules are needed. Operators, sorts and kinds stand as their
// numbers, and variables as their places in their equation; `z` is the new variable of an extension.
// `oracle/rules.py` prints these lines from the modules, by trying instances.
const RULES: &str =
    "sorts Nat NatSet . subsort Nat < NatSet . op 0 : -> Nat . op s : Nat -> Nat . op mt : -> NatSet . op _*_ : NatSet NatSet -> NatSet [assoc comm] . vars X Y Z : [NatSet] . eq _*_(X,X) = mt [variant] . eq _*_(X,mt) = X [variant] . => 1 f3(x0,x0) = f2, 1 f3(x0,f3(x0,z0.2)) = f3(z0.2,f2), 2 f3(x0,f2) = x0, 2 f3(x0,f3(z0.2,f2)) = f3(x0,z0.2) | f3 3
sorts Nat NatSet . subsort Nat < NatSet . op 0 : -> Nat . op s : Nat -> Nat . op mt : -> NatSet . op _*_ : NatSet NatSet -> NatSet [assoc comm] . vars X Y Z : [NatSet] . eq _*_(X,X) = mt [variant] . eq _*_(X,X,Z) = Z [variant] . eq _*_(X,mt) = X [variant] . => 1 f3(x0,x0) = f2, 1 f3(x0,f3(x0,z0.2)) = f3(z0.2,f2), 2 f3(x0,f3(x0,x1)) = x1, 2 f3(x0,f3(x0,f3(z0.2,x1))) = f3(z0.2,x1), 3 f3(x0,f2) = x0, 3 f3(x0,f3(z0.2,f2)) = f3(x0,z0.2) | f3 3
sort S . op mt : -> S . op _*_ : S S -> S [assoc comm id: mt] . var X : S . eq _*_(X,X) = mt [variant] . => 1 f1(x0,x0) = f0, 1 f0 = f0, 1 f1(x0,f1(x0,z0.1)) = z0.1 | f0 1, f1 1
sort Nat . op 0 : -> Nat . op s : Nat -> Nat . op + : Nat Nat -> Nat . vars X Y : Nat . eq +(0,Y) = Y [variant] . eq +(s(X),Y) = s(+(X,Y)) [variant] . => 1 f2(f0,x0) = x0, 2 f2(f1(x0),x1) = f1(f2(x0,x1)) | f2 2
sorts Msg Key . op a : -> Msg . op k : -> Key . ops enc dec : Msg Key -> Msg . vars X M : Msg . vars Y K : Key . eq dec(enc(M,K),K) = M [variant] . => 1 f3(f2(x0,x1),x1) = x0 | f3 1
sort S . ops a b : -> S . op g : S -> S . op c : S S -> S [comm] . op _+_ : S S -> S [assoc comm] . vars X Y : S . eq _+_(a,X) = a [variant] . eq _+_(X,g(Y),Y) = _+_(X,X) [variant] . eq c(X,a) = X [variant] . => 1 f4(x0,f0) = f0, 1 f4(x0,f4(z0.1,f0)) = f4(z0.1,f0), 2 f4(x0,f4(x1,f2(x1))) = f4(x0,x0), 2 f4(x0,f4(z0.1,f4(x1,f2(x1)))) = f4(x0,f4(x0,z0.1)), 3 f3(x0,f0) = x0 | f3 1, f4 4
sorts Elt Set . subsort Elt < Set . ops a b : -> Elt . op mt : -> Set . op u : Set Set -> Set [assoc comm id: mt] . op n : Set Set -> Set [assoc comm id: a] . vars X Y : Set . vars E F : Elt . eq u(E,E,X) = u(E,X) [variant] . eq n(X,u(E,Y)) = n(E,Y) [variant] . => 1 f3(x0,f3(x0,x1)) = f3(x0,x1), 1 f3(x1,f3(f0,f0)) = f3(x1,f0), 1 f3(x0,x0) = x0, 1 f3(f0,f0) = f0, 1 f3(x0,f3(x0,f0)) = f3(x0,f0), 1 f3(f0,f3(f0,f0)) = f3(f0,f0), 1 f3(x0,f3(x0,f3(z0.2,x1))) = f3(x0,f3(z0.2,x1)), 1 f3(z0.2,f3(x1,f3(f0,f0))) = f3(z0.2,f3(x1,f0)), 1 f3(x0,f3(x0,z0.2)) = f3(x0,z0.2), 1 f3(z0.2,f3(f0,f0)) = f3(z0.2,f0), 1 f3(x0,f3(x0,f3(z0.2,f0))) = f3(x0,f3(z0.2,f0)), 1 f3(z0.2,f3(f0,f3(f0,f0))) = f3(z0.2,f3(f0,f0)), 2 f4(x0,f3(x1,x2)) = f4(x1,x2), 2 f4(f2,f3(x1,x2)) = f4(x1,x2), 2 f3(x1,x2) = f4(x1,x2), 2 f4(x0,f3(x2,f0)) = x2, 2 f4(f2,f3(x2,f0)) = x2, 2 f3(x2,f0) = x2, 2 f4(x0,x1) = f4(x1,f2), 2 f4(x1,f2) = f4(x1,f2), 2 x1 = f4(x1,f2), 2 x0 = f2, 2 f2 = f2, 2 f0 = f2, 2 f4(x0,f3(x1,f0)) = x1, 2 f4(f2,f3(x1,f0)) = x1, 2 f3(x1,f0) = x1, 2 f4(x0,f3(f0,f0)) = f0, 2 f4(f2,f3(f0,f0)) = f0, 2 f3(f0,f0) = f0, 2 f4(x0,f4(z0.2,f3(x1,x2))) = f4(z0.2,f4(x1,x2)), 2 f4(z0.2,f4(f2,f3(x1,x2))) = f4(z0.2,f4(x1,x2)), 2 f3(z0.2,f3(x1,x2)) = f3(z0.2,f4(x1,x2)), 2 f4(x0,f4(z0.2,f3(x2,f0))) = f4(z0.2,x2), 2 f4(z0.2,f4(f2,f3(x2,f0))) = f4(z0.2,x2), 2 f3(z0.2,f3(x2,f0)) = f3(z0.2,x2), 2 f4(x0,f4(z0.2,x1)) = f4(z0.2,f4(x1,f2)), 2 f4(z0.2,f4(x1,f2)) = f4(z0.2,f4(x1,f2)), 2 f4(x0,f4(z0.2,f3(x1,f0))) = f4(z0.2,x1), 2 f4(z0.2,f4(f2,f3(x1,f0))) = f4(z0.2,x1), 2 f3(z0.2,f3(x1,f0)) = f3(z0.2,x1), 2 f4(x0,f4(z0.2,f3(f0,f0))) = z0.2, 2 f4(z0.2,f4(f2,f3(f0,f0))) = z0.2, 2 f3(z0.2,f3(f0,f0)) = f3(z0.2,f0) | f0 1, f2 1, f3 1, f4 1
sorts A B . subsort A < B . op e : -> A . op i : -> B . op f : B B -> B [assoc comm id: e] . op g : B B -> B [assoc comm id: i] . op h : B -> A . var X : A . vars Y Z : B . eq h(f(X,Y)) = X [variant] . eq f(X,h(Y)) = h(Y) [variant] . eq f(h(Y),g(Y,Z)) = Z [variant] . => 1 f4(f2(x0,x1)) = x0, 1 f4(x1) = f0, 1 f4(x0) = x0, 1 f4(f0) = f0, 1 f4(f2(x0,f1)) = x0, 1 f4(f1) = f0, 2 f2(x0,f4(x1)) = f4(x1), 2 f4(x1) = f4(x1), 2 f2(x0,f4(f0)) = f4(f0), 2 f4(f0) = f4(f0), 2 f2(x0,f4(f1)) = f4(f1), 2 f4(f1) = f4(f1), 2 f2(x0,f2(z0.2,f4(x1))) = f2(z0.2,f4(x1)), 2 f2(x0,f2(z0.2,f4(f0))) = f2(z0.2,f4(f0)), 2 f2(x0,f2(z0.2,f4(f1))) = f2(z0.2,f4(f1)), 3 f2(f3(x0,x1),f4(x0)) = x1, 3 f2(f3(x1,f0),f4(f0)) = x1, 3 f2(x1,f4(f1)) = x1, 3 f2(f3(x0,f0),f4(x0)) = f0, 3 f2(f3(f0,f0),f4(f0)) = f0, 3 f4(f1) = f0, 3 f2(x0,f4(x0)) = f1, 3 f4(f0) = f1, 3 f2(f1,f4(f1)) = f1, 3 f2(z0.2,f2(f3(x0,x1),f4(x0))) = f2(z0.2,x1), 3 f2(z0.2,f2(f3(x1,f0),f4(f0))) = f2(z0.2,x1), 3 f2(z0.2,f2(x1,f4(f1))) = f2(z0.2,x1), 3 f2(z0.2,f2(f3(x0,f0),f4(x0))) = z0.2, 3 f2(z0.2,f2(f3(f0,f0),f4(f0))) = z0.2, 3 f2(x0,f2(z0.2,f4(x0))) = f2(z0.2,f1), 3 f2(z0.2,f2(f1,f4(f1))) = f2(z0.2,f1) | f2 1, f4 1
sort S . op mt : -> S . op _*_ : S S -> S [assoc comm id: mt] . op - : S -> S . vars X Y : S . eq _*_(X,-(X)) = mt [variant] . eq _*_(X,-(X),Y) = Y [variant] . eq -(mt) = mt [variant] . eq -(-(X)) = X [variant] . => 1 f1(x0,f2(x0)) = f0, 1 f2(f0) = f0, 1 f1(x0,f1(z0.1,f2(x0))) = z0.1, 2 f1(x0,f1(x1,f2(x0))) = x1, 2 f1(x1,f2(f0)) = x1, 2 f1(x0,f2(x0)) = f0, 2 f2(f0) = f0, 2 f1(x0,f1(z0.1,f1(x1,f2(x0)))) = f1(z0.1,x1), 2 f1(z0.1,f1(x1,f2(f0))) = f1(z0.1,x1), 2 f1(x0,f1(z0.1,f2(x0))) = z0.1, 3 f2(f0) = f0, 4 f2(f2(x0)) = x0, 4 f2(f2(f0)) = f0 | f1 1, f2 2
sorts A B . subsort A < B . op f : B -> A . op g : B -> B . var X : B . eq f(X) = g(X) [variant] . eq g(X) = f(X) [variant] . eq g(f(X)) = X [variant] . eq f(g(X)) = f(X) [variant] . eq f(f(X)) = f(X) [variant] . => 1 f0(x0) = f1(x0), 2 f1(x0) = f0(x0), 3 f1(f0(x0)) = x0, 4 f0(f1(x0)) = f0(x0), 5 f0(f0(x0)) = f0(x0) | f0 1, f1 1
sort S . op mt : -> S . op _*_ : S S -> S [assoc comm id: mt] . vars X Y : S . eq _*_(X,X) = mt [variant] . eq _*_(X,Y) = X [variant] . eq _*_(X,X,Y) = Y [variant] . eq mt = mt [variant] . => 1 f1(x0,x0) = f0, 1 f0 = f0, 1 f1(x0,f1(x0,z0.1)) = z0.1, 2 f1(x0,x1) = x0, 2 x1 = f0, 2 x0 = x0, 2 f0 = f0, 2 f1(x0,f1(z0.1,x1)) = f1(x0,z0.1), 3 f1(x0,f1(x0,x1)) = x1, 3 x1 = x1, 3 f1(x0,x0) = f0, 3 f0 = f0, 3 f1(x0,f1(x0,f1(z0.1,x1))) = f1(z0.1,x1), 3 f1(x0,f1(x0,z0.1)) = z0.1, 4 f0 = f0 | f0 1, f1 1
sorts Nat NatSet . subsort Nat < NatSet . op 0 : -> Nat . op s : Nat -> Nat . op mt : -> NatSet . op _*_ : NatSet NatSet -> NatSet [assoc comm] . vars X Y Z : [NatSet] . eq _*_(X,X) = mt [variant] . eq _*_(X,X,Z) = Z [variant] . eq _*_(X,mt) = X [variant] . eq s(X) = s(X) [variant] . eq s(s(X)) = X [variant] . => 1 f3(x0,x0) = f2, 1 f3(x0,f3(x0,z0.2)) = f3(z0.2,f2), 2 f3(x0,f3(x0,x1)) = x1, 2 f3(x0,f3(x0,f3(z0.2,x1))) = f3(z0.2,x1), 3 f3(x0,f2) = x0, 3 f3(x0,f3(z0.2,f2)) = f3(x0,z0.2), 4 f1(x0) = f1(x0), 5 f1(f1(x0)) = x0 | f1 1, f3 3
sort S . ops a b c d e : -> S . op h : S S -> S [assoc comm id: e] . op f : S S -> S [assoc comm] . vars X Y : S . eq h(X,f(a,b)) = c [variant] . eq h(X,Y) = Y [variant] . eq f(X,h(X,Y)) = X [variant] . eq h(X,e) = X [variant] . eq f(e,e) = e [variant] . => 1 f5(x0,f6(f0,f1)) = f2, 1 f6(f0,f1) = f2, 1 f5(x0,f5(z0.1,f6(f0,f1))) = f5(z0.1,f2), 1 f6(z0.1,f6(f0,f1)) = f6(z0.1,f2), 2 f5(x0,x1) = x1, 2 x1 = x1, 2 x0 = f4, 2 f4 = f4, 2 f5(x0,f5(z0.1,x1)) = f5(z0.1,x1), 3 f6(x0,f5(x0,x1)) = x0, 3 f6(x1,f4) = f4, 3 f6(x0,x0) = x0, 3 f6(f4,f4) = f4, 3 f6(x0,f6(z0.1,f5(x0,x1))) = f6(x0,z0.1), 3 f6(z0.1,f6(x1,f4)) = f6(z0.1,f4), 3 f6(x0,f6(x0,z0.1)) = f6(x0,z0.1), 3 f6(z0.1,f6(f4,f4)) = f6(z0.1,f4), 4 x0 = x0, 4 f4 = f4, 5 f6(f4,f4) = f4, 5 f6(z0.1,f6(f4,f4)) = f6(z0.1,f4) | f4 1, f5 1, f6 4
sorts Even Odd Nat . subsorts Even Odd < Nat . op + : Nat Nat -> Nat . op + : Even Even -> Even . op + : Odd Odd -> Even . op + : Even Odd -> Odd . op + : Odd Even -> Odd . vars X Y : Nat . vars E F : Even . eq +(X,Y) = +(Y,X) [variant] . eq +(X,X) = X [variant] . eq +(E,F) = +(F,E) [variant] . eq +(E,X) = X [variant] . eq +(X,+(Y,Y)) = X [variant] . => 1 f0(x0,x1) = f0(x1,x0), 2 f0(x0,x0) = x0, 3 f0(x0,x1) = f0(x1,x0), 4 f0(x0,x1) = x1, 5 f0(x0,f0(x1,x1)) = x0 | f0 1
sorts Elt Set . subsort Elt < Set . ops a b : -> Elt . op mt : -> Set . op u : Set Set -> Set [assoc comm id: mt] . vars X Y : Set . vars E F : Elt . eq u(X,E) = E [variant] . eq u(E,F) = E [variant] . eq u(X,Y) = u(X,Y) [variant] . eq u(E,E,X) = u(E,X) [variant] . eq u(a,X) = a [variant] . => 1 f3(x0,x1) = x1, 1 x1 = x1, 1 f3(x0,f3(z0.2,x1)) = f3(z0.2,x1), 2 f3(x0,x1) = x0, 2 f3(x0,f3(z0.2,x1)) = f3(x0,z0.2), 3 f3(x0,x1) = f3(x0,x1), 3 x1 = x1, 3 x0 = x0, 3 f2 = f2, 3 f3(x0,f3(z0.2,x1)) = f3(x0,f3(z0.2,x1)), 4 f3(x0,f3(x0,x1)) = f3(x0,x1), 4 f3(x0,x0) = x0, 4 f3(x0,f3(x0,f3(z0.2,x1))) = f3(x0,f3(z0.2,x1)), 4 f3(x0,f3(x0,z0.2)) = f3(x0,z0.2), 5 f3(x0,f0) = f0, 5 f0 = f0, 5 f3(x0,f3(z0.2,f0)) = f3(z0.2,f0) | f0 1, f2 1, f3 1
sorts Elt Set . subsort Elt < Set . op o : -> Elt . op u : Set Set -> Set [assoc comm id: o] . op n : Set Set -> Set [comm] . vars X Y : Set . vars E F : Elt . eq u(E,F) = F [variant] . eq n(E,X) = E [variant] . eq n(u(X,Y),Y) = X [variant] . eq u(n(X,X),E) = n(X,E) [variant] . eq n(o,X) = o [variant] . => 1 f1(x0,x1) = x1, 1 x1 = x1, 1 x0 = f0, 1 f0 = f0, 1 f1(x0,f1(z0.2,x1)) = f1(z0.2,x1), 2 f2(x0,x1) = x0, 2 f2(x1,f0) = f0, 2 f2(x0,f0) = x0, 2 f2(f0,f0) = f0, 3 f2(x1,f1(x0,x1)) = x0, 3 f2(x1,x1) = f0, 3 f2(x0,f0) = x0, 3 f2(f0,f0) = f0, 4 f1(x1,f2(x0,x0)) = f2(x0,x1), 4 f1(x1,f2(f0,f0)) = f2(x1,f0), 4 f2(x0,x0) = f2(x0,f0), 4 f2(f0,f0) = f2(f0,f0), 4 f1(z0.2,f1(x1,f2(x0,x0))) = f1(z0.2,f2(x0,x1)), 4 f1(z0.2,f1(x1,f2(f0,f0))) = f1(z0.2,f2(x1,f0)), 5 f2(x0,f0) = f0, 5 f2(f0,f0) = f0 | f0 1, f1 1, f2 2
sorts A B C . subsorts A < B < C . ops e : -> A . ops i : -> C . op p : C C -> C [assoc comm id: e] . op q : C C -> C [assoc comm id: i] . op r : A -> B . vars X : A . vars Y : B . vars Z : C . eq p(X,Y) = Y [variant] . eq q(X,Y) = X [variant] . eq q(Y,Z) = Z [variant] . eq r(X) = X [variant] . eq p(r(X),Z) = q(X,Z) [variant] . => 1 f2(x0,x1) = x1, 1 x1 = x1, 1 x0 = f0, 1 f0 = f0, 1 f2(x0,f2(z0.3,x1)) = f2(z0.3,x1), 2 f3(x0,x1) = x0, 2 f3(x1,f0) = f0, 2 f3(x0,f0) = x0, 2 f3(f0,f0) = f0, 2 f3(x0,f3(z0.3,x1)) = f3(x0,z0.3), 2 f3(z0.3,f3(x1,f0)) = f3(z0.3,f0), 2 f3(x0,f3(z0.3,f0)) = f3(x0,z0.3), 2 f3(z0.3,f3(f0,f0)) = f3(z0.3,f0), 3 f3(x0,x1) = x1, 3 f3(x1,f0) = x1, 3 f3(x0,f0) = f0, 3 f3(f0,f0) = f0, 3 x0 = f1, 3 f0 = f1, 3 f3(x0,f3(z0.3,x1)) = f3(z0.3,x1), 3 f3(z0.3,f3(x1,f0)) = f3(z0.3,x1), 3 f3(x0,f3(z0.3,f0)) = f3(z0.3,f0), 3 f3(z0.3,f3(f0,f0)) = f3(z0.3,f0), 4 f4(x0) = x0, 4 f4(f0) = f0, 5 f2(x1,f4(x0)) = f3(x0,x1), 5 f2(x1,f4(f0)) = f3(x1,f0), 5 f4(x0) = f3(x0,f0), 5 f4(f0) = f3(f0,f0), 5 f2(f1,f4(x0)) = x0, 5 f2(f1,f4(f0)) = f0, 5 f2(z0.3,f2(x1,f4(x0))) = f2(z0.3,f3(x0,x1)), 5 f2(z0.3,f2(x1,f4(f0))) = f2(z0.3,f3(x1,f0)), 5 f2(z0.3,f2(f1,f4(x0))) = f2(x0,z0.3), 5 f2(z0.3,f2(f1,f4(f0))) = z0.3 | f0 1, f2 1, f3 1, f4 1
sorts L R T . subsorts L R < T . ops l : -> L . ops r : -> R . op s : T T -> T [assoc comm] . op s : L L -> L [ditto] . op s : R R -> R [ditto] . vars X Y : T . vars A : L . vars B : R . eq s(A,A) = A [variant] . eq s(X,X) = l [variant] . eq s(A,B) = A [variant] . eq s(B,X) = s(X,r) [variant] . eq s(X,Y) = X [variant] . => 1 f2(x0,x0) = x0, 1 f2(x0,f2(x0,z0.3)) = f2(x0,z0.3), 2 f2(x0,x0) = f0, 2 f2(x0,f2(x0,z0.3)) = f2(z0.3,f0), 3 f2(x0,x1) = x0, 3 f2(x0,f2(z0.3,x1)) = f2(x0,z0.3), 4 f2(x0,x1) = f2(x1,f1), 4 f2(x0,f2(z0.3,x1)) = f2(z0.3,f2(x1,f1)), 5 f2(x0,x1) = x0, 5 f2(x0,f2(z0.3,x1)) = f2(x0,z0.3) | f2 2
sorts M K . ops k : -> K . op enc : M K -> M . op dec : M K -> M . op inv : K -> K . vars X : M . vars Y : K . eq dec(enc(X,Y),Y) = X [variant] . eq enc(dec(X,Y),Y) = X [variant] . eq inv(inv(Y)) = Y [variant] . eq enc(X,inv(k)) = X [variant] . eq inv(k) = k [variant] . => 1 f2(f1(x0,x1),x1) = x0, 2 f1(f2(x0,x1),x1) = x0, 3 f3(f3(x0)) = x0, 4 f1(x0,f3(f0)) = x0, 5 f3(f0) = f0 | f1 2, f2 1, f3 2
sorts Z N P . subsorts Z P < N . op 0 : -> Z . op s : N -> P . op + : N N -> N [assoc comm id: 0] . op + : P N -> P [ditto] . vars X Y : N . vars U : P . eq +(X,s(Y)) = s(+(X,Y)) [variant] . eq +(X,Y) = Y [variant] . eq s(X) = X [variant] . eq +(U,X) = U [variant] . eq s(s(X)) = s(X) [variant] . => 1 f2(x0,f1(x1)) = f1(f2(x0,x1)), 1 f1(x1) = f1(x1), 1 f2(x0,f1(f0)) = f1(x0), 1 f1(f0) = f1(f0), 1 f2(x0,f2(z0.3,f1(x1))) = f2(z0.3,f1(f2(x0,x1))), 1 f2(x0,f2(z0.3,f1(f0))) = f2(z0.3,f1(x0)), 2 f2(x0,x1) = x1, 2 x1 = x1, 2 x0 = f0, 2 f0 = f0, 2 f2(x0,f2(z0.3,x1)) = f2(z0.3,x1), 3 f1(x0) = x0, 3 f1(f0) = f0, 4 f2(x0,x1) = x0, 4 x0 = x0, 4 f2(x0,f2(z0.3,x1)) = f2(x0,z0.3), 5 f1(f1(x0)) = f1(x0), 5 f1(f1(f0)) = f1(f0) | f0 1, f1 1, f2 1
sorts G H . subsort G < H . op 1 : -> G . op * : H H -> H [assoc comm id: 1] . op * : G G -> G [ditto] . op - : H -> H . op - : G -> G . vars X Y : H . vars V W : G . eq *(X,-(X)) = 1 [variant] . eq -(-(X)) = X [variant] . eq -(1) = 1 [variant] . eq *(V,X) = X [variant] . eq -(*(X,Y)) = *(-(X),-(Y)) [variant] . => 1 f1(x0,f2(x0)) = f0, 1 f2(f0) = f0, 1 f1(x0,f1(z0.2,f2(x0))) = z0.2, 2 f2(f2(x0)) = x0, 2 f2(f2(f0)) = f0, 3 f2(f0) = f0, 4 f1(x0,x1) = x1, 4 x1 = x1, 4 x0 = f0, 4 f0 = f0, 4 f1(x0,f1(z0.2,x1)) = f1(z0.2,x1), 5 f2(f1(x0,x1)) = f1(f2(x0),f2(x1)), 5 f2(x1) = f1(f2(x1),f2(f0)), 5 f2(x0) = f1(f2(x0),f2(f0)), 5 f2(f0) = f1(f2(f0),f2(f0)) | f0 1, f1 1, f2 1
sorts A B . subsort A < B . op f : B -> A . op g : B -> B . vars X : B . var Y : A . eq g(X) = f(X) [variant] . eq f(Y) = Y [variant] . eq g(Y) = f(g(Y)) [variant] . eq f(f(X)) = g(X) [variant] . => 1 f1(x0) = f0(x0), 2 f0(x0) = x0, 3 f1(x0) = f0(f1(x0)), 4 f0(f0(x0)) = f1(x0) | f0 1, f1 1
sorts A B . subsort A < B . op e : -> A . op f : B B -> B [assoc comm id: e] . op h : B -> A . var X : A . vars Y Z : B . eq h(f(X,Y)) = X [variant] . eq f(X,h(Y)) = h(Y) [variant] . eq f(h(Y),h(Z)) = f(Y,Z) [variant] . => 1 f2(f1(x0,x1)) = x0, 1 f2(x1) = f0, 1 f2(x0) = x0, 1 f2(f0) = f0, 2 f1(x0,f2(x1)) = f2(x1), 2 f2(x1) = f2(x1), 2 f1(x0,f2(f0)) = f2(f0), 2 f2(f0) = f2(f0), 2 f1(x0,f1(z0.2,f2(x1))) = f1(z0.2,f2(x1)), 2 f1(x0,f1(z0.2,f2(f0))) = f1(z0.2,f2(f0)), 3 f1(f2(x0),f2(x1)) = f1(x0,x1), 3 f1(f2(x1),f2(f0)) = x1, 3 f1(f2(x0),f2(f0)) = x0, 3 f1(f2(f0),f2(f0)) = f0, 3 f1(z0.2,f1(f2(x0),f2(x1))) = f1(x0,f1(z0.2,x1)), 3 f1(z0.2,f1(f2(x1),f2(f0))) = f1(z0.2,x1), 3 f1(z0.2,f1(f2(x0),f2(f0))) = f1(x0,z0.2), 3 f1(z0.2,f1(f2(f0),f2(f0))) = z0.2 | f1 1, f2 1
sorts E N . subsort E < N . op z : -> E . op s : N -> N . op d : N -> E . op + : N N -> N [assoc comm id: z] . op + : E E -> E [ditto] . vars X Y : N . vars U V : E . eq d(+(X,Y)) = +(d(X),d(Y)) [variant] . eq +(d(X),U) = s(U) [variant] . eq +(U,V) = U [variant] . => 1 f2(f3(x0,x1)) = f3(f2(x0),f2(x1)), 1 f2(x1) = f3(f2(x1),f2(f0)), 1 f2(x0) = f3(f2(x0),f2(f0)), 1 f2(f0) = f3(f2(f0),f2(f0)), 2 f3(x1,f2(x0)) = f1(x1), 2 f3(x1,f2(f0)) = f1(x1), 2 f2(x0) = f1(f0), 2 f2(f0) = f1(f0), 2 f3(z0.2,f3(x1,f2(x0))) = f3(z0.2,f1(x1)), 2 f3(z0.2,f3(x1,f2(f0))) = f3(z0.2,f1(x1)), 3 f3(x0,x1) = x0, 3 x1 = f0, 3 x0 = x0, 3 f0 = f0, 3 f3(x0,f3(z0.2,x1)) = f3(x0,z0.2) | f0 1, f2 1, f3 1
sorts P Q R S . subsorts P < Q R < S . op a : -> P . op m : Q Q -> Q [comm] . op m : R R -> R [comm] . op m : P P -> P [comm] . op m : S S -> S [comm] . vars X Y : S . var B : Q . var C : R . var D : P . eq m(X,Y) = m(Y,X) [variant] . eq m(B,B) = B [variant] . eq m(B,D) = B [variant] . eq m(B,C) = m(C,B) [variant] . eq m(X,X) = X [variant] . => 1 f1(x0,x1) = f1(x0,x1), 2 f1(x0,x0) = x0, 3 f1(x0,x1) = x0, 4 f1(x0,x1) = f1(x0,x1), 5 f1(x0,x0) = x0 | f1 1
sort A . op f : [A] -> A . op g : A -> A . var X : [A] . eq f(X) = g(X) [variant] . => 1 f0(x0) = f1(x0) | f0 1";

#[cycle(show)]
fn show(out: &mut String, alloc: Global, t: &Plain) -> Result<(), NoMemory> {
    match t {
        Plain::Var(x) => {
            let text = if x.fresh {
                format!(in alloc; "z{}.{}", x.name, x.sort.0)?
            } else {
                format!(in alloc; "x{}", x.name)?
            };
            out.push_str(&text)?;
        }
        Plain::App(f, us) => {
            out.push_str(&format!(in alloc; "f{}", f.0)?)?;
            show_all(out, alloc, us)?;
        }
    }
    Ok(())
}

#[cycle(show)]
fn show_all(out: &mut String, alloc: Global, us: &Args) -> Result<(), NoMemory> {
    let mut before = '(';
    for u in &us.items {
        out.push(before)?;
        before = ',';
        show(out, alloc, u)?;
    }
    if before == ',' {
        out.push(')')?;
    }
    Ok(())
}

fn show_rule(out: &mut String, alloc: Global, rule: &Rule) -> Result<(), NoMemory> {
    let left = rule.left.to_plain(alloc)?;
    let right = rule.right.to_plain(alloc)?;
    out.push_str(&format!(in alloc; "{} ", rule.equation)?)?;
    show(out, alloc, &left)?;
    out.push_str(" = ")?;
    show(out, alloc, &right)
}

fn show_rules(out: &mut String, alloc: Global, rules: &[Rule]) -> Result<(), NoMemory> {
    let mut before = "";
    for rule in rules {
        out.push_str(before)?;
        before = ", ";
        show_rule(out, alloc, rule)?;
    }
    Ok(())
}

// How many rules are needed under each of the first operators.
fn show_needed(out: &mut String, alloc: Global, rules: &Rules) -> Result<(), NoMemory> {
    let mut before = " | ";
    for n in 0..16 {
        let count = rules.headed(OpId(n)).len();
        if count > 0 {
            out.push_str(&format!(in alloc; "{before}f{n} {count}")?)?;
            before = ", ";
        }
    }
    Ok(())
}

fn shown_rules(alloc: Global, rules: &Rules) -> Result<String, NoMemory> {
    let mut out = String::new(alloc);
    show_rules(&mut out, alloc, rules.rules())?;
    show_needed(&mut out, alloc, rules)?;
    Ok(out)
}

fn shown(alloc: Global, module: &Module) -> Result<String, NoMemory> {
    module.recall_readable();
    let rules = extend(alloc, module.signature(), module.equations())?;
    shown_rules(alloc, &rules)
}

// The rules of a text.
fn shown_of(alloc: Global, bytes: &[u8]) -> Result<String, NoMemory> {
    match read_module(alloc, bytes) {
        Ok(module) => shown(alloc, &module),
        Err(_) => Ok(String::new(alloc)),
    }
}

fn assert_shown(
    rt: &impl Abort,
    alloc: Global,
    statements: &str,
    want: &str,
) -> Result<(), NoMemory> {
    let text = module_of(alloc, statements)?;
    let out = shown_of(alloc, text.as_bytes())?;
    assert_eq!(rt; out.as_str(), want, "at {statements}");
    Ok(())
}

#[test]
fn rules_are_these(rt: HostRuntime) -> Result<(), NoMemory> {
    for row in RULES.lines() {
        let (statements, want) = row.split_once(" => ").unwrap_or((row, "no row"));
        assert_shown(&rt, rt.alloc(), statements, want)?;
    }
    Ok(())
}

// Adds 256 equations to statements, and the rule of each to what is shown: a free left side has no other.
fn push_many(alloc: Global, statements: &mut String, want: &mut String) -> Result<(), NoMemory> {
    let mut before = "";
    for n in 1..=256u32 {
        statements.push_str(" eq g(g(X)) = a [variant] .")?;
        want.push_str(&format!(in alloc; "{before}{n} f1(f1(x0)) = f0")?)?;
        before = ", ";
    }
    Ok(())
}

#[test]
fn as_many_equations_as_a_module_has(rt: HostRuntime) -> Result<(), NoMemory> {
    let alloc = rt.alloc();
    let mut statements = String::new(alloc);
    let mut want = String::new(alloc);
    statements.push_str("sort S . op a : -> S . op g : S -> S . var X : S .")?;
    push_many(alloc, &mut statements, &mut want)?;
    want.push_str(" | f1 1")?;
    assert_shown(&rt, alloc, statements.as_str(), want.as_str())
}
