//! Weights of the operators of modules.
use crate::tests::telling::{module_of, push_answer, push_number};
use fvn_base::Seq;
use fvn_module::read_module;
use fvn_terms::NoMemory;
use fvn_weights::{Weight, Weights};
use std::alloc::Global;
use std::process::Abort;
use std::string::String;

// Each line has the statements of a module; then, for each operator in order, its coefficients and its constant; and
// what is answered, with the number of the operator, from 0, or of the equation, from 1.
const ROWS: &str =
    "sorts Nat NatSet . subsort Nat < NatSet . op mt : -> NatSet . op _*_ : NatSet NatSet -> NatSet [assoc comm] . vars X Y : [NatSet] . eq _*_(X,X) = mt [variant] . eq _*_(X,mt) = X [variant] . => 0, 1 1 1 | terminates 0
sorts Nat NatSet . subsort Nat < NatSet . op mt : -> NatSet . op _*_ : NatSet NatSet -> NatSet [assoc comm] . vars X Y : [NatSet] . eq _*_(X,X) = mt [variant] . eq _*_(X,mt) = X [variant] . => 0, 1 1 0 | grows 1
sort Nat . op 0 : -> Nat . op s : Nat -> Nat . op + : Nat Nat -> Nat . vars X Y : Nat . eq +(0,Y) = Y [variant] . eq +(s(X),Y) = s(+(X,Y)) [variant] . => 0, 1 1, 2 1 1 | terminates 0
sort Nat . op 0 : -> Nat . op s : Nat -> Nat . op + : Nat Nat -> Nat . vars X Y : Nat . eq +(0,Y) = Y [variant] . eq +(s(X),Y) = s(+(X,Y)) [variant] . => 0, 1 1, 2 1 0 | grows 1
sort Nat . op 0 : -> Nat . op s : Nat -> Nat . op + : Nat Nat -> Nat . vars X Y : Nat . eq +(0,Y) = Y [variant] . eq +(s(X),Y) = s(+(X,Y)) [variant] . => 0, 1 0, 2 1 1 | grows 2
sort Nat . op 0 : -> Nat . op s : Nat -> Nat . op + : Nat Nat -> Nat . vars X Y : Nat . eq +(0,Y) = Y [variant] . eq +(s(X),Y) = s(+(X,Y)) [variant] . => 1, 1 1, 1 1 0 | grows 2
sort S . op _+_ : S S -> S [assoc comm] . => 1 1 0 | terminates 0
sort S . op _+_ : S S -> S [assoc comm] . => 2 2 0 | shape 0
sort S . op _+_ : S S -> S [assoc comm] . => 1 1 9 | terminates 0
sort S . op a : -> S . op f : S -> S . var X : S . eq f(X) = f(X) [variant] . => 0, 1 1 | grows 1
sort S . op a : -> S . op f : S -> S . var X : S . eq f(X) = f(X) [variant] . => 0, 0 1 | shape 1
sorts Msg Key . op a : -> Msg . op k : -> Key . ops enc dec : Msg Key -> Msg . var X : Msg . var Y : Key . eq dec(enc(X,Y),Y) = X [variant] . => 0, 0, 1 1 1, 1 1 0 | terminates 0
sorts Msg Key . op a : -> Msg . op k : -> Key . ops enc dec : Msg Key -> Msg . var X : Msg . var Y : Key . eq dec(enc(X,Y),Y) = X [variant] . => 0, 0, 1 1 0, 1 1 0 | grows 1
sort S . op mt : -> S . op _;_ : S S -> S [assoc comm id: mt] . => 1, 1 1 0 | shape 1
sort S . op mt : -> S . op _;_ : S S -> S [assoc comm id: mt] . => 0, 1 1 1 | shape 1
sort S . op mt : -> S . op _;_ : S S -> S [assoc comm id: mt] . => 0, 1 1 0 | terminates 0
sort S . op mt : -> S . op _;_ : S S -> S [assoc comm id: mt] . => 0, 1 2 0 | shape 1
sort S . ops a b c d e : -> S . op h : S S -> S [assoc comm id: e] . op f : S S -> S [assoc comm] . vars X Y : S . eq h(X,f(a,b)) = c [variant] . => 0, 0, 0, 0, 0, 1 1 0, 1 1 1 | terminates 0
sort S . op a : -> S . op g : S -> S . eq g(g(g(g(a)))) = a [variant] . => 0, 999999999 1 | big 1
sort S . op a : -> S . op g : S -> S . eq g(g(g(a))) = a [variant] . => 0, 999999999 1 | terminates 0
sort S . op a : -> S . ops g h : S -> S . eq h(g(a)) = a [variant] . => 922337204, 10 6, 999999999 78147853 | terminates 0
sort S . op a : -> S . ops g h : S -> S . eq h(g(a)) = a [variant] . => 922337204, 10 6, 999999999 78147854 | big 1
sort S . op f : S S -> S [comm] . op g : S -> S . var X : S . eq f(X,X) = g(X) [variant] . => 1 1 1, 3 0 | grows 1
sort S . op f : S S -> S [comm] . op g : S -> S . var X : S . eq f(X,X) = g(X) [variant] . => 1 1 1, 2 0 | terminates 0
sort S . op f : S S -> S [comm] . op g : S -> S . var X : S . eq f(X,X) = g(X) [variant] . => 2 2 1, 4 0 | terminates 0
sort S . op f : S S -> S [comm] . op g : S -> S . var X : S . eq f(X,X) = g(X) [variant] . => 1 2 1, 1 0 | shape 0
sort S . op a : -> S . op g : S -> S . var X : S . eq g(g(X)) = a [variant] . => 0, 4294967296 1 | big 1
sort S . op a : -> S . op g : S -> S . var X : S . eq g(X) = a [variant] . => 0, 9223372036854775807 1 | terminates 0
sort S . op a : -> S . op g : S -> S . var X : S . eq g(X) = a [variant] . => 0, 9223372036854775808 1 | big 1
sort S . op a : -> S . op f : S S -> S . eq f(a,a) = a [variant] . => 9223372036854775808, 1 1 1 | big 1
sort S . ops a b : -> S . eq a = b [variant] . => 1, 18446744073709551615 | big 1
sort S . ops a b : -> S . eq a = b [variant] . => 9223372036854775807, 9223372036854775806 | terminates 0
sort S . ops a b c : -> S . eq a = b [variant] . eq b = c [variant] . => 1, 1, 18446744073709551615 | grows 1
sort S . ops a b c : -> S . eq b = c [variant] . eq a = b [variant] . => 1, 1, 18446744073709551615 | big 1
sort S . op a : -> S . op f : S S -> S . vars X Y : S . eq f(X,f(Y,X)) = f(X,Y) [variant] . => 0, 1 1 1 | terminates 0
sort S . op a : -> S . op f : S S -> S . vars X Y : S . eq f(X,f(Y,X)) = f(X,Y) [variant] . => 0, 1 1 0 | grows 1
sort S . op a : -> S . op f : S S -> S . vars X Y : S . eq f(f(X,Y),Y) = f(Y,X) [variant] . => 0, 1 2 1 | grows 1
sort S . op a : -> S . op f : S S -> S . vars X Y : S . eq f(f(X,Y),Y) = f(Y,X) [variant] . => 0, 2 1 1 | terminates 0
sorts A B . op f : A B -> A . op p : B B -> A . eq f(f(X:A,X:B),Y:B) = p(X:B,X:B) [variant] . => 1 1 1, 1 1 0 | grows 1
sorts A B . op f : A B -> A . op p : B B -> A . eq f(f(f(X:A,X:B),Y:B),X:B) = p(X:B,X:B) [variant] . => 1 1 1, 1 1 0 | terminates 0
sorts A B . op f : A B -> A . op p : B B -> A . eq f(f(f(X:A,Y:B),X:B),Y:B) = f(p(Y:B,Y:B),X:B) [variant] . => 1 1 1, 1 1 0 | terminates 0
sorts A B . op f : A B -> A . op p : B B -> A . eq f(f(f(X:A,Y:B),X:B),Y:B) = f(p(X:B,Y:B),X:B) [variant] . => 1 1 1, 1 1 0 | grows 1";

// The weight of an operator: its coefficients and its constant.
fn weight_of(alloc: Global, text: &str) -> Result<Weight, NoMemory> {
    let mut numbers = Vec::new(alloc);
    for word in text.split(' ') {
        numbers.push(word.parse::<u64>().unwrap_or(0))?;
    }
    let constant = numbers.pop().unwrap_or(0);
    Ok(Weight {
        coefficients: Seq::from_vec(numbers),
        constant,
    })
}

// The weights of operators, with commas between.
fn weights_of(alloc: Global, text: &str) -> Result<Weights, NoMemory> {
    let mut list = Vec::new(alloc);
    for part in text.split(", ") {
        let weight = weight_of(alloc, part)?;
        list.push(weight)?;
    }
    Ok(Weights {
        list: Seq::from_vec(list),
    })
}

// What is answered for the module of a text.
fn push_row(
    text: &mut String,
    alloc: Global,
    module: &str,
    weights: &Weights,
) -> Result<(), NoMemory> {
    match read_module(alloc, module.as_bytes()) {
        Ok(module) => push_answer(text, alloc, &module, weights),
        Err(_) => push_number(text, alloc, "no module ", 0),
    }
}

// What is answered is what the row says.
fn assert_row(
    rt: &impl Abort,
    alloc: Global,
    statements: &str,
    list: &str,
    want: &str,
) -> Result<(), NoMemory> {
    let module = module_of(alloc, statements)?;
    let weights = weights_of(alloc, list)?;
    let mut text = String::new(alloc);
    push_row(&mut text, alloc, module.as_str(), &weights)?;
    assert_eq!(rt; text.as_str(), want, "at {statements} {list}");
    Ok(())
}

#[test]
fn weights_are_weighed(rt: HostRuntime) -> Result<(), NoMemory> {
    for row in ROWS.lines() {
        let (statements, rest) = row.split_once(" => ").unwrap_or((row, "no arrow"));
        let (list, want) = rest.split_once(" | ").unwrap_or((rest, "no bar"));
        assert_row(&rt, rt.alloc(), statements, list, want)?;
    }
    Ok(())
}
