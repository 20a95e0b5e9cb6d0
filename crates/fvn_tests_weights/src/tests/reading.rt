//! Texts of weights of the operators of modules.
ghost use Rattle.fvn_problems.specs.Scopes.{AreNamesOf};

use crate::tests::telling::{module_of, push_answer, push_number};
use fvn_module::{Module, read_module};
use fvn_problems::ProblemFault;
use fvn_terms::NoMemory;
use fvn_weights_reading::read_weights;
use std::alloc::Global;
use std::process::Abort;
use std::string::String;

// Each line has the statements of a module; then a text of weights; and the number of its first fault, or what is
// answered, with the number of the operator, from 0, or of the equation, from 1.
const ROWS: &str =
    "sort S . op a : -> S . op f : S -> S . var X : S . eq f(X) = f(X) [variant] . => f : 1 1 | grows 1
sort S . op a : -> S . op f : S -> S . var X : S . eq f(X) = f(X) [variant] . =>  | grows 1
sorts Nat NatSet . subsort Nat < NatSet . op 0 : -> Nat [ctor] . op s : Nat -> Nat [ctor] . op mt : -> NatSet [ctor] . op _*_ : NatSet NatSet -> NatSet [ctor assoc comm] . vars X Y Z : [NatSet] . eq [idem] : _*_(X,X) = mt [variant] . eq [idem-Coh] : _*_(X,X,Z) = Z [variant] . eq [id] : _*_(X,mt) = X [variant] . => _*_ : 1 1 1 | terminates 0
sorts Nat NatSet . subsort Nat < NatSet . op 0 : -> Nat [ctor] . op s : Nat -> Nat [ctor] . op mt : -> NatSet [ctor] . op _*_ : NatSet NatSet -> NatSet [ctor assoc comm] . vars X Y Z : [NatSet] . eq [idem] : _*_(X,X) = mt [variant] . eq [idem-Coh] : _*_(X,X,Z) = Z [variant] . eq [id] : _*_(X,mt) = X [variant] . =>  | grows 1
sorts Nat NatSet . subsort Nat < NatSet . op 0 : -> Nat [ctor] . op s : Nat -> Nat [ctor] . op mt : -> NatSet [ctor] . op _*_ : NatSet NatSet -> NatSet [ctor assoc comm] . vars X Y Z : [NatSet] . eq [idem] : _*_(X,X) = mt [variant] . eq [idem-Coh] : _*_(X,X,Z) = Z [variant] . eq [id] : _*_(X,mt) = X [variant] . => _*_ : 1 1 0 | grows 1
sort Nat . op 0 : -> Nat . op s : Nat -> Nat . op + : Nat Nat -> Nat . vars X Y : Nat . eq +(0,Y) = Y [variant] . eq +(s(X),Y) = s(+(X,Y)) [variant] . => + : 2 1 1 , s : 1 1 | terminates 0
sort Nat . op 0 : -> Nat . op s : Nat -> Nat . op + : Nat Nat -> Nat . vars X Y : Nat . eq +(0,Y) = Y [variant] . eq +(s(X),Y) = s(+(X,Y)) [variant] . => s : 1 1,+ : 2 1 1 | terminates 0
sort Nat . op 0 : -> Nat . op s : Nat -> Nat . op + : Nat Nat -> Nat . vars X Y : Nat . eq +(0,Y) = Y [variant] . eq +(s(X),Y) = s(+(X,Y)) [variant] . => + : 2 1 0 , s : 1 1 | grows 1
sort Nat . op 0 : -> Nat . op s : Nat -> Nat . op + : Nat Nat -> Nat . vars X Y : Nat . eq +(0,Y) = Y [variant] . eq +(s(X),Y) = s(+(X,Y)) [variant] . => + : 2 1 1 , s : 1 0 | grows 2
sort S . ops a b : -> S . op g : S -> S . op c : S S -> S [comm] . op _+_ : S S -> S [assoc comm] . vars X Y Z U V : S . => _+_ : 2 2 0 | shape 4
sort S . ops a b : -> S . op g : S -> S . op c : S S -> S [comm] . op _+_ : S S -> S [assoc comm] . vars X Y Z U V : S . =>  | terminates 0
sort S . ops a b : -> S . op g : S -> S . op c : S S -> S [comm] . op _+_ : S S -> S [assoc comm] . vars X Y Z U V : S . => c : 2 2 7 | terminates 0
sort S . ops a b : -> S . op g : S -> S . op c : S S -> S [comm] . op _+_ : S S -> S [assoc comm] . vars X Y Z U V : S . => c : 1 2 7 | shape 3
sorts Msg Key . op a : -> Msg . op k : -> Key . ops enc dec : Msg Key -> Msg . vars X M : Msg . vars Y K : Key . eq dec(enc(M,K),K) = M [variant] . => enc : 1 1 1 | terminates 0
sorts Msg Key . op a : -> Msg . op k : -> Key . ops enc dec : Msg Key -> Msg . vars X M : Msg . vars Y K : Key . eq dec(enc(M,K),K) = M [variant] . =>  | grows 1
sorts Elt Set . subsort Elt < Set . ops a b : -> Elt . op mt : -> Set . op _;_ : Set Set -> Set [assoc comm id: mt] . vars X Y : Set . => mt : 1 | shape 3
sorts Elt Set . subsort Elt < Set . ops a b : -> Elt . op mt : -> Set . op _;_ : Set Set -> Set [assoc comm id: mt] . vars X Y : Set . => _;_ : 1 1 1 | shape 3
sorts Elt Set . subsort Elt < Set . ops a b : -> Elt . op mt : -> Set . op _;_ : Set Set -> Set [assoc comm id: mt] . vars X Y : Set . => _;_ : 1 1 0 | terminates 0
sort S . ops a b c d e : -> S . op h : S S -> S [assoc comm id: e] . op f : S S -> S [assoc comm] . var X : S . eq h(X,f(a,b)) = c [variant] . => f : 1 1 1 | terminates 0
sort S . op a : -> S . op f : S -> S . var X : S . eq f(X) = f(X) [variant] . => f : 0 1 | shape 1
sort S . op a : -> S . op g : S -> S . eq g(g(g(g(a)))) = a [variant] . => g : 999999999 1 | big 1
sort S . op a : -> S . op g : S -> S . eq g(g(g(a))) = a [variant] . => g : 999999999 1 | terminates 0
sort S . op a : -> S . ops g h : S -> S . eq h(g(a)) = a [variant] . => a : 922337204 , g : 10 6 , h : 999999999 78147853 | terminates 0
sort S . op a : -> S . ops g h : S -> S . eq h(g(a)) = a [variant] . => a : 922337204 , g : 10 6 , h : 999999999 78147854 | big 1
sort S . op f : S S -> S [comm] . op g : S -> S . var X : S . eq f(X,X) = g(X) [variant] . => f : 1 1 1 , g : 3 0 | grows 1
sort S . op f : S S -> S [comm] . op g : S -> S . var X : S . eq f(X,X) = g(X) [variant] . => f : 1 1 1 , g : 2 0 | terminates 0
sort S . op f : S S -> S [comm] . op g : S -> S . var X : S . eq f(X,X) = g(X) [variant] . => f : 1 2 1 | shape 0
sort S . op a : -> S . op f : S -> S . var X : S . eq f(X) = f(X) [variant] . => f : 000000001 000000001 --- one each | grows 1
sort Bag . ops a b none : -> Bag . op _,_ : Bag Bag -> Bag [assoc comm id: none prec 121] . var X : Bag . => _`,_ : 1 1 0 | terminates 0
sort Bag . ops a b none : -> Bag . op _,_ : Bag Bag -> Bag [assoc comm id: none prec 121] . var X : Bag . => _`,_ : 1 1 1 | shape 3
sort S . op a : -> S . op f : S -> S . var X : S . eq f(X) = f(X) [variant] . => f : 1 1 , f : 1 1 | problem 2
sort S . op a : -> S . op f : S -> S . var X : S . eq f(X) = f(X) [variant] . => q : 1 , q : 1 | problem 2
sort S . op a : -> S . op f : S -> S . var X : S . eq f(X) = f(X) [variant] . => f : 1 1 , | problem 2
sort S . op a : -> S . op f : S -> S . var X : S . eq f(X) = f(X) [variant] . => , f : 1 1 | problem 2
sort S . op a : -> S . op f : S -> S . var X : S . eq f(X) = f(X) [variant] . => , | problem 2
sort S . op a : -> S . op f : S -> S . var X : S . eq f(X) = f(X) [variant] . => f 1 1 | problem 2
sort S . op a : -> S . op f : S -> S . var X : S . eq f(X) = f(X) [variant] . => f : 1 1 . | problem 2
sort S . op a : -> S . op f : S -> S . var X : S . eq f(X) = f(X) [variant] . => f : | problem 2
sort S . op a : -> S . op f : S -> S . var X : S . eq f(X) = f(X) [variant] . => f : x | problem 2
sort S . op a : -> S . op f : S -> S . var X : S . eq f(X) = f(X) [variant] . => f : 1 -1 | problem 2
sort S . op a : -> S . op f : S -> S . var X : S . eq f(X) = f(X) [variant] . => f: 1 1 | problem 2
sort S . op a : -> S . op f : S -> S . var X : S . eq f(X) = f(X) [variant] . => f : 1 0000000001 | problem 2
sort S . op a : -> S . op f : S -> S . var X : S . eq f(X) = f(X) [variant] . => f : 1 1 g : 1 | problem 2
sort S . op a : -> S . op f : S -> S . var X : S . eq f(X) = f(X) [variant] . => f : 1 , , a : 1 | problem 2
sort S . op a : -> S . op f : S -> S . var X : S . eq f(X) = f(X) [variant] . => (f : 1 1) | problem 2
sort S . op a : -> S . op f : S -> S . var X : S . eq f(X) = f(X) [variant] . => q : 1 , f 1 | problem 2
sort S . op a : -> S . op f : S -> S . var X : S . eq f(X) = f(X) [variant] . => q : 1 , f : 1 | problem 3
sort S . op a : -> S . op f : S -> S . var X : S . eq f(X) = f(X) [variant] . => X : 1 | problem 3
sort S . op a : -> S . op f : S -> S . var X : S . eq f(X) = f(X) [variant] . => f : 1 1 , q : 1 , f : 1 1 1 | problem 2
sort S . op a : -> S . op f : S -> S . var X : S . eq f(X) = f(X) [variant] . => f : 1 , q : 1 | problem 4
sort S . op a : -> S . op f : S -> S . var X : S . eq f(X) = f(X) [variant] . => f : 1 1 1 | problem 4
sort S . op a : -> S . op f : S -> S . var X : S . eq f(X) = f(X) [variant] . => f : 1 | problem 4
sort S . op a : -> S . op f : S -> S . var X : S . eq f(X) = f(X) [variant] . => a : 1 1 | problem 4
sort S . op a : -> S . op f : S -> S . var X : S . eq f(X) = f(X) [variant] . => a : 1 , f : 1 1 1 , q : 1 | problem 4
sort S . op a : -> S . op f : S -> S . var X : S . eq f(X) = f(X) [variant] . => f : 1 1 ---( x ) | problem 1";

// The number of a fault of the text.
fn number_of(fault: ProblemFault) -> usize {
    match fault {
        ProblemFault::Lex(_) => 1,
        ProblemFault::Text => 2,
        ProblemFault::UnknownName => 3,
        ProblemFault::Arity => 4,
        _ => 0,
    }
}

// What is answered for a text of weights in a module.
fn push_named(
    text: &mut String,
    alloc: Global,
    module: &Module,
    weights: &[u8],
) -> Result<(), NoMemory>
    requires { AreNamesOf module.now.signature module.now.names }
{
    match read_weights(alloc, module.signature(), module.names(), weights) {
        Ok(weights) => push_answer(text, alloc, module, &weights),
        Err(fault) => push_number(text, alloc, "problem ", number_of(fault)),
    }
}

// The same in a module whose names are recalled.
fn push_read(
    text: &mut String,
    alloc: Global,
    module: &Module,
    weights: &[u8],
) -> Result<(), NoMemory> {
    module.recall_readable();
    push_named(text, alloc, module, weights)
}

// What is read of the weights in the module of a text.
fn push_row(text: &mut String, alloc: Global, module: &str, weights: &str) -> Result<(), NoMemory> {
    match read_module(alloc, module.as_bytes()) {
        Ok(module) => push_read(text, alloc, &module, weights.as_bytes()),
        Err(_) => push_number(text, alloc, "no module ", 0),
    }
}

// What is read is what the row says.
fn assert_row(
    rt: &impl Abort,
    alloc: Global,
    statements: &str,
    weights: &str,
    want: &str,
) -> Result<(), NoMemory> {
    let module = module_of(alloc, statements)?;
    let mut text = String::new(alloc);
    push_row(&mut text, alloc, module.as_str(), weights)?;
    assert_eq!(rt; text.as_str(), want, "at {statements} {weights}");
    Ok(())
}

#[test]
fn weights_are_read(rt: HostRuntime) -> Result<(), NoMemory> {
    for row in ROWS.lines() {
        let (statements, rest) = row.split_once(" => ").unwrap_or((row, "no arrow"));
        let (weights, want) = rest.split_once(" | ").unwrap_or((rest, "no bar"));
        assert_row(&rt, rt.alloc(), statements, weights, want)?;
    }
    Ok(())
}
