//! What becomes of the equations of modules.
ghost use Rattle.std.specs.Prelude.{All};
ghost use Rattle.fvn_theory.specs.Equations.{IsReadableEquation};
ghost use Rattle.fvn_cohere.specs.Promises.{IsNumberIn};

use crate::tests::texts::module_of;
use fvn_cohere::{Collapse, LeftFault, first_left_fault, instances_fit, left_collapses, sort_loss};
use fvn_module::{Module, read_module};
use fvn_signature::Signature;
use fvn_terms::NoMemory;
use fvn_theory::Equation;
use std::alloc::Global;
use std::process::Abort;
use std::string::String;

// Each line has the statements of a module. Then comes for each equation v where its left side becomes a variable when
// some, perhaps none, of its variables are identities, i where it becomes an identity and never a variable, and - else;
// behind a bar the number of the first equation that loses a sort, or 0; and behind another the first left side that is
// at fault. `oracle/equations.py` prints these lines from the modules, by trying instances.
const EQUATIONS: &str =
    "sorts A B . subsort A < B . op f : B -> A . op g : B -> B . var X : B . eq f(X) = g(X) [variant] . eq g(X) = f(X) [variant] . eq g(f(X)) = X [variant] . eq f(g(X)) = f(X) [variant] . eq f(f(X)) = f(X) [variant] . => - - - - - | 1 | none 0
sort S . op mt : -> S . op _*_ : S S -> S [assoc comm id: mt] . vars X Y : S . eq _*_(X,X) = mt [variant] . eq _*_(X,Y) = X [variant] . eq _*_(X,X,Y) = Y [variant] . eq mt = mt [variant] . => i v v i | 0 | identity 1
sorts Nat NatSet . subsort Nat < NatSet . op 0 : -> Nat . op s : Nat -> Nat . op mt : -> NatSet . op _*_ : NatSet NatSet -> NatSet [assoc comm] . vars X Y Z : [NatSet] . eq _*_(X,X) = mt [variant] . eq _*_(X,X,Z) = Z [variant] . eq _*_(X,mt) = X [variant] . eq s(X) = s(X) [variant] . eq s(s(X)) = X [variant] . => - - - - - | 0 | none 0
sort S . ops a b c d e : -> S . op h : S S -> S [assoc comm id: e] . op f : S S -> S [assoc comm] . vars X Y : S . eq h(X,f(a,b)) = c [variant] . eq h(X,Y) = Y [variant] . eq f(X,h(X,Y)) = X [variant] . eq h(X,e) = X [variant] . eq f(e,e) = e [variant] . => - v - v - | 0 | variable 2
sorts Even Odd Nat . subsorts Even Odd < Nat . op + : Nat Nat -> Nat . op + : Even Even -> Even . op + : Odd Odd -> Even . op + : Even Odd -> Odd . op + : Odd Even -> Odd . vars X Y : Nat . vars E F : Even . eq +(X,Y) = +(Y,X) [variant] . eq +(X,X) = X [variant] . eq +(E,F) = +(F,E) [variant] . eq +(E,X) = X [variant] . eq +(X,+(Y,Y)) = X [variant] . => - - - - - | 2 | none 0
sorts Elt Set . subsort Elt < Set . ops a b : -> Elt . op mt : -> Set . op u : Set Set -> Set [assoc comm id: mt] . vars X Y : Set . vars E F : Elt . eq u(X,E) = E [variant] . eq u(E,F) = E [variant] . eq u(X,Y) = u(X,Y) [variant] . eq u(E,E,X) = u(E,X) [variant] . eq u(a,X) = a [variant] . => v - v - - | 0 | variable 1
sorts Elt Set . subsort Elt < Set . op o : -> Elt . op u : Set Set -> Set [assoc comm id: o] . op n : Set Set -> Set [comm] . vars X Y : Set . vars E F : Elt . eq u(E,F) = F [variant] . eq n(E,X) = E [variant] . eq n(u(X,Y),Y) = X [variant] . eq u(n(X,X),E) = n(X,E) [variant] . eq n(o,X) = o [variant] . => v - - - - | 0 | variable 1
sorts A B C . subsorts A < B < C . ops e : -> A . ops i : -> C . op p : C C -> C [assoc comm id: e] . op q : C C -> C [assoc comm id: i] . op r : A -> B . vars X : A . vars Y : B . vars Z : C . eq p(X,Y) = Y [variant] . eq q(X,Y) = X [variant] . eq q(Y,Z) = Z [variant] . eq r(X) = X [variant] . eq p(r(X),Z) = q(X,Z) [variant] . => v - v - - | 3 | variable 1
sorts L R T . subsorts L R < T . ops l : -> L . ops r : -> R . op s : T T -> T [assoc comm] . op s : L L -> L [ditto] . op s : R R -> R [ditto] . vars X Y : T . vars A : L . vars B : R . eq s(A,A) = A [variant] . eq s(X,X) = l [variant] . eq s(A,B) = A [variant] . eq s(B,X) = s(X,r) [variant] . eq s(X,Y) = X [variant] . => - - - - - | 2 | none 0
sorts M K . ops k : -> K . op enc : M K -> M . op dec : M K -> M . op inv : K -> K . vars X : M . vars Y : K . eq dec(enc(X,Y),Y) = X [variant] . eq enc(dec(X,Y),Y) = X [variant] . eq inv(inv(Y)) = Y [variant] . eq enc(X,inv(k)) = X [variant] . eq inv(k) = k [variant] . => - - - - - | 0 | none 0
sorts Z N P . subsorts Z P < N . op 0 : -> Z . op s : N -> P . op + : N N -> N [assoc comm id: 0] . op + : P N -> P [ditto] . vars X Y : N . vars U : P . eq +(X,s(Y)) = s(+(X,Y)) [variant] . eq +(X,Y) = Y [variant] . eq s(X) = X [variant] . eq +(U,X) = U [variant] . eq s(s(X)) = s(X) [variant] . => - v - v - | 2 | variable 2
sorts G H . subsort G < H . op 1 : -> G . op * : H H -> H [assoc comm id: 1] . op * : G G -> G [ditto] . op - : H -> H . op - : G -> G . vars X Y : H . vars V W : G . eq *(X,-(X)) = 1 [variant] . eq -(-(X)) = X [variant] . eq -(1) = 1 [variant] . eq *(V,X) = X [variant] . eq -(*(X,Y)) = *(-(X),-(Y)) [variant] . => - - - v - | 0 | variable 4
sorts A B . subsort A < B . op f : B -> A . op g : B -> B . vars X : B . var Y : A . eq g(X) = f(X) [variant] . eq f(Y) = Y [variant] . eq g(Y) = f(g(Y)) [variant] . eq f(f(X)) = g(X) [variant] . => - - - - | 4 | none 0
sorts A B . subsort A < B . op e : -> A . op f : B B -> B [assoc comm id: e] . op h : B -> A . var X : A . vars Y Z : B . eq h(f(X,Y)) = X [variant] . eq f(X,h(Y)) = h(Y) [variant] . eq f(h(Y),h(Z)) = f(Y,Z) [variant] . => - - - | 0 | none 0
sorts E N . subsort E < N . op z : -> E . op s : N -> N . op d : N -> E . op + : N N -> N [assoc comm id: z] . op + : E E -> E [ditto] . vars X Y : N . vars U V : E . eq d(+(X,Y)) = +(d(X),d(Y)) [variant] . eq +(d(X),U) = s(U) [variant] . eq +(U,V) = U [variant] . => - - v | 2 | variable 3
sorts P Q R S . subsorts P < Q R < S . op a : -> P . op m : Q Q -> Q [comm] . op m : R R -> R [comm] . op m : P P -> P [comm] . op m : S S -> S [comm] . vars X Y : S . var B : Q . var C : R . var D : P . eq m(X,Y) = m(Y,X) [variant] . eq m(B,B) = B [variant] . eq m(B,D) = B [variant] . eq m(B,C) = m(C,B) [variant] . eq m(X,X) = X [variant] . => - - - - - | 0 | none 0
sorts F . op 0 : -> F . op 1 : -> F . op + : F F -> F [assoc comm id: 0] . op * : F F -> F [assoc comm id: 1] . vars X Y Z : F . eq *(X,+(Y,Z)) = +(*(X,Y),*(X,Z)) [variant] . eq *(X,0) = 0 [variant] . eq *(+(X,Y),+(X,Y)) = 1 [variant] . eq *(X,+(Y,Y)) = 0 [variant] . eq +(1,1) = 0 [variant] . => v i i i - | 0 | variable 1
sort A . op f : [A] -> A . op g : A -> A . var X : [A] . eq f(X) = g(X) [variant] . => - | 1 | none 0";

// Each line has statements, a sort and a number, and what is wrong with the sum of so many variables of the sort as a
// left side: with many its instances are more than 4,096 by identities, or 16,777,216 by sorts and identities.
const LIMITS: &str =
    "sort S . op e : -> S . op + : S S -> S [assoc comm id: e] . => S 12 | variable 1
sort S . op e : -> S . op + : S S -> S [assoc comm id: e] . => S 13 | many 1
sort S . op + : S S -> S [assoc comm] . => [S] 24 | none 0
sort S . op + : S S -> S [assoc comm] . => [S] 25 | many 1
sort S . op + : S S -> S [assoc comm] . => [S] 100 | many 1
sort S . op + : S S -> S [assoc comm] . => S 100 | none 0
sorts A B . subsort A < B . op + : B B -> B [assoc comm] . => B 24 | none 0
sorts A B . subsort A < B . op + : B B -> B [assoc comm] . => B 25 | many 1
sorts A B C D E F G H I J K L M N O . subsorts A B C D E F G H I J K L M N < O . op + : O O -> O [assoc comm] . => [O] 6 | none 0
sorts A B C D E F G H I J K L M N O . subsorts A B C D E F G H I J K L M N < O . op + : O O -> O [assoc comm] . => [O] 7 | many 1
sorts A B . subsort A < B . ops d e : -> A . op + : B B -> B [assoc comm id: d] . op * : B B -> B [assoc comm id: e] . => B 7 | variable 1
sorts A B . subsort A < B . ops d e : -> A . op + : B B -> B [assoc comm id: d] . op * : B B -> B [assoc comm id: e] . => B 8 | many 1
sorts A B . subsort A < B . op d : -> B . op + : B B -> B [assoc comm id: d] . => A 100 | none 0";

// Each line has statements, a sort, a number and a term, and the number of the equation, or 0, where one between the sum
// of so many variables of the sort and the term loses a sort. There are up to 16,777,216 instances by sorts and identities:
// a search that tried each would not end in time. For three variables `oracle/equations.py` prints the same numbers.
const LOSSES: &str = "sorts A B . subsort A < B . op + : B B -> B [assoc comm] . => B 24 | A:B | 0
sorts A B . subsort A < B . op + : B B -> B [assoc comm] . op + : A A -> A [ditto] . => B 24 | Axx:B | 0
sorts A B . subsort A < B . op + : B B -> B [assoc comm] . op + : A A -> A [ditto] . => B 24 | +(A:B,Axx:B) | 0
sorts B A . subsort A < B . op + : B B -> B [assoc comm] . op + : A A -> A [ditto] . op g : B -> B . => B 24 | g(A:B) | 1
sorts A B . subsort A < B . op + : B B -> B [assoc comm] . op g : B -> B . => [B] 15 | g(A:[B]) | 0
sorts A C D . subsorts A C < D . op + : D D -> D [assoc comm] . => D 15 | +(A:D,Ax:D) | 0
sorts A C D . subsorts A C < D . op + : D D -> D [assoc comm] . op + : A A -> A [ditto] . op + : C C -> C [ditto] . => D 15 | Ax:D | 0
sorts A C D . subsorts A C < D . op + : D D -> D [assoc comm] . op + : A A -> A [ditto] . op + : C C -> C [ditto] . op h : D -> A . => D 15 | h(Ax:D) | 1
sorts A B . subsort A < B . op e : -> A . op + : B B -> B [assoc comm id: e] . => B 12 | +(A:B,Axx:B) | 0
sorts A B . subsort A < B . op e : -> A . op + : B B -> B [assoc comm id: e] . op g : B -> B . => B 12 | g(Ax:B) | 1
sorts A B . subsort A < B . op e : -> A . op + : B B -> B [assoc comm id: e] . => B 12 | Ax:B | 0";

// What the left side of an equation becomes.
fn told(
    alloc: Global,
    sig: &Signature,
    equations: &[Equation],
    number: usize,
) -> Result<&'static str, NoMemory>
    requires number { IsNumberIn equations.now number }
    requires readable { All (IsReadableEquation sig.now) equations.now }
{
    if !instances_fit(alloc, sig, equations, number)? {
        return Ok("x ");
    }
    match left_collapses(alloc, sig, equations, number)? {
        Some(Collapse::Variable) => Ok("v "),
        Some(Collapse::Identity) => Ok("i "),
        None => Ok("- "),
    }
}

fn push_number(
    text: &mut String,
    alloc: Global,
    before: &str,
    number: usize,
) -> Result<(), NoMemory> {
    text.push_str(before)?;
    text.push_str(&format!(in alloc; "{number}")?)?;
    Ok(())
}

// The first left side that is at fault, and how.
fn push_fault(
    text: &mut String,
    alloc: Global,
    sig: &Signature,
    equations: &[Equation],
) -> Result<(), NoMemory>
    requires { All (IsReadableEquation sig.now) equations.now }
{
    match first_left_fault(alloc, sig, equations)? {
        None => push_number(text, alloc, "none ", 0),
        Some(LeftFault::TooManyInstances(number)) => push_number(text, alloc, "many ", number),
        Some(LeftFault::BecomesVariable(number)) => push_number(text, alloc, "variable ", number),
        Some(LeftFault::BecomesIdentity(number)) => push_number(text, alloc, "identity ", number),
    }
}

// The first equation that loses a sort.
fn push_loss(
    text: &mut String,
    alloc: Global,
    sig: &Signature,
    equations: &[Equation],
) -> Result<(), NoMemory>
    requires { All (IsReadableEquation sig.now) equations.now }
{
    let first = sort_loss(alloc, sig, equations)?.unwrap_or(0);
    push_number(text, alloc, "", first)
}

fn push_told(
    text: &mut String,
    alloc: Global,
    sig: &Signature,
    equations: &[Equation],
) -> Result<(), NoMemory>
    requires { All (IsReadableEquation sig.now) equations.now }
{
    for i in 0..equations.len() {
        text.push_str(told(alloc, sig, equations, i + 1)?)?;
    }
    Ok(())
}

// What becomes of all equations.
fn push_all(
    text: &mut String,
    alloc: Global,
    sig: &Signature,
    equations: &[Equation],
) -> Result<(), NoMemory>
    requires { All (IsReadableEquation sig.now) equations.now }
{
    push_told(text, alloc, sig, equations)?;
    text.push_str("| ")?;
    push_loss(text, alloc, sig, equations)?;
    text.push_str(" | ")?;
    push_fault(text, alloc, sig, equations)
}

// What is shown of a module.
#[derive(Clone, Copy)]
enum Part {
    All,
    Fault,
    Loss,
}

fn push_part(
    text: &mut String,
    alloc: Global,
    sig: &Signature,
    equations: &[Equation],
    part: Part,
) -> Result<(), NoMemory>
    requires { All (IsReadableEquation sig.now) equations.now }
{
    match part {
        Part::All => push_all(text, alloc, sig, equations),
        Part::Fault => push_fault(text, alloc, sig, equations),
        Part::Loss => push_loss(text, alloc, sig, equations),
    }
}

// The same of a module.
fn push_part_of(
    text: &mut String,
    alloc: Global,
    module: &Module,
    part: Part,
) -> Result<(), NoMemory> {
    module.recall_readable();
    push_part(text, alloc, module.signature(), module.equations(), part)
}

fn push_shown(text: &mut String, alloc: Global, bytes: &[u8], part: Part) -> Result<(), NoMemory> {
    match read_module(alloc, bytes) {
        Ok(module) => push_part_of(text, alloc, &module, part),
        Err(_) => push_number(text, alloc, "no module ", 0),
    }
}

fn assert_shown(
    rt: &impl Abort,
    alloc: Global,
    module: &str,
    part: Part,
    want: &str,
) -> Result<(), NoMemory> {
    let mut text = String::new(alloc);
    push_shown(&mut text, alloc, module.as_bytes(), part)?;
    assert_eq!(rt; text.as_str(), want, "at {module}");
    Ok(())
}

fn assert_all(
    rt: &impl Abort,
    alloc: Global,
    statements: &str,
    want: &str,
) -> Result<(), NoMemory> {
    let text = module_of(alloc, statements)?;
    assert_shown(rt, alloc, text.as_str(), Part::All, want)
}

#[test]
fn equations_collapse_and_lose_sorts(rt: HostRuntime) -> Result<(), NoMemory> {
    for row in EQUATIONS.lines() {
        let (statements, want) = row.split_once(" => ").unwrap_or((row, "no arrow"));
        assert_all(&rt, rt.alloc(), statements, want)?;
    }
    Ok(())
}

// A variable with a name of its own.
fn push_variable(text: &mut String, sort: &str, number: usize) -> Result<(), NoMemory> {
    text.push('A')?;
    for _ in 0..number {
        text.push('x')?;
    }
    text.push(':')?;
    text.push_str(sort)?;
    Ok(())
}

// A sum of so many variables of a sort.
fn push_sum(text: &mut String, sort: &str, count: usize) -> Result<(), NoMemory> {
    let mut before = "+(";
    for i in 0..count {
        text.push_str(before)?;
        push_variable(text, sort, i)?;
        before = ",";
    }
    text.push(')')?;
    Ok(())
}

// The right side: a term, or the same sum where there is no term.
fn push_right(text: &mut String, sort: &str, count: usize, right: &str) -> Result<(), NoMemory> {
    if right.is_empty() {
        return push_sum(text, sort, count);
    }
    text.push_str(right)?;
    Ok(())
}

fn push_equation(text: &mut String, sort: &str, count: usize, right: &str) -> Result<(), NoMemory> {
    text.push_str(" eq ")?;
    push_sum(text, sort, count)?;
    text.push_str(" = ")?;
    push_right(text, sort, count, right)?;
    text.push_str(" [variant] . endfm")?;
    Ok(())
}

// A module with these statements and an equation between a sum and a term, or the same sum.
fn sum_module(alloc: Global, statements: &str, sum: &str, right: &str) -> Result<String, NoMemory> {
    let (sort, number) = sum.split_once(' ').unwrap_or((sum, ""));
    let mut text = String::new(alloc);
    text.push_str("fmod M is ")?;
    text.push_str(statements)?;
    push_equation(&mut text, sort, number.parse::<usize>().unwrap_or(0), right)?;
    Ok(text)
}

fn assert_limit(
    rt: &impl Abort,
    alloc: Global,
    statements: &str,
    row: &str,
) -> Result<(), NoMemory> {
    let (sum, want) = row.split_once(" | ").unwrap_or((row, "no bar"));
    let text = sum_module(alloc, statements, sum, "")?;
    assert_shown(rt, alloc, text.as_str(), Part::Fault, want)
}

#[test]
fn instances_are_few(rt: HostRuntime) -> Result<(), NoMemory> {
    for row in LIMITS.lines() {
        let (statements, rest) = row.split_once(" => ").unwrap_or((row, "no arrow"));
        assert_limit(&rt, rt.alloc(), statements, rest)?;
    }
    Ok(())
}

fn assert_loss(
    rt: &impl Abort,
    alloc: Global,
    statements: &str,
    row: &str,
) -> Result<(), NoMemory> {
    let (sum, rest) = row.split_once(" | ").unwrap_or((row, ""));
    let (right, want) = rest.split_once(" | ").unwrap_or((rest, "no bar"));
    let text = sum_module(alloc, statements, sum, right)?;
    assert_shown(rt, alloc, text.as_str(), Part::Loss, want)
}

#[test]
fn losses_are_found_among_many_instances(rt: HostRuntime) -> Result<(), NoMemory> {
    for row in LOSSES.lines() {
        let (statements, rest) = row.split_once(" => ").unwrap_or((row, "no arrow"));
        assert_loss(&rt, rt.alloc(), statements, rest)?;
    }
    Ok(())
}
