//! Explorations by the equations of modules.
ghost use Rattle.std.specs.Prelude.{◌≡◌, ◌≤◌, All};
ghost use Rattle.fvn_cover.specs.declared.marking.TheConstants.{WORKERS};
ghost use Rattle.fvn_flat.specs.Fits.{Fits};
ghost use Rattle.fvn_fold.specs.Starts.{IsSettingIn};
ghost use Rattle.fvn_rewrite.specs.Usable.{AreUsable};
ghost use Rattle.fvn_tests_folding.specs.Nothing.{FixesNothing};
ghost use Rattle.fvn_theory.specs.Equations.{IsReadableEquation};

use super::explored::end_name;
use fvn_axunify::{AxiomUnify, SolveLimits};
use fvn_cohere::{first_left_fault, harmless_equations_are_admissible};
use fvn_cover::OpenGate;
use fvn_exploring::{Expander, Explored, Limits};
use fvn_flat::{AxiomSolver, Flat, flatten};
use fvn_fold::explore;
use fvn_module::{Module, read_module};
use fvn_narrow::Narrower;
use fvn_rewrite_rules::{Rules, extend};
use fvn_signature::Signature;
use fvn_terms::NoMemory;
use fvn_theory::{Bounds, Equation};
use std::alloc::Global;
use std::process::Abort;
use std::slice;
use std::string::String;
use std::thread::Threads;

// Each line has the name of a module and its statements, among them an operator `term` over variables X, Y and Z.
const MODULES: &str =
    "PLUS sort Nat . op 0 : -> Nat . op s : Nat -> Nat . op + : Nat Nat -> Nat . op term : Nat Nat Nat -> Nat . vars X Y Z : Nat . eq +(0,Y) = Y [variant] . eq +(s(X),Y) = s(+(X,Y)) [variant] .
ENC sorts Msg Key . op a : -> Msg . op k : -> Key . ops enc dec : Msg Key -> Msg . op term : Msg Key Msg -> Msg . vars X Z : Msg . var Y : Key . eq dec(enc(X,Y),Y) = X [variant] .
XOR sort S . op mt : -> S . ops c d : -> S . op * : S S -> S [assoc comm] . op term : S S S -> S . vars X Y Z : S . eq *(X,X) = mt [variant] . eq *(X,X,Z) = Z [variant] . eq *(X,mt) = X [variant] .
XORN sort S . op mt : -> S . ops c d : -> S . op * : S S -> S [assoc comm] . op term : S S S -> S . vars X Y Z : S . eq *(X,X) = mt [variant] . eq *(X,mt) = X [variant] .
PAIR sort S . op pair : S S -> S . ops fst snd : S -> S . op term : S S S -> S . vars X Y Z : S . eq fst(pair(X,Y)) = X [variant] . eq snd(pair(X,Y)) = Y [variant] .
STEP sort S . op 0 : -> S . ops s p : S -> S . op term : S S S -> S . vars X Y Z : S . eq s(p(X)) = X [variant] . eq p(s(X)) = X [variant] .
BLIND sort S . ops sg bl ub ch : S S -> S . op term : S S S -> S . vars X Y Z : S . eq ub(sg(bl(X,Y),Z),Y) = sg(X,Z) [variant] . eq ub(bl(X,Y),Y) = X [variant] . eq ch(sg(X,Y),Y) = X [variant] .
MEMBER sorts Elt Set Truth . subsort Elt < Set . op tt : -> Truth . op mt : -> Set . op ; : Set Set -> Set [assoc comm id: mt] . op in : Elt Set -> Truth . op term : Elt Set Set -> Truth . var X : Elt . vars Y Z : Set . eq in(X,;(X,Y)) = tt [variant] .
LOOP sort S . op a : -> S . op f : S -> S . op term : S S S -> S . vars X Y Z : S . eq f(X) = f(X) [variant] .
TWICE sort S . op a : -> S . ops d f g : S -> S . op p : S S -> S . op term : S S S -> S . vars X Y Z : S . eq d(X) = p(X,X) [variant] . eq f(g(X)) = d(d(d(d(d(d(d(d(d(d(X)))))))))) [variant] .
SQUARE sort S . op mt : -> S . op i : S -> S . op * : S S -> S [assoc comm] . op term : S S S -> S . vars X Y Z : S . eq *(X,X,i(X)) = mt [variant] .";

// Each line has the name of a module, the levels and the kept variants that are allowed, the number of unifiers at which
// the solver stops, and a term; then how many variants are given, and the end. The numbers are counted by hand, but for
// those of BLIND and of sums of XORN, which a model of levels gave, and Maude those of XOR.
//
// Of two ends that a level has the one of the exploration is told: the limit of levels or of variants before a bound that
// the expansion of a member met.
const ROWS: &str = "ENC 9 99 99 dec(dec(X,Y),Y) => 3 complete
ENC 9 99 99 dec(dec(X,Y),k) => 3 complete
ENC 9 99 99 enc(X,Y) => 1 complete
ENC 0 99 99 enc(X,Y) => 1 complete
ENC 0 99 99 dec(X,Y) => 1 levels
ENC 1 99 99 dec(X,Y) => 2 complete
ENC 9 1 99 dec(X,Y) => 1 variants
ENC 9 2 99 dec(X,Y) => 2 complete
PAIR 9 99 99 pair(fst(X),snd(X)) => 2 complete
PAIR 9 99 99 pair(fst(X),snd(Y)) => 4 complete
PAIR 9 99 99 fst(snd(fst(X))) => 4 complete
PAIR 9 3 99 pair(fst(X),snd(Y)) => 3 variants
STEP 9 99 99 s(X) => 2 complete
STEP 9 99 99 s(s(X)) => 3 complete
STEP 9 99 99 s(s(s(X))) => 4 complete
BLIND 9 99 99 ub(X,Y) => 3 complete
BLIND 9 99 99 ch(ub(X,Y),Z) => 5 complete
MEMBER 9 99 99 in(X,Y) => 2 complete
PLUS 1 99 99 +(X,Y) => 3 levels
PLUS 2 99 99 +(X,Y) => 5 levels
PLUS 3 99 99 +(X,Y) => 7 levels
PLUS 9 4 99 +(X,Y) => 4 variants
PLUS 9 99 1 +(X,Y) => 2 unifiers
PLUS 0 99 1 +(X,Y) => 1 levels
PLUS 9 1 1 +(X,Y) => 1 variants
LOOP 9 99 99 a => 1 complete
LOOP 9 99 99 f(X) => 0 steps
TWICE 9 99 99 d(d(d(d(d(d(d(d(d(d(a)))))))))) => 0 size
TWICE 9 99 99 f(X) => 1 size
TWICE 0 99 99 f(X) => 1 size
TWICE 9 99 99 p(d(X),f(X)) => 1 size
SQUARE 9 99 4096 *(X,X,X,Y,Y,Y,Y,Y,Z,Z,Z,Z,Z,Z,Z) => 1 basis
SQUARE 9 99 4096 *(X,i(X)) => 1 complete
XOR 9 99 99 *(X,X) => 1 complete
XOR 9 99 99 *(X,Y) => 7 complete
XOR 9 99 99 *(X,c) => 4 complete
XOR 9 99 99 *(X,c,d) => 8 complete
XOR 9 99 99 *(X,Y,Z) => 57 complete
XORN 9 99 99 *(X,Y) => 7 complete
XORN 9 99 99 *(X,Y,c) => 21 complete";

// How far an exploration of a row goes.
#[derive(Clone, Copy)]
struct Bounded {
    levels: u32,
    variants: u32,
    unifiers: u32,
}

// A row of the table.
#[derive(Drop)]
struct Row<'a> {
    name: &'a str,
    bounded: Bounded,
    term: &'a str,
    want: &'a str,
}

// What stands before the first of these marks, and what behind it.
fn cut<'a>(text: &'a str, mark: &str) -> (&'a str, &'a str) {
    text.split_once(mark).unwrap_or((text, ""))
}

// The number that digits write, or 0.
fn number_of(word: &str) -> u32 {
    word.parse::<u32>().unwrap_or(0)
}

// The row of a line.
fn row_of(text: &str) -> Row<'_> {
    let (name, behind) = cut(text, " ");
    let (levels, after) = cut(behind, " ");
    let (variants, left) = cut(after, " ");
    let (unifiers, rest) = cut(left, " ");
    let (term, want) = cut(rest, " => ");
    Row {
        name,
        bounded: Bounded {
            levels: number_of(levels),
            variants: number_of(variants),
            unifiers: number_of(unifiers),
        },
        term,
        want,
    }
}

// The statements of the module of this name.
fn statements_of(name: &str) -> &'static str {
    for line in MODULES.lines() {
        let (first, statements) = cut(line, " ");
        if first == name {
            return statements;
        }
    }
    ""
}

// A module with the statements of a row, and one equation more for its term.
fn row_module(alloc: Global, row: &Row<'_>) -> Result<String, NoMemory> {
    let mut text = String::new(alloc);
    text.push_str("fmod M is ")?;
    text.push_str(statements_of(row.name))?;
    text.push_str(" eq term(X,Y,Z) = ")?;
    text.push_str(row.term)?;
    text.push_str(" [variant] . endfm")?;
    Ok(text)
}

// How many variants are given, and the end.
fn shown_count(alloc: Global, x: &Explored) -> Result<String, NoMemory> {
    let count = x.variants.len();
    let end = end_name(&x.end);
    let out = format!(in alloc; "{count} {end}")?;
    Ok(out)
}

// What is explored of the term.
fn counted_by<R: Threads + Sync, E: Expander>(
    rt: &R,
    alloc: Global,
    sig: &Signature,
    expander: &E,
    term: &Flat,
    limits: Limits,
) -> Result<String, NoMemory>
    requires setting { IsSettingIn (E.setting expander.now) sig.now }
    requires fixed { FixesNothing (E.setting expander.now) }
    requires term { Fits sig.now term.now }
    requires variants { 1 ≤ limits.variants }
    requires workers { (1 ≤ limits.workers) × (limits.workers ≤ WORKERS) }
{
    let start = slice::from_ref(term);
    let x = explore(rt, alloc, sig, expander, start, limits, &OpenGate)?;
    shown_count(alloc, &x)
}

// How far it goes, with two workers.
fn limits_of(bounded: Bounded) -> Limits
    ensures variants { 1 ≤ result.variants }
    ensures workers { result.workers ≡ 2 }
{
    Limits {
        levels: bounded.levels,
        variants: bounded.variants.max(1),
        steps: 1000,
        size: 1000,
        workers: 2,
    }
}

// The same by rules and a solver.
fn counted<R: Threads + Sync, A: AxiomSolver>(
    rt: &R,
    alloc: Global,
    sig: &Signature,
    rules: &Rules,
    solver: &A,
    term: &Flat,
    bounded: Bounded,
) -> Result<String, NoMemory>
    requires rules { AreUsable sig.now rules.now }
    requires signature { A.signature solver.now ≡ sig.now }
    requires size { A.most_symbols solver.now ≡ 1000 }
    requires term { Fits sig.now term.now }
{
    let bounds = Bounds {
        steps: 1000,
        size: 1000,
    };
    let narrower = Narrower::new(alloc, sig, rules, solver, bounds);
    let limits = limits_of(bounded);
    counted_by(rt, alloc, sig, &narrower, term, limits)
}

// What is explored of the right side of the last equation, by the rules of all.
fn explored<R: Threads + Sync>(
    rt: &R,
    alloc: Global,
    sig: &Signature,
    equations: &[Equation],
    rules: &Rules,
    bounded: Bounded,
) -> Result<String, NoMemory>
    requires readable { All (IsReadableEquation sig.now) equations.now }
    requires rules { AreUsable sig.now rules.now }
{
    let count = equations.len();
    if count < 1 {
        return Ok(String::new(alloc));
    }
    let term = flatten(alloc, sig, &equations[count - 1].right)?;
    let limits = SolveLimits {
        unifiers: bounded.unifiers.max(1),
        size: 1000,
    };
    let solver = AxiomUnify::new(sig, limits);
    counted(rt, alloc, sig, rules, &solver, &term, bounded)
}

// The same by the rules of equations none of whose left sides is at fault.
fn explored_in<R: Threads + Sync>(
    rt: &R,
    alloc: Global,
    sig: &Signature,
    equations: &[Equation],
    bounded: Bounded,
) -> Result<String, NoMemory>
    requires readable { All (IsReadableEquation sig.now) equations.now }
{
    harmless_equations_are_admissible();
    match first_left_fault(alloc, sig, equations)? {
        Some(_) => Ok(String::new(alloc)),
        None => {
            let rules = extend(alloc, sig, equations)?;
            explored(rt, alloc, sig, equations, &rules, bounded)
        }
    }
}

// The same of a module.
fn explored_in_module<R: Threads + Sync>(
    rt: &R,
    alloc: Global,
    declared: &Module,
    bounded: Bounded,
) -> Result<String, NoMemory> {
    declared.recall_readable();
    explored_in(
        rt,
        alloc,
        declared.signature(),
        declared.equations(),
        bounded,
    )
}

// The same of the text of a module.
fn explored_of<R: Threads + Sync>(
    rt: &R,
    alloc: Global,
    bytes: &[u8],
    bounded: Bounded,
) -> Result<String, NoMemory> {
    match read_module(alloc, bytes) {
        Ok(module) => explored_in_module(rt, alloc, &module, bounded),
        Err(_) => Ok(String::new(alloc)),
    }
}

// What is explored is what the row says.
fn assert_row<R: Threads + Abort + Sync>(
    rt: &R,
    alloc: Global,
    line: &str,
) -> Result<(), NoMemory> {
    let row = row_of(line);
    let text = row_module(alloc, &row)?;
    let found = explored_of(rt, alloc, text.as_bytes(), row.bounded)?;
    assert_eq!(rt; found.as_str(), row.want, "at {line}");
    Ok(())
}

#[test]
fn theories_are_explored(rt: HostRuntime) -> Result<(), NoMemory> {
    for line in ROWS.lines() {
        assert_row(&rt, rt.alloc(), line)?;
    }
    Ok(())
}
