//! Normal forms by the rules of modules.
ghost use Rattle.std.specs.Prelude.{◌<◌, length, All, IfOk};
ghost use Rattle.fvn_flat.specs.Fits.{Fits};
ghost use Rattle.fvn_theory.specs.Equations.{IsReadableEquation};
ghost use Rattle.fvn_rewrite.specs.Usable.{AreUsable};

use crate::tests::texts::module_of;
use fvn_cohere::{first_left_fault, harmless_equations_are_admissible};
use fvn_flat::{Flat, Normal, flatten};
use fvn_module::{Module, read_module};
use fvn_rewrite::normal;
use fvn_rewrite_rules::{Rules, extend};
use fvn_signature::Signature;
use fvn_terms::NoMemory;
use fvn_theory::{Bounds, Equation};
use std::alloc::Global;
use std::process::Abort;
use std::string::String;

// Each line has the name of a module and its statements, among them operators `from` and `to` over variables X and Y. Of
// two equations whose left sides differ in the names of variables alone, the one with the smaller right side is kept, or
// of two as large the first; of two that overlap, the first is tried first.
const MODULES: &str =
    "PLUS sort Nat . op 0 : -> Nat . op s : Nat -> Nat . op + : Nat Nat -> Nat . ops from to : Nat Nat -> Nat . vars X Y : Nat . eq +(0,Y) = Y [variant] . eq +(s(X),Y) = s(+(X,Y)) [variant] .
XORN sorts Nat NatSet . subsort Nat < NatSet . op 0 : -> Nat . op s : Nat -> Nat . op mt : -> NatSet . op _*_ : NatSet NatSet -> NatSet [assoc comm] . ops from to : NatSet NatSet -> NatSet . vars X Y : [NatSet] . eq _*_(X,X) = mt [variant] . eq _*_(X,mt) = X [variant] .
LOOP sort S . op a : -> S . op f : S -> S . ops from to : S S -> S . vars X Y : S . eq f(X) = f(X) [variant] .
COLLAPSE sort S . ops a b c d e : -> S . op h : S S -> S [assoc comm id: e] . op f : S S -> S [assoc comm] . ops from to : S S -> S . vars X Y : S . eq h(X,f(a,b)) = c [variant] .
ENC sorts Msg Key . op a : -> Msg . op k : -> Key . ops enc dec : Msg Key -> Msg . ops from to : Msg Key -> Msg . var X : Msg . var Y : Key . eq dec(enc(X,Y),Y) = X [variant] .
GROUP sort S . op 1 : -> S . op * : S S -> S [assoc comm id: 1] . op - : S -> S . ops from to : S S -> S . vars X Y : S . eq *(X,-(X)) = 1 [variant] . eq -(1) = 1 [variant] . eq -(-(X)) = X [variant] .
COMM sort S . ops a b : -> S . op c : S S -> S [comm] . ops from to : S S -> S . vars X Y : S . eq c(X,a) = X [variant] .
SORTED sorts A B . subsort A < B . op a : -> A . op b : -> B . op g : B -> B . ops from to : B B -> B . vars X Y : B . var Z : A . eq g(Z) = Z [variant] .
LARGE sort S . op a : -> S . ops f s t : S -> S . ops from to : S S -> S . vars X Y : S . eq f(X) = s(X) [variant] . eq f(Y) = Y [variant] .
SMALL sort S . op a : -> S . ops f s t : S -> S . ops from to : S S -> S . vars X Y : S . eq f(Y) = Y [variant] . eq f(X) = s(X) [variant] .
ALIKE sort S . op a : -> S . ops f s t : S -> S . ops from to : S S -> S . vars X Y : S . eq f(X) = s(X) [variant] . eq f(Y) = t(Y) [variant] .
FIRST sort S . op a : -> S . op f : S S -> S . ops s t : S -> S . ops from to : S S -> S . vars X Y : S . eq f(X,a) = s(X) [variant] . eq f(a,Y) = t(Y) [variant] .
GROW sort S . op a : -> S . ops f s : S -> S . ops from to : S S -> S . vars X Y : S . eq f(X) = f(s(X)) [variant] .
TAIL sort S . op 0 : -> S . op s : S -> S . op t : S S S -> S . ops from to : S S -> S . vars X Y Z : S . eq t(X,s(Y),Z) = t(X,Y,Z) [variant] . eq t(s(X),0,Z) = t(X,Z,Z) [variant] . eq t(0,0,Z) = Z [variant] .
SHARED sort S . ops a b : -> S . ops d k : S -> S . ops p q : S S -> S . ops from to : S S -> S . vars X Y : S . eq d(X) = p(X,X) [variant] . eq k(X) = a [variant] . eq q(X,X) = X [variant] .";

// Each line has the name of a module, a number of steps, a number of symbols, a term and another term. Then comes what a
// search for the normal form of the first term ends with under these limits, with one step less, and with one symbol less:
// `form` where it is the second term, `other` where it is another, else the limit that it comes to.
const FORMS: &str = "PLUS 0 1 0 => 0 | form form size
PLUS 0 1 X => X | form form size
PLUS 0 3 +(X,Y) => +(X,Y) | form form size
PLUS 1 3 +(0,X) => X | form steps size
PLUS 1 4 +(s(X),Y) => s(+(X,Y)) | form steps size
PLUS 4 6 +(s(s(s(0))),0) => s(s(s(0))) | form steps size
PLUS 5 8 +(+(s(0),s(0)),s(0)) => s(s(s(0))) | form steps size
PLUS 3 7 s(+(s(+(0,0)),X)) => s(s(X)) | form steps size
PLUS 1 5 +(X,+(0,Y)) => +(X,Y) | form steps size
PLUS 4 6 +(s(s(s(0))),0) => s(s(0)) | other steps size
XORN 0 3 _*_(X,Y) => _*_(Y,X) | form form size
XORN 1 3 _*_(0,0) => mt | form steps size
XORN 1 3 _*_(X,mt) => X | form steps size
XORN 1 3 _*_(mt,mt) => mt | form steps size
XORN 2 6 _*_(0,s(0),0) => s(0) | form steps size
XORN 1 9 _*_(0,s(0),0,s(0)) => mt | form steps size
XORN 1 7 _*_(X,Y,X,Y) => mt | form steps size
XORN 2 8 _*_(0,mt,s(0),mt) => _*_(0,s(0)) | form steps size
XORN 1 4 s(_*_(0,0)) => s(mt) | form steps size
XORN 2 7 _*_(s(_*_(0,0)),s(mt)) => mt | form steps size
LOOP 0 1 a => a | form form size
LOOP 5 2 f(a) => f(a) | steps steps size
LOOP 0 2 f(X) => f(X) | steps steps size
LOOP 3 3 f(f(a)) => f(f(a)) | steps steps size
COLLAPSE 0 1 h(e,d) => d | form form size
COLLAPSE 0 3 f(a,d) => f(d,a) | form form size
COLLAPSE 1 3 f(a,b) => c | form steps size
COLLAPSE 1 5 f(a,b,d) => f(c,d) | form steps size
COLLAPSE 1 5 h(d,f(a,b)) => h(c,d) | form steps size
COLLAPSE 2 7 f(a,a,b,b) => f(c,c) | form steps size
COLLAPSE 2 7 h(f(a,b),f(a,b)) => h(c,c) | form steps size
ENC 0 5 dec(enc(X,Y),k) => dec(enc(X,Y),k) | form form size
ENC 0 5 enc(dec(a,k),k) => enc(dec(a,k),k) | form form size
ENC 1 5 dec(enc(a,k),k) => a | form steps size
ENC 1 5 dec(enc(X,Y),Y) => X | form steps size
ENC 2 9 dec(enc(dec(enc(a,k),k),Y),Y) => a | form steps size
GROUP 1 2 -(1) => 1 | form steps size
GROUP 1 4 *(X,-(X)) => 1 | form steps size
GROUP 1 4 *(X,-(*(X,1))) => 1 | form steps size
GROUP 1 6 *(X,Y,-(X)) => Y | form steps size
GROUP 1 4 -(-(-(X))) => -(X) | form steps size
GROUP 2 6 *(-(-(X)),-(X)) => 1 | form steps size
COMM 1 3 c(a,b) => b | form steps size
COMM 1 3 c(a,a) => a | form steps size
COMM 2 7 c(c(a,b),c(b,a)) => c(b,b) | form steps size
SORTED 0 2 g(b) => g(b) | form form size
SORTED 0 2 g(X) => g(X) | form form size
SORTED 0 3 g(g(b)) => g(g(b)) | form form size
SORTED 1 2 g(a) => a | form steps size
SORTED 2 3 g(g(a)) => a | form steps size
LARGE 1 2 f(a) => a | form steps size
SMALL 1 2 f(a) => a | form steps size
ALIKE 1 2 f(a) => s(a) | form steps size
FIRST 1 3 f(a,a) => s(a) | form steps size
GROW 3 5 f(a) => a | steps steps size
GROW 4 5 f(a) => a | size steps size
GROW 10 5 f(a) => a | size size size
GROW 10 1 f(a) => a | size size size
PLUS 1 4 +(0,s(0)) => s(0) | form steps size
PLUS 2 4 +(s(0),0) => s(0) | form steps size
PLUS 2 5 +(s(0),s(0)) => s(s(0)) | form steps size
PLUS 3 5 +(s(s(0)),0) => s(s(0)) | form steps size
PLUS 3 7 +(s(s(0)),s(s(0))) => s(s(s(s(0)))) | form steps size
PLUS 4 7 +(s(s(s(0))),s(0)) => s(s(s(s(0)))) | form steps size
PLUS 6 13 +(s(s(s(s(s(0))))),s(s(s(s(s(0)))))) => s(s(s(s(s(s(s(s(s(s(0)))))))))) | form steps size
PLUS 2 5 +(+(0,0),0) => 0 | form steps size
PLUS 2 5 +(0,+(0,0)) => 0 | form steps size
PLUS 1 6 s(s(+(0,s(X)))) => s(s(s(X))) | form steps size
PLUS 1 4 +(s(X),0) => s(+(X,0)) | form steps size
PLUS 0 4 +(X,s(0)) => +(X,s(0)) | form form size
ENC 0 3 dec(X,Y) => dec(X,Y) | form form size
ENC 0 5 dec(enc(a,k),Y) => dec(enc(a,k),Y) | form form size
ENC 1 7 dec(enc(enc(a,k),k),k) => enc(a,k) | form steps size
ENC 1 7 enc(dec(enc(X,k),k),k) => enc(X,k) | form steps size
ENC 2 9 dec(dec(enc(enc(a,k),Y),Y),k) => a | form steps size
GROUP 0 2 -(*(X,1)) => -(X) | form form size
GROUP 1 3 -(-(X)) => X | form steps size
GROUP 2 3 -(-(1)) => 1 | form steps size
GROUP 1 6 *(X,Y,-(Y)) => X | form steps size
GROUP 2 9 *(X,-(X),Y,-(Y)) => 1 | form steps size
GROUP 1 5 -(-(*(X,Y))) => *(X,Y) | form steps size
GROUP 2 7 *(-(-(X)),-(-(Y))) => *(X,Y) | form steps size
COMM 0 3 c(b,b) => c(b,b) | form form size
COMM 1 3 c(a,X) => X | form steps size
COMM 1 5 c(X,c(Y,a)) => c(Y,X) | form steps size
COMM 2 5 c(c(a,a),a) => a | form steps size
XORN 2 5 _*_(X,X,mt) => mt | form steps size
XORN 2 5 _*_(X,Y,X) => Y | form steps size
COLLAPSE 0 1 h(e,e) => e | form form size
COLLAPSE 1 3 h(e,f(a,b)) => c | form steps size
COLLAPSE 1 5 h(a,f(a,b)) => h(a,c) | form steps size
COLLAPSE 1 5 f(a,f(b,d)) => f(d,c) | form steps size
SORTED 3 4 g(g(g(a))) => a | form steps size
PLUS 41 83 +(s(s(s(s(s(s(s(s(s(s(s(s(s(s(s(s(s(s(s(s(s(s(s(s(s(s(s(s(s(s(s(s(s(s(s(s(s(s(s(s(0)))))))))))))))))))))))))))))))))))))))),s(s(s(s(s(s(s(s(s(s(s(s(s(s(s(s(s(s(s(s(s(s(s(s(s(s(s(s(s(s(s(s(s(s(s(s(s(s(s(s(0))))))))))))))))))))))))))))))))))))))))) => s(s(s(s(s(s(s(s(s(s(s(s(s(s(s(s(s(s(s(s(s(s(s(s(s(s(s(s(s(s(s(s(s(s(s(s(s(s(s(s(s(s(s(s(s(s(s(s(s(s(s(s(s(s(s(s(s(s(s(s(s(s(s(s(s(s(s(s(s(s(s(s(s(s(s(s(s(s(s(s(0)))))))))))))))))))))))))))))))))))))))))))))))))))))))))))))))))))))))))))))))) | form steps size
PLUS 40 122 +(s(s(s(s(s(s(s(s(s(s(s(s(s(s(s(s(s(s(s(s(s(s(s(s(s(s(s(s(s(s(s(s(s(s(s(s(s(s(s(0))))))))))))))))))))))))))))))))))))))),s(s(s(s(s(s(s(s(s(s(s(s(s(s(s(s(s(s(s(s(s(s(s(s(s(s(s(s(s(s(s(s(s(s(s(s(s(s(s(s(s(s(s(s(s(s(s(s(s(s(s(s(s(s(s(s(s(s(s(s(s(s(s(s(s(s(s(s(s(s(s(s(s(s(s(s(s(s(s(s(0))))))))))))))))))))))))))))))))))))))))))))))))))))))))))))))))))))))))))))))))) => s(s(s(s(s(s(s(s(s(s(s(s(s(s(s(s(s(s(s(s(s(s(s(s(s(s(s(s(s(s(s(s(s(s(s(s(s(s(s(s(s(s(s(s(s(s(s(s(s(s(s(s(s(s(s(s(s(s(s(s(s(s(s(s(s(s(s(s(s(s(s(s(s(s(s(s(s(s(s(s(s(s(s(s(s(s(s(s(s(s(s(s(s(s(s(s(s(s(s(s(s(s(s(s(s(s(s(s(s(s(s(s(s(s(s(s(s(s(s(0))))))))))))))))))))))))))))))))))))))))))))))))))))))))))))))))))))))))))))))))))))))))))))))))))))))))))))))))))))))) | form steps size
TAIL 0 5 t(X,0,s(Y)) => t(X,0,s(Y)) | form form size
TAIL 4 7 t(s(0),s(0),s(0)) => s(0) | form steps size
TAIL 1271 114 t(s(s(s(s(s(s(s(s(s(s(s(s(s(s(s(s(s(s(s(s(s(s(s(s(s(s(s(s(s(s(0)))))))))))))))))))))))))))))),s(s(s(s(s(s(s(s(s(s(s(s(s(s(s(s(s(s(s(s(s(s(s(s(s(s(s(s(s(s(s(s(s(s(s(s(s(s(s(s(0)))))))))))))))))))))))))))))))))))))))),s(s(s(s(s(s(s(s(s(s(s(s(s(s(s(s(s(s(s(s(s(s(s(s(s(s(s(s(s(s(s(s(s(s(s(s(s(s(s(s(0))))))))))))))))))))))))))))))))))))))))) => s(s(s(s(s(s(s(s(s(s(s(s(s(s(s(s(s(s(s(s(s(s(s(s(s(s(s(s(s(s(s(s(s(s(s(s(s(s(s(s(0)))))))))))))))))))))))))))))))))))))))) | form steps size
SHARED 1 3 d(X) => p(X,X) | form steps size
SHARED 3 15 d(d(d(a))) => p(p(p(a,a),p(a,a)),p(p(a,a),p(a,a))) | form steps size
SHARED 10 100 d(d(d(d(d(d(d(d(d(d(a)))))))))) => a | size size size
SHARED 1 4 k(d(X)) => a | steps steps size
SHARED 2 4 k(d(X)) => a | form steps size
SHARED 0 3 q(a,b) => q(a,b) | form form size
SHARED 0 7 q(p(a,X),p(a,Y)) => q(p(a,X),p(a,Y)) | form form size
SHARED 1 7 q(p(a,X),p(a,X)) => p(a,X) | form steps size
SHARED 4 7 q(d(k(b)),d(a)) => p(a,a) | form steps size
SHARED 2 7 q(d(X),p(X,X)) => p(X,X) | form steps size";

// A row of the table.
#[derive(Drop)]
struct Row<'a> {
    name: &'a str,
    steps: u64,
    size: u64,
    from: &'a str,
    to: &'a str,
    want: &'a str,
}

// What stands before the first of these marks, and what behind it.
fn cut<'a>(text: &'a str, mark: &str) -> (&'a str, &'a str) {
    text.split_once(mark).unwrap_or((text, ""))
}

fn row_of(text: &str) -> Row<'_> {
    let (name, behind) = cut(text, " ");
    let (steps, rest) = cut(behind, " ");
    let (size, terms) = cut(rest, " ");
    let (from, last) = cut(terms, " => ");
    let (to, want) = cut(last, " | ");
    Row {
        name,
        steps: steps.parse::<u64>().unwrap_or(0),
        size: size.parse::<u64>().unwrap_or(0),
        from,
        to,
        want,
    }
}

// The statements of the module of this name.
fn statements_of(name: &str) -> &'static str {
    for line in MODULES.lines() {
        let (first, statements) = cut(line, " ");
        if first == name {
            return statements;
        }
    }
    ""
}

// The statements of a row, with one equation more for each of its terms.
fn row_statements(alloc: Global, row: &Row<'_>) -> Result<String, NoMemory> {
    let mut text = String::new(alloc);
    text.push_str(statements_of(row.name))?;
    text.push_str(" eq from(X,Y) = ")?;
    text.push_str(row.from)?;
    text.push_str(" [variant] . eq to(X,Y) = ")?;
    text.push_str(row.to)?;
    text.push_str(" [variant] .")?;
    Ok(text)
}

// The flat form of the right side of an equation.
fn right_side(
    alloc: Global,
    sig: &Signature,
    equations: &[Equation],
    i: usize,
) -> Result<Flat, NoMemory>
    requires within { i < length equations.now }
    requires readable { All (IsReadableEquation sig.now) equations.now }
    ensures { IfOk result (Fits sig.now) }
{
    let form = flatten(alloc, sig, &equations[i].right)?;
    Ok(form)
}

fn told(end: &Normal, to: &Flat) -> &'static str {
    match end {
        Normal::Form(u) => { if u.same(to) { "form" } else { "other" } }
        Normal::Steps(_, _) => "steps",
        Normal::Size(_) => "size",
    }
}

// What a search for a normal form ends with.
fn outcome(
    alloc: Global,
    sig: &Signature,
    rules: &Rules,
    from: &Flat,
    to: &Flat,
    bounds: Bounds,
) -> Result<&'static str, NoMemory>
    requires term { Fits sig.now from.now }
    requires rules { AreUsable sig.now rules.now }
{
    let end = normal(alloc, sig, rules, from, bounds)?;
    Ok(told(&end, to))
}

fn bounds(steps: u64, size: u64) -> Bounds {
    Bounds { steps, size }
}

// The same under both limits, and with one less of each.
fn outcomes(
    alloc: Global,
    sig: &Signature,
    rules: &Rules,
    from: &Flat,
    to: &Flat,
    row: &Row<'_>,
) -> Result<String, NoMemory>
    requires term { Fits sig.now from.now }
    requires rules { AreUsable sig.now rules.now }
{
    let steps = row.steps;
    let size = row.size;
    let both = outcome(alloc, sig, rules, from, to, bounds(steps, size))?;
    let fewer = outcome(
        alloc,
        sig,
        rules,
        from,
        to,
        bounds(steps.saturating_sub(1), size),
    )?;
    let smaller = outcome(
        alloc,
        sig,
        rules,
        from,
        to,
        bounds(steps, size.saturating_sub(1)),
    )?;
    Ok(format!(in alloc; "{both} {fewer} {smaller}")?)
}

// The same for the right sides of the last two equations.
fn outcomes_by(
    alloc: Global,
    sig: &Signature,
    equations: &[Equation],
    rules: &Rules,
    row: &Row<'_>,
) -> Result<String, NoMemory>
    requires readable { All (IsReadableEquation sig.now) equations.now }
    requires rules { AreUsable sig.now rules.now }
{
    let count = equations.len();
    if count < 2 {
        return Ok(String::new(alloc));
    }
    let from = right_side(alloc, sig, equations, count - 2)?;
    let to = right_side(alloc, sig, equations, count - 1)?;
    outcomes(alloc, sig, rules, &from, &to, row)
}

// The same by the rules of equations none of whose left sides is at fault.
fn outcomes_in(
    alloc: Global,
    sig: &Signature,
    equations: &[Equation],
    row: &Row<'_>,
) -> Result<String, NoMemory>
    requires { All (IsReadableEquation sig.now) equations.now }
{
    harmless_equations_are_admissible();
    match first_left_fault(alloc, sig, equations)? {
        Some(_) => Ok(String::new(alloc)),
        None => {
            let rules = extend(alloc, sig, equations)?;
            outcomes_by(alloc, sig, equations, &rules, row)
        }
    }
}

// The same of a module.
fn outcomes_in_module(alloc: Global, declared: &Module, row: &Row<'_>) -> Result<String, NoMemory> {
    declared.recall_readable();
    outcomes_in(alloc, declared.signature(), declared.equations(), row)
}

fn outcomes_of(alloc: Global, bytes: &[u8], row: &Row<'_>) -> Result<String, NoMemory> {
    match read_module(alloc, bytes) {
        Ok(module) => outcomes_in_module(alloc, &module, row),
        Err(_) => Ok(String::new(alloc)),
    }
}

fn assert_row(rt: &impl Abort, alloc: Global, line: &str) -> Result<(), NoMemory> {
    let row = row_of(line);
    let statements = row_statements(alloc, &row)?;
    let text = module_of(alloc, statements.as_str())?;
    let out = outcomes_of(alloc, text.as_bytes(), &row)?;
    assert_eq!(rt; out.as_str(), row.want, "at {line}");
    Ok(())
}

#[test]
fn terms_have_these_normal_forms(rt: HostRuntime) -> Result<(), NoMemory> {
    for line in FORMS.lines() {
        assert_row(&rt, rt.alloc(), line)?;
    }
    Ok(())
}
