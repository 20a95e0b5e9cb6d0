//! Children of variants by the rules of modules.
ghost use Rattle.std.specs.Prelude.{All, IfOk};
ghost use Rattle.fvn_base.specs.declared.limits.TheConstants.{EXPANDED_FRESH};
ghost use Rattle.fvn_flat.specs.Fits.{Fits};
ghost use Rattle.fvn_theory.specs.Equations.{IsReadableEquation};
ghost use Rattle.fvn_rewrite.specs.Usable.{AreUsable};
ghost use Rattle.fvn_exploring.specs.Expansions.{IsExpandable};
ghost use Rattle.fvn_tests_narrowing.specs.Starts.{MayStart, IsAlone};

use crate::tests::handing::Handing;
use crate::tests::texts::module_of;
use fvn_axunify::{AxiomUnify, SolveLimits};
use fvn_base::{Seq, limits};
use fvn_cohere::{first_left_fault, harmless_equations_are_admissible};
use fvn_cover::Variant;
use fvn_exploring::{ExpandEnd, Expander, Expansion};
use fvn_flat::{Flat, Normal, Subst, flatten};
use fvn_module::{Module, read_module};
use fvn_narrow::Narrower;
use fvn_rewrite_rules::{Rules, extend};
use fvn_signature::Signature;
use fvn_terms::{NoMemory, Var};
use fvn_theory::{Bounds, Equation};
use std::alloc::Global;
use std::process::Abort;
use std::string::String;

// Each line has the name of a module and its statements, among them an operator `term` over variables X, Y and Z.
const MODULES: &str =
    "PLUS sort Nat . op 0 : -> Nat . op s : Nat -> Nat . op + : Nat Nat -> Nat . op term : Nat Nat Nat -> Nat . vars X Y Z : Nat . eq +(0,Y) = Y [variant] . eq +(s(X),Y) = s(+(X,Y)) [variant] .
ENC sorts Msg Key . op a : -> Msg . op k : -> Key . ops enc dec : Msg Key -> Msg . op term : Msg Key Msg -> Msg . vars X Z : Msg . var Y : Key . eq dec(enc(X,Y),Y) = X [variant] .
XOR sort S . op mt : -> S . ops c d : -> S . op * : S S -> S [assoc comm] . op term : S S S -> S . vars X Y Z : [S] . eq *(X,X) = mt [variant] . eq *(X,X,Z) = Z [variant] . eq *(X,mt) = X [variant] .
XORN sort S . op mt : -> S . ops c d : -> S . op * : S S -> S [assoc comm] . op term : S S S -> S . vars X Y Z : [S] . eq *(X,X) = mt [variant] . eq *(X,mt) = X [variant] .
XORS sort S . op mt : -> S . ops c d : -> S . op * : S S -> S [assoc comm] . op term : S S S -> S . vars X Y Z : S . eq *(X,X) = mt [variant] . eq *(X,X,Z) = Z [variant] . eq *(X,mt) = X [variant] .
PARITY sorts Odd Even Num . subsorts Odd Even < Num . ops a b : -> Odd . op mt : -> Even . op * : Odd Odd -> Even [assoc comm] . op * : Odd Even -> Odd [assoc comm] . op * : Even Even -> Even [assoc comm] . op * : Num Num -> Num [assoc comm] . op term : Num Num Num -> Num . var X : Even . vars Y Z : Num . eq *(X,X) = mt [variant] .
ENDS sort S . op a : -> S . ops s f g : S -> S . op k : S S -> S [comm] . op pair : S S -> S . op term : S S S -> S . vars X Y Z : S . eq f(s(X)) = f(s(X)) [variant] . eq g(k(X,a)) = X [variant] .
MIXED sort S . ops a b d mt : -> S . op g : S -> S . op * : S S -> S [assoc comm] . op term : S S S -> S . vars X Y Z : [S] . eq *(X,X) = mt [variant] . eq *(X,g(X)) = mt [variant] .
PAIR sort S . op pair : S S -> S . ops fst snd : S -> S . op term : S S S -> S . vars X Y Z : S . eq fst(pair(X,Y)) = X [variant] . eq snd(pair(X,Y)) = Y [variant] .
STEP sort S . op 0 : -> S . ops s p : S -> S . op term : S S S -> S . vars X Y Z : S . eq s(p(X)) = X [variant] . eq p(s(X)) = X [variant] .
BLIND sort S . ops sg bl ub ch : S S -> S . op term : S S S -> S . vars X Y Z : S . eq ub(sg(bl(X,Y),Z),Y) = sg(X,Z) [variant] . eq ub(bl(X,Y),Y) = X [variant] . eq ch(sg(X,Y),Y) = X [variant] .
MEMBER sorts Elt Set Truth . subsort Elt < Set . op tt : -> Truth . op mt : -> Set . op ; : Set Set -> Set [assoc comm id: mt] . op in : Elt Set -> Truth . op term : Elt Set Set -> Truth . var X : Elt . vars Y Z : Set . eq in(X,;(X,Y)) = tt [variant] .
SORTED sorts A B . subsort A < B . op a : -> A . op b : -> B . ops f g : B -> B . op term : B B B -> B . vars X Y : B . var Z : A . eq f(Z) = Z [variant] . eq g(f(X)) = X [variant] .
GROUP sort G . ops a e : -> G . op i : G -> G . op + : G G -> G [assoc comm] . op term : G G G -> G . vars X Y Z : G . eq +(X,e) = X [variant] . eq +(X,i(X)) = e [variant] . eq i(i(X)) = X [variant] . eq i(e) = e [variant] . eq +(i(X),i(Y)) = i(+(X,Y)) [variant] . eq i(+(i(X),Y)) = +(X,i(Y)) [variant] . eq +(i(+(X,Y)),Y) = i(X) [variant] .
LOOP sort S . op a : -> S . op f : S -> S . op term : S S S -> S . vars X Y Z : S . eq f(X) = f(X) [variant] .
UNIT sort S . ops a b c d 1 : -> S . op h : S S -> S . op & : S S -> S [assoc comm id: 1] . op term : S S S -> S . vars X Y Z : S . eq &(X,h(a,b)) = &(X,d) [variant] .
THREE sort S . ops a b c d : -> S . op + : S S -> S [assoc comm] . op term : S S S -> S . vars X Y Z : S . eq +(X,a,b) = +(X,d) [variant] .";

// Each line has the name of a module, the number of unifiers at which the solver stops, a term, the number of its children
// and the end; behind a bar the children may stand, each with its term, and behind a semicolon its values of the term's
// variables in the order of their first occurrence. Operators stand as their numbers, and variables as theirs in order of
// first occurrence. The children are made by hand; those of sums are counted by a model of narrowing two summands at a
// time. In XORS, where the variables have a sort and not its kind, `mt` beside two summands is a rule of its own, in whose
// place that of `mt` beside one serves, so that there are as many children as in XOR. In PARITY the sum of two odd
// constants is even, and stands for a variable of that sort. In GROUP two variables have 26 children: 2 by `e`, 8 and 8
// by an inverse beside what it is of, alone and within another one, and 8 by two inverses; no sum of three is taken whole.
// In UNIT the rule is tried in place of its extension, whose two rests would divide `c` and `d` in four ways, and `c`
// beside `Y` in two. Of the rule's two unifiers in its last row one gives `Y` a reducible value; `h(X,b)` has a child
// too. In THREE the rule's extension, which is not tried, would have twelve unifiers: two where `X` is `a + b`, and ten
// where it has a summand more. The rule itself has one of each, of which the second gives `X` a reducible value.
// Where two places stop, the end of the first is told. A form that stands at two places has its children once: in *(X,X,Y)
// there are three of the sum of X and X, and six of that of X and Y.
const ROWS: &str = "ENC 100 dec(X,Y) => 1 whole | x0 ; f2(x0,x1) x1
ENC 100 dec(dec(X,Y),Y) => 1 whole | f3(x0,x1) ; f2(x0,x1) x1
ENC 100 enc(dec(X,Y),Y) => 1 whole | f2(x0,x1) ; f2(x0,x1) x1
ENC 100 dec(enc(X,Y),k) => 1 whole | x0 ; x0 f1
ENC 100 dec(enc(X,Y),Y) => 1 whole | x0 ; x0 x1
ENC 100 dec(a,Y) => 0 whole
ENC 100 enc(X,Y) => 0 whole
ENC 100 X => 0 whole
PLUS 100 +(X,Y) => 2 whole | x0 ; f0 x0 | f1(f2(x0,x1)) ; f1(x0) x1
PLUS 1 +(X,Y) => 1 unifiers | x0 ; f0 x0
PLUS 100 +(0,Y) => 1 whole | x0 ; x0
PLUS 100 s(+(X,Y)) => 2 whole | f1(x0) ; f0 x0 | f1(f1(f2(x0,x1))) ; f1(x0) x1
PLUS 100 +(+(X,Y),Z) => 2 whole | f2(x0,x1) ; f0 x0 x1 | f1(f2(f2(x0,x1),x2)) ; f1(x0) x1 x2
PLUS 100 +(X,+(Y,Z)) => 4 whole | f2(x0,x1) ; f0 x0 x1 | f1(f2(x0,f2(x1,x2))) ; f1(x0) x1 x2 | f2(x0,x1) ; x0 f0 x1 | f2(x0,f1(f2(x1,x2))) ; x0 f1(x1) x2
PAIR 100 pair(fst(X),snd(X)) => 2 whole | f0(x0,x1) ; f0(x0,x1) | f0(x0,x1) ; f0(x0,x1)
PAIR 100 pair(fst(X),snd(Y)) => 2 whole | f0(x0,f2(x1)) ; f0(x0,x2) x1 | f0(f1(x0),x1) ; x0 f0(x2,x1)
PAIR 100 pair(fst(X),fst(X)) => 1 whole | f0(x0,x0) ; f0(x0,x1)
PAIR 100 pair(fst(snd(X)),pair(snd(X),snd(Y))) => 2 whole | f0(f1(x0),f0(x0,f2(x1))) ; f0(x2,x0) x1 | f0(f1(f2(x0)),f0(f2(x0),x1)) ; x0 f0(x2,x1)
PAIR 100 fst(snd(X)) => 1 whole | f1(x0) ; f0(x1,x0)
PAIR 100 fst(snd(fst(X))) => 1 whole | f1(f2(x0)) ; f0(x0,x1)
PAIR 100 pair(X,Y) => 0 whole
STEP 100 s(s(X)) => 1 whole | f1(x0) ; f2(x0)
STEP 100 s(X) => 1 whole | x0 ; f2(x0)
STEP 100 p(s(X)) => 2 whole | x0 ; x0 | f2(x0) ; f2(x0)
STEP 100 s(0) => 0 whole
BLIND 100 ub(X,Y) => 2 whole | f0(x0,x1) ; f0(f1(x0,x2),x1) x2 | x0 ; f1(x0,x1) x1
BLIND 100 ch(ub(X,Y),Z) => 2 whole | f3(f0(x0,x1),x2) ; f0(f1(x0,x3),x1) x3 x2 | f3(x0,x1) ; f1(x0,x2) x2 x1
SORTED 100 f(X) => 1 whole | x0 ; x0
SORTED 100 g(X) => 1 whole | x0 ; f2(x0)
SORTED 100 f(b) => 0 whole
LOOP 100 f(X) => 0 steps
MEMBER 100 in(X,Y) => 1 whole
XOR 100 *(X,Y) => 6 whole
XOR 100 *(X,c) => 3 whole
XOR 100 *(X,X) => 3 whole
XOR 100 mt => 0 whole
XOR 100 *(X,Y,Z) => 18 whole
XOR 100 *(X,X,Y) => 9 whole
XOR 100 *(X,c,c) => 4 whole
XOR 100 *(X,Y,c) => 12 whole
XOR 100 *(X,c,d) => 6 whole
XORS 100 *(X,Y,Z) => 18 whole
XORS 100 *(X,Y,c) => 12 whole
PARITY 100 *(a,b,a,b) => 1 whole | f2 ;
PARITY 100 *(a,a,b) => 0 whole
ENDS 1 pair(g(k(X,Y)),f(Z)) => 1 unifiers
ENDS 1 pair(f(X),g(k(Y,Z))) => 0 steps
XORN 100 *(X,Y) => 6 whole
XORN 100 *(X,Y,Z) => 18 whole
MIXED 100 *(a,g(a),d) => 2 whole
MIXED 100 *(a,b,g(*(a,b))) => 1 whole
GROUP 100 +(X,Y) => 26 whole
GROUP 100 +(X,Y,Z) => 78 whole
UNIT 2 &(X,c,d) => 0 whole
UNIT 100 &(h(X,b),Y,c) => 2 whole
THREE 4 +(X,c,d) => 1 whole";

// Each line has the name of a module, a number of steps, a term, and what a search for its normal form ends with.
const RESTS: &str = "LOOP 5 f(a) => steps f1(f0) f1(f0)
LOOP 5 a => form f0
PLUS 5 +(s(0),0) => form f1(f0)
PLUS 1 +(s(0),0) => steps f2(f1(f0),f0) f1(f2(f0,f0))
STEP 5 s(p(s(p(0)))) => form f0";

// A row of the table.
#[derive(Drop)]
struct Row<'a> {
    name: &'a str,
    limit: u32,
    term: &'a str,
    want: &'a str,
    rests: bool,
}

// What stands before the first of these marks, and what behind it.
fn cut<'a>(text: &'a str, mark: &str) -> (&'a str, &'a str) {
    text.split_once(mark).unwrap_or((text, ""))
}

fn row_of(text: &str, rests: bool) -> Row<'_> {
    let (name, behind) = cut(text, " ");
    let (limit, rest) = cut(behind, " ");
    let (term, want) = cut(rest, " => ");
    Row {
        name,
        limit: limit.parse::<u32>().unwrap_or(1),
        term,
        want,
        rests,
    }
}

// The statements of the module of this name.
fn statements_of(name: &str) -> &'static str {
    for line in MODULES.lines() {
        let (first, statements) = cut(line, " ");
        if first == name {
            return statements;
        }
    }
    ""
}

// The statements of a row, with one equation more for its term.
fn row_statements(alloc: Global, row: &Row<'_>) -> Result<String, NoMemory> {
    let mut text = String::new(alloc);
    text.push_str(statements_of(row.name))?;
    text.push_str(" eq term(X,Y,Z) = ")?;
    text.push_str(row.term)?;
    text.push_str(" [variant] .")?;
    Ok(text)
}

fn told(end: &ExpandEnd) -> &'static str {
    match end {
        ExpandEnd::Whole => "whole",
        ExpandEnd::Steps(_, _) => "steps",
        ExpandEnd::Size(_) => "size",
        ExpandEnd::Basis(_, _) => "basis",
        ExpandEnd::Unifiers(_, _) => "unifiers",
    }
}

// The term as a variant, each variable as it is.
fn variant_of(alloc: Global, term: Flat) -> Result<Variant, NoMemory>
    ensures { IfOk result (IsAlone term) }
{
    let vars = term.with_variables(Vec::new(alloc))?;
    let mut terms = Vec::new(alloc);
    terms.push(term)?;
    Ok(Variant {
        terms: Seq::from_vec(terms),
        subst: Subst::empty(alloc),
        vars: Seq::from_vec(vars),
    })
}

// The variables of the child's terms, and those of its values.
fn child_names(alloc: Global, c: &Variant) -> Result<Vec<Var>, NoMemory> {
    let mut names = Vec::new(alloc);
    for t in c.terms.as_slice() {
        names = t.with_variables(names)?;
    }
    for x in c.vars.as_slice() {
        if let Some(t) = c.subst.get(*x) {
            names = t.with_variables(names)?;
        }
    }
    Ok(names)
}

// The place of a variable in a list.
fn place_of(names: &[Var], x: Var) -> usize {
    let mut place = 0;
    for y in names {
        if *y == x {
            return place;
        }
        place = place.saturating_add(1);
    }
    place
}

fn push_flat(out: &mut String, alloc: Global, names: &[Var], t: &Flat) -> Result<(), NoMemory> {
    if let Some(x) = t.as_var() {
        let place = place_of(names, x);
        out.push_str(&format!(in alloc; "x{place}")?)?;
    }
    if let Some(f) = t.head() {
        out.push_str(&format!(in alloc; "f{}", f.0)?)?;
        let mut before = '(';
        for u in t.args() {
            out.push(before)?;
            before = ',';
            push_flat(out, alloc, names, u)?;
        }
        if before == ',' {
            out.push(')')?;
        }
    }
    Ok(())
}

fn push_terms(out: &mut String, alloc: Global, names: &[Var], ts: &[Flat]) -> Result<(), NoMemory> {
    for t in ts {
        out.push(' ')?;
        push_flat(out, alloc, names, t)?;
    }
    Ok(())
}

fn push_values(
    out: &mut String,
    alloc: Global,
    names: &[Var],
    c: &Variant,
) -> Result<(), NoMemory> {
    for x in c.vars.as_slice() {
        if let Some(t) = c.subst.get(*x) {
            out.push(' ')?;
            push_flat(out, alloc, names, t)?;
        }
    }
    Ok(())
}

fn push_children(out: &mut String, alloc: Global, children: &[Variant]) -> Result<(), NoMemory> {
    for c in children {
        let names = child_names(alloc, c)?;
        out.push_str(" |")?;
        push_terms(out, alloc, names.as_slice(), c.terms.as_slice())?;
        out.push_str(" ;")?;
        push_values(out, alloc, names.as_slice(), c)?;
    }
    Ok(())
}

// The number of children and the end, and the children where the row has them.
fn shown(alloc: Global, e: &Expansion, row: &Row<'_>) -> Result<String, NoMemory> {
    let number = e.children.len();
    let end = told(&e.end);
    let mut out = format!(in alloc; "{number} {end}")?;
    if row.want.contains('|') {
        push_children(&mut out, alloc, e.children.as_slice())?;
    }
    Ok(out)
}

// The word of the end of a search for a normal form.
fn rest_word(normal: &Normal) -> &'static str {
    match normal {
        Normal::Form(_) => "form",
        Normal::Steps(_, _) => "steps",
        Normal::Size(_) => "size",
    }
}

fn push_forms(out: &mut String, alloc: Global, normal: &Normal) -> Result<(), NoMemory> {
    match normal {
        Normal::Form(t) => {
            out.push(' ')?;
            push_flat(out, alloc, &[], t)
        }
        Normal::Steps(t, u) => {
            out.push(' ')?;
            push_flat(out, alloc, &[], t)?;
            out.push(' ')?;
            push_flat(out, alloc, &[], u)
        }
        Normal::Size(_) => Ok(()),
    }
}

// What a search for a normal form ends with, and its forms.
fn shown_rest(alloc: Global, normal: &Normal) -> Result<String, NoMemory> {
    let mut out = String::new(alloc);
    out.push_str(rest_word(normal))?;
    push_forms(&mut out, alloc, normal)?;
    Ok(out)
}

fn rested_by<E: Expander>(alloc: Global, expander: &E, term: &Flat) -> Result<String, NoMemory>
    requires fits { Fits (E.setting expander.now).declarations term.now }
{
    let normal = expander.rest(alloc, term)?;
    shown_rest(alloc, &normal)
}

fn children_by<E: Expander>(
    alloc: Global,
    expander: &E,
    v: &Variant,
    row: &Row<'_>,
) -> Result<String, NoMemory>
    requires variant { IsExpandable (E.setting expander.now) EXPANDED_FRESH v.now }
{
    let e = expander.expand(alloc, v, limits::EXPANDED_FRESH)?;
    shown(alloc, &e, row)
}

// What the expander makes of a term, through one that hands every call on.
fn answered_by<E: Expander>(
    alloc: Global,
    expander: &E,
    term: Flat,
    row: &Row<'_>,
) -> Result<String, NoMemory>
    requires start { MayStart (E.setting expander.now) term }
{
    let handing = Handing::new(expander);
    if row.rests {
        return rested_by(alloc, &handing, &term);
    }
    let v = variant_of(alloc, term)?;
    children_by(alloc, &handing, &v, row)
}

// What comes of the right side of the last equation, by the rules of all.
fn answered(
    alloc: Global,
    sig: &Signature,
    equations: &[Equation],
    rules: &Rules,
    row: &Row<'_>,
) -> Result<String, NoMemory>
    requires readable { All (IsReadableEquation sig.now) equations.now }
    requires rules { AreUsable sig.now rules.now }
{
    let count = equations.len();
    if count < 1 {
        return Ok(String::new(alloc));
    }
    let term = flatten(alloc, sig, &equations[count - 1].right)?;
    let limits = SolveLimits {
        unifiers: row.limit.max(1),
        size: 1000,
    };
    let solver = AxiomUnify::new(sig, limits);
    let bounds = Bounds {
        steps: if row.rests {
            u64::from(row.limit)
        } else {
            1000
        },
        size: 1000,
    };
    let narrower = Narrower::new(alloc, sig, rules, &solver, bounds);
    answered_by(alloc, &narrower, term, row)
}

// The same by the rules of equations none of whose left sides is at fault.
fn answered_in(
    alloc: Global,
    sig: &Signature,
    equations: &[Equation],
    row: &Row<'_>,
) -> Result<String, NoMemory>
    requires { All (IsReadableEquation sig.now) equations.now }
{
    harmless_equations_are_admissible();
    match first_left_fault(alloc, sig, equations)? {
        Some(_) => Ok(String::new(alloc)),
        None => {
            let rules = extend(alloc, sig, equations)?;
            answered(alloc, sig, equations, &rules, row)
        }
    }
}

fn answered_in_module(alloc: Global, declared: &Module, row: &Row<'_>) -> Result<String, NoMemory> {
    declared.recall_readable();
    answered_in(alloc, declared.signature(), declared.equations(), row)
}

fn answered_of(alloc: Global, bytes: &[u8], row: &Row<'_>) -> Result<String, NoMemory> {
    match read_module(alloc, bytes) {
        Ok(module) => answered_in_module(alloc, &module, row),
        Err(_) => Ok(String::new(alloc)),
    }
}

fn assert_row(rt: &impl Abort, alloc: Global, line: &str, rests: bool) -> Result<(), NoMemory> {
    let row = row_of(line, rests);
    let statements = row_statements(alloc, &row)?;
    let text = module_of(alloc, statements.as_str())?;
    let found = answered_of(alloc, text.as_bytes(), &row)?;
    assert_eq!(rt; found.as_str(), row.want, "at {line}");
    Ok(())
}

#[test]
fn terms_have_these_children(rt: HostRuntime) -> Result<(), NoMemory> {
    for line in ROWS.lines() {
        assert_row(&rt, rt.alloc(), line, false)?;
    }
    Ok(())
}

#[test]
fn terms_have_these_normal_forms(rt: HostRuntime) -> Result<(), NoMemory> {
    for line in RESTS.lines() {
        assert_row(&rt, rt.alloc(), line, true)?;
    }
    Ok(())
}
