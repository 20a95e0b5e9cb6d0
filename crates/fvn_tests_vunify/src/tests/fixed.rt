//! Unifiers in a theory under which terms are to stay irreducible.
ghost use Rattle.std.specs.Prelude.{◌≡◌, ◌≤◌, All, IsTrue, IfOk, Contains};
ghost use Rattle.fvn_terms.specs.declared.plain.Var.{Var};
ghost use Rattle.fvn_terms.specs.Rewriting.{IsIrreducible};
ghost use Rattle.fvn_forms.specs.Flat.{fvar, plain};
ghost use Rattle.fvn_flat.specs.Fits.{Fits, AllFit};
ghost use Rattle.fvn_fold.specs.Starts.{IsSettingIn};
ghost use Rattle.fvn_rewrite.specs.Usable.{AreUsable};
ghost use Rattle.fvn_theory.specs.Equations.{IsReadableEquation};
ghost use Rattle.fvn_vunify.specs.Solved.{IsSolverFor, DrawsWithin};
ghost use Rattle.fvn_tests_vunify.specs.Asked.{ArePairsIn, IsOver, IsFixable, MayBeExplored};

use crate::fixing::Fixing;
use crate::listed::Listed;
use fvn_axunify::{AxiomUnify, SolveLimits};
use fvn_cohere::{first_left_fault, harmless_equations_are_admissible};
use fvn_cover::OpenGate;
use fvn_exploring::{Expander, ExploreEnd, Limits};
use fvn_flat::{AxiomSolver, Flat, Normal, Pairs};
use fvn_fold::explore;
use fvn_module::{Module, read_module};
use fvn_narrow::Narrower;
use fvn_rewrite_rules::{Rules, extend};
use fvn_signature::Signature;
use fvn_terms::{NoMemory, Var};
use fvn_tests_samples::{are_sides, flats_of, problem_of};
use fvn_theory::{Bounds, Equation};
use fvn_vunify::{SolvedModulo, sides_of, variant_unify};
use std::alloc::Global;
use std::process::Abort;
use std::string::String;
use std::thread::Threads;

// Operators are f, g and h for the constants a, k and l, i for e and j for d.
const MODULE: &str =
    "fmod M is sort S . ops a k l : -> S . ops e d : S S -> S . vars M K : S . eq d(e(M,K),K) = M [variant] . endfm";

// How many steps and symbols are allowed, pairs, fixed terms, how many unifiers are given, and the end.
//
// The first side is a variable, and the fixed terms are over it alone.
const ROWS: &str = "99 99 A0 = f g i |  => 1 complete
99 99 A0 = f g i | A0 h j => 1 complete
99 99 A0 = f g i | A0 g j => 0 complete
99 99 A0 = f g i | A0 h j, A0 g j => 0 complete
99 99 A0 = f g i | A0 h j, A0 f i => 1 complete
99 99 A0 = f | A0 g j => 1 complete
99 99 A0 = A1 g i | A0 g j => 0 complete
99 99 A0 = A1 A2 i | A0 g j => 1 complete
99 99 A0 = A1 g i; A1 = A2 h i | A0 A0 j => 1 complete
0 99 A0 = f g i | A0 h j => 1 complete
0 99 A0 = f g i | A0 g j => 0 steps
99 4 A0 = f g i |  => 1 complete
99 4 A0 = f g i | A0 h j => 0 size";

// How far a row goes.
#[derive(Clone, Copy)]
struct Allowed {
    steps: u64,
    size: u64,
}

// A row of the table.
#[derive(Drop)]
struct Row<'a> {
    allowed: Allowed,
    problem: &'a str,
    fixed: &'a str,
    want: &'a str,
}

// What stands before the first of these marks, and what behind it.
fn cut<'a>(text: &'a str, mark: &str) -> (&'a str, &'a str) {
    text.split_once(mark).unwrap_or((text, ""))
}

// The number that digits write, or 0.
fn number_of(word: &str) -> u64 {
    word.parse::<u64>().unwrap_or(0)
}

// The row of a line.
fn row_of(text: &str) -> Row<'_> {
    let (steps, behind) = cut(text, " ");
    let (size, rest) = cut(behind, " ");
    let (asked, want) = cut(rest, " => ");
    let (problem, fixed) = cut(asked, " | ");
    Row {
        allowed: Allowed {
            steps: number_of(steps),
            size: number_of(size),
        },
        problem,
        fixed,
        want,
    }
}

// Whether the form is the only variable that is listed.
fn is_only(vars: &[Var], first: &Flat) -> bool
    ensures { IsTrue result → (y : Var) → Contains vars.now y → first.now ≡ fvar y }
{
    if vars.len() != 1 {
        return false;
    }
    let only = Flat::var(vars[0]);
    first.same(&only)
}

// Whether the first form is a variable, and the only one of the other.
fn is_over(alloc: Global, first: &Flat, t: &Flat) -> Result<bool, NoMemory>
    ensures { IfOk result (λ b. IsTrue b → IsOver first.now t.now) }
{
    let vars = t.with_variables(Vec::new(alloc))?;
    let only = is_only(vars.as_slice(), first);
    Ok(only)
}

// Whether a form is its own normal form.
fn is_normal<E: Expander>(alloc: Global, expander: &E, t: &Flat) -> Result<bool, NoMemory>
    requires term { Fits (E.setting expander.now).declarations t.now }
    ensures { IfOk result (λ b. IsTrue b →
        IsIrreducible (E.setting expander.now).declarations (E.setting expander.now).equations
        (plain t.now)) }
{
    match expander.rest(alloc, t)? {
        Normal::Form(form) => {
            let normal = form.same(t);
            Ok(normal)
        }
        Normal::Steps(_, _) => Ok(false),
        Normal::Size(_) => Ok(false),
    }
}

// Whether a term may be fixed where this form is the first one.
fn is_fixable<E: Expander>(
    alloc: Global,
    expander: &E,
    first: &Flat,
    t: &Flat,
) -> Result<bool, NoMemory>
    requires term { Fits (E.setting expander.now).declarations t.now }
    ensures { IfOk result (λ b. IsTrue b → IsFixable (E.setting expander.now) first.now t.now) }
{
    let over = is_over(alloc, first, t)?;
    if !over {
        return Ok(false);
    }
    let normal = is_normal(alloc, expander, t)?;
    Ok(normal)
}

// Whether these terms may be fixed where this form is the first one.
fn are_fixable<E: Expander>(
    alloc: Global,
    expander: &E,
    first: &Flat,
    terms: &[Flat],
) -> Result<bool, NoMemory>
    requires terms { AllFit (E.setting expander.now).declarations terms.now }
    ensures { IfOk result (λ b. IsTrue b →
        All (IsFixable (E.setting expander.now) first.now) terms.now) }
{
    for t in terms {
        let fixable = is_fixable(alloc, expander, first, t)?;
        if !fixable {
            return Ok(false);
        }
    }
    Ok(true)
}

// Whether these forms may be explored.
fn may_be_explored<E: Expander>(
    alloc: Global,
    expander: &E,
    start: &[Flat],
) -> Result<bool, NoMemory>
    ensures { IfOk result (λ b. IsTrue b → MayBeExplored (E.setting expander.now) start.now) }
{
    match start.first() {
        Some(first) => {
            let fixed = expander.fixed();
            let all = are_fixable(alloc, expander, first, fixed)?;
            Ok(all)
        }
        None => Ok(false),
    }
}

// The word for an end.
fn end_name(end: &ExploreEnd) -> &'static str {
    match end {
        ExploreEnd::Complete => "complete",
        ExploreEnd::Levels(_) => "levels",
        ExploreEnd::Variants(_) => "variants",
        ExploreEnd::Steps(_, _) => "steps",
        ExploreEnd::Size(_) => "size",
        ExploreEnd::Basis(_, _) => "basis",
        ExploreEnd::Unifiers(_, _) => "unifiers",
    }
}

// How many unifiers are given, and the end.
fn shown(alloc: Global, r: &SolvedModulo) -> Result<String, NoMemory> {
    let count = r.unifiers.len();
    let end = end_name(&r.end);
    let out = format!(in alloc; "{count} {end}")?;
    Ok(out)
}

// Limits that no row meets but for steps and symbols.
fn limits() -> Limits
    ensures variants { 1 ≤ result.variants }
    ensures workers { result.workers ≡ 1 }
{
    Limits {
        levels: 3,
        variants: 10,
        steps: 99,
        size: 99,
        workers: 1,
    }
}

// What is found for the pairs.
fn found_by<R: Threads + Sync, E: Expander, A: AxiomSolver>(
    rt: &R,
    alloc: Global,
    sig: &Signature,
    expander: &E,
    solver: &A,
    given: Pairs,
) -> Result<String, NoMemory>
    requires setting { IsSettingIn (E.setting expander.now) sig.now }
    requires solver { IsSolverFor (E.setting expander.now) (A.signature solver.now)
        (A.most_unifiers solver.now) (A.most_symbols solver.now) }
    requires draws { DrawsWithin (A.drawn solver.now) (E.drawn expander.now) }
    requires given { ArePairsIn sig.now given.pairs }
{
    let sides = sides_of(alloc, given)?;
    let may = may_be_explored(alloc, expander, sides.as_slice())?;
    if !may {
        return Ok(String::new(alloc));
    }
    let x = explore(
        rt,
        alloc,
        sig,
        expander,
        sides.as_slice(),
        limits(),
        &OpenGate,
    )?;
    let r = variant_unify(alloc, sig, expander, solver, x)?;
    shown(alloc, &r)
}

// Pairs, and terms that are fixed.
#[derive(Drop)]
struct Asked<'a> {
    given: Pairs,
    fixed: &'a [Flat],
}

// The same by rules and a solver, with terms fixed.
fn found_fixing<R: Threads + Sync, A: AxiomSolver>(
    rt: &R,
    alloc: Global,
    sig: &Signature,
    rules: &Rules,
    solver: &A,
    bounds: Bounds,
    asked: Asked<'_>,
) -> Result<String, NoMemory>
    requires rules { AreUsable sig.now rules.now }
    requires signature { A.signature solver.now ≡ sig.now }
    requires size { A.most_symbols solver.now ≡ bounds.size }
    requires given { ArePairsIn sig.now asked.given.pairs }
    requires fixed { AllFit sig.now asked.fixed.now }
{
    let Asked { given, fixed } = asked;
    let narrower = Narrower::new(alloc, sig, rules, solver, bounds);
    let listed = Listed::new(sig, fixed);
    let fixing = Fixing::new(&narrower, listed);
    found_by(rt, alloc, sig, &fixing, solver, given)
}

// The same by rules.
fn found_within<R: Threads + Sync>(
    rt: &R,
    alloc: Global,
    sig: &Signature,
    rules: &Rules,
    allowed: Allowed,
    asked: Asked<'_>,
) -> Result<String, NoMemory>
    requires rules { AreUsable sig.now rules.now }
    requires given { ArePairsIn sig.now asked.given.pairs }
    requires fixed { AllFit sig.now asked.fixed.now }
{
    let size = allowed.size.min(1000);
    let kept = SolveLimits { unifiers: 9, size };
    let solver = AxiomUnify::new(sig, kept);
    let bounds = Bounds {
        steps: allowed.steps,
        size,
    };
    found_fixing(rt, alloc, sig, rules, &solver, bounds, asked)
}

// What is found for pairs that were read, with the terms fixed that are written.
fn found_given<R: Threads + Sync>(
    rt: &R,
    alloc: Global,
    sig: &Signature,
    rules: &Rules,
    row: &Row<'_>,
    given: Pairs,
) -> Result<String, NoMemory>
    requires rules { AreUsable sig.now rules.now }
    requires fit { All (λ p. Fits sig.now p.0 × Fits sig.now p.1) given.pairs }
{
    let Some(terms) = flats_of(alloc, sig, row.fixed)? else {
        return Ok(String::new(alloc));
    };
    if !are_sides(alloc, sig, &given)? {
        return Ok(String::new(alloc));
    }
    let asked = Asked {
        given,
        fixed: terms.as_slice(),
    };
    found_within(rt, alloc, sig, rules, row.allowed, asked)
}

// What is found for the pairs of a row.
fn found<R: Threads + Sync>(
    rt: &R,
    alloc: Global,
    sig: &Signature,
    rules: &Rules,
    row: &Row<'_>,
) -> Result<String, NoMemory>
    requires rules { AreUsable sig.now rules.now }
{
    match problem_of(alloc, sig, row.problem)? {
        Some(given) => found_given(rt, alloc, sig, rules, row, given),
        None => Ok(String::new(alloc)),
    }
}

// The same by the rules of equations none of whose left sides is at fault.
fn found_in<R: Threads + Sync>(
    rt: &R,
    alloc: Global,
    sig: &Signature,
    equations: &[Equation],
    row: &Row<'_>,
) -> Result<String, NoMemory>
    requires readable { All (IsReadableEquation sig.now) equations.now }
{
    harmless_equations_are_admissible();
    match first_left_fault(alloc, sig, equations)? {
        Some(_) => Ok(String::new(alloc)),
        None => {
            let rules = extend(alloc, sig, equations)?;
            found(rt, alloc, sig, &rules, row)
        }
    }
}

// The same of a module.
fn found_in_module<R: Threads + Sync>(
    rt: &R,
    alloc: Global,
    declared: &Module,
    row: &Row<'_>,
) -> Result<String, NoMemory> {
    declared.recall_readable();
    found_in(rt, alloc, declared.signature(), declared.equations(), row)
}

// The same of the module of all rows.
fn found_of<R: Threads + Sync>(rt: &R, alloc: Global, row: &Row<'_>) -> Result<String, NoMemory> {
    match read_module(alloc, MODULE.as_bytes()) {
        Ok(module) => found_in_module(rt, alloc, &module, row),
        Err(_) => Ok(String::new(alloc)),
    }
}

// What is found is what the row says.
fn assert_row<R: Threads + Abort + Sync>(
    rt: &R,
    alloc: Global,
    line: &str,
) -> Result<(), NoMemory> {
    let row = row_of(line);
    let found = found_of(rt, alloc, &row)?;
    assert_eq!(rt; found.as_str(), row.want, "at {line}");
    Ok(())
}

#[test]
fn fixed_terms_stay_irreducible(rt: HostRuntime) -> Result<(), NoMemory> {
    for line in ROWS.lines() {
        assert_row(&rt, rt.alloc(), line)?;
    }
    Ok(())
}
