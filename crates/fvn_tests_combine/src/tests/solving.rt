//! Solves problems within limits, and looks among the unifiers for those that are known.
ghost use Rattle.std.specs.Prelude.{◌≤◌, All};
ghost use Rattle.fvn_base.specs.declared.limits.TheConstants.{TERM_SYMBOLS};
ghost use Rattle.fvn_flat.specs.Bindings.{BindingsFit};
ghost use Rattle.fvn_flat.specs.Fits.{Fits};

use super::given::is_problem;
use fvn_axunify::{AxiomUnify, SolveLimits};
use fvn_base::limits::TERM_SYMBOLS;
use fvn_flat::{Flat, Pairs, SizeCause, SolveEnd, Subst};
use fvn_match::matches;
use fvn_signature::Signature;
use fvn_terms::NoMemory;
use fvn_tests_samples::problem_of;
use std::alloc::Global;
use std::slice::from_ref;

/// The word of an end.
fn word_of(end: &SolveEnd) -> &'static str {
    match end {
        SolveEnd::Complete => "complete",
        SolveEnd::Basis(_, _) => "basis",
        SolveEnd::Unifiers => "unifiers",
        SolveEnd::Size(SizeCause::Problem(_)) => "problem",
        SolveEnd::Size(_) => "size",
    }
}

/// Whether one of the substitutions makes of the term one of which the value is an instance.
fn is_covered(
    alloc: Global,
    sig: &Signature,
    all: &[Subst],
    term: &Flat,
    value: &Flat,
) -> Result<bool, NoMemory>
    requires substs { All (BindingsFit sig.now) all.now }
    requires term { Fits sig.now term.now }
    requires value { Fits sig.now value.now }
{
    for s in all {
        let found = s.apply(alloc, sig, term)?;
        if matches(alloc, sig, from_ref(&found), from_ref(value))?.is_some() {
            return Ok(true);
        }
    }
    Ok(false)
}

/// Writes of each value, behind the term that it is of, that it is missing where it is an instance of none.
fn push_missing(
    alloc: Global,
    sig: &Signature,
    all: &[Subst],
    known: &Pairs,
    out: &mut String,
) -> Result<(), NoMemory>
    requires substs { All (BindingsFit sig.now) all.now }
    requires pairs { All (λ p. Fits sig.now p.0 × Fits sig.now p.1) known.now.pairs }
{
    for (term, value) in known.pairs.as_slice() {
        if !is_covered(alloc, sig, all, term, value)? {
            out.push_str(" missing")?;
        }
    }
    Ok(())
}

/// The same of the text of such pairs.
fn push_known(
    alloc: Global,
    sig: &Signature,
    all: &[Subst],
    known: &str,
    out: &mut String,
) -> Result<(), NoMemory>
    requires { All (BindingsFit sig.now) all.now }
{
    if known.is_empty() {
        return Ok(());
    }
    match problem_of(alloc, sig, known)? {
        Some(pairs) => push_missing(alloc, sig, all, &pairs, out),
        None => {
            out.push_str(" not read")?;
            Ok(())
        }
    }
}

/// How a solver with these limits ends with a problem that may be given, how many unifiers it gives, and which of those
/// that are known are missing.
fn found_of(
    alloc: Global,
    sig: &Signature,
    problem: &Pairs,
    limits: SolveLimits,
    known: &str,
) -> Result<String, NoMemory>
    requires pairs { All (λ p. Fits sig.now p.0 × Fits sig.now p.1) problem.now.pairs }
    requires unifiers { 1 ≤ limits.unifiers }
    requires size { limits.size ≤ TERM_SYMBOLS }
{
    if !is_problem(alloc, sig, problem)? {
        return Ok(String::from_str(alloc, "not given")?);
    }
    let solver = AxiomUnify::new(sig, limits);
    let found = solver.unify(alloc, problem, 0)?;
    let mut out = format!(in alloc; "{} {}", word_of(&found.end), found.unifiers.len())?;
    push_known(alloc, sig, found.unifiers.as_slice(), known, &mut out)?;
    Ok(out)
}

/// At least one unifier, and at most as many symbols as a term may have.
fn limits_of(unifiers: &str, size: &str) -> SolveLimits
    ensures unifiers { 1 ≤ result.unifiers }
    ensures size { result.size ≤ TERM_SYMBOLS }
{
    SolveLimits {
        unifiers: unifiers.parse::<u32>().unwrap_or(1).max(1),
        size: size.parse::<u64>().unwrap_or(0).min(TERM_SYMBOLS),
    }
}

/// The same of the problem behind the numbers of unifiers and of symbols at which the solver stops, with the operator h
/// 499 times in place of each star.
pub fn shown_solved(
    alloc: Global,
    sig: &Signature,
    text: &str,
    known: &str,
) -> Result<String, NoMemory> {
    let (unifiers, rest) = text.split_once(' ').unwrap_or((text, ""));
    let (size, pairs) = rest.split_once(' ').unwrap_or((rest, ""));
    let often = " h".repeat(alloc, 499)?;
    let whole = pairs.replace(alloc, "*", often.as_str())?;
    match problem_of(alloc, sig, whole.as_str())? {
        Some(problem) => found_of(alloc, sig, &problem, limits_of(unifiers, size), known),
        None => Ok(String::from_str(alloc, "not read")?),
    }
}
