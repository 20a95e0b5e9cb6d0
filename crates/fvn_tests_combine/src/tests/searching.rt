//! Goes through the search for unifiers on kinds to its end, and counts.
ghost use Rattle.std.specs.Prelude.{◌≤◌, All};
ghost use Rattle.fvn_base.specs.declared.limits.TheConstants.{TERM_SYMBOLS};
ghost use Rattle.fvn_flat.specs.Fits.{Fits};
ghost use Rattle.fvn_flat.specs.Solving.{IsGiven, symbols_of_pairs};

use super::given::is_given;
use fvn_axunify::{CombineEnd, Combiner};
use fvn_flat::Pairs;
use fvn_signature::Signature;
use fvn_terms::NoMemory;
use fvn_tests_samples::problem_of;
use std::alloc::Global;

/// Whether one unifier more is given.
fn gives(combiner: &mut Combiner) -> Result<bool, NoMemory> {
    match combiner.advance() {
        Ok(given) => Ok(given.is_some()),
        Err(CombineEnd::Basis(_, _)) => Ok(false),
        Err(CombineEnd::Size(_)) => Ok(false),
        Err(CombineEnd::NoMemory) => Err(NoMemory),
    }
}

/// Goes on to the end, or to the thousandth unifier.
fn run_through(combiner: &mut Combiner) -> Result<(), NoMemory> {
    for _ in 0..1000 {
        if !gives(combiner)? {
            return Ok(());
        }
    }
    Ok(())
}

/// How many states are asked, and how many choices are tried.
fn counted(combiner: &mut Combiner) -> Result<(u64, u64), NoMemory> {
    run_through(combiner)?;
    Ok((combiner.states_asked(), combiner.choices_tried()))
}

/// A search as a solver has it: for most general unifiers, or for all that keep sorts.
fn begun<'a>(
    alloc: Global,
    sig: &'a Signature,
    problem: &'a Pairs,
    general: bool,
) -> Result<Combiner<'a>, NoMemory>
    requires given { IsGiven sig.now problem.now 0 }
    requires small { symbols_of_pairs problem.now.pairs ≤ TERM_SYMBOLS }
{
    if general {
        return Combiner::most_general(alloc, sig, problem, 0, 200);
    }
    Combiner::for_sorts(alloc, sig, problem, 0, 200)
}

/// The same of a problem.
fn counted_of(
    alloc: Global,
    sig: &Signature,
    problem: &Pairs,
    general: bool,
) -> Result<(u64, u64), NoMemory>
    requires given { IsGiven sig.now problem.now 0 }
    requires small { symbols_of_pairs problem.now.pairs ≤ TERM_SYMBOLS }
{
    let mut combiner = begun(alloc, sig, problem, general)?;
    counted(&mut combiner)
}

/// Whether the number is at most the one that is written.
fn is_at_most(number: u64, most: &str) -> bool {
    number <= most.parse::<u64>().unwrap_or(0)
}

/// That both numbers are at most those that are written, or what they are.
fn shown_counts(alloc: Global, counts: (u64, u64), most: &str) -> Result<String, NoMemory> {
    let (states, choices) = most.split_once(' ').unwrap_or((most, ""));
    if is_at_most(counts.0, states) && is_at_most(counts.1, choices) {
        return Ok(String::from_str(alloc, "few")?);
    }
    Ok(format!(in alloc; "{} {}", counts.0, counts.1)?)
}

/// The same of pairs, where they may be given.
fn shown_of(
    alloc: Global,
    sig: &Signature,
    problem: &Pairs,
    general: bool,
    most: &str,
) -> Result<String, NoMemory>
    requires { All (λ p. Fits sig.now p.0 × Fits sig.now p.1) problem.now.pairs }
{
    if !is_given(alloc, sig, problem)? {
        return Ok(String::from_str(alloc, "not given")?);
    }
    let counts = counted_of(alloc, sig, problem, general)?;
    shown_counts(alloc, counts, most)
}

/// That a search asks so many states and tries so many choices at most, or how many it does.
pub fn shown_searched(
    alloc: Global,
    sig: &Signature,
    text: &str,
    general: bool,
    most: &str,
) -> Result<String, NoMemory> {
    match problem_of(alloc, sig, text)? {
        Some(problem) => shown_of(alloc, sig, &problem, general, most),
        None => Ok(String::from_str(alloc, "not read")?),
    }
}
