//! The search for all unifiers.
ghost use Rattle.std.specs.Prelude.{◌≤◌, ◌<◌, IfOk, IsFalse};
ghost use Rattle.fvn_base.specs.declared.limits.TheConstants.{TERM_SYMBOLS};
ghost use Rattle.fvn_terms.specs.Substitution.{Substitution};
ghost use Rattle.fvn_terms.specs.Unifiers.{IsUnifier};
ghost use Rattle.fvn_flat.specs.Solving.{problem_of, symbols_of_pairs};
ghost use Rattle.fvn_combine.specs.Advancing.{IsOf, IsToCome};
ghost use Rattle.fvn_axunify.specs.inner.Asked.{IsAsked};
ghost use Rattle.fvn_axunify.specs.inner.Found.{IsFound};
ghost use Rattle.fvn_axunify.specs.inner.Nexts.{AsksForAllAtRefusal, IsNoRefusal};
ghost use Rattle.fvn_axunify.specs.inner.Members.{IsReached};
ghost use Rattle.fvn_axunify.specs.Searched.{IsRunToEnd, IsSearched};

use crate::members::with_refinements;
use crate::next::{Next, step};
use crate::task::Task;
use fvn_combine::Combiner;
use fvn_cover::Sieve;
use fvn_flat::SolveEnd;
use fvn_terms::NoMemory;

// Unifiers, and why there are no more.
#[derive(Drop)]
pub(crate) struct Found {
    pub(crate) kept: Sieve,
    pub(crate) end: SolveEnd,
}

// Whether a sum system is refused.
fn is_refusal(end: &SolveEnd) -> bool
    ensures { IsFalse result → IsNoRefusal end.now }
{
    match end {
        SolveEnd::Complete => false,
        SolveEnd::Basis(_, _) => true,
        SolveEnd::Unifiers => false,
        SolveEnd::Size(_) => false,
    }
}

// What is found until the combiner or the limit ends the search. Where a sum system is refused, it says something only of a
// search for all unifiers.
fn run_through(task: &Task, combiner: &mut Combiner) -> Result<Found, NoMemory>
    requires asked { IsAsked task.now.sig.now task.now.problem.now task.now.vars.now
        task.now.first }
    requires some { 1 ≤ task.now.limits.unifiers }
    requires of { IsOf task.now.sig.now task.now.problem.now task.now.first task.now.limits.size
        combiner.old }
    requires all { (u : Substitution) →
        IsUnifier task.now.sig.now (problem_of task.now.problem.now) u → IsToCome combiner.old u }
    ensures found { IfOk result (λ f. AsksForAllAtRefusal combiner.old f.end →
        IsFound task.now.sig.now task.now.problem.now task.now.vars.now task.now.first
        task.now.limits.unifiers task.now.limits.size f.kept f.end) }
    // What the combiner gave is kept.
    ensures run { IfOk result (λ f. AsksForAllAtRefusal combiner.old f.end →
        IsRunToEnd task.now.sig.now task.now.problem.now
        (IsReached task.now.sig.now task.now.problem.now task.now.vars.now f.kept)
        combiner.old combiner.new f.end) }
{
    let most = task.limits.unifiers as usize;
    let mut kept = Sieve::new(task.alloc);
    'next: loop {
        match step(combiner)? {
            Next::End(end) => return Ok(Found { kept, end }),
            Next::Given(g) => {
                kept = with_refinements(task, kept, &g)?;
                if most <= kept.len() {
                    return Ok(Found {
                        kept,
                        end: SolveEnd::Unifiers,
                    });
                }
            }
        }
    }
}

// What is found of a problem that is small enough, where a more general unifier is enough for each.
fn search_general(task: &Task) -> Result<Found, NoMemory>
    requires asked { IsAsked task.now.sig.now task.now.problem.now task.now.vars.now
        task.now.first }
    requires some { 1 ≤ task.now.limits.unifiers }
    requires limit { task.now.limits.size ≤ TERM_SYMBOLS }
    requires small { symbols_of_pairs task.now.problem.now.pairs ≤ task.now.limits.size }
    ensures found { IfOk result (λ f. IsNoRefusal f.end →
        IsFound task.now.sig.now task.now.problem.now task.now.vars.now task.now.first
        task.now.limits.unifiers task.now.limits.size f.kept f.end) }
    ensures searched { IfOk result (λ f. IsNoRefusal f.end →
        IsSearched task.now.sig.now task.now.problem.now
        (IsReached task.now.sig.now task.now.problem.now task.now.vars.now f.kept)
        task.now.first task.now.limits.size f.end) }
{
    let mut combiner = Combiner::most_general(
        task.alloc,
        task.sig,
        task.problem,
        task.first,
        task.limits.size,
    )?;
    let f = run_through(task, &mut combiner)?;
    Ok(f)
}

// What is found of a problem that is small enough, where all unifiers are asked for.
fn search_all(task: &Task) -> Result<Found, NoMemory>
    requires asked { IsAsked task.now.sig.now task.now.problem.now task.now.vars.now
        task.now.first }
    requires some { 1 ≤ task.now.limits.unifiers }
    requires limit { task.now.limits.size ≤ TERM_SYMBOLS }
    requires small { symbols_of_pairs task.now.problem.now.pairs ≤ task.now.limits.size }
    ensures found { IfOk result (λ f.
        IsFound task.now.sig.now task.now.problem.now task.now.vars.now task.now.first
        task.now.limits.unifiers task.now.limits.size f.kept f.end) }
    ensures searched { IfOk result (λ f.
        IsSearched task.now.sig.now task.now.problem.now
        (IsReached task.now.sig.now task.now.problem.now task.now.vars.now f.kept)
        task.now.first task.now.limits.size f.end) }
{
    let mut combiner = Combiner::for_sorts(
        task.alloc,
        task.sig,
        task.problem,
        task.first,
        task.limits.size,
    )?;
    let f = run_through(task, &mut combiner)?;
    Ok(f)
}

// What is found of a problem that is small enough. First a more general unifier is enough for each; where then a sum
// system is refused, all are asked for, since the answer says which it holds.
pub(crate) fn search(task: &Task) -> Result<Found, NoMemory>
    requires asked { IsAsked task.now.sig.now task.now.problem.now task.now.vars.now
        task.now.first }
    requires some { 1 ≤ task.now.limits.unifiers }
    requires limit { task.now.limits.size ≤ TERM_SYMBOLS }
    requires small { symbols_of_pairs task.now.problem.now.pairs ≤ task.now.limits.size }
    ensures found { IfOk result (λ f.
        IsFound task.now.sig.now task.now.problem.now task.now.vars.now task.now.first
        task.now.limits.unifiers task.now.limits.size f.kept f.end) }
    // At every end what the search gave is kept.
    ensures searched { IfOk result (λ f.
        IsSearched task.now.sig.now task.now.problem.now
        (IsReached task.now.sig.now task.now.problem.now task.now.vars.now f.kept)
        task.now.first task.now.limits.size f.end) }
{
    let general = search_general(task)?;
    if is_refusal(&general.end) {
        let found = search_all(task)?;
        return Ok(found);
    }
    Ok(general)
}
