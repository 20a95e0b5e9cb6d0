//! Answers that are told again, or else found and kept.
ghost use Rattle.std.specs.Prelude.{◌≡◌, ◌↔◌, length, IsTrue, IfOk, MatchOption};
ghost use Rattle.fvn_flat.specs.Solving.{IsGiven};
ghost use Rattle.fvn_flat.specs.declared.solver.SolveEnd.TheVariants.{Complete};
ghost use Rattle.fvn_remembering.specs.Answers.{pair_of, IsAnswer, HoldsAnswersOf};

use crate::answer::Answer;
use crate::copying::copies;
use crate::keeping::{FIRST, keep, recalled};
use crate::solves::Solves;
use boxcar::slot::{OnceSlot, SlotRule};
use fvn_base::Seq;
use fvn_flat::{Flat, Pairs, SolveEnd, Solved};
use fvn_terms::NoMemory;
use std::alloc::Global;

// The two forms, where the problem is of one pair.
fn one_pair(problem: &Pairs) -> Option<(&Flat, &Flat)>
    ensures { MatchOption result (length problem.now.pairs ≡ 1 → ⊥)
        (λ p. problem.now ≡ pair_of p.0.now p.1.now) }
{
    let pairs = problem.pairs.as_slice();
    if pairs.len() != 1 {
        return None;
    }
    let (t, u) = &pairs[0];
    Some((t, u))
}

// Whether the solver found all unifiers.
fn is_complete(end: &SolveEnd) -> bool
    ensures { IsTrue result ↔ (end.now ≡ Complete) }
{
    match end {
        SolveEnd::Complete => true,
        SolveEnd::Basis(_, _) => false,
        SolveEnd::Unifiers => false,
        SolveEnd::Size(_) => false,
    }
}

// Keeps an answer to the pair of these two, where it is complete.
fn take<S: Solves, P: SlotRule<Answer>>(
    alloc: Global,
    solver: &S,
    slots: &[OnceSlot<Answer, P>],
    t: &Flat,
    u: &Flat,
    solved: &Solved,
) -> Result<(), NoMemory>
    requires rule { HoldsAnswersOf (S.solving solver.now) (S.drawn solver.now) P.holds }
    requires answer { IsAnswer (S.solving solver.now) (S.drawn solver.now) FIRST
        (pair_of t.now u.now) solved.now }
{
    let complete = is_complete(&solved.end);
    if !complete {
        return Ok(());
    }
    let unifiers = copies(alloc, solved.unifiers.as_slice())?;
    let first = t.copy(alloc)?;
    let second = u.copy(alloc)?;
    let answer = Answer {
        first,
        second,
        unifiers: Seq::from_vec(unifiers),
        next_fresh: solved.next_fresh,
    };
    keep(solver, slots, answer);
    Ok(())
}

// The answer to the pair of these two: the one that is kept, or else that of the solver, which is kept.
fn answered<S: Solves, P: SlotRule<Answer>>(
    alloc: Global,
    solver: &S,
    slots: &[OnceSlot<Answer, P>],
    problem: &Pairs,
    t: &Flat,
    u: &Flat,
) -> Result<Solved, NoMemory>
    requires rule { HoldsAnswersOf (S.solving solver.now) (S.drawn solver.now) P.holds }
    requires is { problem.now ≡ pair_of t.now u.now }
    requires given { IsGiven (S.solving solver.now).declarations problem.now FIRST }
    ensures { IfOk result
        (IsAnswer (S.solving solver.now) (S.drawn solver.now) FIRST problem.now) }
{
    let found = recalled(alloc, solver, slots, t, u)?;
    if let Some(kept) = found {
        return Ok(kept);
    }
    let solved = solver.solve(alloc, problem, FIRST)?;
    take(alloc, solver, slots, t, u, &solved)?;
    Ok(solved)
}

/// The answer: one that is kept begins with new variables of one number, whatever number is asked for.
pub(crate) fn told<S: Solves, P: SlotRule<Answer>>(
    alloc: Global,
    solver: &S,
    slots: &[OnceSlot<Answer, P>],
    problem: &Pairs,
    first: u32,
) -> Result<Solved, NoMemory>
    requires rule { HoldsAnswersOf (S.solving solver.now) (S.drawn solver.now) P.holds }
    requires given { IsGiven (S.solving solver.now).declarations problem.now first }
    ensures { IfOk result
        (IsAnswer (S.solving solver.now) (S.drawn solver.now) first problem.now) }
{
    if first > FIRST {
        let solved = solver.solve(alloc, problem, first)?;
        return Ok(solved);
    }
    let Some((t, u)) = one_pair(problem) else {
        let other = solver.solve(alloc, problem, first)?;
        return Ok(other);
    };
    let answer = answered(alloc, solver, slots, problem, t, u)?;
    Ok(answer)
}
