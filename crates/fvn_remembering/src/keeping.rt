//! Where answers are kept: slots that any thread may write, each once.
ghost use Rattle.std.specs.Prelude.{◌≡◌, Option, Some, IfOk, IfSome};
ghost use Rattle.fvn_remembering.specs.Answers.{solving, pair_of, IsAnswer, IsKept, HoldsAnswersOf};

use crate::answer::Answer;
use crate::solves::Solves;
use boxcar::slot::{OnceSlot, SlotRule};
use boxcar::tag::Tag;
use fvn_flat::{AxiomSolver, Flat, Solved};
use fvn_terms::NoMemory;
use std::alloc::Global;
use std::marker::{Brand, PhantomData};

/// The number that new variables of kept answers begin with.
pub(crate) const FIRST: u32 = 64;

// How many answers are kept.
const ANSWERS: usize = 256;

/// The value that is meant where only a type is at hand.
pub trait Named<S> {
    /// The value, if one is meant.
    ghost value: { Option S };
}

impl<S> Named<S> for Brand {
    ghost use Rattle.std.specs.Prelude.{None};

    ghost value = { None };
}

// What is known of a kept answer: the solver that is meant promises it.
pub(crate) struct Promised<A, N> {
    solver: PhantomData<A>,
    name: PhantomData<N>,
}

impl<A: AxiomSolver, N: Named<A>> SlotRule<Answer> for Promised<A, N> {
    ghost holds = { λ _ answer. (s : A) → N.value ≡ Some s
        → IsKept (solving (A.signature s) (A.most_unifiers s) (A.most_symbols s)) (A.drawn s) answer };
}

/// Slots without an answer.
pub(crate) fn no_answers<P: SlotRule<Answer>>(
    alloc: Global,
) -> Result<Vec<OnceSlot<Answer, P>>, NoMemory> {
    let mut slots = Vec::with_capacity(alloc, ANSWERS)?;
    for _ in 0..ANSWERS {
        slots.push(OnceSlot::new(&Tag::empty()))?;
    }
    Ok(slots)
}

// The answer in the slot, which the solver promises.
fn kept_in<'s, S: Solves, P: SlotRule<Answer>>(
    _solver: &S,
    slot: &'s OnceSlot<Answer, P>,
) -> Option<&'s Answer>
    requires { HoldsAnswersOf (S.solving _solver.now) (S.drawn _solver.now) P.holds }
    ensures { IfSome result (λ answer.
        IsKept (S.solving _solver.now) (S.drawn _solver.now) answer.now) }
{
    let Some(answer) = slot.get() else {
        return None;
    };
    Some(answer)
}

/// The answer that is kept for the pair of these two forms, where there is one.
pub(crate) fn recalled<S: Solves, P: SlotRule<Answer>>(
    alloc: Global,
    solver: &S,
    slots: &[OnceSlot<Answer, P>],
    t: &Flat,
    u: &Flat,
) -> Result<Option<Solved>, NoMemory>
    requires { HoldsAnswersOf (S.solving solver.now) (S.drawn solver.now) P.holds }
    ensures { IfOk result (λ found. IfSome found
        (IsAnswer (S.solving solver.now) (S.drawn solver.now) FIRST (pair_of t.now u.now))) }
{
    for slot in slots {
        let Some(answer) = kept_in(solver, slot) else {
            return Ok(None);
        };
        let is = answer.is_to(t, u);
        if is {
            let solved = answer.told(alloc)?;
            return Ok(Some(solved));
        }
    }
    Ok(None)
}

// The answer again, where the slot has one already.
fn offered<S: Solves, P: SlotRule<Answer>>(
    _solver: &S,
    slot: &OnceSlot<Answer, P>,
    answer: Answer,
) -> Option<Answer>
    requires rule { HoldsAnswersOf (S.solving _solver.now) (S.drawn _solver.now) P.holds }
    requires kept { IsKept (S.solving _solver.now) (S.drawn _solver.now) answer }
    ensures { IfSome result (λ back. back ≡ answer) }
{
    match slot.set_written(answer) {
        Ok(_) => None,
        Err(back) => Some(back),
    }
}

/// Keeps the answer in the first slot without one; where there is none, it is not kept.
pub(crate) fn keep<S: Solves, P: SlotRule<Answer>>(
    solver: &S,
    slots: &[OnceSlot<Answer, P>],
    answer: Answer,
)
    requires rule { HoldsAnswersOf (S.solving solver.now) (S.drawn solver.now) P.holds }
    requires kept { IsKept (S.solving solver.now) (S.drawn solver.now) answer }
{
    let mut rest = answer;
    for slot in slots {
        let Some(back) = offered(solver, slot, rest) else {
            return;
        };
        rest = back;
    }
}
