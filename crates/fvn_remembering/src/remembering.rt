//! A solver that keeps the answers of another one.
ghost use Rattle.std.specs.Prelude.{◌≡◌, Some, IfOk};

use crate::answer::Answer;
use crate::keeping::{Named, Promised, no_answers};
use crate::recalling::told;
use crate::solves::Asking;
use boxcar::slot::OnceSlot;
use fvn_flat::{AxiomSolver, Pairs, Solved};
use fvn_terms::NoMemory;
use std::alloc::Global;

/// Answers as another solver does, and keeps what that one told of problems of one pair, to tell it again.
#[derive(Drop)]
pub struct Remembering<'a, A: AxiomSolver, N: Named<A>> {
    pub(crate) solver: &'a A,
    slots: Vec<OnceSlot<Answer, Promised<A, N>>>,
    ghost named: { N.value ≡ Some solver.now },
}

impl<'a, A: AxiomSolver, N: Named<A>> Remembering<'a, A, N> {
    /// Answers as this solver does, and has kept nothing yet.
    pub fn new(alloc: Global, solver: &'a A) -> Result<Remembering<'a, A, N>, NoMemory>
        requires { N.value ≡ Some solver.now }
        ensures { IfOk result (λ r. r.solver.now ≡ solver.now) }
    {
        let slots = no_answers(alloc)?;
        Ok(Remembering { solver, slots })
    }
}

impl<A: AxiomSolver, N: Named<A>> AxiomSolver for Remembering<'_, A, N> {
    ghost signature = { λ s. A.signature s.solver.now };

    ghost most_unifiers = { λ s. A.most_unifiers s.solver.now };

    ghost most_symbols = { λ s. A.most_symbols s.solver.now };

    ghost drawn = { λ s. A.drawn s.solver.now };

    fn solve(&self, alloc: Global, problem: &Pairs, first_fresh: u32) -> Result<Solved, NoMemory> {
        let asking = Asking {
            solver: self.solver,
        };
        let solved = told(alloc, &asking, self.slots.as_slice(), problem, first_fresh)?;
        Ok(solved)
    }
}
