//! Solvers whose answers may be kept.
ghost use Rattle.std.specs.Prelude.{IfOk};
ghost use Rattle.fvn_terms.specs.Substitution.{Substitution};
ghost use Rattle.fvn_terms.specs.Unifiers.{Problem};
ghost use Rattle.fvn_flat.specs.Solving.{IsGiven};
ghost use Rattle.fvn_remembering.specs.Answers.{Solving, solving, IsAnswer};

use fvn_flat::{AxiomSolver, Pairs, Solved};
use fvn_terms::NoMemory;
use std::alloc::Global;

/// What a solver modulo the axioms promises, also one that is not shared between threads.
pub(crate) trait Solves {
    /// The signature in which it solves, and its limits.
    ghost solving: { Self → Solving };

    /// Which substitutions it may give for a problem.
    ghost drawn: { Self → Problem → Substitution → Type 0 };

    /// Unifiers of the problem over fresh variables with numbers from `first` on.
    fn solve(&self, alloc: Global, problem: &Pairs, first: u32) -> Result<Solved, NoMemory>
        requires { IsGiven (solving self.now).declarations problem.now first }
        ensures { IfOk result (IsAnswer (solving self.now) (drawn self.now) first problem.now) };
}

/// A solver that may be shared, as one whose answers may be kept.
#[derive(Drop)]
pub(crate) struct Asking<'a, A: AxiomSolver> {
    pub(crate) solver: &'a A,
}

impl<A: AxiomSolver> Solves for Asking<'_, A> {
    ghost solving = { λ s. solving (A.signature s.solver.now) (A.most_unifiers s.solver.now)
        (A.most_symbols s.solver.now) };

    ghost drawn = { λ s. A.drawn s.solver.now };

    fn solve(&self, alloc: Global, problem: &Pairs, first: u32) -> Result<Solved, NoMemory> {
        let solved = self.solver.solve(alloc, problem, first)?;
        Ok(solved)
    }
}
