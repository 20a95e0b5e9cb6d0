//! What steps are made with: a rewriter, a limit on symbols, and a solver.
ghost use Rattle.std.specs.Prelude.{◌≡◌, ◌≤◌, ℕ, IfOk};
ghost use Rattle.fvn_terms.specs.declared.declarations.Declarations.{Declarations};
ghost use Rattle.fvn_terms.specs.Substitution.{Substitution};
ghost use Rattle.fvn_terms.specs.Unifiers.{Problem};
ghost use Rattle.fvn_flat.specs.Solving.{IsGiven, AreUnifiers, AreDrawn, AreBindings, AreNumbered, AreApart, AreComplete, HasCause};
ghost use Rattle.fvn_base.specs.declared.limits.TheConstants.{NEXT_FRESH};

use fvn_flat::{AxiomSolver, Pairs, Solved};
use fvn_rewrite::Rewriter;
use fvn_terms::NoMemory;
use std::alloc::Global;

/// What a solver modulo the axioms promises, also one that is not shared between threads.
pub(crate) trait Solves {
    /// The signature in which it solves.
    ghost signature: { Self → Declarations };

    /// The number of unifiers at which it stops.
    ghost most_unifiers: { Self → ℕ };

    /// The number of symbols that a problem or a binding may have.
    ghost most_symbols: { Self → ℕ };

    /// Which substitutions it may give for a problem.
    ghost drawn: { Self → Problem → Substitution → Type 0 };

    /// Unifiers of the problem over fresh variables with numbers from `first_fresh` on.
    fn solve(&self, alloc: Global, problem: &Pairs, first_fresh: u32) -> Result<Solved, NoMemory>
        requires { IsGiven (signature self.now) problem.now first_fresh }
        ensures sound { IfOk result (AreUnifiers (signature self.now) problem.now) }
        ensures drawn { IfOk result (AreDrawn (signature self.now) problem.now (drawn self.now)) }
        ensures binds { IfOk result (AreBindings (signature self.now) problem.now) }
        ensures fresh { IfOk result (AreNumbered (signature self.now) problem.now first_fresh) }
        ensures bounded { IfOk result (λ r. r.next_fresh ≤ NEXT_FRESH) }
        ensures apart { IfOk result (AreApart (signature self.now) problem.now) }
        ensures complete { IfOk result (AreComplete (signature self.now) problem.now) }
        ensures cause { IfOk result
            (HasCause (signature self.now) problem.now (most_unifiers self.now) (most_symbols self.now)) };
}

/// A solver that may be shared, as steps see it.
#[derive(Drop)]
pub(crate) struct Asking<'a, A: AxiomSolver> {
    pub(crate) solver: &'a A,
}

impl<A: AxiomSolver> Solves for Asking<'_, A> {
    ghost signature = { λ s. A.signature s.solver.now };

    ghost most_unifiers = { λ s. A.most_unifiers s.solver.now };

    ghost most_symbols = { λ s. A.most_symbols s.solver.now };

    ghost drawn = { λ s. A.drawn s.solver.now };

    fn solve(&self, alloc: Global, problem: &Pairs, first_fresh: u32) -> Result<Solved, NoMemory> {
        let solved = self.solver.solve(alloc, problem, first_fresh)?;
        Ok(solved)
    }
}

/// What steps are made with.
#[derive(Drop)]
pub(crate) struct Tools<'w, 'r, S: Solves> {
    pub(crate) rewriter: &'w Rewriter<'r>,
    pub(crate) size: u64,
    pub(crate) solver: &'w S,
    ghost one_signature: { S.signature solver.now ≡ rewriter.now.signature },
    ghost one_size: { S.most_symbols solver.now ≡ rewriter.now.bounds.size },
    ghost one_bound: { size ≡ rewriter.now.bounds.size },
}
