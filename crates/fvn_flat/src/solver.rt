//! What every solver modulo the axioms promises.
ghost use Rattle.std.specs.Prelude.{◌≤◌, ℕ, IfOk};
ghost use Rattle.fvn_terms.specs.declared.declarations.Declarations.{Declarations};
ghost use Rattle.fvn_terms.specs.Substitution.{Substitution};
ghost use Rattle.fvn_terms.specs.Unifiers.{Problem};
ghost use Rattle.fvn_flat.specs.Solving.{IsGiven, AreUnifiers, AreDrawn, AreBindings, AreNumbered, AreApart, AreComplete, HasCause};
ghost use Rattle.fvn_base.specs.declared.limits.TheConstants.{NEXT_FRESH};

use crate::flat::Flat;
use crate::substitution::{Subst, shared};
use fvn_base::Seq;
use fvn_lindio::System;
use fvn_terms::{NoMemory, OpId, Var};
use std::alloc::Global;

/// A problem: pairs of flat terms that are to be made equal.
#[derive(Drop)]
pub struct Pairs {
    pub pairs: Seq<(Flat, Flat)>,
}

/// What some classes of a problem's terms are bound to.
///
/// Each class is bound under a name, before the names that its term holds are.
#[derive(Drop)]
pub struct SolvedList {
    pub bindings: Seq<(Var, Flat)>,
}

/// Something that shows a term with too many symbols.
#[derive(Drop)]
pub enum SizeCause {
    /// The problem itself has too many.
    Problem(Pairs),
    /// The list unfolds to a term with too many.
    Binding(SolvedList),
    /// The term has too many; no solver gives this.
    Term(Flat),
}

/// Why a solver stopped.
#[derive(Drop)]
pub enum SolveEnd {
    /// Every unifier is an instance of a given one.
    Complete,
    /// The sum system of an operator has too many minimal solutions, or too large ones.
    Basis(OpId, System),
    /// As many unifiers were found as the solver keeps.
    Unifiers,
    /// A term would have more symbols than the solver allows.
    Size(SizeCause),
}

/// What a solver answers.
#[derive(Drop)]
pub struct Solved {
    pub unifiers: Seq<Subst>,
    /// No fresh variable of the unifiers has this number or a greater one.
    pub next_fresh: u32,
    pub end: SolveEnd,
}

/// What a search for a normal form ended with.
#[derive(Drop)]
pub enum Normal {
    /// A normal form.
    Form(Flat),
    /// A term and what it came to in as many steps as were allowed; that can be rewritten further.
    Steps(Flat, Flat),
    /// A term with more symbols than were allowed.
    Size(Flat),
}

/// Problems, answers and normal forms may be sent to and shared between threads.
pub fn all_answers_shared(problem: &Pairs, solved: &Solved, normal: &Normal) {
    shared(problem);
    shared(solved);
    shared(normal);
}

/// A solver modulo the axioms. It may be shared between threads.
pub trait AxiomSolver: Sync {
    /// The signature in which it solves.
    ghost signature: { Self → Declarations };

    /// The number of unifiers at which it stops.
    ghost most_unifiers: { Self → ℕ };

    /// The number of symbols that a problem or a binding may have.
    ghost most_symbols: { Self → ℕ };

    /// Which substitutions it may give for a problem.
    ghost drawn: { Self → Problem → Substitution → Type 0 };

    /// Unifiers of the problem over fresh variables with numbers from `first_fresh` on.
    fn solve(&self, alloc: Global, problem: &Pairs, first_fresh: u32) -> Result<Solved, NoMemory>
        requires { IsGiven (signature self.now) problem.now first_fresh }

        // Each unifier given is one, may be drawn, and binds just the problem's variables, over new ones.
        ensures sound { IfOk result (AreUnifiers (signature self.now) problem.now) }
        ensures drawn { IfOk result (AreDrawn (signature self.now) problem.now (drawn self.now)) }
        ensures binds { IfOk result (AreBindings (signature self.now) problem.now) }
        ensures fresh { IfOk result (AreNumbered (signature self.now) problem.now first_fresh) }
        ensures next { IfOk result (λ r. first_fresh ≤ r.next_fresh) }
        ensures bounded { IfOk result (λ r. r.next_fresh ≤ NEXT_FRESH) }

        // None is an instance of another; where the solver says so, they are complete.
        ensures apart { IfOk result (AreApart (signature self.now) problem.now) }
        ensures complete { IfOk result (AreComplete (signature self.now) problem.now) }

        // Every other end shows why it came.
        ensures cause { IfOk result
            (HasCause (signature self.now) problem.now (most_unifiers self.now)
            (most_symbols self.now)) };
}
