//! The solver.
ghost use Rattle.std.specs.Prelude.{◌≡◌, ◌≤◌, IfOk};
ghost use Rattle.fvn_base.specs.declared.limits.TheConstants.{TERM_SYMBOLS, NEXT_FRESH};
ghost use Rattle.fvn_flat.specs.Solving.{IsGiven, symbols_of_pairs, AreUnifiers, AreDrawn, AreBindings, AreNumbered, AreApart, AreComplete, HasCause};
ghost use Rattle.fvn_flat.specs.Drawn.{IsDrawn};
ghost use Rattle.fvn_axunify.specs.Solvers.{Solver};
ghost use Rattle.fvn_axunify.specs.Exact.{IsExact};
ghost use Rattle.fvn_axunify.specs.Searched.{IsSearched, HoldsItsSearch};
ghost use Rattle.fvn_axunify.specs.Coarser.{HoldsCoarserOnes};
ghost use Rattle.fvn_axunify.specs.inner.Found.{IsFound};
ghost use Rattle.fvn_axunify.specs.inner.Members.{IsReached};
ghost use Rattle.fvn_axunify.specs.inner.Asked.{IsAsked};
ghost use Rattle.fvn_axunify.specs.Solved.{IsSolvedAs};

use crate::members::unifiers;
use crate::numbers::above_all;
use crate::problem::{copied, is_over, variables};
use crate::search::{Found, search};
use crate::task::Task;
use fvn_base::Seq;
use fvn_cover::covering_of_unifiers_is_instance;
use fvn_flat::{AxiomSolver, Pairs, SizeCause, SolveEnd, Solved};
use fvn_signature::Signature;
use fvn_terms::NoMemory;
use std::alloc::Global;
use std::marker::Model;

/// Where the solver stops: at so many unifiers, and at terms of more symbols than this.
#[derive(Clone, Copy)]
pub struct SolveLimits {
    pub unifiers: u32,
    pub size: u64,
}

/// The solver modulo the axioms of a signature, within limits.
///
/// It gives sorts to what the combination of the solvers for each operator gives on kinds, and keeps what
/// is no instance of another (M. E. Stickel, 1981; F. Baader and K. U. Schulz, 1996; J. Meseguer, J. A.
/// Goguen and G. Smolka, 1989).
#[derive(Drop)]
pub struct AxiomUnify<'a> {
    sig: &'a Signature,
    limits: SolveLimits,
}

impl<'a> Model for AxiomUnify<'a> {
    ghost use Rattle.std.specs.Coded.{codes};
    ghost use Rattle.fvn_axunify.specs.Solvers.{Solver, IsSolver};

    ghost Value = { Solver };

    ghost coded = { Prim.hlevel codes };

    ghost view = { λ s. record {
      declarations = s.sig.now;
      most_unifiers = s.limits.unifiers;
      most_symbols = s.limits.size;
    } };

    ghost invariant = { λ s. IsSolver (record {
      declarations = s.sig.now;
      most_unifiers = s.limits.unifiers;
      most_symbols = s.limits.size;
    }) };
}

// The answer that was found.
fn told(task: &Task, found: Found) -> Result<Solved, NoMemory>
    requires asked { IsAsked task.now.sig.now task.now.problem.now task.now.vars.now
        task.now.first }
    requires found { IsFound task.now.sig.now task.now.problem.now task.now.vars.now task.now.first
        task.now.limits.unifiers task.now.limits.size found.kept found.end }
    requires small { symbols_of_pairs task.now.problem.now.pairs ≤ task.now.limits.size }
    requires searched { IsSearched task.now.sig.now task.now.problem.now
        (IsReached task.now.sig.now task.now.problem.now task.now.vars.now found.kept)
        task.now.first task.now.limits.size found.end }
    ensures solved { IfOk result (IsSolvedAs task.now.sig.now task.now.problem.now task.now.first
        task.now.limits.unifiers task.now.limits.size) }
    ensures exact { IfOk result (IsExact task.now.problem.now task.now.first
        task.now.limits.unifiers task.now.limits.size) }
    ensures searched { IfOk result (HoldsItsSearch task.now.sig.now task.now.problem.now
        task.now.first task.now.limits.size) }
    ensures coarser { IfOk result (HoldsCoarserOnes task.now.sig.now task.now.problem.now) }
{
    covering_of_unifiers_is_instance();
    let list = unifiers(task.alloc, found.kept)?;
    let next_fresh = above_all(task.alloc, list.as_slice(), task.first)?;
    Ok(Solved {
        unifiers: Seq::from_vec(list),
        next_fresh,
        end: found.end,
    })
}

impl<'a> AxiomUnify<'a> {
    /// The solver in this signature, with these limits.
    pub fn new(sig: &'a Signature, limits: SolveLimits) -> AxiomUnify<'a>
        requires unifiers { 1 ≤ limits.unifiers }
        requires size { limits.size ≤ TERM_SYMBOLS }
        ensures declarations { result.declarations ≡ sig.now }
        ensures unifiers { result.most_unifiers ≡ limits.unifiers }
        ensures size { result.most_symbols ≡ limits.size }
    {
        AxiomUnify { sig, limits }
    }

    /// Unifiers of the problem over fresh variables with numbers from `first_fresh` on.
    ///
    /// It is what `solve` of `AxiomSolver` does; the laws of solvers stand here in one record.
    pub fn unify(
        &self,
        alloc: Global,
        problem: &Pairs,
        first_fresh: u32,
    ) -> Result<Solved, NoMemory>
        requires { IsGiven self.now.declarations problem.now first_fresh }
        ensures solved { IfOk result (IsSolvedAs self.now.declarations problem.now first_fresh
            self.now.most_unifiers self.now.most_symbols) }
        ensures exact { IfOk result (IsExact problem.now first_fresh
            self.now.most_unifiers self.now.most_symbols) }
        // At every end what the search gave is an instance of what is answered, but for that with which the
        // limit was reached; and a refused sum system ends it only where no question is open.
        ensures searched { IfOk result (HoldsItsSearch self.now.declarations problem.now first_fresh
            self.now.most_symbols) }
        // Where a refused sum system ends the search, what joins more than its partition is held.
        ensures coarser { IfOk result (HoldsCoarserOnes self.now.declarations problem.now) }
    {
        self.sig.recall_good();
        if is_over(problem, self.limits.size) {
            let whole = copied(alloc, problem)?;
            return Ok(Solved {
                unifiers: Seq::new(alloc),
                next_fresh: first_fresh,
                end: SolveEnd::Size(SizeCause::Problem(whole)),
            });
        }
        let vars = variables(alloc, problem)?;
        let task = Task {
            alloc,
            sig: self.sig,
            problem,
            vars: vars.as_slice(),
            first: first_fresh,
            limits: self.limits,
        };
        let found = search(&task)?;
        let solved = told(&task, found)?;
        Ok(solved)
    }
}

impl AxiomSolver for AxiomUnify<'_> {
    ghost signature = { λ s. s.declarations };

    ghost most_unifiers = { λ s. s.most_unifiers };

    ghost most_symbols = { λ s. s.most_symbols };

    // What a solved list unfolds to, in a maximal way of sorts, and with new names.
    ghost drawn = { λ s. IsDrawn s.declarations };

    fn solve(&self, alloc: Global, problem: &Pairs, first_fresh: u32) -> Result<Solved, NoMemory>
        requires { IsGiven self.now.declarations problem.now first_fresh }
        ensures sound { IfOk result (AreUnifiers self.now.declarations problem.now) }
        ensures drawn { IfOk result
            (AreDrawn self.now.declarations problem.now (IsDrawn self.now.declarations)) }
        ensures binds { IfOk result (AreBindings self.now.declarations problem.now) }
        ensures fresh { IfOk result (AreNumbered self.now.declarations problem.now first_fresh) }
        ensures next { IfOk result (λ r. first_fresh ≤ r.next_fresh) }
        ensures bounded { IfOk result (λ r. r.next_fresh ≤ NEXT_FRESH) }
        ensures apart { IfOk result (AreApart self.now.declarations problem.now) }
        ensures complete { IfOk result (AreComplete self.now.declarations problem.now) }
        ensures cause { IfOk result (HasCause self.now.declarations problem.now
            self.now.most_unifiers self.now.most_symbols) }
        // When exactly two ends come, and which number is the next.
        ensures exact { IfOk result (IsExact problem.now first_fresh
            self.now.most_unifiers self.now.most_symbols) }
        // All that the search gave is answered.
        ensures searched { IfOk result (HoldsItsSearch self.now.declarations problem.now first_fresh
            self.now.most_symbols) }
        ensures coarser { IfOk result (HoldsCoarserOnes self.now.declarations problem.now) }
    {
        let solved = self.unify(alloc, problem, first_fresh)?;
        Ok(solved)
    }
}
