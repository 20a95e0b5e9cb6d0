//! The search for unifiers in a theory.
ghost use Rattle.std.specs.Prelude.{◌≡◌, map, All, IfOk};
ghost use Rattle.fvn_vunify.specs.Solved.{IsSolverFor, DrawsWithin, IsOfSomePairs, IsSolvedFor};
ghost use Rattle.fvn_vunify.specs.inner.Attempts.{first_variables, IsSolvable, AreAttempts};

use crate::attempts::Attempt;
use crate::ends::{end_after, first_end};
use crate::solved::SolvedModulo;
use crate::solving::solve_variant;
use fvn_base::Seq;
use fvn_cover::{Variant, covering_of_unifiers_is_instance, prune};
use fvn_exploring::{ExpandEnd, Expander, Explored};
use fvn_flat::{AxiomSolver, Subst};
use fvn_rewrite_laws::{
    agreement_is_lawful, kinded_theories_are_lawful, lists_are_lawful, sequences_are_lawful,
};
use fvn_signature::Signature;
use fvn_terms::{
    NoMemory, Var, instances_are_transitive, rewriting_is_lawful, theory_equality_is_lawful,
};
use std::alloc::Global;

// The variables of the first variant.
fn first_variables(variants: &[Variant]) -> &[Var]
    ensures { result.now ≡ first_variables variants.now }
{
    match variants.first() {
        Some(v) => v.vars.as_slice(),
        None => &[],
    }
}

// What is found for each of the variants, over these variables.
fn attempts<E: Expander, A: AxiomSolver>(
    alloc: Global,
    sig: &Signature,
    expander: &E,
    solver: &A,
    vars: &[Var],
    variants: &[Variant],
) -> Result<Attempt, NoMemory>
    requires sig { sig.now ≡ (E.setting expander.now).declarations }
    requires solver { IsSolverFor (E.setting expander.now) (A.signature solver.now)
        (A.most_unifiers solver.now) (A.most_symbols solver.now) }
    requires draws { DrawsWithin (A.drawn solver.now) (E.drawn expander.now) }
    requires solvable { All (IsSolvable (E.setting expander.now) vars.now) variants.now }
    ensures { IfOk result (λ a. AreAttempts (E.setting expander.now) (E.drawn expander.now)
        vars.now variants.now a.found.items a.end) }
{
    let mut found = Vec::new(alloc);
    let mut end = ExpandEnd::Whole;
    for v in variants {
        let mut one = solve_variant(alloc, sig, expander, solver, vars, v)?;
        found.append(&mut one.found)?;
        end = first_end(end, one.end);
    }
    Ok(Attempt { found, end })
}

// The substitutions alone.
fn unifiers_of(alloc: Global, list: Vec<Variant>) -> Result<Vec<Subst>, NoMemory>
    ensures { IfOk result (λ all. all.items ≡ map (λ u. u.subst) list.items) }
{
    let mut all = Vec::new(alloc);
    for u in list {
        all.push(u.subst)?;
    }
    Ok(all)
}

/// Unifiers in the theory of the expander's equations, from an exploration of the sides of pairs.
///
/// The pairs of each variant are solved modulo the axioms. What this makes of the problem's variables
/// is kept where it is irreducible and the fixed terms stay so, and no instance of another is given.
pub fn variant_unify<E: Expander, A: AxiomSolver>(
    alloc: Global,
    sig: &Signature,
    expander: &E,
    solver: &A,
    explored: Explored,
) -> Result<SolvedModulo, NoMemory>
    requires sig { sig.now ≡ (E.setting expander.now).declarations }

    // The solver has the signature, the limits and the draws of the expander.
    requires solver { IsSolverFor (E.setting expander.now) (A.signature solver.now)
        (A.most_unifiers solver.now) (A.most_symbols solver.now) }
    requires draws { DrawsWithin (A.drawn solver.now) (E.drawn expander.now) }

    // What was explored are the sides of some pairs; the answer is one for all pairs whose sides may
    // have been explored so.
    requires explored { IsOfSomePairs (E.setting expander.now) (E.drawn expander.now) explored }
    ensures solved { IfOk result
        (IsSolvedFor (E.setting expander.now) (E.drawn expander.now) explored) }
{
    rewriting_is_lawful();
    theory_equality_is_lawful();
    instances_are_transitive();
    sequences_are_lawful();
    lists_are_lawful();
    agreement_is_lawful();
    kinded_theories_are_lawful();
    covering_of_unifiers_is_instance();
    sig.recall_good();
    let variants = explored.variants.as_slice();
    let vars = first_variables(variants);
    let attempt = attempts(alloc, sig, expander, solver, vars, variants)?;
    let kept = prune(alloc, sig, attempt.found)?;
    let unifiers = unifiers_of(alloc, kept)?;
    let end = end_after(explored.into_end(), attempt.end);
    Ok(SolvedModulo {
        unifiers: Seq::from_vec(unifiers),
        end,
    })
}
