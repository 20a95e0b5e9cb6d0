//! What tests: rules, and a solver.
ghost use Rattle.std.specs.Prelude.{◌≡◌};
ghost use Rattle.fvn_rewrite.specs.Usable.{AreUsable};
ghost use Rattle.fvn_critical.specs.Faults.{rewriting_of};

use fvn_flat::AxiomSolver;
use fvn_rewrite::Rewriter;
use fvn_rewrite_rules::{Rule, Rules};
use fvn_signature::Signature;
use fvn_theory::Bounds;
use std::alloc::Global;

// The rules of admissible equations, some of them that are chosen, and a solver modulo the axioms of their signature.
#[derive(Drop)]
pub(crate) struct Tester<'a, A: AxiomSolver> {
    pub(crate) rewriter: Rewriter<'a>,
    pub(crate) solver: &'a A,
    pub(crate) chosen: &'a [Rule],
    ghost one_signature: { A.signature solver.now ≡ rewriter.signature },
    ghost one_size: { A.most_symbols solver.now ≡ rewriter.bounds.size },
}

impl<'a, A: AxiomSolver> Tester<'a, A> {
    // These rules over this signature, within limits of which the solver has that on symbols, and the chosen ones.
    pub(crate) fn new(
        alloc: Global,
        sig: &'a Signature,
        rules: &'a Rules,
        solver: &'a A,
        bounds: Bounds,
        chosen: &'a [Rule],
    ) -> Tester<'a, A>
        requires rules { AreUsable sig.now rules.now }
        requires signature { A.signature solver.now ≡ sig.now }
        requires size { A.most_symbols solver.now ≡ bounds.size }
        ensures rewrites { result.rewriter ≡ rewriting_of sig.now rules.now bounds }
        ensures solver { result.solver.now ≡ solver.now }
        ensures chosen { result.chosen.now ≡ chosen.now }
    {
        Tester {
            rewriter: Rewriter::new(alloc, sig, rules, bounds),
            solver,
            chosen,
        }
    }
}
