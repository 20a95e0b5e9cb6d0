//! What narrows: rules, and a solver.
ghost use Rattle.std.specs.Prelude.{◌≡◌, IfOk};
ghost use Rattle.fvn_rewrite.specs.Usable.{AreUsable};
ghost use Rattle.fvn_narrow.specs.Settings.{narrowing_setting};

use crate::expanding::expansion;
use crate::tools::{Asking, Tools};
use fvn_cover::Variant;
use fvn_exploring::{Expander, Expansion};
use fvn_flat::{AxiomSolver, Flat, Normal};
use fvn_rewrite::Rewriter;
use fvn_rewrite_coherence::rules_are_coherent;
use fvn_rewrite_normal_forms::normal_forms_are_lawful;
use fvn_rewrite_rules::Rules;
use fvn_signature::Signature;
use fvn_terms::NoMemory;
use fvn_theory::Bounds;
use std::alloc::Global;

/// Narrows with the rules of admissible equations and a solver modulo the axioms of their signature.
#[derive(Drop)]
pub struct Narrower<'a, A: AxiomSolver> {
    pub(crate) rewriter: Rewriter<'a>,
    pub(crate) bounds: Bounds,
    pub(crate) solver: &'a A,
    ghost one_signature: { A.signature solver.now ≡ rewriter.signature },
    ghost one_size: { A.most_symbols solver.now ≡ rewriter.bounds.size },
    ghost one_bound: { bounds ≡ rewriter.bounds },
}

impl<'a, A: AxiomSolver> Narrower<'a, A> {
    /// These rules over this signature, within limits of which the solver has that on symbols.
    pub fn new(
        alloc: Global,
        sig: &'a Signature,
        rules: &'a Rules,
        solver: &'a A,
        bounds: Bounds,
    ) -> Narrower<'a, A>
        requires rules { AreUsable sig.now rules.now }
        requires signature { A.signature solver.now ≡ sig.now }
        requires size { A.most_symbols solver.now ≡ bounds.size }
        ensures rewrites { result.rewriter ≡
            record { signature = sig.now; rules = rules.now; bounds = bounds } }
        ensures solver { result.solver.now ≡ solver.now }
    {
        Narrower {
            rewriter: Rewriter::new(alloc, sig, rules, bounds),
            bounds,
            solver,
        }
    }
}

impl<A: AxiomSolver> Expander for Narrower<'_, A> {
    ghost setting = { λ n. narrowing_setting n.rewriter (A.most_unifiers n.solver.now) };

    ghost drawn = { λ n. A.drawn n.solver.now };

    // No term is asked to stay irreducible.
    fn fixed(&self) -> &[Flat] {
        &[]
    }

    // New variables are numbered anew for each variant, so that the number does not matter.
    fn expand(&self, alloc: Global, v: &Variant, first_fresh: u32) -> Result<Expansion, NoMemory> {
        let solver = Asking {
            solver: self.solver,
        };
        let tools = Tools {
            rewriter: &self.rewriter,
            size: self.bounds.size,
            solver: &solver,
        };
        let e = expansion(&tools, alloc, v, first_fresh)?;
        Ok(e)
    }

    fn rest(&self, _alloc: Global, t: &Flat) -> Result<Normal, NoMemory> {
        self.rewriter.recall();
        rules_are_coherent();
        normal_forms_are_lawful();
        let found = self.rewriter.normal(t)?;
        Ok(found)
    }
}

fn shared<T: Send + Sync>(_value: &T) {}

/// What narrows may be sent to and shared between threads.
pub fn all_shared<A: AxiomSolver>(narrower: &Narrower<'_, A>) {
    shared(narrower);
}
