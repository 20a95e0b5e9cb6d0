//! One step.
ghost use Rattle.std.specs.Prelude.{◌≡◌, None, IfOk, IfSome};
ghost use Rattle.fvn_flat.specs.Fits.{Fits};
ghost use Rattle.fvn_theory.specs.Equations.{equations_of};
ghost use Rattle.fvn_rewrite_laws.specs.Normalised.{StepsTo, IsNormalForm};
ghost use Rattle.fvn_rewrite.specs.Usable.{AreUsable};

use crate::walking::walk;
use fvn_flat::Flat;
use fvn_rewrite_coherence::rules_are_coherent;
use fvn_rewrite_rules::Rules;
use fvn_signature::Signature;
use fvn_terms::NoMemory;
use std::alloc::Global;

/// A form that one step leads to; nothing exactly where the term is irreducible modulo the axioms.
///
/// It takes the first place at which a step is possible; the places of the arguments come before the form itself.
pub fn step(
    alloc: Global,
    sig: &Signature,
    rules: &Rules,
    t: &Flat,
) -> Result<Option<Flat>, NoMemory>
    requires term { Fits sig.now t.now }
    requires rules { AreUsable sig.now rules.now }
    ensures some { IfOk result (λ o.
        IfSome o (StepsTo sig.now (equations_of rules.now.equations) t.now)) }
    ensures fits { IfOk result (λ o. IfSome o (Fits sig.now)) }
    // Nothing is given only where the term is irreducible.
    ensures none { IfOk result (λ o.
        o ≡ None → IsNormalForm sig.now (equations_of rules.now.equations) t.now) }
{
    sig.recall_good();
    sig.recall_completed();
    rules_are_coherent();
    let found = walk(alloc, sig, rules, t)?;
    Ok(found)
}
