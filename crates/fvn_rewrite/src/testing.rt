//! Whether a step is possible, where the form that it leads to is not asked for: no instance of a right side is made.
ghost use Rattle.std.specs.Prelude.{◌≡◌, false, Some, IsTrue, IfOk};
ghost use Rattle.fvn_terms.specs.Rewriting.{IsReducible};
ghost use Rattle.fvn_forms.specs.Flat.{plain};
ghost use Rattle.fvn_flat.specs.Forms.{head_of};
ghost use Rattle.fvn_flat.specs.Fits.{Fits};
ghost use Rattle.fvn_theory.specs.Equations.{equations_of};
ghost use Rattle.fvn_rewrite_laws.specs.Normalised.{IsNormalForm};
ghost use Rattle.fvn_rewrite.specs.inner.Trying.{AllSidesFit, TriesAs};
ghost use Rattle.fvn_rewrite.specs.inner.Walking.{RootAs, WalkAs};
ghost use Rattle.fvn_rewrite.specs.inner.Testing.{ToldAs};
ghost use Rattle.fvn_rewrite.specs.Usable.{AreUsable};

use crate::root::rule_match;
use fvn_flat::Flat;
use fvn_rewrite_coherence::rules_are_coherent;
use fvn_rewrite_laws::{kinded_theories_are_lawful, rules_are_lawful};
use fvn_rewrite_rules::{Rule, Rules};
use fvn_signature::Signature;
use fvn_terms::{NoMemory, OpId, rewriting_is_lawful};
use std::alloc::Global;

// Whether one of the rules matches the form. They are tried from the last on, since an extension stands behind the rule
// that it extends, and matches more sums.
fn some_match(alloc: Global, sig: &Signature, rules: &[Rule], t: &Flat) -> Result<bool, NoMemory>
    requires rules { AllSidesFit sig.now rules.now }
    requires term { Fits sig.now t.now }
    ensures { IfOk result (ToldAs (TriesAs sig.now rules.now t.now)) }
{
    sig.recall_good();
    let mut i = rules.len();
    while i > 0 {
        i -= 1;
        let found = rule_match(alloc, sig, &rules[i], t)?;
        let met = found.is_some();
        if met {
            return Ok(true);
        }
    }
    Ok(false)
}

// Whether a step is possible at the root of a form that this operator heads.
fn is_redex(
    alloc: Global,
    sig: &Signature,
    rules: &Rules,
    f: OpId,
    t: &Flat,
) -> Result<bool, NoMemory>
    requires rules { AreUsable sig.now rules.now }
    requires term { Fits sig.now t.now }
    requires head { head_of t.now ≡ Some f }
    ensures { IfOk result (ToldAs (RootAs sig.now (equations_of rules.now.equations) t.now)) }
{
    sig.recall_good();
    sig.recall_completed();
    rules_are_lawful();
    rules_are_coherent();
    let met = some_match(alloc, sig, rules.headed(f), t)?;
    Ok(met)
}

// Whether a step is possible at some place of the form; the places of the arguments come before the form itself.
fn has_redex(alloc: Global, sig: &Signature, rules: &Rules, t: &Flat) -> Result<bool, NoMemory>
    requires rules { AreUsable sig.now rules.now }
    requires term { Fits sig.now t.now }
    ensures { IfOk result (ToldAs (WalkAs sig.now (equations_of rules.now.equations) t.now)) }
{
    match t.head() {
        None => Ok(false),
        Some(f) => {
            sig.recall_good();
            rewriting_is_lawful();
            kinded_theories_are_lawful();
            let ts = t.args();
            let count = ts.len();
            for i in 0..count {
                let found = has_redex(alloc, sig, rules, &ts[i])?;
                if found {
                    return Ok(true);
                }
            }
            let met = is_redex(alloc, sig, rules, f, t)?;
            Ok(met)
        }
    }
}

/// Whether the term is reducible modulo the axioms.
pub fn is_reducible(
    alloc: Global,
    sig: &Signature,
    rules: &Rules,
    t: &Flat,
) -> Result<bool, NoMemory>
    requires term { Fits sig.now t.now }
    requires rules { AreUsable sig.now rules.now }
    ensures yes { IfOk result (λ is. IsTrue is
        → IsReducible sig.now (equations_of rules.now.equations) (plain t.now)) }
    ensures no { IfOk result (λ is. is ≡ false
        → IsNormalForm sig.now (equations_of rules.now.equations) t.now) }
{
    sig.recall_good();
    sig.recall_completed();
    rules_are_coherent();
    let found = has_redex(alloc, sig, rules, t)?;
    Ok(found)
}
