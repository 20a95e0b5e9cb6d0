//! Steps at the root of a form.
ghost use Rattle.std.specs.Prelude.{◌≡◌, Some, IfOk};
ghost use Rattle.fvn_flat.specs.Forms.{head_of};
ghost use Rattle.fvn_flat.specs.Fits.{Fits};
ghost use Rattle.fvn_theory.specs.Equations.{equations_of};
ghost use Rattle.fvn_rewrite.specs.inner.Trying.{SidesFit, AllSidesFit, MatchAs, TriesAs};
ghost use Rattle.fvn_rewrite.specs.inner.Walking.{RootAs};
ghost use Rattle.fvn_rewrite.specs.Usable.{AreUsable};

use crate::short::lacks_arguments;
use crate::twins::lacks_twins;
use fvn_flat::{Flat, Subst};
use fvn_match::{matches, may_match};
use fvn_rewrite_coherence::rules_are_coherent;
use fvn_rewrite_laws::rules_are_lawful;
use fvn_rewrite_rules::{Rule, Rules};
use fvn_signature::Signature;
use fvn_terms::{NoMemory, OpId};
use std::alloc::Global;
use std::slice::from_ref;

// What makes the left side of a rule the form. Where heads or summands tell that there is no such thing, nothing is
// matched.
pub(crate) fn rule_match(
    alloc: Global,
    sig: &Signature,
    rule: &Rule,
    t: &Flat,
) -> Result<Option<Subst>, NoMemory>
    requires sides { SidesFit sig.now rule.now }
    requires term { Fits sig.now t.now }
    ensures { IfOk result (MatchAs sig.now t.now rule.now) }
{
    let open = may_match(sig, &rule.left, t);
    if !open {
        return Ok(None);
    }
    let short = lacks_arguments(sig, &rule.left, t);
    if short {
        return Ok(None);
    }
    let lost = lacks_twins(sig, &rule.left, t);
    if lost {
        return Ok(None);
    }
    let found = matches(alloc, sig, from_ref(&rule.left), from_ref(t))?;
    Ok(found)
}

// What the first of the rules that matches makes of the form; nothing where none does.
fn first_match(
    alloc: Global,
    sig: &Signature,
    rules: &[Rule],
    t: &Flat,
) -> Result<Option<Flat>, NoMemory>
    requires rules { AllSidesFit sig.now rules.now }
    requires term { Fits sig.now t.now }
    ensures { IfOk result (TriesAs sig.now rules.now t.now) }
{
    for rule in rules {
        let found = rule_match(alloc, sig, rule, t)?;
        match found {
            Some(s) => {
                let u = s.apply(alloc, sig, &rule.right)?;
                return Ok(Some(u));
            }
            None => {}
        }
    }
    Ok(None)
}

// One step at the root of a form that this operator heads.
pub(crate) fn root_step(
    alloc: Global,
    sig: &Signature,
    rules: &Rules,
    f: OpId,
    t: &Flat,
) -> Result<Option<Flat>, NoMemory>
    requires rules { AreUsable sig.now rules.now }
    requires term { Fits sig.now t.now }
    requires head { head_of t.now ≡ Some f }
    ensures { IfOk result (RootAs sig.now (equations_of rules.now.equations) t.now) }
{
    sig.recall_good();
    sig.recall_completed();
    rules_are_lawful();
    rules_are_coherent();
    let given = first_match(alloc, sig, rules.headed(f), t)?;
    Ok(given)
}
