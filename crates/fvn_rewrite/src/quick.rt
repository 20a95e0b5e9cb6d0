//! Where turns from the root begin: passes from the inside out go before them.
ghost use Rattle.std.specs.Prelude.{◌<◌, IfOk, IfSome};
ghost use Rattle.fvn_flat.specs.Fits.{Fits};
ghost use Rattle.fvn_theory.specs.Equations.{equations_of};
ghost use Rattle.fvn_rewrite.specs.Usable.{AreUsable};
ghost use Rattle.fvn_rewrite.specs.inner.Making.{AreStepRules, IsReachedFrom};
ghost use Rattle.fvn_rewrite.specs.inner.Walking.{IsNext};

use crate::inside::inside;
use crate::making::{Pass, make};
use fvn_base::limits::DEPTH;
use fvn_flat::{Flat, flatten};
use fvn_rewrite_laws::{kinded_theories_are_lawful, rules_are_lawful, sequences_are_lawful};
use fvn_rewrite_rules::Rules;
use fvn_signature::Signature;
use fvn_terms::{NoMemory, rewriting_is_lawful};
use fvn_theory::Bounds;
use std::alloc::Global;

// How deep the pass modulo axioms goes: each level takes some 1.3 kilobytes of the stack, beside what is matched there.
const MODULO_DEPTH: u64 = 200;

// A form to which steps lead, and how many steps are left.
#[derive(Drop)]
pub(crate) struct Begun {
    pub(crate) form: Flat,
    pub(crate) left: u64,
}

// What the pass comes to; nothing where a limit is met, or an operator has axioms.
fn quick(
    alloc: Global,
    sig: &Signature,
    rules: &Rules,
    t: &Flat,
    bounds: Bounds,
) -> Result<Option<Begun>, NoMemory>
    requires term { Fits sig.now t.now }
    requires laws { AreStepRules sig.now rules.now }
    ensures { IfOk result (λ o. IfSome o
        (λ (b : Begun). IsReachedFrom sig.now (equations_of rules.now.equations)
        t.now bounds.steps b.form b.left)) }
{
    let pass = Pass {
        alloc,
        sig,
        rules,
        size: bounds.size,
    };
    let made = make(&pass, DEPTH, t, &[], bounds.steps)?;
    match made {
        Some(one) => {
            let plain = one.value.to_plain(alloc)?;
            let form = flatten(alloc, sig, &plain)?;
            Ok(Some(Begun {
                form,
                left: one.left,
            }))
        }
        None => Ok(None),
    }
}

// Where turns from the root begin: what a pass comes to, the first for free operators alone, the second modulo axioms;
// where neither comes to an end, what one step leads to.
pub(crate) fn begin(
    alloc: Global,
    sig: &Signature,
    rules: &Rules,
    t: &Flat,
    next: Flat,
    bounds: Bounds,
) -> Result<Begun, NoMemory>
    requires term { Fits sig.now t.now }
    requires rules { AreUsable sig.now rules.now }
    requires next { IsNext sig.now (equations_of rules.now.equations) t.now next }
    requires some { 0 < bounds.steps }
    ensures { IfOk result (λ b.
        IsReachedFrom sig.now (equations_of rules.now.equations) t.now bounds.steps b.form b.left) }
{
    sig.recall_good();
    sig.recall_completed();
    rewriting_is_lawful();
    sequences_are_lawful();
    kinded_theories_are_lawful();
    rules_are_lawful();
    let made = quick(alloc, sig, rules, t, bounds)?;
    if let Some(begun) = made {
        return Ok(begun);
    }
    let pass = Pass {
        alloc,
        sig,
        rules,
        size: bounds.size,
    };
    let reached = inside(&pass, MODULO_DEPTH, t, bounds.steps)?;
    if let Some(one) = reached {
        return Ok(Begun {
            form: one.form,
            left: one.left,
        });
    }
    Ok(Begun {
        form: next,
        left: bounds.steps - 1,
    })
}
