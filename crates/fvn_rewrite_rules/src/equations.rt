//! The rules of equations.
ghost use Rattle.std.specs.Prelude.{◌≡◌, All, IfOk};
ghost use Rattle.fvn_rewrite_laws.specs.Identities.{identities};
ghost use Rattle.fvn_theory.specs.Equations.{sides_of, IsReadableEquation};
ghost use Rattle.fvn_rewrite_rules.specs.inner.Making.{AreRulesFrom};
ghost use Rattle.fvn_rewrite_rules.specs.inner.Collecting.{AreAllRules};

use crate::extensions::extensions;
use crate::instances::instances;
use crate::rule::Rule;
use fvn_cohere::all_identities;
use fvn_signature::Signature;
use fvn_terms::{NoMemory, OpId};
use fvn_theory::Equation;
use std::alloc::Global;

// The rules of one equation, with its number.
fn rules_from(
    alloc: Global,
    sig: &Signature,
    es: &[OpId],
    number: usize,
    e: &Equation,
) -> Result<Vec<Rule>, NoMemory>
    requires identities { es.now ≡ identities sig.now }
    requires equation { IsReadableEquation sig.now e.now }
    ensures { IfOk result (λ all. AreRulesFrom sig.now number (sides_of e.now) all.items) }
{
    sig.recall_good();
    sig.recall_completed();
    let mut all = instances(alloc, sig, es, number, e)?;
    let mut wide = extensions(alloc, sig, all.as_slice())?;
    all.append(&mut wide)?;
    Ok(all)
}

// The rules of all equations, in their order.
pub(crate) fn rules_of(
    alloc: Global,
    sig: &Signature,
    equations: &[Equation],
) -> Result<Vec<Rule>, NoMemory>
    requires { All (IsReadableEquation sig.now) equations.now }
    ensures { IfOk result (λ all. AreAllRules sig.now equations.now all.items) }
{
    let es = all_identities(alloc, sig)?;
    let mut all = Vec::new(alloc);
    for i in 0..equations.len() {
        let mut more = rules_from(alloc, sig, es.as_slice(), i + 1, &equations[i])?;
        all.append(&mut more)?;
    }
    Ok(all)
}

// The equations, in memory of their own.
pub(crate) fn copied(alloc: Global, equations: &[Equation]) -> Result<Vec<Equation>, NoMemory>
    ensures { IfOk result (λ all. all.items ≡ equations.now) }
{
    let mut all = Vec::new(alloc);
    for e in equations {
        let copy = e.copy(alloc)?;
        all.push(copy)?;
    }
    Ok(all)
}
