//! The variables of the terms of a substitution.
ghost use Rattle.std.specs.Prelude.{◌≡◌, IfOk};
ghost use Rattle.fvn_refine.specs.Refinements.{variables_of_terms};

use fvn_flat::Subst;
use fvn_terms::{NoMemory, Var};
use std::alloc::Global;

/// The variables of the terms to which the substitution binds, each once, in order of first occurrence.
pub fn variables_of_terms(alloc: Global, subst: &Subst) -> Result<Vec<Var>, NoMemory>
    ensures { IfOk result (λ all. all.items ≡ variables_of_terms subst.now) }
{
    let mut all = Vec::new(alloc);
    for i in 0..subst.len() {
        let (_, t) = subst.pair(i);
        all = t.with_variables(all)?;
    }
    Ok(all)
}
