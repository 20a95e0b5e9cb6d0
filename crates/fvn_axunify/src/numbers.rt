//! The numbers of new variables.
ghost use Rattle.std.specs.Prelude.{◌≤◌, ◌<◌, IfOk, All};
ghost use Rattle.fvn_base.specs.declared.limits.TheConstants.{NEXT_FRESH};
ghost use Rattle.fvn_refine.specs.Refinements.{variables_of_terms};
ghost use Rattle.fvn_axunify.specs.inner.Numbers.{AreBelow, IsAbove, IsAboveAll};

use fvn_flat::Subst;
use fvn_refine::variables_of_terms;
use fvn_terms::{NoMemory, Var};
use std::alloc::Global;

// The least number from `low` on that is above those of the variables.
fn above(vars: &[Var], low: u32) -> u32
    requires low { low ≤ NEXT_FRESH }
    requires below { AreBelow NEXT_FRESH vars.now }
    ensures { IsAbove low vars.now result }
{
    let mut next = low;
    for y in vars {
        next = next.max(y.name + 1);
    }
    next
}

// The least number from `first` on that is above those of all variables to which these bind.
pub(crate) fn above_all(alloc: Global, unifiers: &[Subst], first: u32) -> Result<u32, NoMemory>
    requires low { first ≤ NEXT_FRESH }
    requires below { All (λ s. AreBelow NEXT_FRESH (variables_of_terms s)) unifiers.now }
    ensures { IfOk result (IsAboveAll first unifiers.now) }
{
    let mut next = first;
    for s in unifiers {
        let vars = variables_of_terms(alloc, s)?;
        next = above(vars.as_slice(), next);
    }
    Ok(next)
}
