//! The values of a variant's variables.
ghost use Rattle.std.specs.Prelude.{◌≡◌, IfOk};
ghost use Rattle.fvn_flat.specs.Bindings.{value};
ghost use Rattle.fvn_cover.specs.Covering.{values_of};

use crate::variant::Variant;
use fvn_flat::{Flat, Subst};
use fvn_terms::{NoMemory, Var};
use std::alloc::Global;

// The value of a variable, in memory of its own.
fn value(alloc: Global, s: &Subst, x: Var) -> Result<Flat, NoMemory>
    ensures { IfOk result (λ t. t ≡ value s.now x) }
{
    match s.get(x) {
        Some(t) => {
            let copy = t.copy(alloc)?;
            Ok(copy)
        }
        None => Ok(Flat::var(x)),
    }
}

// The values of all variables of the variant.
pub(crate) fn values(alloc: Global, v: &Variant) -> Result<Vec<Flat>, NoMemory>
    ensures { IfOk result (λ ts. ts.items ≡ values_of v.now) }
{
    let mut ts = Vec::with_capacity(alloc, v.vars.len())?;
    for x in v.vars.as_slice() {
        let t = value(alloc, &v.subst, *x)?;
        ts.push(t)?;
    }
    Ok(ts)
}
