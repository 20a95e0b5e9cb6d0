//! The values that a search found for its variables.
ghost use Rattle.std.specs.Prelude.{◌≡◌, ◌++◌, [], ◌∷◌, None, IfOk};
ghost use Rattle.fvn_flat.specs.Bindings.{bound, value};
ghost use Rattle.fvn_match.specs.inner.Variables.{AreOnce};
ghost use Rattle.fvn_match.specs.inner.Candidates.{pairs_of};
ghost use Rattle.fvn_match.specs.inner.Goals.{bindings_of};

use crate::goals::Bound;
use fvn_flat::{Flat, Subst};
use fvn_terms::{NoMemory, Var};
use std::alloc::Global;

// The pairs with the value of one variable more.
fn with_value(alloc: Global, s: &Subst, x: Var, values: &Bound<'_>) -> Result<Subst, NoMemory>
    requires { bound s.now x ≡ None }
    ensures { IfOk result (λ more. more ≡ s.now ++ (x, value (bindings_of values.now) x) ∷ []) }
{
    match values.get(x) {
        Some(t) => {
            let more = s.bind(alloc, x, t)?;
            Ok(more)
        }
        None => {
            let t = Flat::var(x);
            let more = s.bind(alloc, x, &t)?;
            Ok(more)
        }
    }
}

// The values of the variables, as they were found.
pub(crate) fn answer(alloc: Global, vars: &[Var], values: &Bound<'_>) -> Result<Subst, NoMemory>
    requires { AreOnce vars.now }
    ensures { IfOk result (λ s. s ≡ pairs_of vars.now (value (bindings_of values.now))) }
{
    let mut s = Subst::empty(alloc);
    for x in vars {
        s = with_value(alloc, &s, *x, values)?;
    }
    Ok(s)
}
