//! Patterns whose variables are all bound.
ghost use Rattle.std.specs.Prelude.{IsTrue, IfOk};
ghost use Rattle.fvn_flat.specs.Fits.{Fits};
ghost use Rattle.fvn_flat.specs.Bindings.{value};
ghost use Rattle.fvn_match.specs.inner.Candidates.{IsCandidate};
ghost use Rattle.fvn_match.specs.inner.Goals.{bindings_of};
ghost use Rattle.fvn_match.specs.inner.Known.{AreBound, MakesOnly};

use crate::answers::answer;
use crate::goals::Bound;
use crate::variables::variables;
use fvn_flat::Flat;
use fvn_signature::Signature;
use fvn_terms::NoMemory;
use std::alloc::Global;
use std::slice;

// Whether each variable of the term is bound.
pub(crate) fn are_bound(bound: &Bound<'_>, t: &Flat) -> bool
    ensures { IsTrue result → AreBound (bindings_of bound.now) t.now }
{
    match t.as_var() {
        Some(x) => bound.get(x).is_some(),
        None => {
            for u in t.args() {
                if !are_bound(bound, u) {
                    return false;
                }
            }
            true
        }
    }
}

// The form that the values of its variables make of the pattern.
pub(crate) fn instance(
    alloc: Global,
    sig: &Signature,
    bound: &Bound<'_>,
    p: &Flat,
) -> Result<Flat, NoMemory>
    requires pattern { Fits sig.now p.now }
    requires values { IsCandidate sig.now (value (bindings_of bound.now)) }
    requires known { AreBound (bindings_of bound.now) p.now }
    ensures { IfOk result (MakesOnly sig.now (bindings_of bound.now) p.now) }
{
    sig.recall_good();
    let vars = variables(alloc, slice::from_ref(p), &[])?;
    let s = answer(alloc, vars.as_slice(), bound)?;
    let v = s.apply(alloc, sig, p)?;
    Ok(v)
}
