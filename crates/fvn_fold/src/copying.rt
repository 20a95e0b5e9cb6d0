//! Copies of variants.
ghost use Rattle.std.specs.Prelude.{◌≡◌, IfOk};
ghost use Rattle.fvn_cover.specs.Covering.{IsFlatVariant};
ghost use Rattle.fvn_flat.specs.Bindings.{BindingsFit};

use fvn_base::Seq;
use fvn_cover::Variant;
use fvn_flat::{Flat, Subst};
use fvn_signature::Signature;
use fvn_terms::NoMemory;
use std::alloc::Global;

// The same terms, in memory of their own.
fn terms(alloc: Global, ts: &[Flat]) -> Result<Vec<Flat>, NoMemory>
    ensures { IfOk result (λ all. all.items ≡ ts.now) }
{
    let mut all = Vec::new(alloc);
    for t in ts {
        let copy = t.copy(alloc)?;
        all.push(copy)?;
    }
    Ok(all)
}

// The same substitution, in memory of its own: it comes after one that binds nothing, which takes one walk.
fn substitution(alloc: Global, sig: &Signature, s: &Subst) -> Result<Subst, NoMemory>
    requires { BindingsFit sig.now s.now }
    ensures { IfOk result (λ r. r ≡ s.now) }
{
    let nothing = Subst::empty(alloc);
    let all = nothing.compose(alloc, sig, s)?;
    Ok(all)
}

/// The same variant, in memory of its own.
pub(crate) fn copy(alloc: Global, sig: &Signature, v: &Variant) -> Result<Variant, NoMemory>
    requires { IsFlatVariant sig.now v.now }
    ensures { IfOk result (λ c. c ≡ v.now) }
{
    let ts = terms(alloc, v.terms.as_slice())?;
    let subst = substitution(alloc, sig, &v.subst)?;
    let vars = Seq::from_slice(alloc, v.vars.as_slice())?;
    Ok(Variant {
        terms: Seq::from_vec(ts),
        subst,
        vars,
    })
}
