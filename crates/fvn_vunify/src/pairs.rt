//! The pairs of a variant.
ghost use Rattle.std.specs.Prelude.{◌≡◌, map, IfOk};
ghost use Rattle.fvn_forms.specs.Canon.{inst};
ghost use Rattle.fvn_flat.specs.Bindings.{value, BindingsFit};
ghost use Rattle.fvn_flat.specs.Fits.{AllFit};
ghost use Rattle.fvn_vunify.specs.Sides.{two_by_two};

use fvn_base::Seq;
use fvn_flat::{Flat, Pairs, Subst};
use fvn_signature::Signature;
use fvn_terms::NoMemory;
use std::alloc::Global;

// The terms under a substitution, two by two.
pub(crate) fn pairs_under(
    alloc: Global,
    sig: &Signature,
    names: &Subst,
    terms: &[Flat],
) -> Result<Pairs, NoMemory>
    requires names { BindingsFit sig.now names.now }
    requires terms { AllFit sig.now terms.now }
    ensures { IfOk result (λ given.
        given.pairs ≡ two_by_two (map (inst sig.now (value names.now)) terms.now)) }
{
    let mut pairs = Vec::new(alloc);
    let mut i: usize = 0;
    while i + 1 < terms.len() {
        let left = names.apply(alloc, sig, &terms[i])?;
        let right = names.apply(alloc, sig, &terms[i + 1])?;
        pairs.push((left, right))?;
        i += 2;
    }
    Ok(Pairs {
        pairs: Seq::from_vec(pairs),
    })
}
