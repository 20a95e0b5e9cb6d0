//! The pairs of a problem in flat form.
ghost use Rattle.std.specs.Prelude.{◌≡◌, All, IfOk};
ghost use Rattle.fvn_flat.specs.Problems.{flat_pairs};
ghost use Rattle.fvn_problems.specs.Problems.{AreOfOneKind};
ghost use Rattle.fvn_cmd_unify.specs.Asked.{pairs_of};

use fvn_base::Seq;
use fvn_flat::{Pairs, flatten};
use fvn_signature::Signature;
use fvn_terms::{NoMemory, Plain};
use std::alloc::Global;

/// The flat forms of the sides of each pair.
pub fn flattened(
    alloc: Global,
    signature: &Signature,
    pairs: &[(Plain, Plain)],
) -> Result<Pairs, NoMemory>
    requires { All (AreOfOneKind signature.now) pairs.now }
    ensures { IfOk result (λ given. given.pairs ≡ flat_pairs signature.now (pairs_of pairs.now)) }
{
    let mut all = Vec::new(alloc);
    for (left, right) in pairs {
        let a = flatten(alloc, signature, left)?;
        let b = flatten(alloc, signature, right)?;
        all.push((a, b))?;
    }
    Ok(Pairs {
        pairs: Seq::from_vec(all),
    })
}
