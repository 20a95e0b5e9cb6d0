//! Sums of which two summands are one form: of these no sum is an instance whose summands are all different.
ghost use Rattle.std.specs.Prelude.{◌≡◌, None, IsTrue};
ghost use Rattle.fvn_terms.specs.Signature.{axioms};
ghost use Rattle.fvn_terms.specs.Equality.{IsAssociative, identity};
ghost use Rattle.fvn_rewrite.specs.inner.Twins.{has_twins, LacksTwins};

use fvn_flat::Flat;
use fvn_signature::Signature;
use fvn_terms::OpId;

// Whether two forms side by side are one.
fn has_twins(ts: &[Flat]) -> bool
    ensures { result ≡ has_twins ts.now }
{
    let mut i: usize = 0;
    while i + 1 < ts.len() {
        let same = ts[i].same(&ts[i + 1]);
        if same {
            return true;
        }
        i += 1;
    }
    false
}

// Whether what the operator heads are sums.
pub(crate) fn makes_sums(sig: &Signature, f: OpId) -> bool
    ensures { IsTrue result → IsAssociative (axioms sig.now f) }
{
    sig.axioms(f).is_sum()
}

// Whether the operator has no identity, so that each argument stays at least one summand.
pub(crate) fn is_lasting(sig: &Signature, f: OpId) -> bool
    ensures { IsTrue result → identity (axioms sig.now f) ≡ None }
{
    match sig.identity(f) {
        None => true,
        Some(_) => false,
    }
}

// Whether the pattern is a sum with a summand twice, and the target has no argument twice.
pub(crate) fn lacks_twins(sig: &Signature, p: &Flat, t: &Flat) -> bool
    ensures { IsTrue result → LacksTwins sig.now p.now t.now }
{
    let Some(f) = p.head() else {
        return false;
    };
    let twins = has_twins(p.args());
    if !twins {
        return false;
    }
    let met = has_twins(t.args());
    if met {
        return false;
    }
    let sums = makes_sums(sig, f);
    if !sums {
        return false;
    }
    is_lasting(sig, f)
}
