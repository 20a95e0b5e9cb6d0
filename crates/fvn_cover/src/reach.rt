//! Values that are variables: their sorts, which are compared before a matcher is looked for.
ghost use Rattle.std.specs.Prelude.{◌≡◌, false, length};
ghost use Rattle.fvn_flat.specs.Fits.{AllFit};
ghost use Rattle.fvn_match.specs.Matching.{HasNoMatcher};
ghost use Rattle.fvn_cover.specs.inner.Reach.{IsOutOfReach};

use fvn_flat::Flat;
use fvn_signature::Signature;

// Whether the sorts allow that a substitution makes the second form from the first, where both are variables.
fn may_reach(sig: &Signature, p: &Flat, t: &Flat) -> bool
    ensures { result ≡ false → IsOutOfReach sig.now p.now t.now }
{
    let Some(x) = p.as_var() else {
        return true;
    };
    let Some(y) = t.as_var() else {
        return true;
    };
    sig.leq(y.sort, x.sort)
}

// Whether they allow it of all forms, one beside the other.
pub(crate) fn may_reach_all(sig: &Signature, patterns: &[Flat], targets: &[Flat]) -> bool
    requires lengths { length patterns.now ≡ length targets.now }
    requires targets { AllFit sig.now targets.now }
    ensures { result ≡ false → HasNoMatcher sig.now patterns.now targets.now }
{
    sig.recall_good();
    for i in 0..patterns.len() {
        if !may_reach(sig, &patterns[i], &targets[i]) {
            return false;
        }
    }
    true
}
