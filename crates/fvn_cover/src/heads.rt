//! Heads of forms, one beside the other: they refuse a matching before one is looked for.
ghost use Rattle.std.specs.Prelude.{◌≡◌, false, length};
ghost use Rattle.fvn_flat.specs.Fits.{AllFit};
ghost use Rattle.fvn_match.specs.Matching.{HasNoMatcher};

use fvn_flat::Flat;
use fvn_match::may_match;
use fvn_signature::Signature;

// Whether heads leave it open of each form that the other one beside it is an instance.
pub(crate) fn may_match_all(sig: &Signature, patterns: &[Flat], targets: &[Flat]) -> bool
    requires lengths { length patterns.now ≡ length targets.now }
    requires patterns { AllFit sig.now patterns.now }
    requires targets { AllFit sig.now targets.now }
    ensures { result ≡ false → HasNoMatcher sig.now patterns.now targets.now }
{
    for i in 0..patterns.len() {
        if !may_match(sig, &patterns[i], &targets[i]) {
            return false;
        }
    }
    true
}
