//! Whether the terms of a variant meet, two by two.
ghost use Rattle.std.specs.Prelude.{IsTrue};
ghost use Rattle.fvn_flat.specs.Fits.{AllFit};
ghost use Rattle.fvn_vunify.specs.inner.Attempts.{SomeNeverMeet};

use fvn_flat::Flat;
use fvn_places::clash;
use fvn_signature::Signature;

// Whether two of the terms that are taken together never meet.
pub(crate) fn some_never_meet(sig: &Signature, terms: &[Flat]) -> bool
    requires { AllFit sig.now terms.now }
    ensures { IsTrue result → SomeNeverMeet sig.now terms.now }
{
    let mut i: usize = 0;
    while i + 1 < terms.len() {
        let apart = clash(sig, &terms[i], &terms[i + 1]);
        if apart {
            return true;
        }
        i += 2;
    }
    false
}
