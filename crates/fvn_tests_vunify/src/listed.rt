//! Terms that fit.
ghost use Rattle.std.specs.Prelude.{◌≡◌};
ghost use Rattle.fvn_flat.specs.Fits.{AllFit};

use fvn_flat::Flat;
use fvn_signature::Signature;
use std::marker::Model;

/// Terms that fit in a signature.
#[derive(Drop)]
pub struct Listed<'a> {
    sig: &'a Signature,
    terms: &'a [Flat],
}

impl<'a> Model for Listed<'a> {
    ghost use Rattle.fvn_flat.specs.Fits.{AllFit};
    ghost use Rattle.fvn_tests_vunify.specs.Settings.{ListedTerms};

    ghost Value = { ListedTerms };

    ghost use Rattle.fvn_flat.specs.contracts.flat.Flat as flat;
    ghost use Rattle.std.specs.Coded.{codes};

    ghost coded = { Prim.hlevel (codes, flat.the_row.coded) };

    ghost view = { λ l. record { declarations = l.sig.now; terms = l.terms.now } };

    ghost invariant = { λ l. AllFit l.sig.now l.terms.now };
}

impl<'a> Listed<'a> {
    /// These terms, in this signature.
    pub fn new(sig: &'a Signature, terms: &'a [Flat]) -> Listed<'a>
        requires { AllFit sig.now terms.now }
        ensures { result ≡ record { declarations = sig.now; terms = terms.now } }
    {
        Listed { sig, terms }
    }

    /// The terms.
    pub fn terms(&self) -> &'a [Flat]
        ensures terms { result.now ≡ self.now.terms }
        ensures fit { AllFit self.now.declarations self.now.terms }
    {
        self.terms
    }
}
