//! Profiles of lists of flat terms: what is counted once, and compared before any matching.
ghost use Rattle.std.specs.Prelude.{◌≡◌, ◌++◌, false, IsTrue, IfOk};
ghost use Rattle.fvn_flat.specs.Fits.{AllFit};
ghost use Rattle.fvn_cover_counts.specs.Profiles.{IsProfile, AllowsMatching, NeverMatch};

use crate::comparing::{operators_allow, variables_allow};
use crate::rows::Row;
use crate::walking::with_all_symbols;
use fvn_flat::Flat;
use fvn_signature::Signature;
use fvn_terms::NoMemory;
use std::alloc::Global;

/// What is counted of a list of flat terms: for each operator and each variable how often it
/// stands in each of the terms. The rows with fewer places come first.
#[derive(Drop)]
pub struct Profile {
    pub(crate) rows: Vec<Row>,
}

impl Profile {
    /// The profile of terms that stand in two slices.
    pub fn of(
        alloc: Global,
        sig: &Signature,
        terms: &[Flat],
        values: &[Flat],
    ) -> Result<Profile, NoMemory>
        requires terms { AllFit sig.now terms.now }
        requires values { AllFit sig.now values.now }
        ensures profile { IfOk result (IsProfile (terms.now ++ values.now)) }
    {
        let none = Vec::new(alloc);
        let some = with_all_symbols(alloc, sig, none, terms, 0)?;
        let first = terms.len() as u64;
        let mut rows = with_all_symbols(alloc, sig, some, values, first)?;
        rows.sort_by_key(|r| r.places.len())?;
        Ok(Profile { rows })
    }

    /// Whether the counts allow that some substitution makes the terms of the other from these.
    ///
    /// The answer no is sure; the answer yes is not.
    pub fn may_cover(&self, sig: &Signature, other: &Profile) -> bool
        ensures exact { AllowsMatching sig.now self.now other.now (IsTrue result) }
        ensures none { result ≡ false → NeverMatch sig.now self.now other.now }
    {
        if !operators_allow(sig, self.rows.as_slice(), other.rows.as_slice()) {
            return false;
        }
        variables_allow(self.rows.as_slice(), other.rows.as_slice())
    }
}
