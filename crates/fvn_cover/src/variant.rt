//! Variants of lists of terms.
use fvn_base::Seq;
use fvn_flat::{Flat, Subst};
use fvn_terms::Var;

/// What a list of terms was brought to under a substitution.
///
/// The terms that it started from are not kept; what their variables became are the values of `vars`.
#[derive(Drop)]
pub struct Variant {
    pub terms: Seq<Flat>,
    pub subst: Subst,
    pub vars: Seq<Var>,
}

// Takes only what may be sent to and shared between threads.
fn shared<T: Send + Sync>(_value: &T) {}

/// Variants may be sent to and shared between threads.
pub fn all_shared(variant: &Variant) {
    shared(variant);
}
