//! Order-sorted signatures: collected, and found good or refused with their first fault.
#![tactic(auto)]

mod builder;
mod conditions;
mod laws;

pub use builder::SignatureBuilder;
pub use conditions::fault::SigFault;
pub use fvn_signature::Signature;
pub use fvn_signature_draft::{Collected, Declaration};
pub use laws::faultless_signatures_are_good;
