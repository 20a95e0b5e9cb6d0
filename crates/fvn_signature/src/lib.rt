//! Signatures: drafts in which their sorts are compared, and the queries of a good one.
#![tactic(auto)]

mod draft;
mod laws;
mod queries;
pub mod words;

pub use draft::Draft;
pub use laws::{direct_subsorts_are_listed, direct_subsorts_cover, direct_subsorts_of_kinds};
pub use queries::signature::{Signature, all_shared};
