//! What bindings unfold to: the sizes before anything is unfolded, and the substitution.
#![tactic(auto)]

mod replacing;
mod sizes;

pub use replacing::unfold;
pub use sizes::is_too_large;
