//! Whether a substitution solves pairs of terms in the theory of equations.
#![tactic(auto)]

mod comparing;
mod laws;
mod verdict;
mod verifying;

pub use laws::{verdicts_agree, verdicts_without_equations_are_determined};
pub use verdict::Verdict;
pub use verifying::verify;
