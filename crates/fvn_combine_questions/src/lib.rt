//! The questions on a state until it is a leaf.
#![tactic(auto)]

mod asking;
mod backwards;
mod best;
mod constants;
mod filling;
mod identities;
mod labels;
mod standing;
mod swaps;
mod touched;

pub use asking::{first_question, question_on_all, question_on_touched};
pub use filling::is_unfilled;
pub use labels::sieve_labels;
pub use swaps::undecided;
