//! What is read of a state, and when it is a leaf.
#![tactic(auto)]

mod reading;
mod users;

pub use reading::{Reading, Sums};
pub use users::{has_twin, has_two_users, is_shared, is_user};
