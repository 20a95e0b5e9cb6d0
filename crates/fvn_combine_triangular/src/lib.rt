//! The bindings that a choice at a leaf makes, in an order in which no class reaches itself.
#![tactic(auto)]

mod binders;
mod choice;
mod names;
mod order;
mod shares;
mod terms;

pub use choice::bindings;
pub use fvn_combine_admissible::copied_system;
pub use fvn_combine_unfolding::{is_too_large, unfold};
pub use names::{node_kind, variables};
