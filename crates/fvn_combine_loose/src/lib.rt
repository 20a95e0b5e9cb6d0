//! Classes of a state whose values may be new variables, so that questions on what is made from them need not be asked.
#![tactic(auto)]

mod checking;
mod drafting;
mod guessing;
mod heights;
mod laws;
mod parting;
mod sorts;
mod sum_sorts;
mod summing;

pub use heights::{loose_classes, loose_heights};
pub use laws::{loose_classes_are_variables, loose_classes_part, more_general_is_a_preorder};
pub use parting::{are_parted, open_identities};
