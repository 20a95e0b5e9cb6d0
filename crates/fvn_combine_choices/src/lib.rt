//! What is taken for a leaf, the plan that it makes, and what the plan's bindings unfold to.
#![tactic(auto)]

mod laws;

pub use laws::{
    classes_have_one_kind, planned_bindings_are_solved, planned_bindings_unfold_to_new,
    sizes_add_up, valid_choices_are_acceptable,
};
