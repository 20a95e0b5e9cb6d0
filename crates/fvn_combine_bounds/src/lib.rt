//! What sorts say of the solutions that a choice takes: bounds that no well-sorted unifier passes.
#![tactic(auto)]

mod bounding;
mod laws;

pub use bounding::{bounds_of, is_narrow, is_never_identity};
pub use fvn_combine_complete::unifiers_go_with;
pub use laws::{
    narrow_classes_have_no_tag, narrow_classes_have_one_summand, narrow_classes_take_no_identity,
    neutral_operators_admit_sums, obeyed_choices_keep_bounds, other_classes_have_some_summand,
    sorted_leaves_cover, taken_solutions_stand_for_summands,
};
