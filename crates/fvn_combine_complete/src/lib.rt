//! What classes are bound to at a leaf, and that values which go with it choose minimal solutions.
#![tactic(auto)]

mod laws;

pub use fvn_combine_choices::classes_have_one_kind;
pub use laws::{
    leaves_cover, no_aliases, obeyed_choices_cover, obeyed_choices_fall, readings_tell,
    tables_have_sums, tags_exist, unfilled_has_no_values, unifiers_go_with, values_are_laid_out,
    values_choose, values_meet_what_is_asked, values_obey_choices,
};
