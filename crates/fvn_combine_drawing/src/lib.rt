//! What a choice at a leaf gives: nothing, bindings that are too large, or a unifier on kinds.
#![tactic(auto)]

mod drawing;
mod unfolding;

pub use drawing::{Drawn, draw};
pub use fvn_combine_candidates::{
    OpenFault, SharedClass, SolvedSystems, alive_bases_make_alive, bases, bases_from_last,
    bases_make_systems, covering_choices_are_listed, is_neutral, listed_choices_are_possible,
    option_counts, readings_tell, refusals_are_causes, shared, sorted_choices_are_within,
    sorted_leaves_cover, sum_operators_are_few, tables_have_sums, tags_of, unfilled_has_no_values,
    wheels,
};
pub use fvn_combine_triangular::{copied_system, node_kind, variables};
