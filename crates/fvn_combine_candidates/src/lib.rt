//! What is held of a leaf that is opened: minimal solutions, shared classes with their tags, and wheels.
#![tactic(auto)]

mod aliases;
mod alive;
mod defining;
mod last_first;
mod laws;
mod neutral;
mod once;
mod opening;
mod sharing;
mod solving;
mod tagging;
mod turning;
mod vanishing;
mod whole;

pub use aliases::leave_no_alias;
pub use fvn_combine_bounds::sorted_leaves_cover;
pub use fvn_combine_complete::{readings_tell, tables_have_sums, unfilled_has_no_values};
pub use last_first::bases_from_last;
pub use laws::{
    alive_bases_make_alive, bases_make_systems, covering_choices_are_listed,
    listed_choices_are_possible, lists_cover, refusals_are_causes, sorted_choices_are_within,
    sum_operators_are_few,
};
pub use neutral::is_neutral;
pub use opening::{OpenFault, bases};
pub use sharing::{SharedClass, shared};
pub use solving::SolvedSystems;
pub use tagging::{option_counts, tags_of};
pub use turning::wheels;
