//! Sorts for the variables of a substitution on kinds: all maximal ways.
#![tactic(auto)]

mod arguments;
mod direct;
mod laws;
mod lowering;
mod ordering;
mod places;
mod refining;
mod resorting;
mod rows;
mod variables;

pub use laws::refinements_cover;
pub use refining::refine;
pub use variables::variables_of_terms;
