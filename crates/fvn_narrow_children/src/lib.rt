//! What the children of a variant are made with: a variant with new variables, and what a unifier makes of its terms and
//! values.
#![tactic(auto)]

mod growing;
mod resting;
mod starts;
mod values;

pub use growing::{grown, no_children};
pub use starts::{Start, start_of};
pub use values::some_reducible;
