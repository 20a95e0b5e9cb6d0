//! Which equations lose a sort, and what their left sides collapse to.
#![tactic(auto)]

mod choosing;
mod collapsing;
mod equations;
mod faults;
mod fitting;
mod identities;
mod laws;
mod losing;
mod narrowing;
mod outlooks;
mod searching;
mod shapes;
mod variables;

pub use collapsing::{Collapse, left_collapses};
pub use faults::{LeftFault, first_left_fault};
pub use fitting::instances_fit;
pub use identities::{identities as all_identities, identities_below};
pub use laws::harmless_equations_are_admissible;
pub use losing::sort_loss;
pub use variables::distinct_variables;
