//! Every valid choice of the minimal solutions of one sum system, once.
#![tactic(auto)]

mod choices;
mod laws;
pub mod limits;
mod prefix;
mod solve;
mod theory;

pub use choices::Choices;
pub use laws::chosen_by_bits;
pub use solve::{choices_among, solve_one};
pub use theory::{ColumnBounds, OneFault, OneTheory};
