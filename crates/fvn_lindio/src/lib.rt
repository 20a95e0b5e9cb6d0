//! Exactly the minimal solutions of systems of linear equations in non-negative numbers.
#![tactic(auto)]

mod answer;
mod generators;
mod laws;
mod least;
mod level;
mod paired;
mod rows;
mod solve;
mod system;
mod vector;

pub use laws::{minimal_below, sum_of_minimal};
pub use solve::basis;
pub use system::{LinFault, Row, Solution, System};
