//! Which minimal solutions the values of a sum system's classes are made of, and what these stand for.
#![tactic(auto)]

mod laws;

pub use laws::{
    combinations_solve, counts_are_made_up, made_up_by_taken, minimal_has_column, pieces_choose,
};
