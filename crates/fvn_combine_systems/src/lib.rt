//! The sum system of an operator over the classes of a table's nodes, and what it says of their values.
#![tactic(auto)]

mod laws;

pub use laws::{
    counts_solve, node_systems_are_sum_systems, tables_are_small, tables_hold_arguments,
    unifiers_have_values, values_are_given, values_unify,
};
