//! The nodes of a problem in a table, their classes, and what is decided of them.
#![tactic(auto)]

mod laws;
mod operators;
mod state;
mod table;

pub use laws::{node_partitions_are_partitions, unifiers_partition};
pub use operators::{has_no_identity, is_only_commutative};
pub use state::{State, is_kept_apart};
pub use table::{Node, Table};
