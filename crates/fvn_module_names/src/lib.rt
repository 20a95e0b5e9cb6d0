//! The names that the statements of a module declare, its kinds, and the first fault among its names.
#![tactic(auto)]

mod classes;
mod earlier;
mod fault;
mod kinds;
mod names;
mod order;
mod testing;
mod twice;
mod unknown;
mod variables;
mod vocabulary;

pub use fault::NameFault;
pub use names::{as_texts, operator_names};
pub use testing::test_statements;
pub use unknown::has_ditto;
pub use variables::VariableTable;
pub use vocabulary::Vocabulary;
