//! Statements of modules as they are written, and what holds of those that can be written.
#![tactic(auto)]

mod form;
mod statement;

pub use form::Form;
pub use statement::{Attribute, Feature, Mark, OperatorName, RawRank, Statement};
