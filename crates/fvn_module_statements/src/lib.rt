//! The statements of a module text, cut and read exactly.
#![tactic(auto)]

mod attributes;
mod equations;
mod form;
mod laws;
mod names;
mod outcome;
mod reader;
mod reading;
mod sorts;
mod words;

pub use form::{FormFault, read_form};
pub use laws::statements_are_determined;
pub use outcome::Reading;
