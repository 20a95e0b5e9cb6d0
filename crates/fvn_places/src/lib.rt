//! Places of flat terms: the paths to them, terms with another one in a place, and terms of which no instances are equal.
#![tactic(auto)]

mod clashes;
mod leading;
mod putting;

pub use clashes::clash;
pub use leading::{form_at, paths};
pub use putting::{add_copies, put, with_one_replaced};
