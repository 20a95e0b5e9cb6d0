//! What every crate stands on: lists of values, the refusal of memory, and the limits.
#![tactic(auto)]

mod laws;
pub mod limits;
mod list;
mod memory;

pub use laws::limits_are;
pub use list::{Seq, is_listed, with_new};
pub use memory::NoMemory;
