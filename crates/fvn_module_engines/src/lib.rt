//! Engines of rewriting, over a module and what was read in it.
#![tactic(auto)]

mod engines;
mod loaded;

pub use engines::{extend, verify};
pub use loaded::{Loaded, load_with_rules};
