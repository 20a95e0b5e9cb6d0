//! What is counted of flat terms, by which coverings are refused before any matching.
#![tactic(auto)]

mod bits;
mod blocks;
mod comparing;
mod kept;
mod marks;
mod profile;
mod rows;
mod symbols;
mod walking;

pub use blocks::MarkBlocks;
pub use marks::{Marks, Unkept};
pub use profile::Profile;
