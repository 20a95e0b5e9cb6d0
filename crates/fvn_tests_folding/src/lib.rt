//! Expanders that stand before another one, and tests of explorations by levels over them.
#![tactic(auto)]

mod failing;
mod handing;
mod meeting;
#[cfg(test)]
mod tests;

pub use failing::Failing;
pub use handing::Handing;
pub use meeting::Meeting;
