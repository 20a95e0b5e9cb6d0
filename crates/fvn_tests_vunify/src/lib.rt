//! Tests of unifiers in theories: the reply to `vunify`, and what is found where terms are to stay irreducible.
#![tactic(auto)]

mod fixing;
mod listed;
#[cfg(test)]
mod tests;

pub use fixing::Fixing;
pub use listed::Listed;
