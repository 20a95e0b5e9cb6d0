//! Tests of terms, of tokens and of the outside, through the public calls of their crates.
#![tactic(auto)]

#[cfg(test)]
mod tests;
