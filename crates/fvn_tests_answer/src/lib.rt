//! Tests of lines, through the public calls of their crate alone: that crate is proved once, and not again with its tests.
#![tactic(auto)]

#[cfg(test)]
mod tests;
