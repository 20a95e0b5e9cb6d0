//! Tests of flat terms, matching, covers and refinements, through the public calls of their crates: each of these is proved once, and not again with its tests, and what tests share is proved once for all of them.
#![tactic(auto)]

#[cfg(test)]
mod tests;
