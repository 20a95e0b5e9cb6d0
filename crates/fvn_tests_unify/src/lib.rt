//! Tests of the reply to `unify`, through the public call of its crate alone.
#![tactic(auto)]

#[cfg(test)]
mod tests;
