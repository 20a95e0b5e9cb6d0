//! Tests of narrowing, through the public calls of `fvn_narrow` and `fvn_axunify`.
#![tactic(auto)]

#[cfg(test)]
mod tests;
