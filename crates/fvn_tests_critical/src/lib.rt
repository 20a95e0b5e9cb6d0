//! Tests of the test of confluence, through the public call of `fvn_critical` and the solver of `fvn_axunify`.
#![tactic(auto)]

#[cfg(test)]
mod tests;
