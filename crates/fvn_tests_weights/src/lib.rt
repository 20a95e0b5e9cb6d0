//! Tests of `fvn_weights` and `fvn_weights_reading` through their public calls: modules and weights, and what is answered.
#![tactic(auto)]

#[cfg(test)]
mod tests;
