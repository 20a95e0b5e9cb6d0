//! Tests of what becomes of equations, through the public calls of `fvn_cohere`, `fvn_rewrite_rules` and `fvn_rewrite`.
#![tactic(auto)]

#[cfg(test)]
mod tests;
