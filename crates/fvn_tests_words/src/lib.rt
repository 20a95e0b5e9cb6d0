//! Tests of the words of the command line, through the public call of `fvn_cmd_words`.
#![tactic(auto)]

#[cfg(test)]
mod tests;
