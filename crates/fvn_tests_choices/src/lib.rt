//! Tests of minimal solutions, of the choices among them and of odometers, through the public calls of their crates.
#![tactic(auto)]

#[cfg(test)]
mod tests;
