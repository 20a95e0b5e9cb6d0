//! Tests of the readers of terms, statements, problems and modules, through the public calls of their crates.
#![tactic(auto)]

#[cfg(test)]
mod tests;
