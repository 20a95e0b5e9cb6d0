//! Narrowing: the children of a variant, found by the rules of equations and any solver modulo the axioms.
#![tactic(auto)]

mod dividing;
mod expanding;
mod narrower;
mod pairing;
mod placing;
mod posing;
mod serving;
mod stepping;
mod summing;
mod tools;
mod trying;

pub use narrower::{Narrower, all_shared};
