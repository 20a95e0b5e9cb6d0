//! A solver that keeps the answers of another one, so that what is asked again is not solved again.
#![tactic(auto)]

mod answer;
mod copying;
mod keeping;
mod recalling;
mod remembering;
mod solves;

pub use keeping::Named;
pub use remembering::Remembering;
