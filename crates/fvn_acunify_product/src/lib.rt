//! Odometers: choices of several operators, or tags of several places, one list after another.
#![tactic(auto)]

mod laws;
mod tags;
mod turning;
mod wheels;

pub use laws::{rank_falls, rank_is_bounded};
pub use tags::Tags;
pub use wheels::Wheels;
