//! How a state is read: its sum operators with their systems, and what heads its classes.
#![tactic(auto)]

mod columns;
mod heads;
mod operators;
mod reading;
mod rows;
mod sums;
mod system;
mod used;

pub use reading::read;
