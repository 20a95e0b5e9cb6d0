//! The rules of a module: identity instances of its equations, and their extensions.
#![tactic(auto)]

mod equations;
mod extending;
mod extensions;
mod guessing;
mod heads;
mod instances;
mod rule;
mod rules;

pub use extending::extend;
pub use rule::Rule;
pub use rules::{Rules, all_shared};
