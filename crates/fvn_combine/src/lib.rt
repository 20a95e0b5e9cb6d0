//! All unifiers of a problem on kinds, one after another, modulo any mix of free, C, AC and ACU operators.
#![tactic(auto)]

mod against;
mod combiner;
mod effort;
mod ending;
mod heights;
mod homes;
mod kinds;
mod labels;
mod looking;
mod opened;
mod ranks;
mod stepping;
mod task;
mod walking;

pub use combiner::Combiner;
pub use ending::CombineEnd;
