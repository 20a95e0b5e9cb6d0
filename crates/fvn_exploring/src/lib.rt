//! What an exploration of variants is: children, liftings, levels and their ends, and what every expander promises.
#![tactic(auto)]

mod ends;
mod expander;
mod limits;

pub use ends::{Deep, ExpandEnd, Expansion, ExploreEnd, Explored, all_shared};
pub use expander::Expander;
pub use limits::Limits;
