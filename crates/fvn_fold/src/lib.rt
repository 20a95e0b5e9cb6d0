//! Folding exploration: levels of variants, each expanded and folded into those that are kept, until nothing is new.
#![tactic(auto)]

mod beginning;
mod copying;
mod expanding;
mod exploring;
mod levels;
mod runs;
mod sharing;

pub use expanding::expand_level;
pub use exploring::explore;
