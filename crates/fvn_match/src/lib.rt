//! Matching of flat terms modulo the axioms.
#![tactic(auto)]

mod answers;
mod apart;
mod choices;
mod goals;
mod heads;
mod instances;
mod known;
mod matching;
mod pairing;
mod refusing;
mod rests;
mod search;
mod summands;
mod variables;
mod waiting;
mod wholes;

pub use heads::may_match;
pub use matching::{matches, matches_both};
