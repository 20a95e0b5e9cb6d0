//! The reply to `terminates` over the text of a module and the word of weights.
#![tactic(auto)]

mod replying;

pub use replying::terminates_reply;
