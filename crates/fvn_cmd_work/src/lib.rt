//! The reply to `work` over a number.
#![tactic(auto)]

mod replying;
mod texts;

pub use replying::work_reply;
