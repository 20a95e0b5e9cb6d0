//! The reply to `verify` over the text of a module and the words of a problem and of bindings.
#![tactic(auto)]

mod replying;
mod telling;

pub use replying::verify_reply;
