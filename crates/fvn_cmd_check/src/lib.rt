//! The reply to `check` over the text of a module.
#![tactic(auto)]

mod checking;

pub use checking::check_reply;
