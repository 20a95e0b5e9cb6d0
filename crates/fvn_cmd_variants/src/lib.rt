//! The reply to `variants` over the text of a module and the word of a term.
#![tactic(auto)]

mod laws;
mod lines;
mod replying;
mod searching;

pub use laws::shown_variants_keep_the_promise;
pub use replying::variants_reply;
