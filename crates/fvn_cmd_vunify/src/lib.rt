//! The reply to `vunify` over the text of a module and the word of a problem.
#![tactic(auto)]

mod laws;
mod replying;
mod solving;

pub use fvn_cmd_unify::unify_reply;
pub use laws::shown_theory_unifiers_keep_the_promise;
pub use replying::vunify_reply;
