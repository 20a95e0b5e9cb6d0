//! The reply to `unify` over the text of a module and the word of a problem.
#![tactic(auto)]

mod ends;
mod laws;
mod lines;
mod pairs;
mod replying;
mod searching;

pub use fvn_axunify::{AxiomUnify, SolveLimits};
pub use laws::{lines_denote_unifiers, shown_lines_keep_the_promise};
pub use lines::lines_of;
pub use pairs::flattened;
pub use replying::unify_reply;
pub use searching::end_of_search;
