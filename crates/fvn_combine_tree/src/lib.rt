//! How the table of a problem is built, states are closed, and decision trees asked, question by question.
#![tactic(auto)]

mod asking;
mod building;
mod chains;
mod closing;
mod tree;

pub use asking::{Answers, ask, start};
pub use building::table_of;
pub use tree::Tree;
