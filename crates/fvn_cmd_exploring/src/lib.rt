//! What the commands that explore share: what is searched in and how far, and how an answer over an exploration ends.
#![tactic(auto)]

mod answering;
mod ends;
mod loading;
mod search;

pub use answering::answer_after;
pub use ends::{end_told, loss_after};
pub use fvn_narrow::Narrower;
pub use fvn_remembering::{Named, Remembering};
pub use loading::{Loaded, load_with_rules};
pub use search::Search;
