//! What all commands need: statuses, answers, how modules and words are refused, and what a list of answers promises.
#![tactic(auto)]

mod answer;
mod ends;
mod laws;
mod refusing;
mod status;

pub use answer::{Answer, Text};
pub use ends::status_of_end;
pub use laws::{readers_are_lawful, refusals_are_lawful};
pub use refusing::{refuse_module, refuse_problem};
pub use status::Status;
