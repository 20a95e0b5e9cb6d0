//! The top call: all that the program does, from the words of the command line to the bytes that it writes.
#![tactic(auto)]

mod answer;
mod laws;
mod top;
mod words;

pub use fvn_cmd::Status;
pub use laws::{
    answers_say_exactly, outcomes_are_determined, questions_are_determined, refusals_are_right,
    step_limits_are, words_are_one_command,
};
pub use top::run;
