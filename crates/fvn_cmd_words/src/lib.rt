//! The words of the command line: which of them are which command.
#![tactic(auto)]

mod command;
mod interpreting;
mod kinds;
mod laws;
pub mod limits;
mod numbers;
mod options;
mod reach;
mod reading;

pub use command::Command;
pub use laws::words_are_one_command;
pub use options::OptionName;
pub use reach::Reach;
pub use reading::read_command;
