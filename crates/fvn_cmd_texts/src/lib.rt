//! The texts that tell of a module, a problem, a verdict or weights: what is declared, why it is refused, or what is so.
#![tactic(auto)]

mod pieces;
mod problems;
mod refusals;
mod signatures;
mod summary;
mod verdicts;
mod weighings;

pub use problems::problem_text;
pub use refusals::refusal_text;
pub use summary::{sorts_text, summary_text};
pub use verdicts::verdict_text;
pub use weighings::weigh_fault_text;
