//! An expander without equations, by which the promises of expanders are seen to be met.
#![tactic(auto)]

mod inert;

pub use inert::Inert;
