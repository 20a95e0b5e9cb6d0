//! The solver modulo the axioms: unifiers of a problem with all maximal sorts, none an instance of another, complete or up to a bound.
#![tactic(auto)]

mod members;
mod next;
mod numbers;
mod problem;
mod search;
mod solver;
mod task;

pub use fvn_combine::{CombineEnd, Combiner};
pub use solver::{AxiomUnify, SolveLimits};
