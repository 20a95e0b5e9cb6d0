//! Flat terms and substitutions of them, and what a solver modulo axioms promises.
#![tactic(auto)]

mod building;
mod flat;
mod flattening;
mod laws;
mod order;
mod renaming;
mod replacing;
mod solver;
mod sorting;
mod substitution;

pub use flat::Flat;
pub use flattening::flatten;
pub use laws::{
    answers_to_flattened_pairs, equal_pairs_have_one_answer, flattened_pairs_are_given,
    flattened_pairs_have_one_answer,
};
pub use renaming::{fresh_variables, is_listed, rename_apart, with_variable};
pub use solver::{
    AxiomSolver, Normal, Pairs, SizeCause, SolveEnd, Solved, SolvedList, all_answers_shared,
};
pub use substitution::{Subst, all_shared};
