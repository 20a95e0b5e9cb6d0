//! The readers of problems, term texts and binding texts, in a signature and its names.
#![tactic(auto)]

mod bindings;
mod fault;
mod laws;
mod problem;
mod query;
mod sorting;
mod split;
mod text;
mod vars;
mod written;

pub use bindings::{Bindings, read_bindings};
pub use fault::ProblemFault;
pub use laws::{
    binding_faults_are_determined, bindings_are_determined, bindings_are_spelled_once, names_go_on,
    problem_faults_are_determined, problem_names_are_words, problem_names_differ,
    problems_are_determined, problems_are_kinded, problems_are_spelled_once,
    queries_are_determined, queries_are_kinded, queries_are_spelled_once,
    query_faults_are_determined, query_names_are_words, query_names_differ,
    refused_bindings_bind_nothing, refused_problems_ask_nothing, refused_queries_ask_nothing,
};
pub use problem::{Problem, read_problem};
pub use query::{Query, read_term};
