//! Rewriting with equations, modulo the axioms: definitions and laws.
#![tactic(auto)]

mod laws;
mod shapes;

pub use laws::{
    agreement_is_lawful, choices_are_enough, kinded_theories_are_lawful, lists_are_lawful,
    rules_are_lawful, sequences_are_lawful, shapes_are_exact,
};
pub use shapes::{Root, Shape};
