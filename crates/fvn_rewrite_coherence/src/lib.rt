//! Coherence: steps modulo the axioms are steps at places of flat forms. Definitions and laws alone.
#![tactic(auto)]

mod laws;

pub use laws::{instances_step_at_parts, rules_are_coherent, sequences_keep_sorts};
