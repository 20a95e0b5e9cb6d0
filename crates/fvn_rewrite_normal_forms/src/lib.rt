//! Normal forms: reducibility modulo the axioms is decided, and solutions have irreducible values. Definitions and laws alone.
#![tactic(auto)]

mod laws;

pub use laws::normal_forms_are_lawful;
