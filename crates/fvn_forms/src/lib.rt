//! Good signatures, and flat forms: what decides equality modulo the axioms, and gives the least sort of a term.
#![tactic(auto)]

mod laws;

pub use laws::{
    equality_is_that_of_flat_forms, flat_forms_are_compared, instances_have_lower_sorts,
    least_sort_is_exact, settled_is_flat,
};
