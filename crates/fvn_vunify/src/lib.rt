//! Unifiers in the theory of equations, from an exploration of the variants of a problem's sides.
#![tactic(auto)]

mod at_once;
mod attempts;
mod ends;
mod laws;
mod meeting;
mod names;
mod pairs;
mod sides;
mod solved;
mod solving;
mod testing;
mod unify;

pub use at_once::unify_at_once;
pub use laws::{
    complete_irreducible_unifiers_are_shortest, flattened_pairs_have_one_theory_answer,
    theory_unifiers_have_irreducible_values,
};
pub use sides::sides_of;
pub use solved::SolvedModulo;
pub use unify::variant_unify;
