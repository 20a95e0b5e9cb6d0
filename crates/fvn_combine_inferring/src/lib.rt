//! What all values that go with a state have in common, before any question is asked.
#![tactic(auto)]

mod arguments;
mod bags;
mod bounds;
mod cancelling;
mod clashing;
mod differing;
mod emptying;
mod expressions;
mod heads;
mod held;
mod holding;
mod idle;
mod inferring;
mod labelling;
mod laws;
mod meeting;
mod possible;
mod rows;
mod rules;
mod sizes;
mod sorts;
mod standing_sums;
mod summed;

pub use differing::differ;
pub use heads::{Known, known_of};
pub use held::held_parts;
pub use inferring::{Inferred, infer};
pub use labelling::label_at;
pub use laws::sorted_unifiers_go_with;
