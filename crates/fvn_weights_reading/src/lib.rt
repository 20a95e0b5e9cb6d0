//! The reader of weights of operators, in a signature and its names.
#![tactic(auto)]

mod entry;
mod laws;
mod limits;
mod numbers;
mod once;
mod reading;
mod split;

pub use entry::Entry;
pub use laws::{
    numbers_have_nine_digits, refused_texts_weigh_nothing, weight_faults_are_determined,
    weights_are_determined,
};
pub use reading::read_weights;
