//! The least sort of a term, and what the sort of a term says of its summands.
#![tactic(auto)]

mod admitting;
mod laws;
mod sorting;

pub use admitting::{admits_identity, admits_sum};
pub use laws::{
    narrow_sorts_have_no_sum, narrow_sorts_have_one_summand, other_sorts_have_some_summand,
};
pub use sorting::sort_of;
