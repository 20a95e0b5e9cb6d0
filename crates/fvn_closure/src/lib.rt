//! How level runs cover variants: what closed levels give, and what an exploration promises of complete and of shortest
//! lists. Definitions and laws alone.
#![tactic(auto)]

mod laws;

pub use laws::{
    children_are_variants, coverings_carry_liftings, explorations_are_lawful, level_runs_are_lawful,
};
