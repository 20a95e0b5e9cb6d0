//! Critical pairs: the overlaps of rules, and what they say of confluence. Definitions and laws alone.
#![tactic(auto)]

mod laws;

pub use laws::{
    divergence_excludes_confluence, overlaps_are_steps, overlaps_of_rules_decide_confluence,
    overlaps_of_rules_decide_steps, unifiers_decide_overlaps,
};
