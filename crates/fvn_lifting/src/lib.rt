//! Lifting: steps of instances are instances of narrowing steps. Definitions and laws alone.
#![tactic(auto)]

mod laws;

pub use laws::{
    instances_meet_rules, meetings_come_from_unifiers, renamed_forms_have_the_same_instances,
    successors_are_steps, sums_step_in_pairs, turns_lift, whole_expansions_lift,
};
