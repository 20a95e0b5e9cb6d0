//! Peaks: where the overlaps of rules join, two steps from one term join; and where equations terminate too, they are confluent.
#![tactic(auto)]

mod laws;

pub use laws::{
    confluent_equations_join_overlaps, joins_are_kept_inside, overlaps_decide_steps,
    places_are_apart_or_nested, stand_ins_decide_steps, termination_and_joins_give_confluence,
    values_carry_instances,
};
