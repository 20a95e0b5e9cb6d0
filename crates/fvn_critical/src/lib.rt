//! The test of confluence: the critical pairs of rules, found by any solver modulo the axioms.
#![tactic(auto)]

mod choosing;
mod comparing;
mod fault;
mod heading;
mod overlapping;
mod pairing;
mod posing;
mod renewing;
mod tester;
mod testing;

pub use fault::CriticalFault;
pub use testing::critical_fault;
