//! What a builder collects, completed with kinds, and the draft of it.
#![tactic(auto)]

mod alike;
mod closure;
mod collected;
mod completing;
mod kinds;
mod laws;
mod making;
mod ranks;
mod repeats;
mod tables;

pub use alike::has_earlier_alike;
pub use collected::{Collected, Declaration};
pub use completing::{first_axioms, meant_or_kind};
pub use kinds::tops;
pub use laws::kinds_are_components;
pub use making::draft_of;
pub use ranks::appended;
pub use repeats::without_repeats;
