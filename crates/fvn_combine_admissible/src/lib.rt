//! What is asked of the minimal solutions that are taken for a sum operator, and what they leave no alias.
#![tactic(auto)]

mod aliases;
mod asking;
mod bound;
mod classes;
mod taking;
mod theories;

pub use aliases::has_no_alias;
pub use asking::{Requirements, asked};
pub use bound::is_bound;
pub use classes::{is_shared_class, uses};
pub use taking::taken;
pub use theories::{copied_system, theory};
