//! What the statements of a module declare, or the first fault among their names.
#![tactic(auto)]

mod building;
mod codes;
mod declaring;
mod drafts;
mod pairs;
mod shapes;
mod sizes;

pub use declaring::{Declared, declare};
pub use fvn_module_names::NameFault;
