//! The parts of a problem where its theories meet, and all splits of these parts.
#![tactic(auto)]

mod beginning;
mod choosing;
mod classes;
mod cursor;
mod forming;
mod heading;
mod listing;
mod purifying;
mod questions;
mod split;
mod standing;
mod stepping;

pub use beginning::splits;
pub use choosing::{Leaf, Partial};
pub use classes::{Classes, Head, Places};
pub use cursor::Splits;
pub use purifying::purify;
pub use split::Split;
