//! Sorts, terms and their names: how they are written, and what they stand for.
#![tactic(auto)]

mod applying;
mod fault;
mod form;
mod laws;
mod names;
mod naming;
mod piece;
mod reading;
mod scope;
mod seen;
mod sorts;
mod texts;

pub use fault::TermFault;
pub use form::skip_term;
pub use laws::terms_are_well_kinded;
pub use names::{Names, VarNames, Variables};
pub use naming::{find_constant, find_last_colon, find_operator, find_sort, split_sorted};
pub use piece::{Piece, Row, Text, cut};
pub use reading::resolve_term;
pub use scope::Scope;
pub use seen::{Kinded, Seen};
pub use sorts::RawSort;
pub use texts::Texts;
