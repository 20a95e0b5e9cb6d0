//! Signatures, terms, flat terms and problems that tests write as short texts: read once for all crates of tests.
#![tactic(auto)]

mod flats;
mod showing;
mod signatures;
mod substs;
mod terms;

pub use flats::{are_sides, flat_of, flats_of, problem_of};
pub use showing::{push_flat, push_sort};
pub use signatures::signature_of;
pub use substs::subst_of;
pub use terms::{is_sort, is_term, term_of, var_of};
