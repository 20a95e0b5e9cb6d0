//! What was seen of a text so far, and whole terms.

use crate::texts::Texts;
use fvn_terms::{Plain, SortId};

/// The names of the variables so far, in order of first occurrence, and the number of symbols so far, or the
/// greatest number.
#[derive(Drop)]
pub struct Seen {
    pub texts: Texts,
    pub count: usize,
}

/// A term with its kind.
#[derive(Drop)]
pub struct Kinded {
    pub term: Plain,
    pub kind: SortId,
}
