//! What a split tells.
use crate::classes::Head;
use fvn_base::Seq;

/// The number of each part's class, the head of each part that has one, and whether each pair is
/// crossed.
///
/// A class has the place of its first part as its number.
#[derive(Drop)]
pub struct Split {
    pub class_of: Seq<usize>,
    pub heads: Seq<Head>,
    pub swaps: Seq<bool>,
}
