//! What a builder collects.
use fvn_base::Seq;
use fvn_terms::{Axioms, OpId, Rank, SortId};

/// What one `op` statement says of an operator.
///
/// In the rank a sort number from 32,768 up names the kind of the sort with that number less 32,768.
/// A partial declaration (`~>`) stands for the one on the kinds of its sorts.
#[derive(Drop)]
pub struct Declaration {
    pub op: OpId,
    pub rank: Rank,
    pub partial: bool,
    pub axioms: Axioms,
}

/// The numbers of sorts and operators, the pairs of the order and the declarations, as they came.
#[derive(Drop)]
pub struct Collected {
    pub sorts: u16,
    pub below: Seq<(SortId, SortId)>,
    pub operators: u16,
    pub declarations: Seq<Declaration>,
}
