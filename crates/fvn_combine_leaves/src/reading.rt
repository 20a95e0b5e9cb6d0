//! What is read of a state.
use fvn_base::Seq;
use fvn_lindio::System;
use fvn_terms::OpId;

/// A sum operator at a state, with its sum system.
#[derive(Drop)]
pub struct Sums {
    pub operator: OpId,
    /// For each column the node that names its class.
    pub columns: Seq<usize>,
    pub system: System,
    /// For each column whether some row uses it.
    pub used: Seq<bool>,
}

/// What is read of a state: its sum operators, and what heads its classes.
#[derive(Drop)]
pub struct Reading {
    pub sums: Seq<Sums>,
    /// For each node that names a class the operator without an identity that heads a member.
    pub heads: Seq<Option<OpId>>,
}
