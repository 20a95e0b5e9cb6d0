//! Weights of operators.
use fvn_base::Seq;

/// By what an operator multiplies the values of its arguments, and what it adds to their sum.
#[derive(Drop)]
pub struct Weight {
    pub coefficients: Seq<u64>,
    pub constant: u64,
}

/// A weight for each operator of a signature, in its order.
#[derive(Drop)]
pub struct Weights {
    pub list: Seq<Weight>,
}
