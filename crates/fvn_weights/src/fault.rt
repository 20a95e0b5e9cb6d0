//! Why weights do not show termination.
use fvn_terms::{NoMemory, OpId};
use thiserror::Error;

/// Why weights do not show termination; the first reason.
#[derive(Debug, Drop, Error)]
pub enum WeighFault {
    /// The weight of this operator does not fit its axioms, or has a coefficient of nothing.
    #[error("the weight of operator {} does not fit", .0.0)]
    Shape(OpId),
    /// A number in the value of a side of the equation with this number, from 1, is too large to be compared.
    #[error("a number in equation {0} is too large")]
    TooBig(usize),
    /// The equation with this number, from 1, does not fall.
    #[error("equation {0} does not fall")]
    Grows(usize),
    /// Memory was refused.
    #[error("out of memory")]
    NoMemory,
}
