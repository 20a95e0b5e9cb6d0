//! Systems of linear equations, their solutions, and why a system is refused.
ghost use Rattle.std.specs.Prelude.{◌≡◌};

use fvn_base::Seq;
use fvn_base::limits::COMPONENT;
use std::alloc::AllocError;
use thiserror::Error;

/// One equation: the sum of coefficient times component is zero.
#[derive(Drop)]
pub struct Row {
    /// One for each column, from -65,535 to 65,535.
    pub coefficients: Seq<i32>,
}

/// Equations in the same unknowns.
#[derive(Drop)]
pub struct System {
    /// The number of unknowns, at most 1,000.
    pub columns: usize,
    pub rows: Seq<Row>,
}

/// A vector that solves a system.
#[derive(Drop)]
pub struct Solution {
    /// One for each column.
    pub parts: Seq<u32>,
}

/// Why a system has no answer.
#[derive(Clone, Copy, Debug, PartialEq, Eq, Error)]
pub enum LinFault {
    /// So many rows, from the first on, have more minimal solutions than were allowed.
    #[error("the first {0} rows have more minimal solutions than were allowed")]
    TooMany(usize),
    /// So many rows, from the first on, have a minimal solution with a component over 65,535.
    #[error("the first {0} rows have a minimal solution with a component over {limit}", limit = COMPONENT)]
    TooWide(usize),
    /// Memory was refused.
    #[error("memory was refused")]
    NoMemory,
}

impl From<AllocError> for LinFault {
    ghost use Rattle.fvn_lindio.specs.declared.system.LinFault.TheVariants.{NoMemory};

    ghost from_gives = { λ _ fault. fault ≡ NoMemory };

    fn from(_error: AllocError) -> LinFault {
        LinFault::NoMemory
    }
}
