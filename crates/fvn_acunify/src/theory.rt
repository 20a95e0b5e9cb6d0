//! What is asked of a choice of solutions, and why there is none to be had.
ghost use Rattle.std.specs.Prelude.{◌≡◌};
ghost use Rattle.fvn_acunify.specs.Cursor.{unbounded};

use fvn_base::Seq;
use fvn_lindio::{LinFault, System};
use std::alloc::{AllocError, Global};
use thiserror::Error;

/// A system, and what is asked of the sum of the solutions that are chosen.
///
/// A column that no row uses is zero in every solution, so it must be one that may be zero, and no
/// constant: otherwise no choice is valid.
#[derive(Drop)]
pub struct OneTheory {
    pub system: System,
    /// Different columns, each to be exactly 1 in the sum; no solution chosen uses two of them.
    pub constants: Seq<usize>,
    /// For each column whether it may be zero in the sum.
    pub may_be_zero: Seq<bool>,
}

/// What is asked of the sum of the solutions that are chosen besides.
#[derive(Drop)]
pub struct ColumnBounds {
    /// Columns in which the sum is at most 1.
    pub at_most_one: Seq<usize>,
    /// Columns in which the sum is at least 1.
    pub at_least_one: Seq<usize>,
}

impl ColumnBounds {
    /// No bounds.
    pub fn none(alloc: Global) -> ColumnBounds
        ensures { result ≡ unbounded }
    {
        ColumnBounds {
            at_most_one: Seq::new(alloc),
            at_least_one: Seq::new(alloc),
        }
    }
}

/// Why a theory has no choices.
#[derive(Clone, Copy, Debug, Error)]
pub enum OneFault {
    /// The system was refused: too many minimal solutions, or a component that is too large.
    #[error("the system has no basis within the limits: {0}")]
    Basis(LinFault),
    /// Memory was refused.
    #[error("memory was refused")]
    NoMemory,
}

impl From<AllocError> for OneFault {
    ghost use Rattle.std.specs.Prelude.{◌≡◌};
    ghost use Rattle.fvn_acunify.specs.declared.theory.OneFault.TheVariants.{NoMemory};

    ghost from_gives = { λ _ fault. fault ≡ NoMemory };

    fn from(_error: AllocError) -> OneFault {
        OneFault::NoMemory
    }
}

impl From<LinFault> for OneFault {
    ghost use Rattle.std.specs.Prelude.{◌≡◌};
    ghost use Rattle.fvn_acunify.specs.Theory.{fault_of};

    ghost from_gives = { λ fault one. one ≡ fault_of fault };

    fn from(fault: LinFault) -> OneFault {
        match fault {
            LinFault::NoMemory => OneFault::NoMemory,
            refusal => OneFault::Basis(refusal),
        }
    }
}
