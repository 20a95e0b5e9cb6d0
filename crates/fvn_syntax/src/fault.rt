//! Why a written term stands for nothing.
ghost use Rattle.std.specs.Prelude.{◌≡◌};
ghost use Rattle.fvn_syntax.specs.declared.fault.TermFault.TheVariants.{NoMemory as OutOfMemory};

use fvn_terms::NoMemory;
use std::alloc::{AllocError, AllocFailed};
use thiserror::Error;

/// The first fault of a written term, from left to right.
///
/// After `NoMemory` the term may have a meaning: there was no room for it.
#[derive(Clone, Copy, Debug, PartialEq, Eq, Error)]
pub enum TermFault {
    #[error("the name of a variable begins with `#`")]
    ReservedName,
    #[error("a name is not declared")]
    UnknownName,
    #[error("an operator has another number of arguments")]
    Arity,
    #[error("an argument is of another kind")]
    WrongKind,
    #[error("out of memory")]
    NoMemory,
}

impl From<AllocError> for TermFault {
    ghost from_gives = { λ _ fault. fault ≡ OutOfMemory };

    fn from(_error: AllocError) -> TermFault {
        TermFault::NoMemory
    }
}

impl<T: Drop> From<AllocFailed<T>> for TermFault {
    ghost from_gives = { λ _ fault. fault ≡ OutOfMemory };

    fn from(_error: AllocFailed<T>) -> TermFault {
        TermFault::NoMemory
    }
}

impl From<NoMemory> for TermFault {
    ghost from_gives = { λ _ fault. fault ≡ OutOfMemory };

    fn from(_error: NoMemory) -> TermFault {
        TermFault::NoMemory
    }
}
