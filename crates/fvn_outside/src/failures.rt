//! How a read or a write fails.
ghost use Rattle.std.specs.Prelude.{◌≡◌};
ghost use Rattle.fvn_outside.specs.declared.failures.ReadAll.TheVariants.{Fault, NoMemory};

use std::alloc::AllocError;
use thiserror::Error;

/// A read failed; the source's count of faults says so too.
#[derive(Clone, Copy, Debug, PartialEq, Eq, Error)]
#[error("reading failed")]
pub struct ReadFailed;

/// A write failed; the sink's count of faults says so too.
#[derive(Clone, Copy, Debug, PartialEq, Eq, Error)]
#[error("writing failed")]
pub struct WriteFailed;

/// Why the whole of a source was not read.
#[derive(Clone, Copy, Debug, PartialEq, Eq, Error)]
pub enum ReadAll {
    /// A read failed.
    #[error("reading failed")]
    Fault,
    /// There were more bytes than the limit.
    #[error("too many bytes")]
    TooLong,
    /// Memory ran out.
    #[error("out of memory")]
    NoMemory,
}

impl From<ReadFailed> for ReadAll {
    ghost from_gives = { λ _ e. e ≡ Fault };

    fn from(_: ReadFailed) -> ReadAll {
        ReadAll::Fault
    }
}

impl From<AllocError> for ReadAll {
    ghost from_gives = { λ _ e. e ≡ NoMemory };

    fn from(_: AllocError) -> ReadAll {
        ReadAll::NoMemory
    }
}
