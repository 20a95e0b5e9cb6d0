//! The first fault among the names of statements.
ghost use Rattle.std.specs.Prelude.{◌≡◌};
ghost use Rattle.fvn_module_names.specs.declared.fault.NameFault.TheVariants.{NoMemory as OutOfMemory};

use fvn_terms::NoMemory;
use thiserror::Error;

/// Why the statements of a module declare nothing, told of the first statement that is refused.
///
/// Statements are numbered from 1. After `NoMemory` they may declare something: there was no room for it.
#[derive(Clone, Copy, Debug, PartialEq, Eq, Error)]
pub enum NameFault {
    #[error("statement {0} names a sort or an identity that is not declared, sorts of two kinds in one bracket, or has `ditto` without an earlier declaration")]
    UnknownName(usize),
    #[error("statement {0} declares a variable with two sorts, or one name as a variable and a constant, or a constant that reads as a variable")]
    Twice(usize),
    #[error("out of memory")]
    NoMemory,
}

impl From<NoMemory> for NameFault {
    ghost from_gives = { λ _ fault. fault ≡ OutOfMemory };

    fn from(_error: NoMemory) -> NameFault {
        NameFault::NoMemory
    }
}
