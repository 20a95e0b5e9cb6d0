//! Why a problem, a term text or a binding text was refused.
ghost use Rattle.std.specs.Prelude.{◌≡◌};
ghost use Rattle.fvn_problems.specs.declared.fault.ProblemFault.TheVariants.{NoMemory as OutOfMemory, Lex};
ghost use Rattle.fvn_problems.specs.Faults.{fault_of};

use fvn_lex::LexFault;
use fvn_syntax::TermFault;
use fvn_terms::NoMemory;
use std::alloc::AllocFailed;
use thiserror::Error;

/// The first fault of a text.
#[derive(Clone, Copy, Debug, PartialEq, Eq, Error)]
pub enum ProblemFault {
    #[error("the text has no tokens")]
    Lex(LexFault),
    #[error("the text has no such form")]
    Text,
    #[error("a name is not declared")]
    UnknownName,
    #[error("an operator has another number of arguments")]
    Arity,
    #[error("a term is of another kind")]
    WrongKind,
    #[error("there are too many symbols")]
    TooLarge,
    #[error("the name of a variable begins with `#`")]
    ReservedName,
    #[error("a term is not of its variable's sort")]
    WrongSort,
    #[error("out of memory")]
    NoMemory,
}

impl From<NoMemory> for ProblemFault {
    ghost from_gives = { λ _ fault. fault ≡ OutOfMemory };

    fn from(_error: NoMemory) -> ProblemFault {
        ProblemFault::NoMemory
    }
}

impl<T: Drop> From<AllocFailed<T>> for ProblemFault {
    ghost from_gives = { λ _ fault. fault ≡ OutOfMemory };

    fn from(_error: AllocFailed<T>) -> ProblemFault {
        ProblemFault::NoMemory
    }
}

/// The fault of a text in which this is the first fault of a term.
pub fn term_fault(fault: TermFault) -> ProblemFault
    ensures { result ≡ fault_of fault }
{
    match fault {
        TermFault::ReservedName => ProblemFault::ReservedName,
        TermFault::UnknownName => ProblemFault::UnknownName,
        TermFault::Arity => ProblemFault::Arity,
        TermFault::WrongKind => ProblemFault::WrongKind,
        TermFault::NoMemory => ProblemFault::NoMemory,
    }
}
