//! What is wrong with a signature.
ghost use Rattle.std.specs.Prelude.{◌≡◌};
ghost use Rattle.fvn_sorts.specs.declared.conditions.fault.SigFault.TheVariants.{NoMemory};

use fvn_base::Seq;
use fvn_base::limits::{ARGUMENTS, OPERATORS, SORTS};
use fvn_terms::{NoMemory, OpId, SortId};
use thiserror::Error;

/// Why a signature is refused, with the first operator and the first sorts that show it.
///
/// `NoMemory` says nothing of the signature.
#[derive(Debug, Drop, Error)]
pub enum SigFault {
    /// The sort is on a cycle of the order.
    #[error("{0:?} is below itself: take a subsort statement of the cycle away")]
    SortCycle(SortId),
    /// Two declarations of the operator differ in arity or kinds.
    #[error("the declarations of {0:?} differ in the number or the kinds of arguments, or in the kind of the result")]
    KindsDiffer(OpId),
    /// The operator has axioms, and its arguments or its result are not such as these ask for.
    #[error("the axioms of {0:?} ask for two arguments of one kind, and assoc for a result of that kind")]
    AxiomShape(OpId),
    /// Two declarations of the operator differ in axioms.
    #[error("the declarations of {0:?} have different axioms: write the same with each")]
    AxiomsDiffer(OpId),
    /// The operator's identity is not a constant of its kind.
    #[error("the identity of {0:?} is not a constant of its kind")]
    IdentityBad(OpId),
    /// Over these sorts the operator has no least result.
    #[error("{0:?} has no least result over {1:?}: declare it there with a result at or below the others")]
    NotPreregular(OpId, Seq<SortId>),
    /// The sort of the sum of these three depends on its brackets.
    #[error("the sort of a sum by {0:?} of {1:?}, {2:?} and {3:?} depends on its brackets")]
    NotAssocSorts(OpId, SortId, SortId, SortId),
    /// The sort is not at or below that of its sum with the operator's identity.
    #[error("{1:?} is not at or below the sort of its sum by {0:?} with the identity")]
    NotCollapsing(OpId, SortId),
    /// There are more sorts, operators, or arguments of one operator than a signature may have.
    #[error("there are more than {sorts} sorts, {operators} operators, or {arguments} arguments of one operator", sorts = SORTS, operators = OPERATORS, arguments = ARGUMENTS)]
    TooMany,
    /// Memory was refused.
    #[error("memory was refused")]
    NoMemory,
}

impl From<NoMemory> for SigFault {
    ghost from_gives = { λ _ fault. fault ≡ NoMemory };

    fn from(_refused: NoMemory) -> SigFault {
        SigFault::NoMemory
    }
}
