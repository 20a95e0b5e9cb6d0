//! Laws of what is found good, each the contract of a function that does nothing.
ghost use Rattle.fvn_sorts.specs.Laws.{FaultlessSignaturesAreGood};

/// What was collected without a fault is a good signature, in which sorts, kinds, the order and operators go together.
pub fn faultless_signatures_are_good()
    ensures { FaultlessSignaturesAreGood }
{}
