//! What holds of every system: the minimal solutions make up all solutions.
ghost use Rattle.fvn_lindio.specs.Laws.{MinimalBelow, SumOfMinimal};

/// A law, for proofs: at or below every solution other than zero stands a minimal one.
pub fn minimal_below()
    ensures { MinimalBelow }
{}

/// A law, for proofs: every solution is a sum of minimal ones, with the multiplicities as data.
pub fn sum_of_minimal()
    ensures { SumOfMinimal }
{}
