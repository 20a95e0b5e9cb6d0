//! What a number says of the solutions.
ghost use Rattle.fvn_acunify.specs.Laws.{ChosenByBits};

/// A law, for proofs: a number chooses the solutions at the places of its set bits.
pub fn chosen_by_bits()
    ensures { ChosenByBits }
{}
