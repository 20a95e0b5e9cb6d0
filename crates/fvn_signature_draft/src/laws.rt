//! What the kinds are, as the contract of a function that does nothing.
ghost use Rattle.fvn_signature_draft.specs.Laws.{KindsAreComponents};

/// Two declared sorts have one kind exactly where the order joins them, along pairs in either direction.
pub fn kinds_are_components()
    ensures { KindsAreComponents }
{}
