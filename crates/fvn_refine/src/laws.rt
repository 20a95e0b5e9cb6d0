//! The law of refinements, the contract of a function that does nothing.
ghost use Rattle.fvn_refine.specs.Laws.{RefinementsCover};

/// A well-sorted substitution that is covered on kinds is an instance of one of the refinements.
pub fn refinements_cover()
    ensures { RefinementsCover }
{}
