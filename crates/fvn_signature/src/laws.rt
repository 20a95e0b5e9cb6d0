//! Laws of signatures, each the contract of a function that does nothing.
ghost use Rattle.fvn_signature.specs.Laws.{
  DirectSubsortsAreListed,
  DirectSubsortsCover,
  DirectSubsortsOfKinds,
};

/// The list of the direct subsorts of a sort has the declared sorts below it with none between, and no others.
pub fn direct_subsorts_are_listed()
    ensures { DirectSubsortsAreListed }
{}

/// In a good signature the declared sorts below a sort are those at or below its direct subsorts.
pub fn direct_subsorts_cover()
    ensures { DirectSubsortsCover }
{}

/// In a good and completed signature the direct subsorts of a kind are its maximal sorts.
pub fn direct_subsorts_of_kinds()
    ensures { DirectSubsortsOfKinds }
{}
