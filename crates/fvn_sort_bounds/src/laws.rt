//! Laws of sorts and summands, each the contract of a function that does nothing.
ghost use Rattle.fvn_sort_bounds.specs.Laws.{NarrowSortsHaveOneSummand, NarrowSortsHaveNoSum, OtherSortsHaveSomeSummand};

/// A term of a sort that admits no sum by an operator has at most one summand.
pub fn narrow_sorts_have_one_summand()
    ensures { NarrowSortsHaveOneSummand }
{}

/// Its flat form is no sum.
pub fn narrow_sorts_have_no_sum()
    ensures { NarrowSortsHaveNoSum }
{}

/// A term of a sort that does not admit an operator's identity has some summand.
pub fn other_sorts_have_some_summand()
    ensures { OtherSortsHaveSomeSummand }
{}
