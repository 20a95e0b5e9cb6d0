//! How searches end, and which end comes first.
ghost use Rattle.std.specs.Prelude.{◌≡◌};
ghost use Rattle.fvn_vunify.specs.inner.Ends.{is_whole, is_complete, first_end};
ghost use Rattle.fvn_vunify.specs.inner.Ends.{end_of_pairs, end_after};

use fvn_base::Seq;
use fvn_exploring::{ExpandEnd, ExploreEnd};
use fvn_flat::{Pairs, SolveEnd, Subst};

// Whether nothing stopped the search.
fn is_whole(end: &ExpandEnd) -> bool
    ensures { result ≡ is_whole end.now }
{
    match end {
        ExpandEnd::Whole => true,
        ExpandEnd::Steps(_, _) => false,
        ExpandEnd::Size(_) => false,
        ExpandEnd::Basis(_, _) => false,
        ExpandEnd::Unifiers(_, _) => false,
    }
}

// Whether every variant is covered.
fn is_complete(end: &ExploreEnd) -> bool
    ensures { result ≡ is_complete end.now }
{
    match end {
        ExploreEnd::Complete => true,
        ExploreEnd::Levels(_) => false,
        ExploreEnd::Variants(_) => false,
        ExploreEnd::Steps(_, _) => false,
        ExploreEnd::Size(_) => false,
        ExploreEnd::Basis(_, _) => false,
        ExploreEnd::Unifiers(_, _) => false,
    }
}

// The first of two ends that stopped the search.
pub(crate) fn first_end(end: ExpandEnd, later: ExpandEnd) -> ExpandEnd
    ensures { result ≡ first_end end later }
{
    if is_whole(&end) { later } else { end }
}

// The end at the pairs that were given to the solver.
pub(crate) fn end_of_pairs(given: Pairs, unifiers: Seq<Subst>, end: SolveEnd) -> ExpandEnd
    ensures { result ≡ end_of_pairs given unifiers end }
{
    match end {
        SolveEnd::Complete => ExpandEnd::Whole,
        SolveEnd::Basis(f, system) => ExpandEnd::Basis(f, system),
        SolveEnd::Unifiers => ExpandEnd::Unifiers(given, unifiers),
        SolveEnd::Size(cause) => ExpandEnd::Size(cause),
    }
}

// The end of an exploration, or where that is complete the one at the pairs.
pub(crate) fn end_after(end: ExploreEnd, pairs: ExpandEnd) -> ExploreEnd
    ensures { result ≡ end_after end pairs }
{
    if is_complete(&end) {
        pairs.into_explore_end()
    } else {
        end
    }
}
