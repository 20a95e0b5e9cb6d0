//! Laws of how many lists are left.
ghost use Rattle.fvn_acunify_product.specs.Laws.{RankFalls, RankIsBounded};

/// A law, for proofs: an earlier list has a smaller rank.
pub fn rank_falls()
    ensures { RankFalls }
{}

/// A law, for proofs: a list's rank is below the number of lists.
pub fn rank_is_bounded()
    ensures { RankIsBounded }
{}
