//! The arguments over which an operator has a sort or one below it.
ghost use Rattle.std.specs.Prelude.{◌≡◌, if◌then◌else◌, IfOk};
ghost use Rattle.fvn_forms.specs.SortOrder.{at_or_below};
ghost use Rattle.fvn_forms.specs.Ranks.{ranks_of};
ghost use Rattle.fvn_refine.specs.inner.Rows.{with_row};
ghost use Rattle.fvn_refine.specs.inner.Found.{AreArguments};

use crate::rows::{copied, is_at_or_below, with_row};
use fvn_base::Seq;
use fvn_signature::Signature;
use fvn_terms::{NoMemory, OpId, Rank, SortId};
use std::alloc::Global;

// The argument lists with that of a rank, if the rank gives the sort or one below it.
fn with_arguments(
    alloc: Global,
    sig: &Signature,
    rows: Vec<Seq<SortId>>,
    rank: &Rank,
    s: SortId,
) -> Result<Vec<Seq<SortId>>, NoMemory>
    ensures { IfOk result (λ all. all.items ≡
        (if at_or_below sig.now rank.now.result s
        then with_row sig.now rows.items rank.now.args else rows.items)) }
{
    if !is_at_or_below(sig, rank.result, s) {
        return Ok(rows);
    }
    let args = copied(alloc, rank.args.as_slice())?;
    let all = with_row(alloc, sig, rows, Seq::from_vec(args))?;
    Ok(all)
}

// The largest argument lists of the operator's ranks that give the sort or one below it.
pub(crate) fn arguments(
    alloc: Global,
    sig: &Signature,
    f: OpId,
    s: SortId,
) -> Result<Vec<Seq<SortId>>, NoMemory>
    ensures { IfOk result (λ rows. AreArguments sig.now s (ranks_of sig.now f) rows.items) }
{
    let mut rows = Vec::new(alloc);
    for i in 0..sig.rank_count(f) {
        rows = with_arguments(alloc, sig, rows, sig.rank(f, i), s)?;
    }
    Ok(rows)
}
