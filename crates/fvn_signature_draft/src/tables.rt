//! Tables of the results of operators with two arguments.
ghost use Rattle.std.specs.Prelude.{◌≡◌, [], ◌∷◌, map, IfOk, slice_index_or};
ghost use Rattle.fvn_terms.specs.declared.plain.OpId.{OpId};
ghost use Rattle.fvn_forms.specs.Ranks.{ranks_of, result as least_result};
ghost use Rattle.fvn_signature.specs.FirstSorts.{first_sorts};
ghost use Rattle.fvn_signature.specs.Drafts.{IsTable, results_of_two};
ghost use Rattle.fvn_signature.specs.FoundAlike.{FindAlike};

use crate::alike::earlier_alike;
use crate::repeats::without_repeats;
use fvn_base::Seq;
use fvn_signature::Draft;
use fvn_terms::{NoMemory, OpId, Rank, SortId};
use std::alloc::Global;

/// The results over a sort as first argument and each sort and kind as second.
fn row(
    alloc: Global,
    draft: &Draft,
    op: OpId,
    ranks: &[Rank],
    s: SortId,
) -> Result<Vec<SortId>, NoMemory>
    requires { FindAlike ranks.now (ranks_of draft.now.declarations op) }
    ensures { IfOk result (λ v. v.items ≡ map (λ q. least_result draft.now.declarations op
        (s ∷ q ∷ [])) (first_sorts draft.now.total)) }
{
    let mut list = Vec::with_capacity(alloc, usize::from(draft.total))?;
    for q in 0..draft.total {
        list.push(draft.result_by(op, ranks, &[s, SortId(q)]))?;
    }
    Ok(list)
}

/// The results over each two sorts, a row for each first one.
fn rows(
    alloc: Global,
    draft: &Draft,
    op: OpId,
    ranks: &[Rank],
) -> Result<Vec<Seq<SortId>>, NoMemory>
    requires { FindAlike ranks.now (ranks_of draft.now.declarations op) }
    ensures { IfOk result (λ v.
        v.items ≡ results_of_two draft.now.declarations op draft.now.total) }
{
    let mut list = Vec::with_capacity(alloc, usize::from(draft.total))?;
    for s in 0..draft.total {
        list.push(Seq::from_vec(row(alloc, draft, op, ranks, SortId(s))?))?;
    }
    Ok(list)
}

/// Whether the operator takes two arguments, by its first rank.
fn takes_two(ranks: &[Rank]) -> bool {
    match ranks.first() {
        Some(rank) => rank.args.len() == 2,
        None => false,
    }
}

/// The table of an operator, where it takes two arguments.
fn table(alloc: Global, draft: &Draft, op: OpId) -> Result<Vec<Seq<SortId>>, NoMemory>
    ensures { IfOk result (λ v. IsTable draft.now.declarations op draft.now.total v.items) }
{
    if takes_two(draft.ranks_of(op)) {
        let ranks = without_repeats(alloc, draft.ranks_of(op))?;
        let list = rows(alloc, draft, op, ranks.as_slice())?;
        Ok(list)
    } else {
        Ok(Vec::new(alloc))
    }
}

/// The rows, in memory of their own.
fn copied_rows(alloc: Global, rows: &[Seq<SortId>]) -> Result<Vec<Seq<SortId>>, NoMemory>
    ensures { IfOk result (λ v. v.items ≡ rows.now) }
{
    let mut all = Vec::with_capacity(alloc, rows.len())?;
    for row in rows {
        all.push(Seq::from_slice(alloc, row.as_slice())?)?;
    }
    Ok(all)
}

/// The table of one of the operators, in memory of its own.
fn copied_table(
    alloc: Global,
    tables: &[Seq<Seq<SortId>>],
    op: OpId,
) -> Result<Vec<Seq<SortId>>, NoMemory>
    ensures { IfOk result (λ v. v.items ≡ slice_index_or tables.now op.0 []) }
{
    match tables.get(usize::from(op.0)) {
        Some(rows) => copied_rows(alloc, rows.as_slice()),
        None => Ok(Vec::new(alloc)),
    }
}

/// The table of an operator, where those of earlier ones are known.
fn next_table(
    alloc: Global,
    draft: &Draft,
    tables: &[Seq<Seq<SortId>>],
    op: OpId,
) -> Result<Vec<Seq<SortId>>, NoMemory>
    requires tables { (f : OpId) → IsTable draft.now.declarations f draft.now.total
        (slice_index_or tables.now f.0 []) }
    ensures { IfOk result (λ v. IsTable draft.now.declarations op draft.now.total v.items) }
{
    match earlier_alike(&draft.declarations, op) {
        Some(earlier) => {
            let rows = copied_table(alloc, tables, earlier)?;
            Ok(rows)
        }
        None => table(alloc, draft, op),
    }
}

/// The table of each operator; those of operators with the same declarations are the same.
pub fn all_tables(
    alloc: Global,
    draft: &Draft,
    operators: u16,
) -> Result<Vec<Seq<Seq<SortId>>>, NoMemory>
    ensures { IfOk result (λ v. (f : OpId) → IsTable draft.now.declarations f draft.now.total
        (slice_index_or v.items f.0 [])) }
{
    let mut all = Vec::new(alloc);
    for op in 0..operators {
        let more = next_table(alloc, draft, all.as_slice(), OpId(op))?;
        all.push(Seq::from_vec(more))?;
    }
    Ok(all)
}
