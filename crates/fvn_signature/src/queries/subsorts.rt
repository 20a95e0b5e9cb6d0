//! The sorts right below a sort.
ghost use Rattle.std.specs.Prelude.{◌≡◌, ◌&&◌, not, map, IfOk};
ghost use Rattle.fvn_terms.specs.declared.plain.SortId.{SortId};
ghost use Rattle.std.specs.List.{list_all};
ghost use Rattle.fvn_signature.specs.FirstSorts.{first_sorts};
ghost use Rattle.fvn_signature.specs.Queries.{is_below, is_direct, direct_subsorts};

use crate::draft::Draft;
use fvn_base::Seq;
use fvn_terms::{NoMemory, SortId};
use std::alloc::Global;

/// Whether the first sort is below the second, and another one.
fn is_below(draft: &Draft, s: SortId, q: SortId) -> bool
    ensures { result ≡ is_below draft.now.declarations s q }
{
    draft.is_at_or_below(s, q) && s != q
}

/// Whether the second sort is above the first and below the third, and is neither.
fn stands_between(draft: &Draft, t: SortId, q: SortId, s: SortId) -> bool
    ensures { result
        ≡ (is_below draft.now.declarations t q && is_below draft.now.declarations q s) }
{
    is_below(draft, t, q) && is_below(draft, q, s)
}

/// Whether no declared sort stands between the two.
fn is_nothing_between(draft: &Draft, t: SortId, s: SortId) -> bool
    ensures { result ≡ list_all (λ q. not (is_below draft.now.declarations t q && is_below
        draft.now.declarations q s)) (first_sorts draft.now.declarations.sorts) }
{
    for q in 0..draft.declarations.sorts {
        if stands_between(draft, t, SortId(q), s) {
            return false;
        }
    }
    true
}

/// Whether the second sort is below the first, and no declared sort stands between.
fn is_direct(draft: &Draft, s: SortId, t: SortId) -> bool
    ensures { result ≡ is_direct draft.now.declarations s t }
{
    is_below(draft, t, s) && is_nothing_between(draft, t, s)
}

/// The declared sorts right below a sort.
fn direct_subsorts(alloc: Global, draft: &Draft, s: SortId) -> Result<Vec<SortId>, NoMemory>
    ensures { IfOk result (λ v. v.items ≡ direct_subsorts draft.now.declarations s) }
{
    let mut list = Vec::new(alloc);
    for t in 0..draft.declarations.sorts {
        if is_direct(draft, s, SortId(t)) {
            list.push(SortId(t))?;
        }
    }
    Ok(list)
}

/// For each sort and kind the declared sorts right below it.
pub fn all_direct_subsorts(alloc: Global, draft: &Draft) -> Result<Vec<Seq<SortId>>, NoMemory>
    ensures { IfOk result (λ v. v.items ≡ map (direct_subsorts draft.now.declarations)
        (first_sorts draft.now.total)) }
{
    let mut all = Vec::new(alloc);
    for s in 0..draft.total {
        all.push(Seq::from_vec(direct_subsorts(alloc, draft, SortId(s))?))?;
    }
    Ok(all)
}
