//! A sort of each node.
ghost use Rattle.std.specs.Prelude.{◌≡◌, ◌<◌, ◌⊎◌, length, map, All, IfOk, IfSome, IsTrue};
ghost use Rattle.fvn_terms.specs.declared.plain.OpId.{OpId};
ghost use Rattle.fvn_terms.specs.Term.{app, pack};
ghost use Rattle.fvn_terms.specs.Signature.{declared, kind};
ghost use Rattle.fvn_terms.specs.Sorts.{HasSort};
ghost use Rattle.fvn_combine_nodes.specs.Table.{term_at};
ghost use Rattle.fvn_combine_loose.specs.inner.NodeSorts.{HaveSorts, Fit, IsGivenBy};

use fvn_combine_nodes::{Node, Table};
use fvn_signature::Signature;
use fvn_terms::{NoMemory, OpId, Rank, SortId};
use std::alloc::Global;

// Whether node k is known to have the sort.
pub(crate) fn has_sort(
    sig: &Signature,
    table: &Table,
    sorts: &[Option<SortId>],
    k: usize,
    s: SortId,
) -> bool
    requires sorts { HaveSorts sig.now table.now.nodes sorts.now }
    ensures { IsTrue result → HasSort sig.now (term_at table.now.nodes k) s }
{
    let _table = table;
    match sorts.get(k) {
        None => false,
        Some(own) => match *own {
            None => false,
            Some(q) => sig.leq(q, s),
        },
    }
}

// Whether the nodes are known to have these sorts, place by place.
fn fit(
    sig: &Signature,
    table: &Table,
    sorts: &[Option<SortId>],
    ks: &[usize],
    args: &[SortId],
) -> bool
    requires sorts { HaveSorts sig.now table.now.nodes sorts.now }
    ensures { IsTrue result → Fit sig.now table.now.nodes ks.now args.now }
{
    if ks.len() != args.len() {
        return false;
    }
    for p in 0..ks.len() {
        if !has_sort(sig, table, sorts, ks[p], args[p]) {
            return false;
        }
    }
    true
}

// Whether the nodes are known to have the kinds of these sorts, place by place.
fn fit_kinds(
    sig: &Signature,
    table: &Table,
    sorts: &[Option<SortId>],
    ks: &[usize],
    args: &[SortId],
) -> bool
    requires sorts { HaveSorts sig.now table.now.nodes sorts.now }
    ensures { IsTrue result → Fit sig.now table.now.nodes ks.now (map (kind sig.now) args.now) }
{
    if ks.len() != args.len() {
        return false;
    }
    for p in 0..ks.len() {
        if !has_sort(sig, table, sorts, ks[p], sig.kind(args[p])) {
            return false;
        }
    }
    true
}

// The sort that the rank gives over these nodes, or the kind of that.
fn sort_by(
    sig: &Signature,
    table: &Table,
    sorts: &[Option<SortId>],
    ks: &[usize],
    rank: &Rank,
) -> Option<SortId>
    requires sorts { HaveSorts sig.now table.now.nodes sorts.now }
    ensures { IfSome result (IsGivenBy sig.now table.now.nodes ks.now rank.now) }
{
    if fit(sig, table, sorts, ks, rank.args.as_slice()) {
        return Some(rank.result);
    }
    if fit_kinds(sig, table, sorts, ks, rank.args.as_slice()) {
        return Some(sig.kind(rank.result));
    }
    None
}

// One of the two, the lower one where it can be told.
fn lower(sig: &Signature, best: Option<SortId>, next: Option<SortId>) -> Option<SortId>
    ensures { (result ≡ best) ⊎ (result ≡ next) }
{
    match next {
        None => best,
        Some(s) => match best {
            None => next,
            Some(q) => { if sig.leq(s, q) { next } else { best } }
        },
    }
}

// A sort that one of the ranks gives over these nodes.
fn sort_by_ranks(
    sig: &Signature,
    table: &Table,
    sorts: &[Option<SortId>],
    ks: &[usize],
    ranks: &[Rank],
) -> Option<SortId>
    requires sorts { HaveSorts sig.now table.now.nodes sorts.now }
    ensures { IfSome result (λ s. (f : OpId) → (declared sig.now f).ranks ≡ ranks.now
        → HasSort sig.now (app f (pack (map (term_at table.now.nodes) ks.now))) s) }
{
    let mut best = None;
    for rank in ranks {
        best = lower(sig, best, sort_by(sig, table, sorts, ks, rank));
    }
    best
}

// A sort of the operator over these nodes.
fn sort_over(
    sig: &Signature,
    table: &Table,
    sorts: &[Option<SortId>],
    f: OpId,
    ks: &[usize],
) -> Option<SortId>
    requires sorts { HaveSorts sig.now table.now.nodes sorts.now }
    ensures { IfSome result (HasSort sig.now (app f (pack (map (term_at table.now.nodes) ks.now)))) }
{
    match sig.declarations().declared(f) {
        None => None,
        Some(declaration) => sort_by_ranks(sig, table, sorts, ks, declaration.ranks.as_slice()),
    }
}

// A sort of node i, over those of the nodes before it.
fn sort_at(sig: &Signature, table: &Table, sorts: &[Option<SortId>], i: usize) -> Option<SortId>
    requires sorts { HaveSorts sig.now table.now.nodes sorts.now }
    requires within { i < length table.now.nodes }
    ensures { IfSome result (HasSort sig.now (term_at table.now.nodes i)) }
{
    table.recall_well_made();
    match table.node(i) {
        Node::Var(x) => Some(x.sort),
        Node::App(f, ks) => sort_over(sig, table, sorts, *f, ks.as_slice()),
    }
}

// A sort of each node; none where no declaration of its operator tells.
pub(crate) fn node_sorts(
    alloc: Global,
    sig: &Signature,
    table: &Table,
) -> Result<Vec<Option<SortId>>, NoMemory>
    ensures { IfOk result (λ v. HaveSorts sig.now table.now.nodes v.items) }
{
    let count = table.nodes().len();
    let mut sorts = Vec::with_capacity(alloc, count)?;
    for i in 0..count {
        let sort = sort_at(sig, table, sorts.as_slice(), i);
        sorts.push(sort)?;
    }
    Ok(sorts)
}
