//! How many summands the value of a class has at least, and at most.
ghost use Rattle.std.specs.Prelude.{◌≡◌, ℕ, ◌<◌, ◌≤◌, ◌&&◌, true, false, nat_eq, length, slice_index, slice_index_or, sum_by, All, IsTrue};
ghost use Rattle.fvn_forms.specs.Flat.{FlatTerm};
ghost use Rattle.fvn_combine_bounds.specs.CombineChoicesTables.{HasSums};
ghost use Rattle.fvn_combine_nodes.specs.States.{IsClosed, IsNaming, class_of, is_apart};
ghost use Rattle.fvn_combine_inferring.specs.Inferred.{TellHeads};
ghost use Rattle.fvn_combine_inferring.specs.Rows.{many, HasSummand, HasFewSummands, IsSummand};
ghost use Rattle.fvn_combine_inferring.specs.Sorted.{GoWithSorts};
ghost use Rattle.fvn_combine_inferring.specs.inner.Bounds.{IsOtherHead, IsHeadedApart, IsMarked, is_kept};
ghost use Rattle.fvn_combine_inferring.specs.inner.Splits.{IsAddition};

use crate::expressions::{Addition, unit_of};
use crate::heads::Known;
use crate::possible::is_possibly_headed;
use crate::summed::is_summed;
use fvn_combine_nodes::{State, Table, has_no_identity};
use fvn_signature::Signature;
use fvn_terms::OpId;

// Whether g is neither f nor its identity.
pub(crate) fn is_other_head(sig: &Signature, f: OpId, g: OpId) -> bool
    ensures { IsTrue result → IsOtherHead sig.now f g }
{
    if g == f {
        return false;
    }
    match sig.identity(f) {
        None => true,
        Some(e) => e != g,
    }
}

// Whether an operator without an identity heads the class of node k that is neither f nor its identity.
pub(crate) fn is_headed_apart(
    sig: &Signature,
    state: &State,
    heads: &[Option<OpId>],
    f: OpId,
    k: usize,
) -> bool
    requires within { k < length state.now.names }
    requires heads { class_of state.now k < length heads.now }
    ensures { IsTrue result → IsHeadedApart sig.now f heads.now (class_of state.now k) }
{
    match heads[state.class_of(k)] {
        None => false,
        Some(g) => is_other_head(sig, f, g),
    }
}

// Whether the classes of nodes k and l are a and b.
fn are_of(names: &[usize], k: usize, l: usize, a: usize, b: usize) -> bool
    requires left { k < length names.now }
    requires right { l < length names.now }
    ensures { result ≡ (nat_eq (slice_index names.now k) a && nat_eq (slice_index names.now l) b) }
{
    if names[k] != a {
        return false;
    }
    names[l] == b
}

// Whether classes a and b are kept apart by one of the pairs.
fn keeps_apart(names: &[usize], apart: &[(usize, usize)], a: usize, b: usize) -> bool
    requires { All (λ p. (p.0 < length names.now) × (p.1 < length names.now)) apart.now }
    ensures { result ≡ is_kept names.now a b apart.now }
{
    for (k, l) in apart {
        if are_of(names, *k, *l, a, b) {
            return true;
        }
        if are_of(names, *k, *l, b, a) {
            return true;
        }
    }
    false
}

// Whether two nodes are kept apart.
pub(crate) fn are_apart(state: &State, i: usize, j: usize) -> bool
    requires naming { IsNaming state.now }
    requires left { i < length state.now.names }
    requires right { j < length state.now.names }
    ensures { IsTrue result → is_apart state.now i j ≡ true }
{
    let names = state.names.as_slice();
    keeps_apart(names, state.apart.as_slice(), names[i], names[j])
}

// Whether the class of node k is kept apart from f's identity.
pub(crate) fn is_apart_from_unit(
    sig: &Signature,
    table: &Table,
    state: &State,
    sorted: bool,
    f: OpId,
    k: usize,
) -> bool
    requires closed { IsClosed sig.now table.now state.now }
    requires sums { HasSums sig.now table.now }
    requires within { k < length table.now.nodes }
    ensures { IsTrue result → HasSummand sig.now table.now state.now sorted f k }
{
    let _sig = sig;
    let _sorted = sorted;
    match unit_of(table, f) {
        None => false,
        Some(n) => are_apart(state, k, n),
    }
}

// Whether the class of node k is marked, and sorts are heeded.
fn is_marked(state: &State, known: &Known, marks: &[bool], k: usize) -> bool
    requires within { k < length state.now.names }
    requires marks { class_of state.now k < length marks.now }
    ensures { IsTrue result → IsMarked known.now.sorted marks.now (class_of state.now k) }
{
    if !known.sorted {
        return false;
    }
    marks[state.class_of(k)]
}

// Whether the class of node k is headed by another operator: its value is one summand.
pub(crate) fn is_headed(
    sig: &Signature,
    table: &Table,
    state: &State,
    known: &Known,
    f: OpId,
    k: usize,
) -> bool
    requires closed { IsClosed sig.now table.now state.now }
    requires sums { HasSums sig.now table.now }
    requires heads { TellHeads sig.now table.now state.now known.now.sorted known.now.heads.items }
    requires within { k < length table.now.nodes }
    ensures { IsTrue result → IsSummand sig.now table.now state.now known.now.sorted f k }
{
    let _table = table;
    is_headed_apart(sig, state, known.heads.as_slice(), f, k)
}

// Whether the value of the class of node k has a summand for sure.
pub(crate) fn has_summand(
    sig: &Signature,
    table: &Table,
    state: &State,
    known: &Known,
    addition: &Addition,
    k: usize,
) -> bool
    requires closed { IsClosed sig.now table.now state.now }
    requires sums { HasSums sig.now table.now }
    requires heads { TellHeads sig.now table.now state.now known.now.sorted known.now.heads.items }
    requires addition { IsAddition sig.now table.now state.now addition.now }
    requires within { k < length table.now.nodes }
    ensures { IsTrue result → HasSummand sig.now table.now state.now known.now.sorted
        addition.now.operator k }
{
    if has_no_identity(sig.axioms(addition.operator)) {
        return true;
    }
    if is_headed(sig, table, state, known, addition.operator, k) {
        return true;
    }
    if is_marked(state, known, addition.other.as_slice(), k) {
        return true;
    }
    if is_apart_from_unit(sig, table, state, known.sorted, addition.operator, k) {
        return true;
    }
    if is_summed(sig, table, state, known, addition.operator, k) {
        return true;
    }
    is_possibly_headed(sig, table, state, known, addition.operator, k)
}

// Whether the value of the class of node k has one summand at most.
pub(crate) fn has_few_summands(
    sig: &Signature,
    table: &Table,
    state: &State,
    known: &Known,
    addition: &Addition,
    k: usize,
) -> bool
    requires closed { IsClosed sig.now table.now state.now }
    requires sums { HasSums sig.now table.now }
    requires heads { TellHeads sig.now table.now state.now known.now.sorted known.now.heads.items }
    requires addition { IsAddition sig.now table.now state.now addition.now }
    requires within { k < length table.now.nodes }
    ensures { IsTrue result → HasFewSummands sig.now table.now state.now known.now.sorted
        addition.now.operator k }
{
    if is_headed(sig, table, state, known, addition.operator, k) {
        return true;
    }
    if is_marked(state, known, addition.narrow.as_slice(), k) {
        return true;
    }
    is_possibly_headed(sig, table, state, known, addition.operator, k)
}

// Whether the value of the class of node k is one summand.
pub(crate) fn is_summand(
    sig: &Signature,
    table: &Table,
    state: &State,
    known: &Known,
    addition: &Addition,
    k: usize,
) -> bool
    requires closed { IsClosed sig.now table.now state.now }
    requires sums { HasSums sig.now table.now }
    requires heads { TellHeads sig.now table.now state.now known.now.sorted known.now.heads.items }
    requires addition { IsAddition sig.now table.now state.now addition.now }
    requires within { k < length table.now.nodes }
    ensures { IsTrue result → IsSummand sig.now table.now state.now known.now.sorted
        addition.now.operator k }
{
    if !has_summand(sig, table, state, known, addition, k) {
        return false;
    }
    has_few_summands(sig, table, state, known, addition, k)
}

// Whether the values of all these classes have one summand each at most.
pub(crate) fn have_few_summands(
    sig: &Signature,
    table: &Table,
    state: &State,
    known: &Known,
    addition: &Addition,
    list: &[usize],
) -> bool
    requires closed { IsClosed sig.now table.now state.now }
    requires sums { HasSums sig.now table.now }
    requires heads { TellHeads sig.now table.now state.now known.now.sorted known.now.heads.items }
    requires addition { IsAddition sig.now table.now state.now addition.now }
    requires within { All (λ k. k < length table.now.nodes) list.now }
    ensures { IsTrue result → All (HasFewSummands sig.now table.now state.now known.now.sorted
        addition.now.operator) list.now }
{
    for k in list {
        if !has_few_summands(sig, table, state, known, addition, *k) {
            return false;
        }
    }
    true
}

// How many of these classes have a summand for sure.
pub(crate) fn count_summands(
    sig: &Signature,
    table: &Table,
    state: &State,
    known: &Known,
    addition: &Addition,
    list: &[usize],
) -> usize
    requires closed { IsClosed sig.now table.now state.now }
    requires sums { HasSums sig.now table.now }
    requires heads { TellHeads sig.now table.now state.now known.now.sorted known.now.heads.items }
    requires addition { IsAddition sig.now table.now state.now addition.now }
    requires within { All (λ k. k < length table.now.nodes) list.now }
    ensures { (values : ℕ → FlatTerm) → GoWithSorts sig.now table.now state.now known.now.sorted
        values
        → result ≤ sum_by (many sig.now state.now addition.now.operator values) list.now }
{
    let mut count = 0;
    for k in list {
        if !has_summand(sig, table, state, known, addition, *k) {
            continue;
        }
        count += 1;
    }
    count
}
