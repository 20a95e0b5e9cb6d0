//! Whether a class is loose by guessed heights and sums.
ghost use Rattle.std.specs.Prelude.{◌≡◌, ◌<◌, ◌∷◌, [], ℕ, length, slice_index_or, None, All, IsTrue};
ghost use Rattle.fvn_terms.specs.Signature.{axioms};
ghost use Rattle.fvn_terms.specs.Equality.{IsAssociative};
ghost use Rattle.fvn_combine_nodes.specs.States.{IsClosed, class_of};
ghost use Rattle.fvn_combine_inferring.specs.Rows.{HoldsSummands, IsHeld};
ghost use Rattle.fvn_combine_loose.specs.Loose.{height_of, Bears, IsBearing, IsHeaded, IsLoose};
ghost use Rattle.fvn_combine_loose.specs.inner.Checks.{
  IsKept,
  TakesSums,
  VariableTakesSums,
  IsFilled,
  IsAdding,
  IsPart,
  IsAdded,
  IsPut,
  AreFacts,
  IsMarked,
};
ghost use Rattle.fvn_combine_loose.specs.inner.NodeSorts.{HaveSorts};

use crate::checking::{
    are_of_sort, are_raised, head_at, height_at, is_absent, is_idle, is_marked, is_open_node,
};
use crate::sum_sorts::is_sum_sort;
use fvn_combine_nodes::{Node, State, Table};
use fvn_signature::Signature;
use fvn_terms::{OpId, SortId};

/// What is known of a state's nodes before its classes are looked at one by one.
#[derive(Clone, Copy)]
pub(crate) struct Facts<'a> {
    /// Whether the sorts of variables are heeded.
    pub(crate) sorted: bool,
    /// A sort of each node, where one is known.
    pub(crate) sorts: &'a [Option<SortId>],
    /// For each class a node that may head it.
    pub(crate) heads: &'a [Option<usize>],
    /// Which nodes are fine.
    pub(crate) fine: &'a [bool],
    /// Which nodes are no variables, or have what operators head in their classes of their sorts.
    pub(crate) kept: &'a [bool],
    /// An operator and two nodes: the value of the second one's class has all summands of that of the first one's.
    pub(crate) held: &'a [(OpId, usize, usize)],
}

/// A node whose class may be loose, with guessed heights of classes, and for each class the operator and the node that it is
/// guessed to be a sum over.
#[derive(Drop)]
pub(crate) struct Draft {
    pub(crate) bottom: usize,
    pub(crate) heights: Vec<usize>,
    pub(crate) sums: Vec<Option<(OpId, usize)>>,
    /// Which classes are made in one way alone.
    pub(crate) made: Vec<bool>,
}

// What is noted of the class of node i.
pub(crate) fn sum_at(
    state: &State,
    sums: &[Option<(OpId, usize)>],
    i: usize,
) -> Option<(OpId, usize)>
    requires { i < length state.now.names }
    ensures { result ≡ slice_index_or sums.now (class_of state.now i) None }
{
    match sums.get(state.class_of(i)) {
        None => None,
        Some(sum) => *sum,
    }
}

// Whether the two are one.
fn is_one_sum(one: (OpId, usize), other: (OpId, usize)) -> bool
    ensures { IsTrue result → one ≡ other }
{
    if one.0 != other.0 {
        return false;
    }
    one.1 == other.1
}

// Whether node k is in the class of the summand, or its class is noted as a sum over it.
fn bears(
    state: &State,
    heights: &[usize],
    sums: &[Option<(OpId, usize)>],
    sum: (OpId, usize),
    k: usize,
) -> bool
    requires part { sum.1 < length state.now.names }
    requires within { k < length state.now.names }
    ensures { IsTrue result → Bears state.now heights.now sums.now sum.0 sum.1 k }
{
    let _heights = heights;
    if state.class_of(k) == state.class_of(sum.1) {
        return true;
    }
    match sum_at(state, sums, k) {
        None => false,
        Some(noted) => is_one_sum(noted, sum),
    }
}

// Whether node k bears the summand, and the loose class does not stand in node l.
fn bears_alone(
    state: &State,
    heights: &[usize],
    sums: &[Option<(OpId, usize)>],
    sum: (OpId, usize),
    k: usize,
    l: usize,
) -> bool
    requires part { sum.1 < length state.now.names }
    requires within { k < length state.now.names }
    requires other { l < length state.now.names }
    ensures { IsTrue result → Bears state.now heights.now sums.now sum.0 sum.1 k
        × (height_of state.now heights.now l ≡ 0) }
{
    if height_at(state, heights, l) != 0 {
        return false;
    }
    bears(state, heights, sums, sum, k)
}

// Whether these are two nodes, one of which bears the summand, and the loose class does not stand in the other.
fn is_bearing(
    state: &State,
    heights: &[usize],
    sums: &[Option<(OpId, usize)>],
    sum: (OpId, usize),
    ks: &[usize],
) -> bool
    requires part { sum.1 < length state.now.names }
    requires all { All (λ k. k < length state.now.names) ks.now }
    ensures { IsTrue result → IsBearing state.now heights.now sums.now sum.0 sum.1 ks.now }
{
    if ks.len() != 2 {
        return false;
    }
    if bears_alone(state, heights, sums, sum, ks[0], ks[1]) {
        return true;
    }
    bears_alone(state, heights, sums, sum, ks[1], ks[0])
}

// Whether g is the sum's operator, and the nodes are such.
fn is_sum_bearing(
    state: &State,
    heights: &[usize],
    sums: &[Option<(OpId, usize)>],
    sum: (OpId, usize),
    g: OpId,
    ks: &[usize],
) -> bool
    requires part { sum.1 < length state.now.names }
    requires all { All (λ k. k < length state.now.names) ks.now }
    ensures { IsTrue result → (g ≡ sum.0)
        × IsBearing state.now heights.now sums.now sum.0 sum.1 ks.now }
{
    if g != sum.0 {
        return false;
    }
    is_bearing(state, heights, sums, sum, ks)
}

// Whether node i is a variable, or idle, or adds what bears the summand to what the loose class does not stand in.
fn is_adding(
    sig: &Signature,
    table: &Table,
    state: &State,
    facts: &Facts<'_>,
    draft: &Draft,
    sum: (OpId, usize),
    i: usize,
) -> bool
    requires whole { length state.now.names ≡ length table.now.nodes }
    requires part { sum.1 < length table.now.nodes }
    requires within { i < length table.now.nodes }
    ensures { IsTrue result → IsAdding sig.now table.now state.now facts.now.sorted
        draft.now.heights.items draft.now.sums.items sum.0 sum.1 i }
{
    let _sig = sig;
    let _facts = facts;
    let heights = draft.heights.as_slice();
    let sums = draft.sums.as_slice();
    table.recall_well_made();
    match table.node(i) {
        Node::Var(_) => true,
        Node::App(g, ks) => {
            if is_sum_bearing(state, heights, sums, sum, *g, ks.as_slice()) {
                return true;
            }
            is_idle(table, state, i, *g, ks.as_slice())
        }
    }
}

// Whether the operator is one of sums, and the loose class stands in the class of its summand, which is lower than that of node i.
fn is_part(
    sig: &Signature,
    table: &Table,
    state: &State,
    facts: &Facts<'_>,
    draft: &Draft,
    sum: (OpId, usize),
    i: usize,
) -> bool
    requires whole { length state.now.names ≡ length table.now.nodes }
    requires within { i < length table.now.nodes }
    ensures { IsTrue result → IsPart sig.now table.now state.now facts.now.sorted
        draft.now.heights.items draft.now.sums.items sum.0 sum.1 i }
{
    let _facts = facts;
    if !sig.axioms(sum.0).is_sum() {
        return false;
    }
    if sum.1 >= table.nodes().len() {
        return false;
    }
    let low = height_at(state, draft.heights.as_slice(), sum.1);
    if low == 0 {
        return false;
    }
    low < height_at(state, draft.heights.as_slice(), i)
}

// Whether an operator heads node m, which is in the class of node i, over nodes of other classes.
fn heads_class(
    sig: &Signature,
    table: &Table,
    state: &State,
    facts: &Facts<'_>,
    m: usize,
    i: usize,
) -> bool
    requires whole { length state.now.names ≡ length table.now.nodes }
    requires within { i < length table.now.nodes }
    ensures { IsTrue result → IsHeaded sig.now table.now state.now facts.now.sorted i }
{
    let _sig = sig;
    let _facts = facts;
    table.recall_well_made();
    if m >= table.nodes().len() {
        return false;
    }
    if state.class_of(m) != state.class_of(i) {
        return false;
    }
    match table.node(m) {
        Node::Var(_) => false,
        Node::App(_, ks) => is_absent(state, ks.as_slice(), state.class_of(i)),
    }
}

// Whether an operator is known to head the class of node i.
fn is_headed(sig: &Signature, table: &Table, state: &State, facts: &Facts<'_>, i: usize) -> bool
    requires whole { length state.now.names ≡ length table.now.nodes }
    requires within { i < length table.now.nodes }
    ensures { IsTrue result → IsHeaded sig.now table.now state.now facts.now.sorted i }
{
    match head_at(state, facts.heads, i) {
        None => false,
        Some(m) => heads_class(sig, table, state, facts, m, i),
    }
}

// Whether it says that the class of node i has the summands of that of the sum's part.
fn is_held_by(
    sig: &Signature,
    table: &Table,
    state: &State,
    facts: &Facts<'_>,
    held: (OpId, usize, usize),
    sum: (OpId, usize),
    i: usize,
) -> bool
    requires whole { length state.now.names ≡ length table.now.nodes }
    requires held { IsHeld sig.now table.now state.now facts.now.sorted held }
    requires part { sum.1 < length table.now.nodes }
    requires within { i < length table.now.nodes }
    ensures { IsTrue result
        → HoldsSummands sig.now table.now state.now facts.now.sorted sum.0 sum.1 i }
{
    let _sig = sig;
    let _table = table;
    let _facts = facts;
    if held.0 != sum.0 {
        return false;
    }
    if state.class_of(held.1) != state.class_of(sum.1) {
        return false;
    }
    state.class_of(held.2) == state.class_of(i)
}

// Whether the class of node i is known to have the summands of that of the sum's part.
fn is_held(
    sig: &Signature,
    table: &Table,
    state: &State,
    facts: &Facts<'_>,
    sum: (OpId, usize),
    i: usize,
) -> bool
    requires whole { length state.now.names ≡ length table.now.nodes }
    requires held { All (IsHeld sig.now table.now state.now facts.now.sorted) facts.now.held.now }
    requires part { sum.1 < length table.now.nodes }
    requires within { i < length table.now.nodes }
    ensures { IsTrue result
        → HoldsSummands sig.now table.now state.now facts.now.sorted sum.0 sum.1 i }
{
    for held in facts.held {
        if is_held_by(sig, table, state, facts, *held, sum, i) {
            return true;
        }
    }
    false
}

// Whether terms of the sort are sums of such terms alone, and an operator heads the class of the sum's part, in which all have it.
fn takes_sums(
    sig: &Signature,
    table: &Table,
    state: &State,
    facts: &Facts<'_>,
    sum: (OpId, usize),
    sort: SortId,
) -> bool
    requires whole { length state.now.names ≡ length table.now.nodes }
    requires sorts { HaveSorts sig.now table.now.nodes facts.now.sorts.now }
    requires associative { IsAssociative (axioms sig.now sum.0) }
    requires part { sum.1 < length table.now.nodes }
    ensures { IsTrue result
        → TakesSums sig.now table.now state.now facts.now.sorted sum.0 sum.1 sort }
{
    if !is_headed(sig, table, state, facts, sum.1) {
        return false;
    }
    if !is_sum_sort(sig, sum.0, sort) {
        return false;
    }
    are_of_sort(sig, table, state, facts.sorts, sum.1, sort)
}

// Whether node i is no variable, or one of such a sort.
fn variable_takes_sums(
    sig: &Signature,
    table: &Table,
    state: &State,
    facts: &Facts<'_>,
    sum: (OpId, usize),
    i: usize,
) -> bool
    requires whole { length state.now.names ≡ length table.now.nodes }
    requires sorts { HaveSorts sig.now table.now.nodes facts.now.sorts.now }
    requires associative { IsAssociative (axioms sig.now sum.0) }
    requires part { sum.1 < length table.now.nodes }
    requires within { i < length table.now.nodes }
    ensures { IsTrue result
        → VariableTakesSums sig.now table.now state.now facts.now.sorted sum.0 sum.1 i }
{
    match table.node(i) {
        Node::Var(x) => takes_sums(sig, table, state, facts, sum, x.sort),
        Node::App(_, _) => true,
    }
}

// Whether an operator heads the class of node i, or it is known to have the part's summands, and may have any others.
fn is_filled(
    sig: &Signature,
    table: &Table,
    state: &State,
    facts: &Facts<'_>,
    sum: (OpId, usize),
    i: usize,
) -> bool
    requires whole { length state.now.names ≡ length table.now.nodes }
    requires sorts { HaveSorts sig.now table.now.nodes facts.now.sorts.now }
    requires held { All (IsHeld sig.now table.now state.now facts.now.sorted) facts.now.held.now }
    requires associative { IsAssociative (axioms sig.now sum.0) }
    requires part { sum.1 < length table.now.nodes }
    requires within { i < length table.now.nodes }
    ensures { IsTrue result
        → IsFilled sig.now table.now state.now facts.now.sorted sum.0 sum.1 i }
{
    if is_headed(sig, table, state, facts, i) {
        return true;
    }
    if !is_held(sig, table, state, facts, sum, i) {
        return false;
    }
    variable_takes_sums(sig, table, state, facts, sum, i)
}

// Whether node i is what it must be where its class is noted as a sum.
fn is_added(
    sig: &Signature,
    table: &Table,
    state: &State,
    facts: &Facts<'_>,
    draft: &Draft,
    sum: (OpId, usize),
    i: usize,
) -> bool
    requires whole { length state.now.names ≡ length table.now.nodes }
    requires sorts { HaveSorts sig.now table.now.nodes facts.now.sorts.now }
    requires facts { AreFacts sig.now table.now state.now facts.now.sorted
        facts.now.fine.now facts.now.kept.now facts.now.held.now }
    requires within { i < length table.now.nodes }
    ensures { IsTrue result → IsAdded sig.now table.now state.now facts.now.sorted
        draft.now.heights.items draft.now.sums.items sum.0 sum.1 i }
{
    if !is_part(sig, table, state, facts, draft, sum, i) {
        return false;
    }
    if !is_adding(sig, table, state, facts, draft, sum, i) {
        return false;
    }
    if !is_marked(facts.kept, i) {
        return false;
    }
    is_filled(sig, table, state, facts, sum, i)
}

// Whether the loose class does not stand in the class of node i, or the node is marked.
fn is_made(state: &State, marks: &[bool], heights: &[usize], i: usize) -> bool
    requires { i < length state.now.names }
    ensures { IsTrue result → 0 < height_of state.now heights.now i → IsMarked marks.now i }
{
    if height_at(state, heights, i) == 0 {
        return true;
    }
    is_marked(marks, i)
}

// Whether node i is what it must be where the draft's class is loose.
fn is_put(
    sig: &Signature,
    table: &Table,
    state: &State,
    facts: &Facts<'_>,
    draft: &Draft,
    i: usize,
) -> bool
    requires whole { length state.now.names ≡ length table.now.nodes }
    requires sorts { HaveSorts sig.now table.now.nodes facts.now.sorts.now }
    requires facts { AreFacts sig.now table.now state.now facts.now.sorted
        facts.now.fine.now facts.now.kept.now facts.now.held.now }
    requires bottom { draft.now.bottom < length table.now.nodes }
    requires within { i < length table.now.nodes }
    ensures { IsTrue result → IsPut sig.now table.now state.now facts.now.sorted
        draft.now.heights.items draft.now.sums.items facts.now.fine.now draft.now.bottom i }
{
    let heights = draft.heights.as_slice();
    if !are_raised(table, state, heights, i) {
        return false;
    }
    if state.class_of(i) == state.class_of(draft.bottom) {
        return is_open_node(table, state, i);
    }
    match sum_at(state, draft.sums.as_slice(), i) {
        None => is_made(state, facts.fine, heights, i),
        Some(sum) => is_added(sig, table, state, facts, draft, sum, i),
    }
}

// The same of all nodes.
fn are_put(sig: &Signature, table: &Table, state: &State, facts: &Facts<'_>, draft: &Draft) -> bool
    requires whole { length state.now.names ≡ length table.now.nodes }
    requires sorts { HaveSorts sig.now table.now.nodes facts.now.sorts.now }
    requires facts { AreFacts sig.now table.now state.now facts.now.sorted
        facts.now.fine.now facts.now.kept.now facts.now.held.now }
    requires bottom { draft.now.bottom < length table.now.nodes }
    ensures { IsTrue result → (i : ℕ) → i < length table.now.nodes
        → IsPut sig.now table.now state.now facts.now.sorted draft.now.heights.items
        draft.now.sums.items facts.now.fine.now draft.now.bottom i }
{
    for i in 0..table.nodes().len() {
        if !is_put(sig, table, state, facts, draft, i) {
            return false;
        }
    }
    true
}

// Whether the draft's class is loose, by its heights and sums.
pub(crate) fn is_loose_by_sums(
    sig: &Signature,
    table: &Table,
    state: &State,
    facts: &Facts<'_>,
    draft: &Draft,
) -> bool
    requires closed { IsClosed sig.now table.now state.now }
    requires sorts { HaveSorts sig.now table.now.nodes facts.now.sorts.now }
    requires facts { AreFacts sig.now table.now state.now facts.now.sorted
        facts.now.fine.now facts.now.kept.now facts.now.held.now }
    requires bottom { draft.now.bottom < length table.now.nodes }
    ensures { IsTrue result → IsLoose sig.now table.now state.now facts.now.sorted
        draft.now.bottom draft.now.heights.items draft.now.sums.items }
{
    if height_at(state, draft.heights.as_slice(), draft.bottom) == 0 {
        return false;
    }
    match sum_at(state, draft.sums.as_slice(), draft.bottom) {
        Some(_) => false,
        None => are_put(sig, table, state, facts, draft),
    }
}
