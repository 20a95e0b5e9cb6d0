//! Whether guessed heights are those of the classes in which a loose class stands.
ghost use Rattle.std.specs.Prelude.{◌≡◌, ◌≢◌, ◌⊎◌, ℕ, ◌<◌, Bool, [], ◌∷◌, length, map, slice_index_or, None, All, IsTrue, IfOk};
ghost use Rattle.fvn_combine_nodes.specs.Classes.{AreTogether};
ghost use Rattle.fvn_combine_nodes.specs.States.{IsClosed, class_of};
ghost use Rattle.fvn_combine_loose.specs.Loose.{height_of, IsRaised, IsIdle, AreOf, AreCrosswise, AreMadeAlike, IsLoose};
ghost use Rattle.fvn_combine_loose.specs.inner.Checks.{IsHighest, AreRaised, IsOpenNode, AreOver, IsLike, IsNoted, IsMarked, IsBuilt, AreOfSort, IsOfSort, IsKept, EachIsKept, IsFine, AreFine};
ghost use Rattle.fvn_combine_loose.specs.inner.NodeSorts.{HaveSorts};

use crate::sorts::has_sort;
use fvn_combine_nodes::{Node, State, Table};
use fvn_signature::Signature;
use fvn_terms::{NoMemory, OpId, SortId};
use std::alloc::Global;

// The height of the class of node i.
pub(crate) fn height_at(state: &State, heights: &[usize], i: usize) -> usize
    requires { i < length state.now.names }
    ensures { result ≡ height_of state.now heights.now i }
{
    match heights.get(state.class_of(i)) {
        None => 0,
        Some(height) => *height,
    }
}

// The node that is noted to head the class of node i.
pub(crate) fn head_at(state: &State, heads: &[Option<usize>], i: usize) -> Option<usize>
    requires { i < length state.now.names }
    ensures { result ≡ slice_index_or heads.now (class_of state.now i) None }
{
    match heads.get(state.class_of(i)) {
        None => None,
        Some(head) => *head,
    }
}

// The greatest height of the classes of these nodes.
pub(crate) fn highest(state: &State, heights: &[usize], ks: &[usize]) -> usize
    requires { All (λ k. k < length state.now.names) ks.now }
    ensures { IsHighest state.now heights.now ks.now result }
{
    let mut high = 0;
    for k in ks {
        high = high.max(height_at(state, heights, *k));
    }
    high
}

// Whether these are two nodes, the first one of class a and the second one of class b.
fn are_of(state: &State, ks: &[usize], a: usize, b: usize) -> bool
    requires { All (λ k. k < length state.now.names) ks.now }
    ensures { IsTrue result → map (class_of state.now) ks.now ≡ a ∷ b ∷ [] }
{
    if ks.len() != 2 {
        return false;
    }
    if state.class_of(ks[0]) != a {
        return false;
    }
    state.class_of(ks[1]) == b
}

// Whether these are two nodes, one in the class of node i and the other in that of node u.
fn are_beside(state: &State, ks: &[usize], i: usize, u: usize) -> bool
    requires all { All (λ k. k < length state.now.names) ks.now }
    requires own { i < length state.now.names }
    requires other { u < length state.now.names }
    ensures { IsTrue result
        → AreOf (class_of state.now) ks.now (class_of state.now i) (class_of state.now u) }
{
    let own = state.class_of(i);
    let other = state.class_of(u);
    if are_of(state, ks, own, other) {
        return true;
    }
    are_of(state, ks, other, own)
}

// Whether node i, which is f over the nodes ks, has the value of its class whatever that is: one of these is in the class of f's
// identity, and the other one in that of node i.
pub(crate) fn is_idle(table: &Table, state: &State, i: usize, f: OpId, ks: &[usize]) -> bool
    requires whole { length state.now.names ≡ length table.now.nodes }
    requires within { i < length table.now.nodes }
    requires all { All (λ k. k < length state.now.names) ks.now }
    ensures { IsTrue result → IsIdle table.now state.now i f ks.now }
{
    table.recall_well_made();
    for (g, u) in table.units() {
        if *g != f {
            continue;
        }
        if are_beside(state, ks, i, *u) {
            return true;
        }
    }
    false
}

// Whether none of the nodes is in this class.
pub(crate) fn is_absent(state: &State, ks: &[usize], class: usize) -> bool
    requires { All (λ k. k < length state.now.names) ks.now }
    ensures { IsTrue result → All (λ k. class_of state.now k ≢ class) ks.now }
{
    for p in 0..ks.len() {
        if state.class_of(ks[p]) == class {
            return false;
        }
    }
    true
}

// Whether the class of node i is above those of the nodes ks in which the bottom stands, and it stands in none of them
// where it does not stand in it.
fn is_raised(state: &State, heights: &[usize], i: usize, ks: &[usize]) -> bool
    requires within { i < length state.now.names }
    requires all { All (λ k. k < length state.now.names) ks.now }
    ensures { IsTrue result → IsRaised state.now heights.now i ks.now }
{
    let high = highest(state, heights, ks);
    let own = height_at(state, heights, i);
    if high == 0 {
        return own == 0;
    }
    high < own
}

// The same, or whether node i, which is f over the nodes ks, is idle.
fn is_idle_or_raised(
    table: &Table,
    state: &State,
    heights: &[usize],
    i: usize,
    f: OpId,
    ks: &[usize],
) -> bool
    requires whole { length state.now.names ≡ length table.now.nodes }
    requires within { i < length table.now.nodes }
    requires all { All (λ k. k < length state.now.names) ks.now }
    ensures { IsTrue result
        → IsIdle table.now state.now i f ks.now ⊎ IsRaised state.now heights.now i ks.now }
{
    if is_raised(state, heights, i, ks) {
        return true;
    }
    is_idle(table, state, i, f, ks)
}

// The same of node i and its arguments.
pub(crate) fn are_raised(table: &Table, state: &State, heights: &[usize], i: usize) -> bool
    requires whole { length state.now.names ≡ length table.now.nodes }
    requires within { i < length table.now.nodes }
    ensures { IsTrue result → AreRaised table.now state.now heights.now i }
{
    table.recall_well_made();
    match table.node(i) {
        Node::Var(_) => true,
        Node::App(f, ks) => is_idle_or_raised(table, state, heights, i, *f, ks.as_slice()),
    }
}

// Whether node i is a variable, or idle.
pub(crate) fn is_open_node(table: &Table, state: &State, i: usize) -> bool
    requires whole { length state.now.names ≡ length table.now.nodes }
    requires within { i < length table.now.nodes }
    ensures { IsTrue result → IsOpenNode table.now state.now i }
{
    table.recall_well_made();
    match table.node(i) {
        Node::Var(_) => true,
        Node::App(f, ks) => is_idle(table, state, i, *f, ks.as_slice()),
    }
}

// Whether the nodes of two lists are in one class place by place.
fn are_together(state: &State, ks: &[usize], ls: &[usize]) -> bool
    requires left { All (λ k. k < length state.now.names) ks.now }
    requires right { All (λ k. k < length state.now.names) ls.now }
    ensures { IsTrue result → AreTogether (class_of state.now) ks.now ls.now }
{
    if ks.len() != ls.len() {
        return false;
    }
    for i in 0..ks.len() {
        if state.class_of(ks[i]) != state.class_of(ls[i]) {
            return false;
        }
    }
    true
}

// Whether the lists are of two nodes each, and those of one are in the classes of those of the other crosswise.
fn are_crosswise(state: &State, ks: &[usize], ls: &[usize]) -> bool
    requires left { All (λ k. k < length state.now.names) ks.now }
    requires right { All (λ k. k < length state.now.names) ls.now }
    ensures { IsTrue result → AreCrosswise (class_of state.now) ks.now ls.now }
{
    if ks.len() != 2 {
        return false;
    }
    if ls.len() != 2 {
        return false;
    }
    if state.class_of(ks[0]) != state.class_of(ls[1]) {
        return false;
    }
    state.class_of(ks[1]) == state.class_of(ls[0])
}

// Whether arguments of an operator are in the same classes place by place, or crosswise where it is commutative.
fn are_made_alike(sig: &Signature, state: &State, f: OpId, ks: &[usize], ls: &[usize]) -> bool
    requires left { All (λ k. k < length state.now.names) ks.now }
    requires right { All (λ k. k < length state.now.names) ls.now }
    ensures { IsTrue result → AreMadeAlike sig.now (class_of state.now) f ks.now ls.now }
{
    if are_together(state, ks, ls) {
        return true;
    }
    if !sig.axioms(f).is_commutative() {
        return false;
    }
    are_crosswise(state, ks, ls)
}

// Whether the operators f and g are one, and the nodes ks are made alike the nodes ls.
fn is_one_over(sig: &Signature, state: &State, f: OpId, ks: &[usize], g: OpId, ls: &[usize]) -> bool
    requires left { All (λ k. k < length state.now.names) ks.now }
    requires right { All (λ k. k < length state.now.names) ls.now }
    ensures { IsTrue result → (f ≡ g) × AreMadeAlike sig.now (class_of state.now) f ks.now ls.now }
{
    if f != g {
        return false;
    }
    are_made_alike(sig, state, f, ks, ls)
}

// Whether node i is a variable, or idle, or this operator over arguments that are made alike these nodes.
fn is_over(sig: &Signature, table: &Table, state: &State, i: usize, g: OpId, ls: &[usize]) -> bool
    requires whole { length state.now.names ≡ length table.now.nodes }
    requires within { i < length table.now.nodes }
    requires all { All (λ k. k < length table.now.nodes) ls.now }
    ensures { IsTrue result → AreOver sig.now table.now state.now i g ls.now }
{
    table.recall_well_made();
    match table.node(i) {
        Node::Var(_) => true,
        Node::App(f, ks) => {
            if is_one_over(sig, state, *f, ks.as_slice(), g, ls) {
                return true;
            }
            is_idle(table, state, i, *f, ks.as_slice())
        }
    }
}

// Whether an operator heads node m, which is in the class of node i, over nodes of other classes, and node i is a variable, or
// idle, or is it over arguments that are made alike.
pub(crate) fn is_like(sig: &Signature, table: &Table, state: &State, m: usize, i: usize) -> bool
    requires whole { length state.now.names ≡ length table.now.nodes }
    requires within { i < length table.now.nodes }
    ensures { IsTrue result → IsLike sig.now table.now state.now m i }
{
    table.recall_well_made();
    if m >= table.nodes().len() {
        return false;
    }
    if state.class_of(m) != state.class_of(i) {
        return false;
    }
    match table.node(m) {
        Node::Var(_) => false,
        Node::App(g, ls) => {
            if !is_absent(state, ls.as_slice(), state.class_of(i)) {
                return false;
            }
            is_over(sig, table, state, i, *g, ls.as_slice())
        }
    }
}

// Whether node i is like the node that is noted to head its class.
fn is_noted(
    sig: &Signature,
    table: &Table,
    state: &State,
    heads: &[Option<usize>],
    i: usize,
) -> bool
    requires whole { length state.now.names ≡ length table.now.nodes }
    requires within { i < length table.now.nodes }
    ensures { IsTrue result → IsNoted sig.now table.now state.now heads.now i }
{
    match head_at(state, heads, i) {
        None => false,
        Some(m) => is_like(sig, table, state, m, i),
    }
}

// Whether node j is in another class than node i, or a variable, or idle, or is known to have the sort.
fn is_of_sort(
    sig: &Signature,
    table: &Table,
    state: &State,
    sorts: &[Option<SortId>],
    i: usize,
    sort: SortId,
    j: usize,
) -> bool
    requires whole { length state.now.names ≡ length table.now.nodes }
    requires sorts { HaveSorts sig.now table.now.nodes sorts.now }
    requires within { i < length table.now.nodes }
    requires other { j < length table.now.nodes }
    ensures { IsTrue result → IsOfSort sig.now table.now state.now i sort j }
{
    if state.class_of(i) != state.class_of(j) {
        return true;
    }
    if is_open_node(table, state, j) {
        return true;
    }
    has_sort(sig, table, sorts, j, sort)
}

// Whether all that operators head in the class of node i are known to have the sort, but idle ones.
pub(crate) fn are_of_sort(
    sig: &Signature,
    table: &Table,
    state: &State,
    sorts: &[Option<SortId>],
    i: usize,
    sort: SortId,
) -> bool
    requires whole { length state.now.names ≡ length table.now.nodes }
    requires sorts { HaveSorts sig.now table.now.nodes sorts.now }
    requires within { i < length table.now.nodes }
    ensures { IsTrue result → AreOfSort sig.now table.now state.now i sort }
{
    for j in 0..table.nodes().len() {
        if !is_of_sort(sig, table, state, sorts, i, sort, j) {
            return false;
        }
    }
    true
}

// Whether node i is no variable, or what operators head in its class is known to have its sort.
fn is_kept(
    sig: &Signature,
    table: &Table,
    state: &State,
    sorts: &[Option<SortId>],
    i: usize,
) -> bool
    requires whole { length state.now.names ≡ length table.now.nodes }
    requires sorts { HaveSorts sig.now table.now.nodes sorts.now }
    requires within { i < length table.now.nodes }
    ensures { IsTrue result → IsKept sig.now table.now state.now i }
{
    match table.node(i) {
        Node::Var(x) => are_of_sort(sig, table, state, sorts, i, x.sort),
        Node::App(_, _) => true,
    }
}

// A mark for each node: whether it is so.
pub(crate) fn kept_nodes(
    alloc: Global,
    sig: &Signature,
    table: &Table,
    state: &State,
    sorts: &[Option<SortId>],
) -> Result<Vec<bool>, NoMemory>
    requires whole { length state.now.names ≡ length table.now.nodes }
    requires sorts { HaveSorts sig.now table.now.nodes sorts.now }
    ensures { IfOk result (λ marks. EachIsKept sig.now table.now state.now marks.items) }
{
    let count = table.nodes().len();
    let mut marks = Vec::with_capacity(alloc, count)?;
    for i in 0..count {
        let kept = is_kept(sig, table, state, sorts, i);
        marks.push(kept)?;
    }
    Ok(marks)
}

// Whether node i is like the node that is noted to head its class, and, where it is a variable, what operators head in its
// class is known to have its sort.
fn is_fine(
    sig: &Signature,
    table: &Table,
    state: &State,
    sorts: &[Option<SortId>],
    heads: &[Option<usize>],
    i: usize,
) -> bool
    requires whole { length state.now.names ≡ length table.now.nodes }
    requires sorts { HaveSorts sig.now table.now.nodes sorts.now }
    requires within { i < length table.now.nodes }
    ensures { IsTrue result → IsFine sig.now table.now state.now heads.now i }
{
    if !is_noted(sig, table, state, heads, i) {
        return false;
    }
    match table.node(i) {
        Node::Var(x) => are_of_sort(sig, table, state, sorts, i, x.sort),
        Node::App(_, _) => true,
    }
}

// A mark for each node: whether it is so.
pub(crate) fn fine_nodes(
    alloc: Global,
    sig: &Signature,
    table: &Table,
    state: &State,
    sorts: &[Option<SortId>],
    heads: &[Option<usize>],
) -> Result<Vec<bool>, NoMemory>
    requires whole { length state.now.names ≡ length table.now.nodes }
    requires sorts { HaveSorts sig.now table.now.nodes sorts.now }
    ensures { IfOk result (λ marks. AreFine sig.now table.now state.now marks.items) }
{
    let count = table.nodes().len();
    let mut marks = Vec::with_capacity(alloc, count)?;
    for i in 0..count {
        let fine = is_fine(sig, table, state, sorts, heads, i);
        marks.push(fine)?;
    }
    Ok(marks)
}

// Whether node i is marked.
pub(crate) fn is_marked(marks: &[bool], i: usize) -> bool
    ensures { IsTrue result → IsMarked marks.now i }
{
    match marks.get(i) {
        None => false,
        Some(mark) => *mark,
    }
}

// Whether node i is what it must be where node z's class is loose.
fn is_built_at(
    table: &Table,
    state: &State,
    marks: &[bool],
    heights: &[usize],
    z: usize,
    i: usize,
) -> bool
    requires whole { length state.now.names ≡ length table.now.nodes }
    requires bottom { z < length table.now.nodes }
    requires within { i < length table.now.nodes }
    ensures { IsTrue result → IsBuilt table.now state.now marks.now heights.now z i }
{
    if !are_raised(table, state, heights, i) {
        return false;
    }
    if state.class_of(i) == state.class_of(z) {
        return is_open_node(table, state, i);
    }
    if height_at(state, heights, i) == 0 {
        return true;
    }
    is_marked(marks, i)
}

// The same of all nodes.
fn is_built(table: &Table, state: &State, marks: &[bool], heights: &[usize], z: usize) -> bool
    requires whole { length state.now.names ≡ length table.now.nodes }
    requires bottom { z < length table.now.nodes }
    ensures { IsTrue result → (i : ℕ) → i < length table.now.nodes
        → IsBuilt table.now state.now marks.now heights.now z i }
{
    for i in 0..table.nodes().len() {
        if !is_built_at(table, state, marks, heights, z, i) {
            return false;
        }
    }
    true
}

// Whether node z's class is loose, by these heights.
pub(crate) fn is_loose(
    sig: &Signature,
    table: &Table,
    state: &State,
    marks: &[bool],
    heights: &[usize],
    z: usize,
) -> bool
    requires closed { IsClosed sig.now table.now state.now }
    requires fine { AreFine sig.now table.now state.now marks.now }
    requires bottom { z < length table.now.nodes }
    ensures { IsTrue result → (sorted : Bool)
        → IsLoose sig.now table.now state.now sorted z heights.now [] }
{
    if height_at(state, heights, z) == 0 {
        return false;
    }
    let _sig = sig;
    is_built(table, state, marks, heights, z)
}
