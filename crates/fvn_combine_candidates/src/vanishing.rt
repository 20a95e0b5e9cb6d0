//! Classes whose value may be given the identity of an operator as one summand more.
ghost use Rattle.std.specs.Prelude.{◌≡◌, ◌↔◌, ◌⊎◌, ◌<◌, ℕ, List, true, length, slice_get, slice_index, slice_index_or, All, Contains, IfOk, IsTrue, Some, None};
ghost use Rattle.fvn_terms.specs.declared.plain.OpId.{OpId};
ghost use Rattle.fvn_terms.specs.declared.declarations.Axioms.TheVariants.{Comm};
ghost use Rattle.fvn_flat.specs.SolvedLists.{IsSimple};
ghost use Rattle.fvn_combine_nodes.specs.States.{IsClosed, class_of};
ghost use Rattle.fvn_combine_nodes.specs.declared.table.Node.TheVariants.{App};
ghost use Rattle.fvn_combine_leaves.specs.Leaves.{Uses};
ghost use Rattle.fvn_combine_leaves.specs.Readings.{IsReading};
ghost use Rattle.fvn_combine_complete.specs.Neutral.{Absorbs};
ghost use Rattle.fvn_combine_complete.specs.Vanishing.{TakesIdentity};
ghost use Rattle.fvn_combine_candidates.specs.Turning.{AreOthers};
ghost use Rattle.fvn_combine_candidates.specs.inner.Letting.{RankLets, RanksLet, ArgumentLets, ArgumentsLet, NodeLets, AllLet, AreFixedBelow};

use crate::neutral::{absorbs, is_neutral};
use fvn_combine_admissible::uses;
use fvn_combine_leaves::{Reading, Sums};
use fvn_combine_nodes::{Node, State, Table};
use fvn_signature::Signature;
use fvn_terms::{Axioms, NoMemory, OpId, Rank, SortId};
use std::alloc::Global;

// Whether sums by f with the constant e keep to the sort that is declared at place q, where an argument at place p may stand there.
fn sort_lets(
    sig: &Signature,
    f: OpId,
    e: OpId,
    swaps: bool,
    p: usize,
    q: usize,
    sort: SortId,
) -> bool
    ensures { IsTrue result ↔ ((p ≡ q) ⊎ (swaps ≡ true) → Absorbs sig.now f e sort) }
{
    if swaps {
        return absorbs(sig, f, e, sort);
    }
    if p == q {
        return absorbs(sig, f, e, sort);
    }
    true
}

// Whether they do so wherever the argument may stand under this rank.
fn rank_lets(sig: &Signature, f: OpId, e: OpId, swaps: bool, p: usize, rank: &Rank) -> bool
    ensures { IsTrue result ↔ RankLets (Absorbs sig.now f e) swaps p rank.now }
{
    let sorts = rank.args.as_slice();
    for q in 0..sorts.len() {
        if !sort_lets(sig, f, e, swaps, p, q, sorts[q]) {
            return false;
        }
    }
    true
}

// The same of all these ranks.
fn ranks_let(sig: &Signature, f: OpId, e: OpId, swaps: bool, p: usize, ranks: &[Rank]) -> bool
    ensures { IsTrue result ↔ RanksLet (Absorbs sig.now f e) swaps p ranks.now }
{
    for j in 0..ranks.len() {
        let rank = &ranks[j];
        if !rank_lets(sig, f, e, swaps, p, rank) {
            return false;
        }
    }
    true
}

// Whether the arguments are exchanged, and brackets stay.
fn is_swap(axioms: Axioms) -> bool
    ensures { IsTrue result ↔ (axioms ≡ Comm) }
{
    match axioms {
        Axioms::Free => false,
        Axioms::Comm => true,
        Axioms::AssocComm => false,
        Axioms::AssocCommId(_) => false,
    }
}

// The same of all ranks of g.
fn argument_lets(sig: &Signature, f: OpId, e: OpId, g: OpId, p: usize) -> bool
    ensures { IsTrue result ↔ ArgumentLets sig.now (Absorbs sig.now f e) g p }
{
    let swaps = is_swap(sig.axioms(g));
    match sig.declarations().declared(g) {
        None => true,
        Some(entry) => ranks_let(sig, f, e, swaps, p, entry.ranks.as_slice()),
    }
}

// The same of each argument that is in class k.
fn arguments_let(
    sig: &Signature,
    state: &State,
    f: OpId,
    e: OpId,
    k: usize,
    g: OpId,
    nodes: &[usize],
) -> bool
    requires { All (λ j. j < length state.now.names) nodes.now }
    ensures { IsTrue result
        ↔ ArgumentsLet sig.now (class_of state.now) (Absorbs sig.now f e) k g nodes.now }
{
    for p in 0..nodes.len() {
        if state.class_of(nodes[p]) != k {
            continue;
        }
        if !argument_lets(sig, f, e, g, p) {
            return false;
        }
    }
    true
}

// Whether node i lets class k have the identity e of f as one summand more.
fn node_lets(
    sig: &Signature,
    state: &State,
    f: OpId,
    e: OpId,
    k: usize,
    i: usize,
    node: &Node,
) -> bool
    requires within { i < length state.now.names }
    requires arguments { (g : OpId) (ks : List ℕ) → node.now ≡ App g ks
        → All (λ j. j < length state.now.names) ks }
    ensures { IsTrue result
        ↔ NodeLets sig.now (class_of state.now) (Absorbs sig.now f e) k i node.now }
{
    match node {
        Node::Var(x) => {
            if state.class_of(i) != k {
                return true;
            }
            absorbs(sig, f, e, x.sort)
        }
        Node::App(g, ks) => {
            if sig.axioms(*g).is_sum() {
                return true;
            }
            arguments_let(sig, state, f, e, k, *g, ks.as_slice())
        }
    }
}

// Whether all nodes do.
fn all_let(sig: &Signature, table: &Table, state: &State, f: OpId, e: OpId, k: usize) -> bool
    requires { IsClosed sig.now table.now state.now }
    ensures { IsTrue result
        ↔ AllLet sig.now table.now (class_of state.now) (Absorbs sig.now f e) k }
{
    table.recall_well_made();
    for i in 0..table.nodes().len() {
        let node = table.node(i);
        if !node_lets(sig, state, f, e, k, i, node) {
            return false;
        }
    }
    true
}

// Whether the operator of these sums is f, where it uses class k.
fn is_user_only(
    sig: &Signature,
    table: &Table,
    state: &State,
    reading: &Reading,
    sums: &Sums,
    f: OpId,
    k: usize,
) -> bool
    requires closed { IsClosed sig.now table.now state.now }
    requires reading { IsReading sig.now table.now (class_of state.now) reading.now }
    requires listed { Contains reading.now.sums sums.now }
    ensures { IsTrue result ↔ (Uses sig.now table.now (class_of state.now) sums.now.operator k
        → sums.now.operator ≡ f) }
{
    if sums.operator == f {
        return true;
    }
    !uses(sig, table, state, reading, sums, k)
}

// Whether f alone uses class k.
fn is_alone(
    sig: &Signature,
    table: &Table,
    state: &State,
    reading: &Reading,
    f: OpId,
    k: usize,
) -> bool
    requires closed { IsClosed sig.now table.now state.now }
    requires reading { IsReading sig.now table.now (class_of state.now) reading.now }
    ensures { IsTrue result ↔ ((g : OpId) → Uses sig.now table.now (class_of state.now) g k → g ≡ f) }
{
    let sums = reading.sums.as_slice();
    for i in 0..sums.len() {
        let entry = &sums[i];
        if !is_user_only(sig, table, state, reading, entry, f, k) {
            return false;
        }
    }
    true
}

// Whether no operator without an identity heads class k.
fn is_soft(reading: &Reading, k: usize) -> bool
    requires { k < length reading.now.heads }
    ensures { IsTrue result ↔ (slice_index_or reading.now.heads k None ≡ None) }
{
    match reading.heads.as_slice()[k] {
        None => true,
        Some(_) => false,
    }
}

// Whether class k takes the identity e of f.
fn takes_identity(
    sig: &Signature,
    table: &Table,
    state: &State,
    reading: &Reading,
    f: OpId,
    e: OpId,
    k: usize,
) -> bool
    requires closed { IsClosed sig.now table.now state.now }
    requires reading { IsReading sig.now table.now (class_of state.now) reading.now }
    requires within { k < length table.now.nodes }
    ensures { IsTrue result ↔ TakesIdentity sig.now table.now (class_of state.now) f e k }
{
    if !is_soft(reading, k) {
        return false;
    }
    if !is_alone(sig, table, state, reading, f, k) {
        return false;
    }
    all_let(sig, table, state, f, e, k)
}

// Whether the class of column j takes the identity e of the operator.
fn takes_at(
    sig: &Signature,
    table: &Table,
    state: &State,
    reading: &Reading,
    sums: &Sums,
    e: OpId,
    j: usize,
) -> bool
    requires closed { IsClosed sig.now table.now state.now }
    requires reading { IsReading sig.now table.now (class_of state.now) reading.now }
    requires listed { Contains reading.now.sums sums.now }
    requires within { j < length sums.now.columns }
    ensures { IsTrue result ↔ TakesIdentity sig.now table.now (class_of state.now)
        sums.now.operator e (slice_index sums.now.columns j) }
{
    table.recall_well_made();
    let columns = sums.columns.as_slice();
    takes_identity(sig, table, state, reading, sums.operator, e, columns[j])
}

// The columns whose classes do not.
fn fixed_columns(
    alloc: Global,
    sig: &Signature,
    table: &Table,
    state: &State,
    reading: &Reading,
    sums: &Sums,
    e: OpId,
) -> Result<Vec<usize>, NoMemory>
    requires closed { IsClosed sig.now table.now state.now }
    requires reading { IsReading sig.now table.now (class_of state.now) reading.now }
    requires listed { Contains reading.now.sums sums.now }
    ensures { IfOk result (λ v.
        AreFixedBelow sig.now table.now (class_of state.now) sums.now e
        (length sums.now.columns) v.items) }
{
    let mut list = Vec::new(alloc);
    for j in 0..sums.columns.len() {
        if takes_at(sig, table, state, reading, sums, e, j) {
            continue;
        }
        list.push(j)?;
    }
    Ok(list)
}

// The columns of which the class does not take the identity e, where the operator is not neutral.
pub(crate) fn other_columns(
    alloc: Global,
    sig: &Signature,
    table: &Table,
    state: &State,
    reading: &Reading,
    sums: &Sums,
    e: OpId,
) -> Result<Vec<usize>, NoMemory>
    requires closed { IsClosed sig.now table.now state.now }
    requires reading { IsReading sig.now table.now (class_of state.now) reading.now }
    requires listed { Contains reading.now.sums sums.now }
    ensures { IfOk result (λ v.
        AreOthers sig.now table.now (class_of state.now) sums.now e v.items) }
{
    if is_neutral(sig, sums.operator) {
        return Ok(Vec::new(alloc));
    }
    let list = fixed_columns(alloc, sig, table, state, reading, sums, e)?;
    Ok(list)
}
