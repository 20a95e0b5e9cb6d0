//! Clashes: classes with a sum whose value another operator heads, or with sums by two operators. Under all values one of
//! what these sums add has the value of the class.
ghost use Rattle.std.specs.Prelude.{◌≡◌, ◌⊎◌, ℕ, ◌<◌, ◌≤◌, length, slice_index_or, None, Some, IfSome};
ghost use Rattle.fvn_terms.specs.Signature.{axioms};
ghost use Rattle.fvn_terms.specs.Equality.{IsAssociative};
ghost use Rattle.fvn_combine_bounds.specs.CombineChoicesTables.{HasSums};
ghost use Rattle.fvn_forms.specs.Flat.{FlatTerm};
ghost use Rattle.fvn_combine_nodes.specs.States.{IsClosed, class_of};
ghost use Rattle.fvn_combine_inferring.specs.Sorted.{GoWithSorts};
ghost use Rattle.fvn_combine_inferring.specs.Inferred.{TellHeads, IsInferred};
ghost use Rattle.fvn_combine_inferring.specs.inner.Clashes.{IsBelow, IsMore, IsCounted, AreCounted, IsNodeSum, IsClash};

use crate::differing::differ;
use crate::expressions::{addends, head_at};
use crate::heads::Known;
use crate::inferring::Inferred;
use crate::meeting::met;
use fvn_combine_nodes::{Node, State, Table};
use fvn_signature::Signature;
use fvn_terms::OpId;

// A node that is a sum, its operator, and the two nodes that it adds.
#[derive(Clone, Copy)]
struct NodeSum {
    node: usize,
    operator: OpId,
    left: usize,
    right: usize,
}

// A node, how many others may have its value, as far as they were counted, and the first of these.
#[derive(Clone, Copy)]
struct Clash {
    node: usize,
    number: usize,
    first: usize,
}

// The operator that heads node i, where it has an identity.
fn operator_at(sig: &Signature, table: &Table, i: usize) -> Option<OpId>
    requires within { i < length table.now.nodes }
    ensures { IfSome result (λ f. IsAssociative (axioms sig.now f)) }
{
    match table.node(i) {
        Node::Var(_) => None,
        Node::App(f, _) => match sig.identity(*f) {
            None => None,
            Some(_) => Some(*f),
        },
    }
}

// Whether the class of node i is that of one of two nodes.
fn is_of_either(state: &State, i: usize, p: (usize, usize)) -> bool
    requires within { i < length state.now.names }
    requires left { p.0 < length state.now.names }
    requires right { p.1 < length state.now.names }
{
    if state.is_same(i, p.0) {
        return true;
    }
    state.is_same(i, p.1)
}

// Node i as a sum by an operator that has an identity; none where a node that it adds is in its class.
fn sum_at(sig: &Signature, table: &Table, state: &State, known: &Known, i: usize) -> Option<NodeSum>
    requires closed { IsClosed sig.now table.now state.now }
    requires sums { HasSums sig.now table.now }
    requires within { i < length table.now.nodes }
    ensures is { IfSome result (IsNodeSum sig.now table.now state.now known.now.sorted) }
    ensures node { IfSome result (λ e. e.node ≡ i) }
{
    table.recall_well_made();
    let _known = known;
    match operator_at(sig, table, i) {
        None => None,
        Some(f) => match addends(table, f, i) {
            None => None,
            Some(p) => {
                if is_of_either(state, i, p) {
                    return None;
                }
                Some(NodeSum {
                    node: i,
                    operator: f,
                    left: p.0,
                    right: p.1,
                })
            }
        },
    }
}

// The clash with one node more that may have the value; one in the class of the first is not counted again.
fn with_one(state: &State, clash: Clash, k: usize) -> Clash
    requires below { IsBelow (length state.now.names) clash }
    requires within { k < length state.now.names }
    requires few { clash.number ≤ 4 }
    ensures below { IsBelow (length state.now.names) result }
    ensures more { IsMore 1 clash result }
    ensures counted { (values : ℕ → FlatTerm) → IsCounted state.now values clash k result }
{
    if clash.number == 0 {
        return Clash {
            node: clash.node,
            number: 1,
            first: k,
        };
    }
    if state.is_same(clash.first, k) {
        return clash;
    }
    Clash {
        node: clash.node,
        number: clash.number + 1,
        first: clash.first,
    }
}

// The same; one that differs for sure is passed over.
fn with_candidate(
    sig: &Signature,
    table: &Table,
    state: &State,
    known: &Known,
    clash: Clash,
    k: usize,
) -> Clash
    requires closed { IsClosed sig.now table.now state.now }
    requires sums { HasSums sig.now table.now }
    requires heads { TellHeads sig.now table.now state.now known.now.sorted known.now.heads.items }
    requires below { IsBelow (length table.now.nodes) clash }
    requires within { k < length table.now.nodes }
    requires few { clash.number ≤ 4 }
    ensures below { IsBelow (length table.now.nodes) result }
    ensures more { IsMore 1 clash result }
    ensures counted { (values : ℕ → FlatTerm) → GoWithSorts sig.now table.now state.now
        known.now.sorted values → IsCounted state.now values clash k result }
{
    if differ(sig, table, state, known, clash.node, k) {
        return clash;
    }
    with_one(state, clash, k)
}

// The clash with both nodes that a sum adds.
fn with_addends(
    sig: &Signature,
    table: &Table,
    state: &State,
    known: &Known,
    clash: Clash,
    e: NodeSum,
) -> Clash
    requires closed { IsClosed sig.now table.now state.now }
    requires sums { HasSums sig.now table.now }
    requires heads { TellHeads sig.now table.now state.now known.now.sorted known.now.heads.items }
    requires below { IsBelow (length table.now.nodes) clash }
    requires sum { IsNodeSum sig.now table.now state.now known.now.sorted e }
    requires few { clash.number ≤ 2 }
    ensures below { IsBelow (length table.now.nodes) result }
    ensures more { IsMore 2 clash result }
    ensures counted { (values : ℕ → FlatTerm) → GoWithSorts sig.now table.now state.now
        known.now.sorted values → AreCounted state.now values clash e result }
{
    let one = with_candidate(sig, table, state, known, clash, e.left);
    with_candidate(sig, table, state, known, one, e.right)
}

// The clash of a sum with an operator that heads its class.
fn clash_with_head(
    sig: &Signature,
    table: &Table,
    state: &State,
    known: &Known,
    e: NodeSum,
    g: OpId,
) -> Option<Clash>
    requires closed { IsClosed sig.now table.now state.now }
    requires sums { HasSums sig.now table.now }
    requires heads { TellHeads sig.now table.now state.now known.now.sorted known.now.heads.items }
    requires sum { IsNodeSum sig.now table.now state.now known.now.sorted e }
    requires head { slice_index_or known.now.heads.items (class_of state.now e.node) None ≡ Some g }
    ensures { IfSome result (IsClash sig.now table.now state.now known.now.sorted) }
{
    if g == e.operator {
        return None;
    }
    let none = Clash {
        node: e.node,
        number: 0,
        first: e.node,
    };
    Some(with_addends(sig, table, state, known, none, e))
}

// The clash of a sum with the one at node j, where both are of one class, and by different operators.
fn clash_with_sum(
    sig: &Signature,
    table: &Table,
    state: &State,
    known: &Known,
    e: NodeSum,
    j: usize,
) -> Option<Clash>
    requires closed { IsClosed sig.now table.now state.now }
    requires sums { HasSums sig.now table.now }
    requires heads { TellHeads sig.now table.now state.now known.now.sorted known.now.heads.items }
    requires sum { IsNodeSum sig.now table.now state.now known.now.sorted e }
    requires within { j < length table.now.nodes }
    ensures { IfSome result (IsClash sig.now table.now state.now known.now.sorted) }
{
    if !state.is_same(e.node, j) {
        return None;
    }
    match sum_at(sig, table, state, known, j) {
        None => None,
        Some(other) => {
            if other.operator == e.operator {
                return None;
            }
            let none = Clash {
                node: e.node,
                number: 0,
                first: e.node,
            };
            let half = with_addends(sig, table, state, known, none, e);
            Some(with_addends(sig, table, state, known, half, other))
        }
    }
}

// Of two clashes the one that counts fewer nodes.
fn fewer(best: Option<Clash>, other: Option<Clash>) -> Option<Clash>
    ensures { (result ≡ best) ⊎ (result ≡ other) }
{
    match best {
        None => other,
        Some(b) => match other {
            None => best,
            Some(c) => { if c.number < b.number { other } else { best } }
        },
    }
}

// The clash of a sum with later ones that counts fewest nodes.
fn clash_with_sums(
    sig: &Signature,
    table: &Table,
    state: &State,
    known: &Known,
    e: NodeSum,
) -> Option<Clash>
    requires closed { IsClosed sig.now table.now state.now }
    requires sums { HasSums sig.now table.now }
    requires heads { TellHeads sig.now table.now state.now known.now.sorted known.now.heads.items }
    requires sum { IsNodeSum sig.now table.now state.now known.now.sorted e }
    ensures { IfSome result (IsClash sig.now table.now state.now known.now.sorted) }
{
    let mut best = None;
    for j in e.node..table.nodes().len() {
        best = fewer(best, clash_with_sum(sig, table, state, known, e, j));
    }
    best
}

// The clash of the sum at node i: with what heads its class, where that is known, and else with other sums.
fn clash_at(sig: &Signature, table: &Table, state: &State, known: &Known, i: usize) -> Option<Clash>
    requires closed { IsClosed sig.now table.now state.now }
    requires sums { HasSums sig.now table.now }
    requires heads { TellHeads sig.now table.now state.now known.now.sorted known.now.heads.items }
    requires within { i < length table.now.nodes }
    ensures { IfSome result (IsClash sig.now table.now state.now known.now.sorted) }
{
    match sum_at(sig, table, state, known, i) {
        None => None,
        Some(e) => match head_at(state, known.heads.as_slice(), e.node) {
            None => clash_with_sums(sig, table, state, known, e),
            Some(g) => clash_with_head(sig, table, state, known, e, g),
        },
    }
}

// The clash of the state that counts fewest nodes.
fn least_clash(sig: &Signature, table: &Table, state: &State, known: &Known) -> Option<Clash>
    requires closed { IsClosed sig.now table.now state.now }
    requires sums { HasSums sig.now table.now }
    requires heads { TellHeads sig.now table.now state.now known.now.sorted known.now.heads.items }
    ensures { IfSome result (IsClash sig.now table.now state.now known.now.sorted) }
{
    let mut best = None;
    for i in 0..table.nodes().len() {
        best = fewer(best, clash_at(sig, table, state, known, i));
    }
    best
}

// What a clash says: where it counts no node, nothing goes with the state; one that it counts alone has the value; and
// whether the first of two has it is worth asking. Of more nothing is asked: too few of the answers tell anything.
fn clash_told(
    sig: &Signature,
    table: &Table,
    state: &State,
    known: &Known,
    clash: Clash,
) -> Inferred
    requires closed { IsClosed sig.now table.now state.now }
    requires clash { IsClash sig.now table.now state.now known.now.sorted clash }
    ensures { IsInferred sig.now table.now state.now known.now.sorted result }
{
    if clash.number == 0 {
        return Inferred::Impossible;
    }
    if clash.number == 1 {
        return met(sig, table, state, known.sorted, clash.node, clash.first);
    }
    if clash.number > 2 {
        return Inferred::Nothing;
    }
    if state.is_open(clash.node, clash.first) {
        return Inferred::Question(clash.node, clash.first);
    }
    Inferred::Nothing
}

// What the clash of the state says that counts fewest nodes.
pub(crate) fn clashing(sig: &Signature, table: &Table, state: &State, known: &Known) -> Inferred
    requires closed { IsClosed sig.now table.now state.now }
    requires sums { HasSums sig.now table.now }
    requires heads { TellHeads sig.now table.now state.now known.now.sorted known.now.heads.items }
    ensures { IsInferred sig.now table.now state.now known.now.sorted result }
{
    match least_clash(sig, table, state, known) {
        None => Inferred::Nothing,
        Some(clash) => clash_told(sig, table, state, known, clash),
    }
}
