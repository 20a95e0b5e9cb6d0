//! Classes whose values have one of two heads for sure: a class that is added has one that is noted, and is the whole sum, or
//! a part of it.
ghost use Rattle.std.specs.Prelude.{◌≡◌, ◌<◌, length, IfSome, IsTrue};
ghost use Rattle.fvn_terms.specs.Signature.{axioms};
ghost use Rattle.fvn_terms.specs.Equality.{IsAssociative};
ghost use Rattle.fvn_combine_bounds.specs.CombineChoicesTables.{HasSums};
ghost use Rattle.fvn_combine_nodes.specs.States.{IsClosed, IsNaming, class_of};
ghost use Rattle.fvn_combine_inferring.specs.Inferred.{TellHeads, HaveTwoValues};
ghost use Rattle.fvn_combine_inferring.specs.Rows.{IsSummand};
ghost use Rattle.fvn_combine_inferring.specs.inner.Bounds.{IsNotedApart, IsNotedOfEither, HasEitherHead, AreUnlike};

use crate::bounds::is_other_head;
use crate::expressions::{addends, head_at};
use crate::heads::Known;
use fvn_combine_nodes::{Node, State, Table};
use fvn_signature::Signature;
use fvn_terms::OpId;

// The operator that is noted of the class of node k, where it is neither f nor f's identity.
fn head_apart(
    sig: &Signature,
    state: &State,
    heads: &[Option<OpId>],
    f: OpId,
    k: usize,
) -> Option<OpId>
    requires within { k < length state.now.names }
    requires heads { class_of state.now k < length heads.now }
    ensures { IfSome result (IsNotedApart sig.now f heads.now (class_of state.now k)) }
{
    match heads[state.class_of(k)] {
        None => None,
        Some(g) => {
            if !is_other_head(sig, f, g) {
                return None;
            }
            Some(g)
        }
    }
}

// The operator that is so noted of one of two classes.
fn added_head(
    sig: &Signature,
    state: &State,
    heads: &[Option<OpId>],
    f: OpId,
    p: (usize, usize),
) -> Option<OpId>
    requires left { p.0 < length state.now.names }
    requires right { p.1 < length state.now.names }
    requires heads { length heads.now ≡ length state.now.names }
    requires naming { IsNaming state.now }
    ensures { IfSome result (IsNotedOfEither sig.now f heads.now (class_of state.now p.0)
        (class_of state.now p.1)) }
{
    match head_apart(sig, state, heads, f, p.0) {
        Some(g) => Some(g),
        None => head_apart(sig, state, heads, f, p.1),
    }
}

// The heads that node i has as a sum by f: one of the nodes that it adds has a head, or of those that the last of them adds.
fn sum_heads(
    sig: &Signature,
    table: &Table,
    state: &State,
    known: &Known,
    f: OpId,
    i: usize,
) -> Option<(OpId, OpId)>
    requires associative { IsAssociative (axioms sig.now f) }
    requires closed { IsClosed sig.now table.now state.now }
    requires sums { HasSums sig.now table.now }
    requires heads { TellHeads sig.now table.now state.now known.now.sorted known.now.heads.items }
    requires within { i < length table.now.nodes }
    ensures { IfSome result (HasEitherHead sig.now table.now state.now known.now.sorted i) }
{
    table.recall_well_made();
    let mut last = i;
    for _step in 0..table.nodes().len() {
        match addends(table, f, last) {
            None => return None,
            Some(p) => match added_head(sig, state, known.heads.as_slice(), f, p) {
                Some(g) => return Some((f, g)),
                None => last = p.1,
            },
        }
    }
    None
}

// The heads that node i has.
fn node_heads(
    sig: &Signature,
    table: &Table,
    state: &State,
    known: &Known,
    i: usize,
) -> Option<(OpId, OpId)>
    requires closed { IsClosed sig.now table.now state.now }
    requires sums { HasSums sig.now table.now }
    requires heads { TellHeads sig.now table.now state.now known.now.sorted known.now.heads.items }
    requires within { i < length table.now.nodes }
    ensures { IfSome result (HasEitherHead sig.now table.now state.now known.now.sorted i) }
{
    match table.node(i) {
        Node::Var(_) => None,
        Node::App(f, _) => match sig.identity(*f) {
            None => None,
            Some(_) => sum_heads(sig, table, state, known, *f, i),
        },
    }
}

// The heads that a member of the class of node k has.
pub(crate) fn member_heads(
    sig: &Signature,
    table: &Table,
    state: &State,
    known: &Known,
    k: usize,
) -> Option<(OpId, OpId)>
    requires closed { IsClosed sig.now table.now state.now }
    requires sums { HasSums sig.now table.now }
    requires heads { TellHeads sig.now table.now state.now known.now.sorted known.now.heads.items }
    requires within { k < length table.now.nodes }
    ensures { IfSome result (HasEitherHead sig.now table.now state.now known.now.sorted k) }
{
    let class = state.class_of(k);
    for i in class..table.nodes().len() {
        if state.class_of(i) != class {
            continue;
        }
        match node_heads(sig, table, state, known, i) {
            None => continue,
            Some(p) => return Some(p),
        }
    }
    None
}

// Two operators of which one heads the value of the class of node k; twice the one that is noted of it.
fn possible_heads(
    sig: &Signature,
    table: &Table,
    state: &State,
    known: &Known,
    k: usize,
) -> Option<(OpId, OpId)>
    requires closed { IsClosed sig.now table.now state.now }
    requires sums { HasSums sig.now table.now }
    requires heads { TellHeads sig.now table.now state.now known.now.sorted known.now.heads.items }
    requires within { k < length table.now.nodes }
    ensures { IfSome result (HasEitherHead sig.now table.now state.now known.now.sorted k) }
{
    match head_at(state, known.heads.as_slice(), k) {
        None => member_heads(sig, table, state, known, k),
        Some(f) => Some((f, f)),
    }
}

// Whether one of two operators heads the class of node k that are neither f nor its identity: its value is one summand.
pub(crate) fn is_possibly_headed(
    sig: &Signature,
    table: &Table,
    state: &State,
    known: &Known,
    f: OpId,
    k: usize,
) -> bool
    requires closed { IsClosed sig.now table.now state.now }
    requires sums { HasSums sig.now table.now }
    requires heads { TellHeads sig.now table.now state.now known.now.sorted known.now.heads.items }
    requires within { k < length table.now.nodes }
    ensures { IsTrue result → IsSummand sig.now table.now state.now known.now.sorted f k }
{
    match possible_heads(sig, table, state, known, k) {
        None => false,
        Some(p) => {
            if !is_other_head(sig, f, p.0) {
                return false;
            }
            is_other_head(sig, f, p.1)
        }
    }
}

// Whether neither of two operators is one of two others.
fn are_unlike(p: (OpId, OpId), q: (OpId, OpId)) -> bool
    ensures { IsTrue result → AreUnlike p q }
{
    if p.0 == q.0 {
        return false;
    }
    if p.0 == q.1 {
        return false;
    }
    if p.1 == q.0 {
        return false;
    }
    p.1 != q.1
}

// Whether the classes of two nodes have no possible head in common.
pub(crate) fn are_headed_apart(
    sig: &Signature,
    table: &Table,
    state: &State,
    known: &Known,
    i: usize,
    j: usize,
) -> bool
    requires closed { IsClosed sig.now table.now state.now }
    requires sums { HasSums sig.now table.now }
    requires heads { TellHeads sig.now table.now state.now known.now.sorted known.now.heads.items }
    requires left { i < length table.now.nodes }
    requires right { j < length table.now.nodes }
    ensures { IsTrue result → HaveTwoValues sig.now table.now state.now known.now.sorted i j }
{
    match possible_heads(sig, table, state, known, i) {
        None => false,
        Some(p) => match possible_heads(sig, table, state, known, j) {
            None => false,
            Some(q) => are_unlike(p, q),
        },
    }
}
