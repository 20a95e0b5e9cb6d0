//! How states are closed: nodes are joined as partitions ask, until nothing more is asked.
ghost use Rattle.std.specs.Prelude.{◌≡◌, ◌≢◌, ◌⊎◌, ◌↔◌, ◌<◌, [], ◌∷◌, length, map, All, IsTrue};
ghost use Rattle.std.specs.List.{list_any};
ghost use Rattle.fvn_terms.specs.Signature.{axioms};
ghost use Rattle.fvn_combine_nodes.specs.Classes.{AreTogether, MeetEitherWay, AreAlike, IsNodePartition, MeetInPairs};
ghost use Rattle.fvn_combine_nodes.specs.States.{class_of, is_same, is_apart, IsOpen, IsNaming};
ghost use Rattle.fvn_combine_tree.specs.inner.Closing.{state_of, renamed, is_straight, then_move, HasMoved, IsClosureOf};
ghost use Rattle.fvn_combine_tree.specs.inner.Chains.{HasRoom, IsChained};
ghost use Rattle.fvn_combine_tree.specs.inner.Rounds.{AreSettled, IsChainSettled, AreChainsSettled, IsSettledBy, IsAllSettled, IsSettledFrom};

use crate::chains::{By, Chains};
use fvn_base::Seq;
use fvn_combine_nodes::{Node, State, Table, is_kept_apart};
use fvn_signature::Signature;
use fvn_terms::OpId;

/// What a look at some nodes came to: all is settled, nodes were joined, or there is no partition.
#[derive(Clone, Copy)]
pub enum Move {
    Stays,
    Changes,
    Clashes,
}

/// A state in the making.
#[derive(Drop)]
pub struct Closing {
    pub names: Vec<usize>,
    pub apart: Vec<(usize, usize)>,
}

// What two moves come to.
fn then(first: Move, second: Move) -> Move
    ensures { result ≡ then_move first second }
{
    match first {
        Move::Stays => second,
        Move::Changes => match second {
            Move::Stays => Move::Changes,
            Move::Changes => Move::Changes,
            Move::Clashes => Move::Clashes,
        },
        Move::Clashes => Move::Clashes,
    }
}

// Replaces one name by another.
fn rename(names: &mut [usize], from: usize, to: usize)
    ensures { names.new ≡ map (renamed from to) names.old }
{
    for name in names.iter_mut() {
        if *name == from {
            *name = to;
        }
    }
}

// The node that is looked at in the k-th place: from the first up, or from the last down.
fn row(up: bool, count: usize, k: usize) -> usize
    requires { k < count }
    ensures { result < count }
{
    if up {
        return k;
    }
    count - 1 - k
}

impl Closing {
    // Whether two nodes are in one class.
    fn is_same(&self, i: usize, j: usize) -> bool
        requires left { i < length self.now.names.items }
        requires right { j < length self.now.names.items }
        ensures { result ≡ is_same (state_of self.now) i j }
    {
        self.names[i] == self.names[j]
    }

    // Whether two nodes are kept apart.
    fn is_apart(&self, i: usize, j: usize) -> bool
        requires naming { IsNaming (state_of self.now) }
        requires left { i < length self.now.names.items }
        requires right { j < length self.now.names.items }
        ensures { result ≡ is_apart (state_of self.now) i j }
    {
        is_kept_apart(self.names.as_slice(), self.apart.as_slice(), i, j)
    }

    /// Puts two nodes into one class: all that are named like either are named like the one with the lower name from
    /// then on. It takes time linear in the number of nodes.
    pub fn join(&mut self, i: usize, j: usize) -> Move
        requires naming { IsNaming (state_of self.old) }
        requires left { i < length self.old.names.items }
        requires right { j < length self.old.names.items }
        ensures moved { HasMoved (λ class. class i ≡ class j) (λ s. class_of s i ≡ class_of s j)
            (state_of self.old) (state_of self.new) result }
        ensures together { class_of (state_of self.new) i ≡ class_of (state_of self.new) j }
        ensures no_clash { result ≢ Move.Clashes }
    {
        let (a, b) = (self.names[i], self.names[j]);
        if a == b {
            return Move::Stays;
        }
        rename(self.names.as_mut_slice(), a.max(b), a.min(b));
        Move::Changes
    }

    // Puts the first two nodes into one class, and the other two.
    fn join_both(&mut self, first: (usize, usize), second: (usize, usize)) -> Move
        requires naming { IsNaming (state_of self.old) }
        requires first { (first.0 < length self.old.names.items)
            × (first.1 < length self.old.names.items) }
        requires second { (second.0 < length self.old.names.items)
            × (second.1 < length self.old.names.items) }
        ensures { HasMoved (λ class. (class first.0 ≡ class first.1)
            × (class second.0 ≡ class second.1))
            (λ s. (class_of s first.0 ≡ class_of s first.1) × (class_of s second.0 ≡ class_of s second.1))
            (state_of self.old) (state_of self.new) result }
    {
        let one = self.join(first.0, first.1);
        let other = self.join(second.0, second.1);
        then(one, other)
    }

    // Puts the nodes of two lists into one class place by place.
    fn join_all(&mut self, ks: &[usize], ls: &[usize]) -> Move
        requires naming { IsNaming (state_of self.old) }
        requires left { All (λ k. k < length self.old.names.items) ks.now }
        requires right { All (λ k. k < length self.old.names.items) ls.now }
        ensures { HasMoved (λ class. AreTogether class ks.now ls.now) (λ s. AreTogether
            (class_of s) ks.now ls.now)
            (state_of self.old) (state_of self.new) result }
    {
        if ks.len() != ls.len() {
            return Move::Clashes;
        }
        let mut whole = Move::Stays;
        for i in 0..ks.len() {
            let one = self.join(ks[i], ls[i]);
            whole = then(whole, one);
        }
        whole
    }

    // Whether the nodes of two lists are in one class place by place.
    fn are_together(&self, ks: &[usize], ls: &[usize]) -> bool
        requires left { All (λ k. k < length self.now.names.items) ks.now }
        requires right { All (λ k. k < length self.now.names.items) ls.now }
        ensures { IsTrue result ↔ AreTogether (class_of (state_of self.now)) ks.now ls.now }
    {
        if ks.len() != ls.len() {
            return false;
        }
        for i in 0..ks.len() {
            if self.names[ks[i]] != self.names[ls[i]] {
                return false;
            }
        }
        true
    }

    // Whether a is known to be in the class of v where a and b meet v and w, and b then in that of w.
    fn is_straight(&self, a: usize, b: usize, v: usize, w: usize) -> bool
        requires naming { IsNaming (state_of self.now) }
        requires all { All (λ k. k < length self.now.names.items) (a ∷ b ∷ v ∷ w ∷ []) }
        ensures { result ≡ is_straight (state_of self.now) a b v w }
    {
        if self.is_same(a, v) {
            return true;
        }
        if self.is_same(b, w) {
            return true;
        }
        if self.is_apart(a, w) {
            return true;
        }
        self.is_apart(b, v)
    }

    // Makes a and b meet v and w, where it is known which way.
    fn turn(&mut self, a: usize, b: usize, v: usize, w: usize) -> Move
        requires naming { IsNaming (state_of self.old) }
        requires all { All (λ k. k < length self.old.names.items) (a ∷ b ∷ v ∷ w ∷ []) }
        ensures { HasMoved (λ class. MeetEitherWay class a b v w)
            (λ s. MeetEitherWay (class_of s) a b v w ⊎ IsOpen s a v)
            (state_of self.old) (state_of self.new) result }
    {
        if self.is_straight(a, b, v, w) {
            return self.join_both((a, v), (b, w));
        }
        if self.is_straight(a, b, w, v) {
            return self.join_both((a, w), (b, v));
        }
        Move::Stays
    }

    // Makes the arguments of two commutative nodes meet.
    fn turn_all(&mut self, ks: &[usize], ls: &[usize]) -> Move
        requires naming { IsNaming (state_of self.old) }
        requires left { All (λ k. k < length self.old.names.items) ks.now }
        requires right { All (λ k. k < length self.old.names.items) ls.now }
        ensures { HasMoved (MeetInPairs (λ a v. ⊥) ks.now ls.now) (λ s. MeetInPairs
            (IsOpen s) ks.now ls.now (class_of s))
            (state_of self.old) (state_of self.new) result }
    {
        if ks.len() != 2 {
            return Move::Stays;
        }
        if ls.len() != 2 {
            return Move::Stays;
        }
        self.turn(ks[0], ks[1], ls[0], ls[1])
    }

    // Makes two members of one class, f over ks and g over ls, alike.
    fn unite(&mut self, sig: &Signature, f: OpId, g: OpId, ks: &[usize], ls: &[usize]) -> Move
        requires naming { IsNaming (state_of self.old) }
        requires left { All (λ k. k < length self.old.names.items) ks.now }
        requires right { All (λ k. k < length self.old.names.items) ls.now }
        ensures { HasMoved (λ class. AreAlike sig.now (λ a v. ⊥) class f g ks.now ls.now)
            (λ s. AreAlike sig.now (IsOpen s) (class_of s) f g ks.now ls.now)
            (state_of self.old) (state_of self.new) result }
    {
        if sig.identity(f).is_some() {
            return Move::Stays;
        }
        if sig.identity(g).is_some() {
            return Move::Stays;
        }
        if f != g {
            return Move::Clashes;
        }
        let axioms = sig.axioms(f);
        if axioms.is_sum() {
            return Move::Stays;
        }
        if axioms.is_free() {
            return self.join_all(ks, ls);
        }
        self.turn_all(ks, ls)
    }
}

impl Closing {
    // Looks at nodes i and j.
    fn settle(&mut self, sig: &Signature, table: &Table, i: usize, j: usize) -> Move
        requires naming { IsNaming (state_of self.old) }
        requires whole { length self.old.names.items ≡ length table.now.nodes }
        requires left { i < length table.now.nodes }
        requires right { j < length table.now.nodes }
        ensures { HasMoved (IsNodePartition sig.now table.now) (AreSettled sig.now table.now i j)
            (state_of self.old) (state_of self.new) result }
    {
        table.recall_well_made();
        match table.node(i) {
            Node::Var(_) => Move::Stays,
            Node::App(f, ks) => match table.node(j) {
                Node::Var(_) => Move::Stays,
                Node::App(g, ls) => {
                    let (ks, ls) = (ks.as_slice(), ls.as_slice());
                    if self.is_same(i, j) {
                        return self.unite(sig, *f, *g, ks, ls);
                    }
                    if *f != *g {
                        return Move::Stays;
                    }
                    if self.are_together(ks, ls) {
                        return self.join(i, j);
                    }
                    Move::Stays
                }
            },
        }
    }

    // Looks at node i and all before it with its key.
    fn settle_chain(&mut self, sig: &Signature, table: &Table, chains: &Chains, i: usize) -> Move
        requires naming { IsNaming (state_of self.old) }
        requires whole { length self.old.names.items ≡ length table.now.nodes }
        requires room { HasRoom (length table.now.nodes) chains.now }
        requires chained { IsChained (length table.now.nodes) chains.now.keys.items
            chains.now.before.items }
        requires within { i < length table.now.nodes }
        ensures { HasMoved (IsNodePartition sig.now table.now)
            (IsChainSettled sig.now table.now chains.now.keys.items i 0) (state_of self.old) (state_of self.new) result }
    {
        let count = table.nodes().len();
        let mut whole = Move::Stays;
        let mut end = chains.end(count, i, i);
        while end > 0 {
            let j = end - 1;
            let one = self.settle(sig, table, i, j);
            whole = then(whole, one);
            if let Move::Clashes = whole {
                return whole;
            }
            end = chains.end(count, i, j);
        }
        whole
    }

    // Looks at each node and those before it with its key.
    fn settle_chains(&mut self, sig: &Signature, table: &Table, chains: &Chains) -> Move
        requires naming { IsNaming (state_of self.old) }
        requires whole { length self.old.names.items ≡ length table.now.nodes }
        requires room { HasRoom (length table.now.nodes) chains.now }
        requires chained { IsChained (length table.now.nodes) chains.now.keys.items
            chains.now.before.items }
        ensures { HasMoved (IsNodePartition sig.now table.now)
            (AreChainsSettled sig.now table.now chains.now.keys.items (length table.now.nodes))
            (state_of self.old) (state_of self.new) result }
    {
        let mut whole = Move::Stays;
        for i in 0..table.nodes().len() {
            let one = self.settle_chain(sig, table, chains, i);
            whole = then(whole, one);
            if let Move::Clashes = whole {
                return whole;
            }
        }
        whole
    }

    // Looks at all pairs of nodes that have alike what is said.
    fn settle_by(&mut self, sig: &Signature, table: &Table, chains: &mut Chains, by: By) -> Move
        requires naming { IsNaming (state_of self.old) }
        requires whole { length self.old.names.items ≡ length table.now.nodes }
        requires room { HasRoom (length table.now.nodes) chains.old }
        ensures room { HasRoom (length table.now.nodes) chains.new }
        ensures moved { HasMoved (IsNodePartition sig.now table.now)
            (IsSettledBy sig.now table.now by)
            (state_of self.old) (state_of self.new) result }
    {
        chains.chain(table, self.names.as_slice(), by);
        self.settle_chains(sig, table, chains)
    }

    // Looks at all pairs of nodes that may ask something of one another.
    fn settle_all(&mut self, sig: &Signature, table: &Table, chains: &mut Chains) -> Move
        requires naming { IsNaming (state_of self.old) }
        requires whole { length self.old.names.items ≡ length table.now.nodes }
        requires room { HasRoom (length table.now.nodes) chains.old }
        ensures room { HasRoom (length table.now.nodes) chains.new }
        ensures moved { HasMoved (IsNodePartition sig.now table.now)
            (IsAllSettled sig.now table.now)
            (state_of self.old) (state_of self.new) result }
    {
        let one = self.settle_by(sig, table, chains, By::Class);
        let other = self.settle_by(sig, table, chains, By::Arguments);
        then(one, other)
    }

    // Looks at nodes i and j and, as long as something is joined, at the heads of classes beneath them.
    fn settle_down(
        &mut self,
        sig: &Signature,
        table: &Table,
        chains: &Chains,
        i: usize,
        j: usize,
    ) -> Move
        requires naming { IsNaming (state_of self.old) }
        requires whole { length self.old.names.items ≡ length table.now.nodes }
        requires room { HasRoom (length table.now.nodes) chains.now }
        requires left { i < length table.now.nodes }
        requires right { j < length table.now.nodes }
        ensures { HasMoved (IsNodePartition sig.now table.now) IsNaming
            (state_of self.old) (state_of self.new) result }
    {
        let mut pair = (i, j);
        let mut whole = Move::Stays;
        'down: loop {
            let next = chains.beneath(table, self.names.as_slice(), pair.0, pair.1);
            let one = self.settle(sig, table, pair.0, pair.1);
            whole = then(whole, one);
            match one {
                Move::Changes => pair = next,
                Move::Stays => return whole,
                Move::Clashes => return whole,
            }
        }
    }

    // Looks down from each node and the head of its class, from the first node up or from the last down.
    fn settle_heads(
        &mut self,
        sig: &Signature,
        table: &Table,
        chains: &mut Chains,
        up: bool,
    ) -> Move
        requires naming { IsNaming (state_of self.old) }
        requires whole { length self.old.names.items ≡ length table.now.nodes }
        requires room { HasRoom (length table.now.nodes) chains.old }
        ensures room { HasRoom (length table.now.nodes) chains.new }
        ensures moved { HasMoved (IsNodePartition sig.now table.now) IsNaming
            (state_of self.old) (state_of self.new) result }
    {
        let count = self.names.len();
        chains.lead_all(table, self.names.as_slice());
        let mut whole = Move::Stays;
        for k in 0..count {
            let i = row(up, count, k);
            let head = chains.head(table, self.names.as_slice(), i);
            let one = self.settle_down(sig, table, chains, i, head);
            whole = then(whole, one);
        }
        whole
    }

    // Looks at the heads of classes, and at all that may ask something where these are settled.
    fn settle_round(
        &mut self,
        sig: &Signature,
        table: &Table,
        chains: &mut Chains,
        up: bool,
    ) -> Move
        requires naming { IsNaming (state_of self.old) }
        requires whole { length self.old.names.items ≡ length table.now.nodes }
        requires room { HasRoom (length table.now.nodes) chains.old }
        ensures room { HasRoom (length table.now.nodes) chains.new }
        ensures moved { HasMoved (IsNodePartition sig.now table.now)
            (IsAllSettled sig.now table.now)
            (state_of self.old) (state_of self.new) result }
    {
        match self.settle_heads(sig, table, chains, up) {
            Move::Stays => self.settle_all(sig, table, chains),
            Move::Changes => Move::Changes,
            Move::Clashes => Move::Clashes,
        }
    }

    // Looks at nodes until all is settled; false where there is no partition.
    fn settle_fully(&mut self, sig: &Signature, table: &Table, chains: &mut Chains) -> bool
        requires naming { IsNaming (state_of self.old) }
        requires whole { length self.old.names.items ≡ length table.now.nodes }
        requires room { HasRoom (length table.now.nodes) chains.old }
        ensures { IsSettledFrom sig.now table.now (state_of self.old) (state_of self.new) result }
    {
        let mut up = false;
        'rounds: loop {
            match self.settle_round(sig, table, chains, up) {
                Move::Stays => return true,
                Move::Changes => up = !up,
                Move::Clashes => return false,
            }
        }
    }

    // Whether nodes that are kept apart are in one class.
    fn meets_apart(&self) -> bool
        requires naming { IsNaming (state_of self.now) }
        ensures { result ≡ list_any (λ p. is_same (state_of self.now) p.0 p.1)
            self.now.apart.items }
    {
        for (i, j) in self.apart.as_slice() {
            if self.names[*i] == self.names[*j] {
                return true;
            }
        }
        false
    }
}

/// Joins nodes until nothing more is asked; none only where no partition has what the state has.
pub fn close(
    sig: &Signature,
    table: &Table,
    mut closing: Closing,
    mut chains: Chains,
) -> Option<State>
    requires naming { IsNaming (state_of closing) }
    requires whole { length closing.names.items ≡ length table.now.nodes }
    requires sides { All (λ p. class_of (state_of closing) p.0 ≡ class_of
        (state_of closing) p.1) table.now.sides }
    requires room { HasRoom (length table.now.nodes) chains }
    ensures { IsClosureOf sig.now table.now (state_of closing) result }
{
    table.recall_well_made();
    if closing.settle_fully(sig, table, &mut chains) {
        if closing.meets_apart() {
            return None;
        }
        return Some(State {
            names: Seq::from_vec(closing.names),
            apart: Seq::from_vec(closing.apart),
        });
    }
    None
}
