//! How tables are built.
ghost use Rattle.std.specs.Prelude.{◌≡◌, ◌≢◌, ◌↔◌, ℕ, ◌<◌, length, map, slice_get, slice_set, Some, IfOk, OnOk, MatchOption, IsTrue, All, Any};
ghost use Rattle.fvn_terms.specs.Term.{pack};
ghost use Rattle.fvn_terms.specs.Plain.{term};
ghost use Rattle.fvn_forms.specs.Flat.{plain};
ghost use Rattle.fvn_flat.specs.Problems.{subterms, subterms_among, subterms_of, plain_pairs};
ghost use Rattle.fvn_flat.specs.Solving.{problem_of};
ghost use Rattle.fvn_combine_nodes.specs.Table.{term_at, IsTableOf};
ghost use Rattle.fvn_combine_tree.specs.inner.Drafts.{
  AreNodes,
  IsEntered,
  HasWalked,
  AreSides,
  once_each,
  IsNewUnit,
  AreUnitsOf,
};

use fvn_base::Seq;
use fvn_combine_nodes::{Node, Table};
use fvn_flat::{Flat, Pairs};
use fvn_signature::Signature;
use fvn_terms::{Args, NoMemory, OpId, Plain};
use std::alloc::Global;

/// The nodes so far, and the nodes of all subterms so far in the order in which they begin.
#[derive(Drop)]
pub struct Draft {
    pub nodes: Vec<Node>,
    pub walk: Vec<usize>,
}

// The place of a node, if it is there.
fn place_of(nodes: &[Node], node: &Node) -> Option<usize>
    ensures { MatchOption result ((i : ℕ) → slice_get nodes.now i ≢ Some node.now)
        (λ i. slice_get nodes.now i ≡ Some node.now) }
{
    for (i, other) in nodes.iter().enumerate() {
        if other.same(node) {
            return Some(i);
        }
    }
    None
}

// The place of a node, which is put at the end if it is not there.
fn enter(nodes: &mut Vec<Node>, node: Node) -> Result<usize, NoMemory>
    ensures { IfOk result (IsEntered nodes.old.items nodes.new.items node) }
{
    match place_of(nodes.as_slice(), &node) {
        Some(i) => Ok(i),
        None => {
            let place = nodes.len();
            nodes.push(node)?;
            Ok(place)
        }
    }
}

// Writes a number into its place.
fn write(walk: &mut Vec<usize>, start: usize, place: usize)
    requires { start < length walk.old.items }
    ensures { walk.new.items ≡ slice_set walk.old.items start place }
{
    walk[start] = place;
}

impl Draft {
    // Enters a node, and notes it where the walk came to it.
    fn note(&mut self, start: usize, node: Node) -> Result<usize, NoMemory>
        requires { start < length self.old.walk.items }
        ensures entered { IfOk result (IsEntered self.old.nodes.items self.new.nodes.items node) }
        ensures noted { IfOk result (λ i.
            self.new.walk.items ≡ slice_set self.old.walk.items start i) }
    {
        let place = enter(&mut self.nodes, node)?;
        write(&mut self.walk, start, place);
        Ok(place)
    }

    // Walks through a term, and gives its node.
    #[cycle(add)]
    fn add(&mut self, alloc: Global, t: &Plain) -> Result<usize, NoMemory>
        requires nodes { AreNodes self.old.nodes.items }
        ensures nodes { OnOk result (AreNodes self.new.nodes.items) }
        ensures walked { OnOk result (HasWalked self.old self.new (subterms (term t.now))) }
        ensures within { IfOk result (λ i. i < length self.new.nodes.items) }
        ensures is { IfOk result (λ i. term_at self.new.nodes.items i ≡ term t.now) }
    {
        let start = self.walk.len();
        self.walk.push(0)?;
        match t {
            Plain::Var(x) => {
                let place = self.note(start, Node::Var(*x))?;
                Ok(place)
            }
            Plain::App(f, us) => {
                let kids = self.add_all(alloc, us)?;
                let place = self.note(start, Node::App(*f, Seq::from_vec(kids)))?;
                Ok(place)
            }
        }
    }

    // Walks through terms, and gives their nodes.
    #[cycle(add)]
    fn add_all(&mut self, alloc: Global, us: &Args) -> Result<Vec<usize>, NoMemory>
        requires nodes { AreNodes self.old.nodes.items }
        ensures nodes { OnOk result (AreNodes self.new.nodes.items) }
        ensures walked { OnOk result (HasWalked self.old self.new (subterms_among us.now)) }
        ensures within { IfOk result (λ ks. All (λ k. k < length self.new.nodes.items) ks.items) }
        ensures are { IfOk result (λ ks.
            pack (map (term_at self.new.nodes.items) ks.items) ≡ us.now) }
    {
        let mut kids = Vec::new(alloc);
        for u in &us.items {
            let place = self.add(alloc, u)?;
            kids.push(place)?;
        }
        Ok(kids)
    }
}

impl Draft {
    // Walks through the plain term of a flat one.
    fn add_flat(&mut self, alloc: Global, t: &Flat) -> Result<usize, NoMemory>
        requires nodes { AreNodes self.old.nodes.items }
        ensures nodes { OnOk result (AreNodes self.new.nodes.items) }
        ensures walked { OnOk result (HasWalked self.old self.new (subterms (plain t.now))) }
        ensures within { IfOk result (λ i. i < length self.new.nodes.items) }
        ensures is { IfOk result (λ i. term_at self.new.nodes.items i ≡ plain t.now) }
    {
        let term = t.to_plain(alloc)?;
        let place = self.add(alloc, &term)?;
        Ok(place)
    }

    // Walks through both sides of each pair, and gives their nodes.
    fn add_pairs(
        &mut self,
        alloc: Global,
        pairs: &[(Flat, Flat)],
    ) -> Result<Vec<(usize, usize)>, NoMemory>
        requires nodes { AreNodes self.old.nodes.items }
        ensures nodes { OnOk result (AreNodes self.new.nodes.items) }
        ensures walked { OnOk result
            (HasWalked self.old self.new (subterms_of (plain_pairs pairs.now))) }
        ensures sides { IfOk result (λ sides. AreSides self.new.nodes.items sides.items
            (plain_pairs pairs.now)) }
    {
        let mut sides = Vec::new(alloc);
        for (left, right) in pairs {
            let l = self.add_flat(alloc, left)?;
            let r = self.add_flat(alloc, right)?;
            sides.push((l, r))?;
        }
        Ok(sides)
    }
}

// Each number once, where it first stands.
fn once(alloc: Global, walk: &[usize]) -> Result<Vec<usize>, NoMemory>
    ensures { IfOk result (λ list. list.items ≡ once_each walk.now) }
{
    let mut list = Vec::new(alloc);
    for i in walk {
        if !list.as_slice().contains(i) {
            list.push(*i)?;
        }
    }
    Ok(list)
}

// Whether the operator has an entry.
fn is_listed(units: &[(OpId, usize)], f: OpId) -> bool
    ensures { IsTrue result ↔ Any (λ p. p.0 ≡ f) units.now }
{
    for (g, _) in units {
        if *g == f {
            return true;
        }
    }
    false
}

// The operator of a node and its identity, if it has one that has no entry.
fn new_unit(sig: &Signature, units: &[(OpId, usize)], node: &Node) -> Option<(OpId, OpId)>
    ensures { IsNewUnit sig.now units.now node.now result }
{
    match node {
        Node::Var(_) => None,
        Node::App(f, _) => match sig.identity(*f) {
            None => None,
            Some(e) => {
                if is_listed(units, *f) {
                    None
                } else {
                    Some((*f, e))
                }
            }
        },
    }
}

// Enters the identities of the operators that head nodes, each with its operator.
fn add_units(
    alloc: Global,
    sig: &Signature,
    nodes: &mut Vec<Node>,
) -> Result<Vec<(OpId, usize)>, NoMemory>
    requires nodes { AreNodes nodes.old.items }
    ensures nodes { OnOk result (AreNodes nodes.new.items) }
    ensures units { IfOk result (λ units. AreUnitsOf sig.now (length nodes.old.items)
        nodes.old.items nodes.new.items units.items) }
{
    let count = nodes.len();
    let mut units = Vec::new(alloc);
    for i in 0..count {
        match new_unit(sig, units.as_slice(), &nodes[i]) {
            None => {}
            Some((f, e)) => {
                let place = enter(nodes, Node::App(e, Seq::new(alloc)))?;
                units.push((f, place))?;
            }
        }
    }
    Ok(units)
}

/// The table of a problem's nodes.
pub fn table_of(alloc: Global, sig: &Signature, problem: &Pairs) -> Result<Table, NoMemory>
    ensures { IfOk result (IsTableOf sig.now (problem_of problem.now)) }
{
    let mut draft = Draft {
        nodes: Vec::new(alloc),
        walk: Vec::new(alloc),
    };
    let sides = draft.add_pairs(alloc, problem.pairs.as_slice())?;
    let Draft { nodes, walk } = draft;
    let subterms = once(alloc, walk.as_slice())?;
    let mut nodes = nodes;
    let units = add_units(alloc, sig, &mut nodes)?;
    Ok(Table::of_parts(nodes, sides, subterms, units))
}
