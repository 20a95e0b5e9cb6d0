//! Tables of nodes.
ghost use Rattle.std.specs.Prelude.{◌≡◌, ◌<◌, length, slice_get, Some, IsTrue, ◌↔◌};
ghost use Rattle.fvn_combine_nodes.specs.Table.{IsWellMade};

use fvn_base::Seq;
use fvn_terms::{OpId, Var};
use std::marker::Model;

/// A node: a variable, or an operator over nodes by their numbers.
#[derive(Drop)]
pub enum Node {
    Var(Var),
    App(OpId, Seq<usize>),
}

impl Node {
    /// Whether the two are one node.
    pub fn same(&self, other: &Node) -> bool
        ensures { IsTrue result ↔ (self.now ≡ other.now) }
    {
        match self {
            Node::Var(x) => match other {
                Node::Var(y) => *x == *y,
                Node::App(_, _) => false,
            },
            Node::App(f, ks) => match other {
                Node::Var(_) => false,
                Node::App(g, ls) => *f == *g && ks.as_slice() == ls.as_slice(),
            },
        }
    }
}

/// The different subterms of a problem, each after its arguments, and the identities of its operators.
#[derive(Drop)]
pub struct Table {
    nodes: Vec<Node>,
    sides: Vec<(usize, usize)>,
    subterms: Vec<usize>,
    units: Vec<(OpId, usize)>,
}

impl Model for Table {
    ghost use Rattle.fvn_combine_nodes.specs.Table.{NodeTable, IsWellMade};

    ghost Value = { NodeTable };

    ghost view = { λ t. record { nodes = t.nodes.items; sides = t.sides.items; subterms = t.subterms.items; units = t.units.items } };

    ghost invariant = { λ t. IsWellMade (record { nodes = t.nodes.items; sides = t.sides.items; subterms = t.subterms.items; units = t.units.items }) };
}

impl Table {
    /// The table that has these.
    pub fn of_parts(
        nodes: Vec<Node>,
        sides: Vec<(usize, usize)>,
        subterms: Vec<usize>,
        units: Vec<(OpId, usize)>,
    ) -> Table
        requires { IsWellMade (record {
          nodes = nodes.items;
          sides = sides.items;
          subterms = subterms.items;
          units = units.items;
        }) }
        ensures { result ≡ record {
          nodes = nodes.items;
          sides = sides.items;
          subterms = subterms.items;
          units = units.items;
        } }
    {
        Table {
            nodes,
            sides,
            subterms,
            units,
        }
    }

    /// Tells that the table is well made; it does nothing.
    pub fn recall_well_made(&self)
        ensures { IsWellMade self.now }
    {
        let _nodes = &self.nodes;
    }

    /// The nodes.
    pub fn nodes(&self) -> &[Node]
        ensures { result.now ≡ self.now.nodes }
    {
        self.nodes.as_slice()
    }

    /// One of the nodes.
    pub fn node(&self, i: usize) -> &Node
        requires { i < length self.now.nodes }
        ensures { slice_get self.now.nodes i ≡ Some result.now }
    {
        &self.nodes[i]
    }

    /// The nodes of both sides of each pair.
    pub fn sides(&self) -> &[(usize, usize)]
        ensures { result.now ≡ self.now.sides }
    {
        self.sides.as_slice()
    }

    /// The nodes of the subterms, in the order in which these begin.
    pub fn subterms(&self) -> &[usize]
        ensures { result.now ≡ self.now.subterms }
    {
        self.subterms.as_slice()
    }

    /// The operators with an identity that head a subterm, each with the node of its identity.
    pub fn units(&self) -> &[(OpId, usize)]
        ensures { result.now ≡ self.now.units }
    {
        self.units.as_slice()
    }
}
