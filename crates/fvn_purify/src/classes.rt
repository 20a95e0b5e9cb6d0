//! What splits speak of.
use fvn_base::Seq;
use fvn_combine_nodes::Table;
use fvn_flat::Flat;
use fvn_terms::OpId;

/// What heads the value of a part: the theory of the free operators, that of a commutative
/// operator, that of an associative one, or nothing but an identity.
#[derive(Clone, Copy, PartialEq, Eq)]
pub enum Head {
    Free,
    Pair(OpId),
    Sum(OpId),
    Identity(OpId),
}

/// The nodes of the parts, those of the parts that have a head, and the pairs of commutative nodes.
#[derive(Drop)]
pub struct Places {
    pub parts: Seq<usize>,
    pub headed: Seq<usize>,
    pub pairs: Seq<(usize, usize)>,
}

/// The parts of a problem, its operators with axioms, and its pairs of subterms that one
/// commutative operator heads; the table of its nodes, and the numbers of parts and pairs in it.
#[derive(Drop)]
pub struct Classes {
    pub parts: Seq<Flat>,
    pub ops: Seq<OpId>,
    pub pairs: Seq<(Flat, Flat)>,
    pub table: Table,
    pub places: Places,
}
