//! What a module declares: sorts, their order, and operators.
ghost use Rattle.std.specs.Prelude.{◌≡◌, ◌↔◌, IsTrue, MatchOption};
ghost use Rattle.fvn_terms.specs.Signature.{kind, declared, unknown};
ghost use Rattle.fvn_terms.specs.Equality.{identity, is_sum, is_commutative, is_free, IsAssociative, IsCommutative};

use crate::plain::{OpId, SortId};
use fvn_base::Seq;

/// The axioms of an operator: none, commutativity, with associativity, and with an identity constant.
#[derive(Debug, Clone, Copy, PartialEq, Eq)]
pub enum Axioms {
    Free,
    Comm,
    AssocComm,
    AssocCommId(OpId),
}

impl Axioms {
    /// The constant that is the operator's identity.
    pub fn identity(self) -> Option<OpId>
        ensures { result ≡ identity self }
    {
        match self {
            Axioms::Free | Axioms::Comm | Axioms::AssocComm => None,
            Axioms::AssocCommId(e) => Some(e),
        }
    }

    /// Whether terms under the operator are sums: it may move its brackets, and exchange its arguments.
    pub fn is_sum(self) -> bool
        ensures exact { result ≡ is_sum self }
        ensures holds { IsTrue result ↔ IsAssociative self }
    {
        match self {
            Axioms::Free | Axioms::Comm => false,
            Axioms::AssocComm | Axioms::AssocCommId(_) => true,
        }
    }

    /// Whether the operator may exchange its arguments.
    pub fn is_commutative(self) -> bool
        ensures exact { result ≡ is_commutative self }
        ensures holds { IsTrue result ↔ IsCommutative self }
    {
        match self {
            Axioms::Free => false,
            Axioms::Comm | Axioms::AssocComm | Axioms::AssocCommId(_) => true,
        }
    }

    /// Whether the operator has no axioms.
    pub fn is_free(self) -> bool
        ensures { result ≡ is_free self }
    {
        match self {
            Axioms::Free => true,
            Axioms::Comm | Axioms::AssocComm | Axioms::AssocCommId(_) => false,
        }
    }
}

/// One declaration of an operator: the sorts of its arguments and of its result.
#[derive(Drop)]
pub struct Rank {
    pub args: Seq<SortId>,
    pub result: SortId,
}

/// An operator with all its declarations.
#[derive(Drop)]
pub struct OpDecl {
    pub axioms: Axioms,
    pub ranks: Seq<Rank>,
}

/// The sorts of a module with their kinds and their order, and its operators.
///
/// `sorts` is the number of declared sorts; `kinds` has the kind of each sort and then of each kind, which is itself;
/// `below` has each declared pair of a sort and one above it.
#[derive(Drop)]
pub struct Declarations {
    pub sorts: u16,
    pub kinds: Seq<SortId>,
    pub below: Seq<(SortId, SortId)>,
    pub ops: Seq<OpDecl>,
}

impl Declarations {
    /// The kind of a sort; a number that is no sort is its own.
    pub fn kind(&self, s: SortId) -> SortId
        ensures { result ≡ kind self.now s }
    {
        match self.kinds.as_slice().get(usize::from(s.0)) {
            Some(k) => *k,
            None => s,
        }
    }

    /// What is declared of an operator; nothing for a number that is no operator.
    pub fn declared(&self, f: OpId) -> Option<&OpDecl>
        ensures { MatchOption result (declared self.now f ≡ unknown) (λ o.
            o.now ≡ declared self.now f) }
    {
        self.ops.as_slice().get(usize::from(f.0))
    }
}
