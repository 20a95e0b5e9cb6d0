//! Good signatures.
ghost use Rattle.std.specs.Prelude.{◌≡◌, ◌+◌, ◌<◌, ◌↔◌, IsTrue, IfOk, length, slice_get, Some};
ghost use Rattle.fvn_terms.specs.declared.plain.SortId.{SortId};
ghost use Rattle.fvn_terms.specs.Signature.{kind, axioms, AtOrBelow, IsSort};
ghost use Rattle.fvn_terms.specs.Equality.{identity};
ghost use Rattle.fvn_forms.specs.Good.{IsGood, TakesKinds};
ghost use Rattle.fvn_forms.specs.Ranks.{ranks_of, IsResult, result as least_result};
ghost use Rattle.fvn_signature.specs.Queries.{arity, direct_subsorts, GivesKind, IsKind, IsCompleted};

use crate::draft::Draft;
use crate::queries::subsorts::all_direct_subsorts;
use fvn_base::Seq;
use fvn_terms::{Axioms, Declarations, NoMemory, OpId, Rank, SortId};
use std::alloc::Global;
use std::marker::Model;

/// A good signature, seen as its declarations with kinds.
///
/// It is made of a draft that is good. No query takes memory. An operator that is not known has no
/// axioms, no ranks and no arguments.
pub struct Signature {
    draft: Draft,
    direct: Vec<Seq<SortId>>,
}

impl Drop for Signature {
    fn drop(self) {
        let Signature {
            draft: _,
            direct: _,
        } = self;
    }
}

impl Model for Signature {
    ghost use Rattle.fvn_terms.specs.declared.declarations.Declarations.{Declarations};

    ghost Value = { Declarations };

    ghost view = { λ s. s.draft.declarations };

    ghost use Rattle.fvn_signature.specs.inner.Kept.{IsKept};

    ghost invariant = { λ s. IsKept s.draft s.direct.items };
}

impl Signature {
    /// The signature of a draft that is good.
    pub fn from_draft(alloc: Global, draft: Draft) -> Result<Signature, NoMemory>
        requires good { IsGood draft.declarations }
        requires completed { IsCompleted draft.declarations }
        ensures { IfOk result (λ s. s ≡ draft.declarations) }
    {
        let direct = all_direct_subsorts(alloc, &draft)?;
        Ok(Signature { draft, direct })
    }

    /// Tells that the signature is good; it does nothing.
    pub fn recall_good(&self)
        ensures { IsGood self.now }
    {
        let _draft = &self.draft;
    }

    /// Tells that sorts, kinds, the order and the operators go together; it does nothing.
    pub fn recall_completed(&self)
        ensures { IsCompleted self.now }
    {
        let _draft = &self.draft;
    }

    /// The declarations, with kinds.
    pub fn declarations(&self) -> &Declarations
        ensures { result.now ≡ self.now }
    {
        &self.draft.declarations
    }

    /// Whether `low` is `high` or below it.
    pub fn leq(&self, low: SortId, high: SortId) -> bool
        ensures { IsTrue result ↔ AtOrBelow self.now low high }
    {
        self.draft.is_at_or_below(low, high)
    }

    /// The kind of a sort; a kind is its own.
    pub fn kind(&self, s: SortId) -> SortId
        ensures exact { result ≡ kind self.now s }
        ensures is_kind { IsSort self.now s → IsKind self.now result }
    {
        self.draft.declarations.kind(s)
    }

    /// The kind of what an operator gives, the same by each of its declarations.
    pub fn operator_kind(&self, op: OpId) -> SortId
        ensures { GivesKind self.now op result }
    {
        self.draft.first_kind(op)
    }

    /// The least sort to which the operator takes arguments of these sorts.
    ///
    /// Over two arguments it is read from a table; over others it costs a pass through the ranks, at worst
    /// one for each of them.
    pub fn result(&self, op: OpId, args: &[SortId]) -> SortId
        ensures exact { result ≡ least_result self.now op args.now }
        ensures least { TakesKinds self.now op args.now → IsResult self.now op args.now result }
    {
        self.draft.result(op, args)
    }

    /// The axioms of an operator.
    pub fn axioms(&self, op: OpId) -> Axioms
        ensures { result ≡ axioms self.now op }
    {
        self.draft.axioms(op)
    }

    /// The identity of an operator.
    pub fn identity(&self, op: OpId) -> Option<OpId>
        ensures { result ≡ identity (axioms self.now op) }
    {
        self.axioms(op).identity()
    }

    /// The number of arguments of an operator.
    pub fn arity(&self, op: OpId) -> usize
        ensures { result ≡ arity self.now op }
    {
        match self.draft.declared_ranks(op).first() {
            Some(rank) => rank.args.len(),
            None => 0,
        }
    }

    /// The number of ranks that serve an operator: declared, on kinds, and for a commutative one swapped.
    ///
    /// One rank may stand there several times.
    pub fn rank_count(&self, op: OpId) -> usize
        ensures { result ≡ length (ranks_of self.now op) }
    {
        self.draft.ranks_of(op).len()
    }

    /// A rank that serves an operator, by its number.
    pub fn rank(&self, op: OpId, i: usize) -> &Rank
        requires { i < length (ranks_of self.now op) }
        ensures { slice_get (ranks_of self.now op) i ≡ Some result.now }
    {
        &self.draft.ranks_of(op)[i]
    }

    /// The declared sorts right below a sort; of a kind, its maximal sorts.
    fn direct_of(&self, s: SortId) -> &[SortId]
        requires { IsSort self.now s }
        ensures { result.now ≡ direct_subsorts self.now s }
    {
        match self.direct.get(usize::from(s.0)) {
            Some(list) => list.as_slice(),
            None => &[],
        }
    }

    /// One of the declared sorts right below a sort, in the order of declaration.
    pub fn direct_subsort(&self, s: SortId, i: usize) -> SortId
        requires sort { IsSort self.now s }
        requires number { i < length (direct_subsorts self.now s) }
        ensures { slice_get (direct_subsorts self.now s) i ≡ Some result }
    {
        self.direct_of(s)[i]
    }

    /// The number of declared sorts.
    pub fn sort_count(&self) -> usize
        ensures { result ≡ self.now.sorts }
    {
        usize::from(self.draft.declarations.sorts)
    }

    /// The number of kinds.
    pub fn kind_count(&self) -> usize
        ensures { result + self.now.sorts ≡ length self.now.kinds }
    {
        usize::from(self.draft.total) - usize::from(self.draft.declarations.sorts)
    }

    /// The number of operators.
    pub fn op_count(&self) -> usize
        ensures { result ≡ length self.now.ops }
    {
        self.draft.declarations.ops.len()
    }
}

/// Takes only what may be sent to and shared between threads.
fn shared<T: Send + Sync>(_value: &T) {}

/// Signatures may be sent to and shared between threads.
pub fn all_shared(signature: &Signature) {
    shared(signature);
}
