//! Collects a signature.
ghost use Rattle.std.specs.Prelude.{◌≡◌, ◌<◌, ◌≤◌, ◌+◌, max, [], ◌∷◌, ◌++◌, All, IfOk};
ghost use Rattle.fvn_base.specs.declared.limits.TheConstants.{SORTS};
ghost use Rattle.fvn_signature_draft.specs.Collected.{Names};
ghost use Rattle.fvn_signature_draft.specs.Tops.{tops};

use fvn_base::Seq;
use fvn_signature_draft::{Collected, Declaration, tops};
use fvn_terms::{Axioms, NoMemory, OpId, Rank, SortId};
use std::alloc::Global;
use std::marker::Model;

/// Collects sorts, pairs of their order and declarations of operators.
///
/// `finish` makes a signature of them. A call that finds no memory drops the builder.
#[derive(Drop)]
pub struct SignatureBuilder {
    pub(crate) collected: Collected,
}

impl Model for SignatureBuilder {
    ghost use Rattle.fvn_signature_draft.specs.declared.collected.Collected.{Collected};
    ghost use Rattle.fvn_signature_draft.specs.Collected.{IsClosed};

    ghost Value = { Collected };

    ghost view = { λ b. b.collected };

    ghost invariant = { λ b. IsClosed b.collected };
}

impl SignatureBuilder {
    /// Nothing collected.
    pub fn new(alloc: Global) -> SignatureBuilder
        ensures { result ≡ record { sorts = 0; below = []; operators = 0; declarations = [] } }
    {
        SignatureBuilder {
            collected: Collected {
                sorts: 0,
                below: Seq::new(alloc),
                operators: 0,
                declarations: Seq::new(alloc),
            },
        }
    }

    /// The number of sorts so far.
    pub fn sort_count(&self) -> u16
        ensures { result ≡ self.now.sorts }
    {
        self.collected.sorts
    }

    /// The number of operators so far.
    pub fn op_count(&self) -> u16
        ensures { result ≡ self.now.operators }
    {
        self.collected.operators
    }

    /// One more sort, with the next number.
    pub fn sort(self) -> Result<SignatureBuilder, NoMemory>
        requires { self.sorts < 32767 }
        ensures { IfOk result (λ b. b ≡ record self { sorts = self.sorts + 1 }) }
    {
        let mut collected = self.collected;
        collected.sorts += 1;
        Ok(SignatureBuilder { collected })
    }

    /// `low` is declared below `high`.
    pub fn subsort(self, low: SortId, high: SortId) -> Result<SignatureBuilder, NoMemory>
        requires low { low.0 < self.sorts }
        requires high { high.0 < self.sorts }
        ensures { IfOk result (λ b. b ≡ record self { below = self.below ++ (low, high) ∷ [] }) }
    {
        let Collected {
            sorts,
            below,
            operators,
            declarations,
        } = self.collected;
        let mut below = below.into_vec();
        below.push((low, high))?;
        Ok(SignatureBuilder {
            collected: Collected {
                sorts,
                below: Seq::from_vec(below),
                operators,
                declarations,
            },
        })
    }

    /// One more declaration, of a known operator or of the next one.
    pub fn op(
        self,
        op: OpId,
        rank: Rank,
        partial: bool,
        axioms: Axioms,
    ) -> Result<SignatureBuilder, NoMemory>
        requires known_or_next { op.0 ≤ self.operators }
        requires room { self.operators < u16.MAX }
        requires args { All (Names self.sorts) rank.args }
        requires gives { Names self.sorts rank.result }
        ensures { IfOk result (λ b. b ≡ record self {
          operators = max self.operators (op.0 + 1);
          declarations = self.declarations ++ record { op = op; rank = rank; partial = partial; axioms = axioms } ∷ [];
        }) }
    {
        let Collected {
            sorts,
            below,
            operators,
            declarations,
        } = self.collected;
        let mut declarations = declarations.into_vec();
        declarations.push(Declaration {
            op,
            rank,
            partial,
            axioms,
        })?;
        Ok(SignatureBuilder {
            collected: Collected {
                sorts,
                below,
                operators: operators.max(op.0 + 1),
                declarations: Seq::from_vec(declarations),
            },
        })
    }

    /// The sort after which each kind is named, in the order of the kinds: the first of its maximal sorts.
    ///
    /// Where a cycle of the order leaves a kind without a maximal sort, it is the kind itself.
    pub fn tops(&self, alloc: Global) -> Result<Seq<SortId>, NoMemory>
        requires { self.now.sorts ≤ SORTS }
        ensures { IfOk result (λ list. list ≡ tops self.now) }
    {
        tops(alloc, &self.collected)
    }
}
