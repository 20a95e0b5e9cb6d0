//! Answers that are kept.
ghost use Rattle.std.specs.Prelude.{◌≡◌, IsTrue, IfOk};
ghost use Rattle.fvn_remembering.specs.Answers.{told_of};

use crate::copying::copies;
use fvn_base::Seq;
use fvn_flat::{Flat, SolveEnd, Solved, Subst};
use fvn_terms::NoMemory;
use std::alloc::Global;

/// A complete answer to a problem of one pair.
#[derive(Drop)]
pub(crate) struct Answer {
    pub(crate) first: Flat,
    pub(crate) second: Flat,
    pub(crate) unifiers: Seq<Subst>,
    pub(crate) next_fresh: u32,
}

impl Answer {
    /// Whether it is one to the pair of these two.
    pub(crate) fn is_to(&self, t: &Flat, u: &Flat) -> bool
        ensures { IsTrue result → (self.now.first ≡ t.now) × (self.now.second ≡ u.now) }
    {
        let first = self.first.same(t);
        if !first {
            return false;
        }
        self.second.same(u)
    }

    /// The answer as a solver tells it, in memory of its own.
    pub(crate) fn told(&self, alloc: Global) -> Result<Solved, NoMemory>
        ensures { IfOk result (λ r. r ≡ told_of self.now) }
    {
        let unifiers = copies(alloc, self.unifiers.as_slice())?;
        Ok(Solved {
            unifiers: Seq::from_vec(unifiers),
            next_fresh: self.next_fresh,
            end: SolveEnd::Complete,
        })
    }
}
