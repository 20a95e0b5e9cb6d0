//! The choices of a theory that are listed, from the greatest number down.
ghost use Rattle.std.specs.Prelude.{◌≡◌, ◌↔◌, ℕ, ◌≤◌, ◌^◌, length, Some, None, IfOk, IfErr, IfSome, unwrap_or};
ghost use Rattle.fvn_lindio.specs.Systems.{vectors_of};

use crate::prefix::dead_place;
use crate::theory::{ColumnBounds, OneFault, OneTheory};
use fvn_base::Seq;
use fvn_lindio::Solution;
use std::alloc::Global;
use std::marker::Model;

/// The minimal solutions of a theory's system, and the choices among them that are listed and still
/// to come: all valid ones, or those that are full, or within bounds. Its calls take no memory.
#[derive(Drop)]
pub struct Choices {
    constants: Vec<usize>,
    may_be_zero: Vec<bool>,
    bounds: ColumnBounds,
    basis: Seq<Solution>,
    full: Option<Seq<usize>>,
    sums: Vec<u64>,
    below: u128,
}

impl Model for Choices {
    ghost use Rattle.std.specs.Prelude.{◌≡◌, ◌≤◌, ◌^◌, length};
    ghost use Rattle.fvn_acunify.specs.Cursor.{Cursor};
    ghost use Rattle.fvn_acunify.specs.inner.Prefix.{IsBounded};

    ghost Value = { Cursor };

    ghost view = { λ c. record {
      constants = c.constants.items;
      may_be_zero = c.may_be_zero.items;
      bounds = c.bounds;
      basis = c.basis;
      full = c.full;
      below = c.below;
    } };

    ghost invariant = { λ c. IsBounded (length c.may_be_zero.items) c.constants.items c.basis
        × (length c.sums.items ≡ length c.may_be_zero.items)
        × (c.below ≤ 2 ^ length c.basis) };
}

impl Choices {
    ghost use Rattle.fvn_acunify.specs.Cursor.{Pending, unbounded};
    ghost use Rattle.fvn_acunify.specs.inner.Prefix.{IsBounded};
    ghost use Rattle.fvn_acunify.specs.ValidChoice.{IsListed};

    /// The choices among these solutions, none of them given yet.
    pub(crate) fn over(
        alloc: Global,
        theory: &OneTheory,
        basis: Seq<Solution>,
    ) -> Result<Choices, OneFault>
        requires bounded { IsBounded (length theory.now.may_be_zero) theory.now.constants basis }

        ensures ok { IfOk result (λ c. c ≡ record {
          constants = theory.now.constants;
          may_be_zero = theory.now.may_be_zero;
          bounds = unbounded;
          basis = basis;
          full = None;
          below = 2 ^ length basis;
        }) }
        ensures only_memory { IfErr result (λ fault. fault ≡ OneFault.NoMemory) }
    {
        let constants = Vec::from_slice(alloc, theory.constants.as_slice())?;
        let may_be_zero = Vec::from_slice(alloc, theory.may_be_zero.as_slice())?;
        let bounds = ColumnBounds::none(alloc);
        let sums = vec![in alloc; 0u64; may_be_zero.len()]?;
        let below = 1 << basis.len();
        Ok(Choices {
            constants,
            may_be_zero,
            bounds,
            basis,
            full: None,
            sums,
            below,
        })
    }

    /// The minimal solutions of the theory's system, in lexicographic order.
    pub fn basis(&self) -> &[Solution]
        ensures { result.now ≡ self.now.basis }
    {
        self.basis.as_slice()
    }

    /// The greatest choice that is still to come; bit i says that solution i is chosen.
    ///
    /// No branch of numbers with the same highest bits is entered where these bits already leave no
    /// choice that is listed; it is passed in one step.
    pub fn next(&mut self) -> Option<u128>
        ensures greatest { IfSome result (λ b.
            Pending self.old b × ((a : ℕ) → Pending self.old a → a ≤ b)) }
        ensures exhausted { (result ≡ None) ↔ ((a : ℕ) → ¬ Pending self.old a) }
        ensures taken { self.new ≡ record self.old { below = unwrap_or result 0 } }
    {
        while self.below > 0 {
            let number = self.below - 1;
            let found = dead_place(
                &self.full,
                self.constants.as_slice(),
                self.may_be_zero.as_slice(),
                &self.bounds,
                self.basis.as_slice(),
                number,
                self.sums.as_mut_slice(),
            );
            match found {
                None => {
                    self.below = number;
                    return Some(number);
                }
                Some(place) => self.below = number - number % (1 << place),
            }
        }
        None
    }

    /// Goes back to the start: every choice that is listed is still to come.
    pub fn again(&mut self)
        ensures restarted { self.new ≡ record self.old { below = 2 ^ length self.old.basis } }
        ensures all_pending { (b : ℕ) →
            IsListed self.new.full self.new.constants self.new.may_be_zero self.new.bounds
            (vectors_of self.new.basis) b → Pending self.new b }
    {
        self.below = 1 << self.basis.len();
    }

    /// Lists from now on full choices alone, which take every solution that is zero in all constant
    /// columns, and in all of these others, and goes back to the start.
    pub fn list_full(&mut self, others: Seq<usize>)
        ensures { self.new
            ≡ record self.old { full = Some others; below = 2 ^ length self.old.basis } }
    {
        self.full = Some(others);
        self.again();
    }

    /// Lists from now on only choices within these bounds, and goes back to the start.
    pub fn list_within(&mut self, bounds: ColumnBounds)
        ensures { self.new
            ≡ record self.old { bounds = bounds; below = 2 ^ length self.old.basis } }
    {
        self.bounds = bounds;
        self.again();
    }
}
