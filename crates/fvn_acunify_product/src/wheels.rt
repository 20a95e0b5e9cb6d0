//! The choices of several operators, one list of numbers after another.
ghost use Rattle.std.specs.Prelude.{◌≡◌, ◌≢◌, ◌↔◌, ◌⊎◌, ℕ, ◌<◌, ◌≤◌, List, length, map, slice_index_or, IfOk, IfSome, MatchOption};
ghost use Rattle.std.specs.List.{AllZip};
ghost use Rattle.fvn_acunify_product.specs.ToCome.{IsGreatest};
ghost use Rattle.fvn_acunify_product.specs.Weight.{product};
ghost use Rattle.fvn_acunify_product.specs.Wheels.{IsChoice, PendingChoices, choices_left, counts_of, wheel_of, Wheel};

use crate::turning::{first, step};
use fvn_acunify::Choices;
use fvn_base::NoMemory;
use fvn_lindio::Solution;
use std::alloc::Global;
use std::marker::Model;

/// Lists of choices, one for each of some operators, from the greatest down; none of them is kept
/// but the current one.
#[derive(Drop)]
pub struct Wheels {
    wheels: Vec<Choices>,
    numbers: Vec<u128>,
    is_over: bool,
}

impl Model for Wheels {
    ghost use Rattle.std.specs.Prelude.{◌≡◌, if◌then◌else◌, false, Some, None, length, map};
    ghost use Rattle.std.specs.List.{AllZip};
    ghost use Rattle.fvn_acunify_product.specs.Wheels.{Odometer, IsChoice, wheel_of};
    ghost use Rattle.fvn_acunify_product.specs.inner.Steps.{Stand};

    ghost Value = { Odometer };

    ghost view = { λ w. record {
      wheels = map wheel_of w.wheels.items;
      current = (if w.is_over then None else Some w.numbers.items);
    } };

    ghost invariant = { λ w. (length w.numbers.items ≡ length w.wheels.items)
        × (w.is_over ≡ false → AllZip IsChoice (map wheel_of w.wheels.items) w.numbers.items
        × Stand w.wheels.items w.numbers.items 0 (length w.wheels.items)) };
}

impl Wheels {
    /// All lists of choices, one a wheel, wherever the cursors stand.
    pub fn new(alloc: Global, mut wheels: Vec<Choices>) -> Result<Wheels, NoMemory>
        ensures wheels { IfOk result (λ o. o.wheels ≡ map wheel_of wheels.items) }
        ensures all_pending { IfOk result (λ o. (numbers : List ℕ) →
            AllZip IsChoice o.wheels numbers → PendingChoices o numbers) }
        ensures bounded { IfOk result (λ o. choices_left o ≤ product (counts_of o.wheels)) }
    {
        let mut numbers = vec![in alloc; 0u128; wheels.len()]?;
        let is_over = !first(wheels.as_mut_slice(), numbers.as_mut_slice());
        Ok(Wheels {
            wheels,
            numbers,
            is_over,
        })
    }

    /// The solutions that the choices on a wheel are of.
    pub fn basis(&self, place: usize) -> &[Solution]
        requires { place < length self.now.wheels }
        ensures { (w : Wheel) → result.now ≡ (slice_index_or self.now.wheels place w).basis }
    {
        self.wheels[place].basis()
    }

    /// The greatest list of choices that is still to come.
    pub fn current(&self) -> Option<&[u128]>
        ensures value { MatchOption result (self.now.current ≡ None)
            (λ numbers. self.now.current ≡ Some numbers.now) }
        ensures greatest { IfSome result (λ numbers.
            IsGreatest (PendingChoices self.now) numbers.now) }
        ensures exhausted { (result ≡ None)
            ↔ ((numbers : List ℕ) → ¬ PendingChoices self.now numbers) }
    {
        if self.is_over {
            None
        } else {
            Some(self.numbers.as_slice())
        }
    }

    /// Passes the current list; takes no memory.
    pub fn advance(&mut self)
        ensures wheels { self.new.wheels ≡ self.old.wheels }
        ensures taken { (numbers : List ℕ) → PendingChoices self.old numbers
            ↔ ((self.old.current ≡ Some numbers) ⊎ PendingChoices self.new numbers) }
        ensures once { (numbers : List ℕ) →
            PendingChoices self.new numbers → self.old.current ≢ Some numbers }
        ensures falls { (numbers : List ℕ) →
            self.old.current ≡ Some numbers → choices_left self.new < choices_left self.old }
    {
        if !self.is_over {
            self.is_over = !step(self.wheels.as_mut_slice(), self.numbers.as_mut_slice());
        }
    }

    /// Goes back to the start: all lists of choices are to come; takes no memory.
    pub fn again(&mut self)
        ensures wheels { self.new.wheels ≡ self.old.wheels }
        ensures all_pending { (numbers : List ℕ) →
            AllZip IsChoice self.new.wheels numbers → PendingChoices self.new numbers }
        ensures bounded { choices_left self.new ≤ product (counts_of self.new.wheels) }
    {
        self.is_over = !first(self.wheels.as_mut_slice(), self.numbers.as_mut_slice());
    }
}
