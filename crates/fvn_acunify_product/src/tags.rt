//! The tags of several places, one list of numbers after another.
ghost use Rattle.std.specs.Prelude.{◌≡◌, ◌≢◌, ◌↔◌, ◌⊎◌, ℕ, ◌<◌, ◌≤◌, List, length, false, IsTrue, IfOk, IfSome, MatchOption};
ghost use Rattle.std.specs.List.{AllZip};
ghost use Rattle.fvn_acunify_product.specs.ToCome.{IsGreatest};
ghost use Rattle.fvn_acunify_product.specs.Weight.{product};
ghost use Rattle.fvn_acunify_product.specs.Tags.{AgreesUpTo, IsOption, PendingTags, tags_left};
ghost use Rattle.fvn_acunify_product.specs.inner.Steps.{IsBare, IsEnd, IsLast, IsMoved, IsNext, IsRestarted};
ghost use Rattle.fvn_acunify_product.specs.inner.Skips.{IsEndAfter, IsLowered, IsNextAfter};

use fvn_base::NoMemory;
use std::alloc::Global;
use std::marker::Model;

/// Lists of options, one for each of some places, from the greatest down; none of them is kept but
/// the current one.
#[derive(Drop)]
pub struct Tags {
    counts: Vec<u32>,
    numbers: Vec<u32>,
    is_over: bool,
}

impl Model for Tags {
    ghost use Rattle.std.specs.Prelude.{◌≡◌, if◌then◌else◌, false, Some, None, length};
    ghost use Rattle.std.specs.List.{AllZip};
    ghost use Rattle.fvn_acunify_product.specs.Tags.{Tagging, IsOption};

    ghost Value = { Tagging };

    ghost view = { λ t. record {
      counts = t.counts.items;
      current = (if t.is_over then None else Some t.numbers.items);
    } };

    ghost invariant = { λ t. (length t.numbers.items ≡ length t.counts.items)
        × (t.is_over ≡ false → AllZip IsOption t.counts.items t.numbers.items) };
}

impl Tags {
    /// All lists of options, where each place has so many.
    pub fn new(alloc: Global, counts: Vec<u32>) -> Result<Tags, NoMemory>
        ensures counts { IfOk result (λ t. t.counts ≡ counts.items) }
        ensures all_pending { IfOk result (λ t. (numbers : List ℕ) →
            AllZip IsOption t.counts numbers → PendingTags t numbers) }
        ensures bounded { IfOk result (λ t. tags_left t ≤ product t.counts) }
    {
        let mut numbers = vec![in alloc; 0u32; counts.len()]?;
        let is_over = !first(counts.as_slice(), numbers.as_mut_slice());
        Ok(Tags {
            counts,
            numbers,
            is_over,
        })
    }

    /// The greatest list of options that is still to come.
    pub fn current(&self) -> Option<&[u32]>
        ensures value { MatchOption result (self.now.current ≡ None)
            (λ numbers. self.now.current ≡ Some numbers.now) }
        ensures greatest { IfSome result (λ numbers.
            IsGreatest (PendingTags self.now) numbers.now) }
        ensures exhausted { (result ≡ None)
            ↔ ((numbers : List ℕ) → ¬ PendingTags self.now numbers) }
    {
        if self.is_over {
            None
        } else {
            Some(self.numbers.as_slice())
        }
    }

    /// Passes the current list; takes no memory.
    pub fn advance(&mut self)
        ensures counts { self.new.counts ≡ self.old.counts }
        ensures taken { (numbers : List ℕ) → PendingTags self.old numbers
            ↔ ((self.old.current ≡ Some numbers) ⊎ PendingTags self.new numbers) }
        ensures once { (numbers : List ℕ) →
            PendingTags self.new numbers → self.old.current ≢ Some numbers }
        ensures falls { (numbers : List ℕ) →
            self.old.current ≡ Some numbers → tags_left self.new < tags_left self.old }
    {
        if !self.is_over {
            self.is_over = !step(self.counts.as_slice(), self.numbers.as_mut_slice());
        }
    }

    /// Passes all lists that agree with the current one up to a place; takes no memory.
    pub fn skip(&mut self, place: usize)
        requires within { place < length self.old.counts }
        ensures counts { self.new.counts ≡ self.old.counts }
        ensures taken { (numbers : List ℕ) → PendingTags self.old numbers
            → AgreesUpTo place self.old.current numbers ⊎ PendingTags self.new numbers }
        ensures kept { (numbers : List ℕ) →
            PendingTags self.new numbers → PendingTags self.old numbers }
        ensures passed { (numbers : List ℕ) →
            PendingTags self.new numbers → ¬ AgreesUpTo place self.old.current numbers }
        ensures falls { (numbers : List ℕ) →
            self.old.current ≡ Some numbers → tags_left self.new < tags_left self.old }
    {
        if !self.is_over {
            self.is_over = !step_after(self.counts.as_slice(), self.numbers.as_mut_slice(), place);
        }
    }

    /// Goes back to the start: all lists of options are to come; takes no memory.
    pub fn again(&mut self)
        ensures counts { self.new.counts ≡ self.old.counts }
        ensures all_pending { (numbers : List ℕ) →
            AllZip IsOption self.new.counts numbers → PendingTags self.new numbers }
        ensures bounded { tags_left self.new ≤ product self.new.counts }
    {
        self.is_over = !first(self.counts.as_slice(), self.numbers.as_mut_slice());
    }
}

/// Puts the greatest list of options, or answers that some place has no option.
fn first(counts: &[u32], numbers: &mut [u32]) -> bool
    requires { length numbers.old ≡ length counts.now }

    ensures greatest { IsTrue result → IsGreatest (AllZip IsOption counts.now) numbers.new }
    ensures none { result ≡ false → (x : List ℕ) → AllZip IsOption counts.now x → ⊥ }
{
    restart(counts, numbers, 0)
}

/// Puts the greatest list of options before the one that stands there, or answers that none is.
fn step(counts: &[u32], numbers: &mut [u32]) -> bool
    requires { AllZip IsOption counts.now numbers.old }

    ensures next { IsTrue result → IsNext IsOption counts.now numbers.old numbers.new }
    ensures last { result ≡ false → IsEnd IsOption counts.now numbers.old }
{
    match move_last(counts, numbers) {
        None => false,
        Some(place) => restart(counts, numbers, place + 1),
    }
}

/// Puts the greatest list of options before all that agree with the one that stands there up to a
/// place, or answers that none is.
fn step_after(counts: &[u32], numbers: &mut [u32], place: usize) -> bool
    requires options { AllZip IsOption counts.now numbers.old }
    requires within { place < length counts.now }

    ensures next { IsTrue result → IsNextAfter counts.now place numbers.old numbers.new }
    ensures last { result ≡ false → IsEndAfter counts.now place numbers.old }
{
    lower(numbers, place + 1);
    step(counts, numbers)
}

/// Puts 0 at each place from one on.
fn lower(numbers: &mut [u32], from: usize)
    requires { from ≤ length numbers.old }

    ensures { IsLowered from numbers.old numbers.new }
{
    for place in from..numbers.len() {
        numbers[place] = 0;
    }
}

/// Moves the last place that has a next option to it, and answers that place.
fn move_last(counts: &[u32], numbers: &mut [u32]) -> Option<usize>
    requires { AllZip IsOption counts.now numbers.old }

    ensures moved { IfSome result (λ place.
        IsMoved IsOption counts.now place numbers.old numbers.new) }
    ensures last { result ≡ None → (k : ℕ) → k < length counts.now
        → IsLast IsOption counts.now numbers.old k }
{
    let mut place = numbers.len();
    while place > 0 {
        place -= 1;
        if numbers[place] > 0 {
            numbers[place] -= 1;
            return Some(place);
        }
    }
    None
}

/// Puts the greatest option at each place from one on, or answers that one of them has none.
fn restart(counts: &[u32], numbers: &mut [u32], from: usize) -> bool
    requires sized { length numbers.old ≡ length counts.now }
    requires within { from ≤ length counts.now }

    ensures restarted { IsTrue result →
        IsRestarted IsOption counts.now from numbers.old numbers.new }
    ensures bare { result ≡ false → (k : ℕ) × (from ≤ k) × (k < length counts.now)
        × IsBare IsOption counts.now k }
{
    for place in from..counts.len() {
        if counts[place] == 0 {
            return false;
        }
        numbers[place] = counts[place] - 1;
    }
    true
}
