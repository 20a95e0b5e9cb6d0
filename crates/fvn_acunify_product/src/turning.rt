//! One step of wheels: the last wheel that can moves, and those after it start again.
ghost use Rattle.std.specs.Prelude.{◌≡◌, ℕ, ◌+◌, ◌<◌, ◌≤◌, List, length, map, slice_index_or, false, IsTrue, IfSome};
ghost use Rattle.std.specs.List.{AllZip};
ghost use Rattle.fvn_acunify.specs.Cursor.{Cursor};
ghost use Rattle.fvn_acunify_product.specs.ToCome.{IsGreatest};
ghost use Rattle.fvn_acunify_product.specs.Wheels.{IsChoice, wheel_of};
ghost use Rattle.fvn_acunify_product.specs.inner.Steps.{IsBare, IsEnd, IsLast, IsMoved, IsNext, IsRestarted, Stand};

use fvn_acunify::Choices;

/// Puts the greatest list of choices, or answers that some wheel has no choice.
pub fn first(wheels: &mut [Choices], numbers: &mut [u128]) -> bool
    requires { length numbers.old ≡ length wheels.old }

    ensures same { map wheel_of wheels.new ≡ map wheel_of wheels.old }
    ensures sized { length numbers.new ≡ length numbers.old }
    ensures greatest { IsTrue result →
        IsGreatest (AllZip IsChoice (map wheel_of wheels.old)) numbers.new }
    ensures stands { IsTrue result → Stand wheels.new numbers.new 0 (length wheels.old) }
    ensures none { result ≡ false → (x : List ℕ) →
        AllZip IsChoice (map wheel_of wheels.old) x → ⊥ }
{
    restart(wheels, numbers, 0)
}

/// Puts the greatest list of choices before the one that stands there, or answers that none is.
pub fn step(wheels: &mut [Choices], numbers: &mut [u128]) -> bool
    requires choices { AllZip IsChoice (map wheel_of wheels.old) numbers.old }
    requires stands { Stand wheels.old numbers.old 0 (length wheels.old) }

    ensures same { map wheel_of wheels.new ≡ map wheel_of wheels.old }
    ensures sized { length numbers.new ≡ length numbers.old }
    ensures next { IsTrue result →
        IsNext IsChoice (map wheel_of wheels.old) numbers.old numbers.new }
    ensures standing { IsTrue result → Stand wheels.new numbers.new 0 (length wheels.old) }
    ensures last { result ≡ false → IsEnd IsChoice (map wheel_of wheels.old) numbers.old }
{
    match move_last(wheels, numbers) {
        None => false,
        Some(place) => restart(wheels, numbers, place + 1),
    }
}

/// Moves the last wheel that has a next choice to it, and answers its place.
fn move_last(wheels: &mut [Choices], numbers: &mut [u128]) -> Option<usize>
    requires sized { length numbers.old ≡ length wheels.old }
    requires stands { Stand wheels.old numbers.old 0 (length wheels.old) }

    ensures same { map wheel_of wheels.new ≡ map wheel_of wheels.old }
    ensures moved { IfSome result (λ place.
        IsMoved IsChoice (map wheel_of wheels.old) place numbers.old numbers.new) }
    ensures standing { IfSome result (λ place. Stand wheels.new numbers.new 0 (place + 1)) }
    ensures last { result ≡ None → (k : ℕ) → k < length wheels.old
        → IsLast IsChoice (map wheel_of wheels.old) numbers.old k }
{
    let mut place = wheels.len();
    while place > 0 {
        place -= 1;
        if let Some(number) = wheels[place].next() {
            numbers[place] = number;
            return Some(place);
        }
    }
    None
}

/// Puts the greatest choice on each wheel from a place on, or answers that one of them has none.
fn restart(wheels: &mut [Choices], numbers: &mut [u128], from: usize) -> bool
    requires sized { length numbers.old ≡ length wheels.old }
    requires within { from ≤ length wheels.old }

    ensures same { map wheel_of wheels.new ≡ map wheel_of wheels.old }
    ensures restarted { IsTrue result →
        IsRestarted IsChoice (map wheel_of wheels.old) from numbers.old numbers.new }
    ensures front { (k : ℕ) (c : Cursor) → k < from
        → slice_index_or wheels.new k c ≡ slice_index_or wheels.old k c }
    ensures standing { IsTrue result → Stand wheels.new numbers.new from (length wheels.old) }
    ensures bare { result ≡ false → (k : ℕ) × (from ≤ k) × (k < length wheels.old)
        × IsBare IsChoice (map wheel_of wheels.old) k }
{
    for place in from..wheels.len() {
        match greatest_choice(&mut wheels[place]) {
            None => return false,
            Some(number) => numbers[place] = number,
        }
    }
    true
}

/// The greatest choice on a wheel, wherever its cursor stands.
fn greatest_choice(wheel: &mut Choices) -> Option<u128>
    ensures same { wheel_of wheel.new ≡ wheel_of wheel.old }
    ensures standing { IfSome result (λ b. wheel.new.below ≡ b) }
    ensures valid { IfSome result (IsChoice (wheel_of wheel.old)) }
    ensures greatest { IfSome result (λ b. (a : ℕ) → IsChoice (wheel_of wheel.old) a → a ≤ b) }
    ensures none { result ≡ None → (a : ℕ) → IsChoice (wheel_of wheel.old) a → ⊥ }
{
    wheel.again();
    wheel.next()
}
