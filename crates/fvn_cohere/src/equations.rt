//! Equations by their numbers.
ghost use Rattle.std.specs.Prelude.{◌≡◌, ◌-◌, Some, slice_get};
ghost use Rattle.fvn_cohere.specs.Promises.{IsNumberIn};

use fvn_theory::Equation;

// The equation of a number from 1.
pub(crate) fn equation_at(equations: &[Equation], number: usize) -> &Equation
    requires { IsNumberIn equations.now number }
    ensures { slice_get equations.now (number - 1) ≡ Some result.now }
{
    let place = number - 1;
    &equations[place]
}
