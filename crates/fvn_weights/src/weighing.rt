//! Operators and then equations, one after another: the first whose weight does not fit or that does not fall.
ghost use Rattle.std.specs.Prelude.{◌≡◌, IfOk, IfErr, OnOk};
ghost use Rattle.fvn_terms.specs.Rewriting.{IsTerminating};
ghost use Rattle.fvn_theory.specs.Equations.{equations_of};
ghost use Rattle.fvn_weights.specs.Weighing.{linear, AreWeightsOf, AreWeighed, IsFalling, IsWeighFault};
ghost use Rattle.fvn_weights.specs.inner.Equations.{IsOutcome, IsFaultOf, AllFall, IsEquationFault};

use crate::comparing::{Outcome, shown_by};
use crate::fault::WeighFault;
use crate::fitting::unfit;
use crate::forms::{Form, set_form};
use crate::weights::Weights;
use fvn_signature::Signature;
use fvn_terms::NoMemory;
use fvn_theory::Equation;
use std::alloc::Global;

// The forms of the sides of one equation after the other.
struct Sides {
    left: Form,
    right: Form,
}

impl Drop for Sides {
    fn drop(self) {
        let Sides { left: _, right: _ } = self;
    }
}

// What an equation shows.
fn outcome_of(
    alloc: Global,
    sides: &mut Sides,
    weights: &Weights,
    e: &Equation,
) -> Result<Outcome, NoMemory>
    ensures { IfOk result (IsOutcome (linear weights.now.list) e.now) }
{
    set_form(alloc, &mut sides.left, weights, &e.left)?;
    set_form(alloc, &mut sides.right, weights, &e.right)?;
    let shown = shown_by(&sides.left, &sides.right);
    Ok(shown)
}

// Whether the equation with this number falls.
fn weigh_one(
    alloc: Global,
    sides: &mut Sides,
    weights: &Weights,
    e: &Equation,
    number: usize,
) -> Result<(), WeighFault>
    ensures ok { OnOk result (IsFalling (linear weights.now.list) e.now) }
    ensures err { IfErr result (IsFaultOf (linear weights.now.list) e.now number) }
{
    match outcome_of(alloc, sides, weights, e) {
        Ok(shown) => match shown {
            Outcome::Falling => Ok(()),
            Outcome::Big => Err(WeighFault::TooBig(number)),
            Outcome::Growing => Err(WeighFault::Grows(number)),
        },
        Err(_) => Err(WeighFault::NoMemory),
    }
}

// Whether all equations fall.
fn weigh_all(alloc: Global, weights: &Weights, equations: &[Equation]) -> Result<(), WeighFault>
    ensures ok { OnOk result (AllFall (linear weights.now.list) equations.now) }
    ensures err { IfErr result (IsEquationFault (linear weights.now.list) equations.now) }
{
    let mut sides = Sides {
        left: Form::new(alloc),
        right: Form::new(alloc),
    };
    let mut number: usize = 0;
    for e in equations {
        number += 1;
        match weigh_one(alloc, &mut sides, weights, e, number) {
            Ok(()) => {}
            Err(fault) => return Err(fault),
        }
    }
    Ok(())
}

/// Whether weights show that the equations terminate.
///
/// First the operators are tested, in order, and then the equations, in order: in each, whether its numbers can be
/// compared comes before whether it falls.
pub fn weigh(
    alloc: Global,
    sig: &Signature,
    equations: &[Equation],
    weights: &Weights,
) -> Result<(), WeighFault>
    requires { AreWeightsOf sig.now weights.now.list }
    ensures ok { OnOk result (AreWeighed sig.now equations.now (linear weights.now.list)) }
    ensures terminates { OnOk result (IsTerminating sig.now (equations_of equations.now)) }
    ensures err { IfErr result (IsWeighFault sig.now equations.now (linear weights.now.list)) }
{
    match unfit(sig, weights) {
        Some(f) => Err(WeighFault::Shape(f)),
        None => match weigh_all(alloc, weights, equations) {
            Ok(()) => Ok(()),
            Err(fault) => Err(fault),
        },
    }
}
