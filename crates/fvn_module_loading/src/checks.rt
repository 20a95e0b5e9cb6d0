//! Checks of equations, over a module.
ghost use Rattle.std.specs.Prelude.{◌↔◌, IsTrue, MatchOption, IfOk};
ghost use Rattle.fvn_terms.specs.Plain.{term};
ghost use Rattle.fvn_theory.specs.Equations.{equations_of};
ghost use Rattle.fvn_rewrite_laws.specs.Choices.{InstancesFit};
ghost use Rattle.fvn_rewrite_laws.specs.Losses.{AreSortDecreasing, IsFirstLoss};
ghost use Rattle.fvn_cohere.specs.Promises.{IsNumberIn, OfEquation, CollapsesAs};
ghost use Rattle.fvn_cohere.specs.LeftFaults.{AreHarmless, IsFirstLeftFault};

use fvn_cohere::{
    Collapse, LeftFault, first_left_fault as fault_of, instances_fit as fit_of,
    left_collapses as collapse_of, sort_loss as loss_of,
};
use fvn_module::Module;
use fvn_terms::NoMemory;
use std::alloc::Global;

/// Whether the left side of an equation of the module, by its number from 1, has at most 4,096 instances by identities,
/// and at most 16,777,216 by sorts and identities.
pub fn instances_fit(alloc: Global, declared: &Module, number: usize) -> Result<bool, NoMemory>
    requires { IsNumberIn declared.now.equations number }
    ensures { IfOk result (λ fit.
        OfEquation declared.now.equations number (λ e.
        IsTrue fit ↔ InstancesFit declared.now.signature (term e.left))) }
{
    let fit = fit_of(alloc, declared.signature(), declared.equations(), number)?;
    Ok(fit)
}

/// What the left side of an equation of the module, by its number from 1, collapses to: to a variable, or else to an
/// identity.
pub fn left_collapses(
    alloc: Global,
    declared: &Module,
    number: usize,
) -> Result<Option<Collapse>, NoMemory>
    requires { IsNumberIn declared.now.equations number }
    ensures { IfOk result (λ c.
        OfEquation declared.now.equations number
        (λ e. CollapsesAs declared.now.signature (term e.left) c)) }
{
    declared.recall_readable();
    let collapse = collapse_of(alloc, declared.signature(), declared.equations(), number)?;
    Ok(collapse)
}

/// What is wrong with the first left side of the module that is at fault.
pub fn first_left_fault(alloc: Global, declared: &Module) -> Result<Option<LeftFault>, NoMemory>
    ensures { IfOk result (λ f. MatchOption f
        (AreHarmless declared.now.signature (equations_of declared.now.equations))
        (IsFirstLeftFault declared.now.signature (equations_of declared.now.equations))) }
{
    declared.recall_readable();
    let fault = fault_of(alloc, declared.signature(), declared.equations())?;
    Ok(fault)
}

/// The number, from 1, of the first equation of the module that is not sort-decreasing; none where each is.
pub fn sort_loss(alloc: Global, declared: &Module) -> Result<Option<usize>, NoMemory>
    ensures { IfOk result (λ n. MatchOption n
        (AreSortDecreasing declared.now.signature (equations_of declared.now.equations))
        (IsFirstLoss declared.now.signature (equations_of declared.now.equations))) }
{
    declared.recall_readable();
    let loss = loss_of(alloc, declared.signature(), declared.equations())?;
    Ok(loss)
}
