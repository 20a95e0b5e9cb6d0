//! Whether the instances of an equation are within the limits.
ghost use Rattle.std.specs.Prelude.{◌≡◌, ◌≤◌, ◌*◌, ◌↔◌, ◌+◌, length, IsTrue, IfOk};
ghost use Rattle.fvn_base.specs.declared.limits.TheConstants.{IDENTITY_INSTANCES, SORT_INSTANCES};
ghost use Rattle.fvn_terms.specs.Plain.{term};
ghost use Rattle.fvn_rewrite_laws.specs.Identities.{identities};
ghost use Rattle.fvn_rewrite_laws.specs.Choices.{identities_below, sorts_below, InstancesFit};
ghost use Rattle.fvn_cohere.specs.Promises.{IsNumberIn, OfEquation};
ghost use Rattle.fvn_cohere.specs.inner.Capped.{capped};

use crate::equations::equation_at;
use crate::identities::{identities, identities_below, sorts_below};
use crate::variables::distinct_variables;
use fvn_base::limits::{IDENTITY_INSTANCES, SORT_INSTANCES};
use fvn_signature::Signature;
use fvn_terms::{NoMemory, OpId, Plain, SortId};
use fvn_theory::Equation;
use std::alloc::Global;

// How many identities and how many sorts stand at or below a sort.
fn counts(
    alloc: Global,
    sig: &Signature,
    es: &[OpId],
    s: SortId,
) -> Result<(usize, usize), NoMemory>
    requires { es.now ≡ identities sig.now }
    ensures { IfOk result (λ n.
        (n.0 ≡ length (identities_below sig.now s)) × (n.1 ≡ length (sorts_below sig.now s))) }
{
    let below = identities_below(alloc, sig, es, s)?;
    let sorts = sorts_below(alloc, sig, s)?;
    Ok((below.as_slice().len(), sorts.as_slice().len()))
}

// The product with a sum, or the greatest number.
fn times(count: u64, more: usize, others: usize) -> u64
    ensures { result ≡ capped (count * capped (more + others)) }
{
    let sum = (more as u64).saturating_add(others as u64);
    count.saturating_mul(sum)
}

// Whether both products are within the limits.
fn are_within(by_identities: u64, by_sorts: u64) -> bool
    ensures { IsTrue result ↔ ((by_identities ≤ IDENTITY_INSTANCES) × (by_sorts ≤ SORT_INSTANCES)) }
{
    if IDENTITY_INSTANCES < by_identities {
        return false;
    }
    by_sorts <= SORT_INSTANCES
}

// Whether both products are within their limits for the left side.
fn fits(alloc: Global, sig: &Signature, left: &Plain) -> Result<bool, NoMemory>
    ensures { IfOk result (λ fit. IsTrue fit ↔ InstancesFit sig.now (term left.now)) }
{
    let es = identities(alloc, sig)?;
    let vars = distinct_variables(alloc, left)?;
    let mut by_identities: u64 = 1;
    let mut by_sorts: u64 = 1;
    for x in vars.as_slice() {
        let n = counts(alloc, sig, es.as_slice(), x.sort)?;
        let few = times(by_identities, 1, n.0);
        let many = times(by_sorts, n.1, n.0);
        by_identities = few;
        by_sorts = many;
    }
    Ok(are_within(by_identities, by_sorts))
}

/// Whether the left side of an equation, by its number from 1, has at most 4,096 instances by
/// identities, and at most 16,777,216 by sorts and identities.
///
/// It takes both products of the choices of its variables in one pass.
pub fn instances_fit(
    alloc: Global,
    sig: &Signature,
    equations: &[Equation],
    number: usize,
) -> Result<bool, NoMemory>
    requires { IsNumberIn equations.now number }
    ensures { IfOk result (λ fit.
        OfEquation equations.now number (λ e.
        IsTrue fit ↔ InstancesFit sig.now (term e.left))) }
{
    let e = equation_at(equations, number);
    let fit = fits(alloc, sig, &e.left)?;
    Ok(fit)
}
