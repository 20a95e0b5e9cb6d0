//! Terms with fresh variables.
ghost use Rattle.std.specs.Prelude.{◌≡◌, ◌≢◌, ◌+◌, ◌<◌, ◌≤◌, ◌^◌, length, AllPairs, Contains, IfOk};
ghost use Rattle.fvn_base.specs.declared.limits.TheConstants.{FIRST_FRESH};
ghost use Rattle.fvn_terms.specs.declared.declarations.Declarations.{Declarations};
ghost use Rattle.fvn_forms.specs.Flat.{symbols};
ghost use Rattle.fvn_forms.specs.Canon.{inst};
ghost use Rattle.fvn_flat.specs.Fits.{Fits};
ghost use Rattle.fvn_flat.specs.Bindings.{value, BindingsFit};
ghost use Rattle.fvn_flat.specs.Variables.{listed, with_variable, with_variables, distinct_variables, renaming, fresh_names, OccursInForm, RenamesApart};

use crate::flat::{Flat, Node};
use crate::substitution::Subst;
use fvn_signature::Signature;
use fvn_terms::{NoMemory, Var};
use std::alloc::Global;

/// Whether the variable stands in the list.
pub fn is_listed(vars: &[Var], x: Var) -> bool
    ensures { result ≡ listed vars.now x }
{
    for y in vars {
        if *y == x {
            return true;
        }
    }
    false
}

/// The variables with one more at the end, if it is not there yet.
pub fn with_variable(vars: Vec<Var>, x: Var) -> Result<Vec<Var>, NoMemory>
    ensures { IfOk result (λ all. all.items ≡ with_variable vars.items x) }
{
    let mut all = vars;
    if is_listed(all.as_slice(), x) {
        return Ok(all);
    }
    all.push(x)?;
    Ok(all)
}

impl Flat {
    /// The list with the term's variables that are not there yet, in order of first occurrence.
    pub fn with_variables(&self, vars: Vec<Var>) -> Result<Vec<Var>, NoMemory>
        ensures { IfOk result (λ all. all.items ≡ with_variables self.now vars.items) }
    {
        match &self.node {
            Node::Var(x) => {
                let all = with_variable(vars, *x)?;
                Ok(all)
            }
            Node::App(_, _, ts) => {
                let mut all = vars;
                for t in ts {
                    all = t.with_variables(all)?;
                }
                Ok(all)
            }
        }
    }
}

// Fresh variables for those of the list, numbered along it, and the next number.
fn renaming(alloc: Global, vars: &[Var], first: u32) -> Result<(Vec<(Var, Flat)>, u32), NoMemory>
    requires { first + length vars.now < 2 ^ 32 }
    ensures named { IfOk result (λ r. r.0.items ≡ renaming first vars.now) }
    ensures next { IfOk result (λ r. r.1 ≡ first + length vars.now) }
{
    let mut pairs = Vec::new(alloc);
    let mut next = first;
    for x in vars {
        let fresh = Var {
            name: next,
            sort: x.sort,
            fresh: true,
        };
        pairs.push((*x, Flat::var(fresh)))?;
        next += 1;
    }
    Ok((pairs, next))
}

/// Fresh variables of the same sorts for those of the list, numbered along it from `first`, and the next free number.
pub fn fresh_variables(alloc: Global, vars: &[Var], first: u32) -> Result<(Subst, u32), NoMemory>
    requires once { AllPairs ◌≢◌ vars.now }
    requires number { first + length vars.now < 2 ^ 32 }
    ensures named { IfOk result (λ r. r.0 ≡ renaming first vars.now) }
    ensures apart { IfOk result (λ r. RenamesApart (Contains vars.now) first r.1 (value r.0)) }
    ensures next { IfOk result (λ r. r.1 ≡ first + length vars.now) }
    ensures fits { IfOk result (λ r. (d : Declarations) → BindingsFit d r.0) }
{
    let (pairs, next) = renaming(alloc, vars, first)?;
    let s = Subst { pairs };
    Ok((s, next))
}

/// The term with its variables renamed to fresh ones of the same sorts, and the next free number.
///
/// They are numbered from `first` in order of first occurrence, and stay below `NEXT_FRESH`.
pub fn rename_apart(
    alloc: Global,
    sig: &Signature,
    t: &Flat,
    first: u32,
) -> Result<(Flat, u32), NoMemory>
    requires term { Fits sig.now t.now }
    requires number { first ≤ FIRST_FRESH }
    requires size { symbols t.now ≤ FIRST_FRESH }
    // Distinct variables go to distinct fresh ones, numbered from `first` up to below the next number.
    ensures renamed { IfOk result (λ r. r.0 ≡ inst sig.now (fresh_names first t.now) t.now) }
    ensures apart { IfOk result (λ r.
        RenamesApart (OccursInForm t.now) first r.1 (fresh_names first t.now)) }
    ensures next { IfOk result (λ r. r.1 ≡ first + length (distinct_variables t.now)) }
    ensures fits { IfOk result (λ r. Fits sig.now r.0) }
{
    let vars = t.with_variables(Vec::new(alloc))?;
    let (s, next) = fresh_variables(alloc, vars.as_slice(), first)?;
    let u = s.apply(alloc, sig, t)?;
    Ok((u, next))
}
