//! Sees whether problems may be given to a solver.
ghost use Rattle.std.specs.Prelude.{◌≡◌, ◌≤◌, false, Contains, All, IsTrue, IfOk};
ghost use Rattle.fvn_base.specs.declared.limits.TheConstants.{TERM_SYMBOLS};
ghost use Rattle.fvn_terms.specs.declared.plain.Var.{Var as Variable};
ghost use Rattle.fvn_flat.specs.Fits.{Fits};
ghost use Rattle.fvn_flat.specs.Problems.{variables_of};
ghost use Rattle.fvn_flat.specs.Solving.{IsGiven, problem_of, symbols_of_pairs};

use fvn_combine_tree::table_of;
use fvn_combine_triangular::variables;
use fvn_flat::Pairs;
use fvn_signature::Signature;
use fvn_terms::{NoMemory, Var};
use fvn_tests_samples::are_sides;
use std::alloc::Global;

/// Whether no variable is a fresh one.
fn are_named(vars: &[Var]) -> bool
    ensures { IsTrue result → All (λ x. x.fresh ≡ false) vars.now }
{
    for x in vars {
        if x.fresh {
            return false;
        }
    }
    true
}

/// Whether no variable of the problem is a fresh one.
fn has_named(alloc: Global, sig: &Signature, problem: &Pairs) -> Result<bool, NoMemory>
    ensures { IfOk result (λ r. IsTrue r → (x : Variable) →
        Contains (variables_of (problem_of problem.now)) x → x.fresh ≡ false) }
{
    let table = table_of(alloc, sig, problem)?;
    table.recall_well_made();
    let vars = variables(alloc, &table)?;
    let named = are_named(vars.as_slice());
    Ok(named)
}

/// Whether the sides have few symbols together.
fn is_small(problem: &Pairs) -> bool
    ensures { IsTrue result → symbols_of_pairs problem.now.pairs ≤ TERM_SYMBOLS }
{
    let mut total: u64 = 0;
    for (l, r) in problem.pairs.as_slice() {
        let left = l.size();
        let right = r.size();
        if left > 400 || right > 400 || total > 100 {
            return false;
        }
        total = total + left + right;
    }
    total <= 900
}

/// Whether the pairs are a problem without fresh variables.
pub fn is_problem(alloc: Global, sig: &Signature, problem: &Pairs) -> Result<bool, NoMemory>
    requires { All (λ p. Fits sig.now p.0 × Fits sig.now p.1) problem.now.pairs }
    ensures { IfOk result (λ r. IsTrue r → IsGiven sig.now problem.now 0) }
{
    if !are_sides(alloc, sig, problem)? {
        return Ok(false);
    }
    let named = has_named(alloc, sig, problem)?;
    Ok(named)
}

/// Whether they are one with few symbols.
pub fn is_given(alloc: Global, sig: &Signature, problem: &Pairs) -> Result<bool, NoMemory>
    requires { All (λ p. Fits sig.now p.0 × Fits sig.now p.1) problem.now.pairs }
    ensures { IfOk result (λ r. IsTrue r → (IsGiven sig.now problem.now 0
        × (symbols_of_pairs problem.now.pairs ≤ TERM_SYMBOLS))) }
{
    if !is_small(problem) {
        return Ok(false);
    }
    let given = is_problem(alloc, sig, problem)?;
    Ok(given)
}
