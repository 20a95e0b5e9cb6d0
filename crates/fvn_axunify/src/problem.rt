//! A problem as a whole: its variables, whether it is too large, and a copy of it.
ghost use Rattle.std.specs.Prelude.{◌≡◌, ◌<◌, ◌-◌, ◌^◌, ◌↔◌, [], min, IsTrue, IfOk};
ghost use Rattle.fvn_flat.specs.Solving.{symbols_of_pairs};
ghost use Rattle.fvn_axunify.specs.inner.Asked.{with_pairs, AreVariablesOf};

use fvn_base::Seq;
use fvn_flat::{Flat, Pairs};
use fvn_terms::{NoMemory, Var};
use std::alloc::Global;

// The variables of these pairs, each once, in order of first occurrence.
fn variables_of_pairs(alloc: Global, pairs: &[(Flat, Flat)]) -> Result<Vec<Var>, NoMemory>
    ensures { IfOk result (λ vars. vars.items ≡ with_pairs pairs.now []) }
{
    let mut vars = Vec::new(alloc);
    for (left, right) in pairs {
        vars = left.with_variables(vars)?;
        vars = right.with_variables(vars)?;
    }
    Ok(vars)
}

// The variables of the problem, each once.
pub(crate) fn variables(alloc: Global, problem: &Pairs) -> Result<Vec<Var>, NoMemory>
    ensures { IfOk result (λ vars. AreVariablesOf problem.now vars.items) }
{
    let vars = variables_of_pairs(alloc, problem.pairs.as_slice())?;
    Ok(vars)
}

// The symbols of all sides, or the greatest number.
fn symbols(pairs: &[(Flat, Flat)]) -> u64
    ensures { result ≡ min (symbols_of_pairs pairs.now) (2 ^ 64 - 1) }
{
    let mut count: u64 = 0;
    for (a, b) in pairs {
        count = count.saturating_add(a.size()).saturating_add(b.size());
    }
    count
}

// Whether the problem has more symbols than this.
pub(crate) fn is_over(problem: &Pairs, most: u64) -> bool
    requires { most < 2 ^ 64 - 1 }
    ensures { IsTrue result ↔ (most < symbols_of_pairs problem.now.pairs) }
{
    most < symbols(problem.pairs.as_slice())
}

// The pairs, in memory of their own.
fn copied_pairs(alloc: Global, pairs: &[(Flat, Flat)]) -> Result<Vec<(Flat, Flat)>, NoMemory>
    ensures { IfOk result (λ all. all.items ≡ pairs.now) }
{
    let mut all = Vec::new(alloc);
    for (a, b) in pairs {
        let left = a.copy(alloc)?;
        let right = b.copy(alloc)?;
        all.push((left, right))?;
    }
    Ok(all)
}

// The problem, in memory of its own.
pub(crate) fn copied(alloc: Global, problem: &Pairs) -> Result<Pairs, NoMemory>
    ensures { IfOk result (λ p. p ≡ problem.now) }
{
    let pairs = copied_pairs(alloc, problem.pairs.as_slice())?;
    Ok(Pairs {
        pairs: Seq::from_vec(pairs),
    })
}
