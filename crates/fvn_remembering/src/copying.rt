//! Copies of unifiers.
ghost use Rattle.std.specs.Prelude.{◌≡◌, IfOk};

use fvn_flat::Subst;
use fvn_terms::NoMemory;
use std::alloc::Global;

// The same substitution, in memory of its own.
fn copied(alloc: Global, s: &Subst) -> Result<Subst, NoMemory>
    ensures { IfOk result (λ r. r ≡ s.now) }
{
    s.recall_bindings();
    let mut all = Subst::empty(alloc);
    for i in 0..s.len() {
        let (x, t) = s.pair(i);
        let form = t.copy(alloc)?;
        all = all.with_pair(x, form)?;
    }
    Ok(all)
}

/// The same substitutions, in memory of their own.
pub(crate) fn copies(alloc: Global, unifiers: &[Subst]) -> Result<Vec<Subst>, NoMemory>
    ensures { IfOk result (λ all. all.items ≡ unifiers.now) }
{
    let mut all = Vec::new(alloc);
    for s in unifiers {
        let copy = copied(alloc, s)?;
        all.push(copy)?;
    }
    Ok(all)
}
