//! Lists of unifiers of which none is an instance of another.
ghost use Rattle.std.specs.Prelude.{◌≡◌, ◌≤◌, ◌<◌, length, map, IfOk, All};
ghost use Rattle.fvn_combine.specs.CombineDrawingOnKinds.{IsGivenOnKinds};
ghost use Rattle.fvn_axunify.specs.inner.Asked.{IsAsked};
ghost use Rattle.fvn_axunify.specs.inner.Members.{IsMember, AreKept, IsWith, IsWithEach, IsWithAll};

use crate::task::Task;
use fvn_base::Seq;
use fvn_cover::{
    Kept, Sieve, Variant, covering_of_unifiers_is_instance, covering_of_variants_is_a_preorder,
};
use fvn_flat::Subst;
use fvn_refine::{refine, refinements_cover};
use fvn_terms::NoMemory;
use std::alloc::Global;

// The list with one more unifier, if it is no instance of a member, and then without the instances of it.
fn with_unifier(task: &Task, kept: Sieve, subst: Subst) -> Result<Sieve, NoMemory>
    requires asked { IsAsked task.now.sig.now task.now.problem.now task.now.vars.now
        task.now.first }
    requires kept { AreKept task.now.sig.now task.now.problem.now task.now.vars.now task.now.first
        kept }
    requires member { IsMember task.now.sig.now task.now.problem.now task.now.first subst }
    ensures { IfOk result (λ after.
        IsWith task.now.sig.now task.now.problem.now task.now.vars.now task.now.first kept
        subst after) }
{
    covering_of_variants_is_a_preorder();
    covering_of_unifiers_is_instance();
    subst.recall_bindings();
    let vars = Vec::from_slice(task.alloc, task.vars)?;
    let variant = Variant {
        terms: Seq::new(task.alloc),
        subst,
        vars: Seq::from_vec(vars),
    };
    let v = Kept::new(task.alloc, task.sig, variant)?;
    let after = kept.with_member(task.alloc, task.sig, v)?;
    Ok(after)
}

// The list with more unifiers, as long as it has fewer members than the limit.
fn with_each(task: &Task, kept: Sieve, more: Vec<Subst>) -> Result<Sieve, NoMemory>
    requires asked { IsAsked task.now.sig.now task.now.problem.now task.now.vars.now
        task.now.first }
    requires kept { AreKept task.now.sig.now task.now.problem.now task.now.vars.now task.now.first
        kept }
    requires few { length kept ≤ task.now.limits.unifiers }
    requires members { All (IsMember task.now.sig.now task.now.problem.now task.now.first)
        more.items }
    ensures { IfOk result (λ after.
        IsWithEach task.now.sig.now task.now.problem.now task.now.vars.now task.now.first
        task.now.limits.unifiers kept more.items after) }
{
    let most = task.limits.unifiers as usize;
    let mut all = kept;
    for r in more {
        if most <= all.len() {
            return Ok(all);
        }
        all = with_unifier(task, all, r)?;
    }
    Ok(all)
}

// The list with all that a unifier on kinds comes to with sorts, as long as it has fewer members than the limit.
pub(crate) fn with_refinements(task: &Task, kept: Sieve, g: &Subst) -> Result<Sieve, NoMemory>
    requires asked { IsAsked task.now.sig.now task.now.problem.now task.now.vars.now
        task.now.first }
    requires kept { AreKept task.now.sig.now task.now.problem.now task.now.vars.now task.now.first
        kept }
    requires few { length kept ≤ task.now.limits.unifiers }
    requires given { IsGivenOnKinds task.now.sig.now task.now.problem.now task.now.first
        task.now.limits.size g.now }
    ensures { IfOk result (λ after.
        IsWithAll task.now.sig.now task.now.problem.now task.now.vars.now task.now.first
        task.now.limits.unifiers kept g.now after) }
{
    refinements_cover();
    let more = refine(task.alloc, task.sig, g, task.vars)?;
    let after = with_each(task, kept, more)?;
    Ok(after)
}

// The unifiers alone, of a list of variants.
fn unifiers_of(alloc: Global, kept: Vec<Kept>) -> Result<Vec<Subst>, NoMemory>
    ensures { IfOk result (λ all. all.items ≡ map (λ v. v.subst) kept.items) }
{
    let mut all = Vec::new(alloc);
    for v in kept {
        let variant = v.into_variant();
        all.push(variant.subst)?;
    }
    Ok(all)
}

// The unifiers alone.
pub(crate) fn unifiers(alloc: Global, kept: Sieve) -> Result<Vec<Subst>, NoMemory>
    ensures { IfOk result (λ all. all.items ≡ map (λ v. v.subst) kept) }
{
    let list = kept.into_list();
    let all = unifiers_of(alloc, list)?;
    Ok(all)
}
