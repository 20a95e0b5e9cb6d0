//! Level runs as they grow.
ghost use Rattle.std.specs.Prelude.{◌≡◌, ◌++◌, [], ◌∷◌, map, IfOk};
ghost use Rattle.fvn_cover.specs.Covering.{IsFlatVariant};
ghost use Rattle.fvn_cover.specs.Pruning.{IsPruned};
ghost use Rattle.fvn_fold.specs.inner.Running.{at_depth, lists_of, deep_of, with_next, AreKept};

use crate::copying::copy;
use fvn_base::Seq;
use fvn_cover::{Kept, Variant, prune_folded};
use fvn_exploring::{Deep, ExploreEnd, Explored};
use fvn_signature::Signature;
use fvn_terms::NoMemory;
use std::alloc::Global;

/// A level run: what is kept above its last level, the members of that level, and all, ready to be compared.
#[derive(Drop)]
pub(crate) struct Run {
    pub done: Vec<Deep>,
    pub members: Vec<Variant>,
    pub kept: Vec<Kept>,
}

// The list with these variants, all of one level, at its end.
fn with_depth(
    alloc: Global,
    done: Vec<Deep>,
    members: Vec<Variant>,
    depth: u32,
) -> Result<Vec<Deep>, NoMemory>
    ensures { IfOk result (λ all. all.items ≡ done.items ++ map (at_depth depth) members.items) }
{
    let mut all = done;
    for variant in members {
        all.push(Deep { variant, depth })?;
    }
    Ok(all)
}

/// The run of the start alone.
pub(crate) fn first_run(alloc: Global, sig: &Signature, start: Variant) -> Result<Run, NoMemory>
    requires { IsFlatVariant sig.now start }
    ensures { IfOk result (λ r.
        (r.done.items ≡ []) × (r.members.items ≡ start ∷ []) × (r.kept.items ≡ start ∷ [])) }
{
    let other = copy(alloc, sig, &start)?;
    let own = Kept::new(alloc, sig, other)?;
    let mut kept = Vec::new(alloc);
    kept.push(own)?;
    let mut members = Vec::new(alloc);
    members.push(start)?;
    Ok(Run {
        done: Vec::new(alloc),
        members,
        kept,
    })
}

/// The run with one more level.
pub(crate) fn with_level(
    alloc: Global,
    sig: &Signature,
    run: Run,
    depth: u32,
    next: Vec<Kept>,
) -> Result<Run, NoMemory>
    requires { AreKept sig.now (run.kept.items ++ next.items) }
    ensures { IfOk result (λ r. lists_of r ≡ with_next (lists_of run) depth next.items) }
{
    let Run {
        done,
        members,
        kept,
    } = run;
    let above = with_depth(alloc, done, members, depth)?;
    let mut all = kept;
    let mut last = Vec::new(alloc);
    for k in next {
        let member = copy(alloc, sig, k.variant())?;
        all.push(k)?;
        last.push(member)?;
    }
    Ok(Run {
        done: above,
        members: last,
        kept: all,
    })
}

/// What was explored, where the members of the run are of this level.
pub(crate) fn finish(
    alloc: Global,
    sig: &Signature,
    run: Run,
    depth: u32,
    end: ExploreEnd,
) -> Result<Explored, NoMemory>
    requires { AreKept sig.now run.kept.items }
    ensures kept { IfOk result (λ x. x.kept ≡ deep_of (lists_of run) depth) }
    ensures pruned { IfOk result (λ x. IsPruned sig.now run.kept.items x.variants) }
    ensures end { IfOk result (λ x. x.end ≡ end) }
{
    let Run {
        done,
        members,
        kept,
    } = run;
    let all = with_depth(alloc, done, members, depth)?;
    let given = prune_folded(alloc, sig, kept)?;
    Ok(Explored {
        kept: Seq::from_vec(all),
        variants: Seq::from_vec(given),
        end,
    })
}
