//! Lists of variants without those that another one covers.
ghost use Rattle.std.specs.Prelude.{◌≡◌, ◌↔◌, false, IsTrue, IfOk, All, AllPairs, Any};
ghost use Rattle.fvn_cover.specs.Covering.{CoversVariant, AreAlike, IsFlatVariant};
ghost use Rattle.fvn_cover.specs.Pruning.{IsCoveredBySome, IsPruned};
ghost use Rattle.fvn_cover.specs.Adding.{IsLeft, IsAdded};

use crate::keeping::{Kept, all_kept};
use crate::laws::covering_of_variants_is_a_preorder;
use crate::variant::Variant;
use fvn_cover_counts::Unkept;
use fvn_signature::Signature;
use fvn_terms::NoMemory;
use std::alloc::Global;

// Whether some member of the list covers the variant.
pub(crate) fn is_covered(
    alloc: Global,
    sig: &Signature,
    list: &[Kept],
    v: &Kept,
) -> Result<bool, NoMemory>
    requires flat { IsFlatVariant sig.now v.now × All (IsFlatVariant sig.now) list.now }
    requires alike { All (λ k. AreAlike k v.now) list.now }
    ensures { IfOk result (λ r. IsTrue r ↔ IsCoveredBySome sig.now list.now v.now) }
{
    let out = Unkept::of(sig);
    for k in list {
        if k.is_covering(alloc, sig, out, v)? {
            return Ok(true);
        }
    }
    Ok(false)
}

// What one look through a list tells of a variant.
#[derive(Clone, Copy)]
pub(crate) struct Look {
    // Some member of the list covers the variant.
    pub(crate) covered: bool,
    // Marks leave it open that the variant covers a member of the list.
    pub(crate) open: bool,
}

// Whether it was open so far, or is now.
fn is_open(before: bool, now: bool) -> bool
    ensures { result ≡ false → (before ≡ false) × (now ≡ false) }
{
    before || now
}

// One look through the list: the marks of each member are compared both ways, so that a list of which no member is
// covered is gone through once, where all marks refuse it.
pub(crate) fn looked_through(
    alloc: Global,
    sig: &Signature,
    list: &[Kept],
    v: &Kept,
) -> Result<Look, NoMemory>
    requires flat { IsFlatVariant sig.now v.now × All (IsFlatVariant sig.now) list.now }
    requires alike { All (λ k. AreAlike k v.now) list.now }
    ensures covered { IfOk result (λ l. IsTrue l.covered ↔ IsCoveredBySome sig.now list.now v.now) }
    ensures open { IfOk result (λ l. l.open ≡ false → Any (CoversVariant sig.now v.now) list.now
        → ⊥) }
{
    let out = Unkept::of(sig);
    let mut open = false;
    for k in list {
        if k.is_apart_from(sig, out, v) {
            continue;
        }
        if k.is_covering(alloc, sig, out, v)? {
            return Ok(Look {
                covered: true,
                open: true,
            });
        }
        open = is_open(open, v.may_cover(sig, out, k));
    }
    Ok(Look {
        covered: false,
        open,
    })
}

// Whether the variant covers some member of the list.
fn covers_some(alloc: Global, sig: &Signature, list: &[Kept], v: &Kept) -> Result<bool, NoMemory>
    requires flat { IsFlatVariant sig.now v.now × All (IsFlatVariant sig.now) list.now }
    requires alike { All (λ k. AreAlike k v.now) list.now }
    ensures { IfOk result (λ r. IsTrue r ↔ Any (CoversVariant sig.now v.now) list.now) }
{
    let out = Unkept::of(sig);
    for k in list {
        if v.is_covering(alloc, sig, out, k)? {
            return Ok(true);
        }
    }
    Ok(false)
}

// The members of the list that the variant does not cover, moved to a list of their own.
fn without_covered(
    alloc: Global,
    sig: &Signature,
    list: Vec<Kept>,
    v: &Kept,
) -> Result<Vec<Kept>, NoMemory>
    requires flat { IsFlatVariant sig.now v.now × All (IsFlatVariant sig.now) list.items }
    requires alike { All (λ k. AreAlike k v.now) list.items }
    ensures { IfOk result (λ left. IsLeft (CoversVariant sig.now v.now) list.items left.items) }
{
    let mut left = Vec::new(alloc);
    let out = Unkept::of(sig);
    for k in list {
        if !v.is_covering(alloc, sig, out, &k)? {
            left.push(k)?;
        }
    }
    Ok(left)
}

// The members of the list that the variant does not cover; none is moved where it covers none.
fn uncovered(
    alloc: Global,
    sig: &Signature,
    list: Vec<Kept>,
    v: &Kept,
) -> Result<Vec<Kept>, NoMemory>
    requires flat { IsFlatVariant sig.now v.now × All (IsFlatVariant sig.now) list.items }
    requires alike { All (λ k. AreAlike k v.now) list.items }
    ensures { IfOk result (λ left. IsLeft (CoversVariant sig.now v.now) list.items left.items) }
{
    let some = covers_some(alloc, sig, list.as_slice(), v)?;
    if !some {
        return Ok(list);
    }
    let left = without_covered(alloc, sig, list, v)?;
    Ok(left)
}

// The list with the variant, which none of its members covers, and without those that it covers.
pub(crate) fn with_uncovered(
    alloc: Global,
    sig: &Signature,
    list: Vec<Kept>,
    v: Kept,
) -> Result<Vec<Kept>, NoMemory>
    requires flat { IsFlatVariant sig.now v × All (IsFlatVariant sig.now) list.items }
    requires alike { All (λ k. AreAlike k v) list.items }
    requires free { IsCoveredBySome sig.now list.items v → ⊥ }
    ensures { IfOk result (λ after. IsAdded sig.now list.items v after.items) }
{
    let mut after = uncovered(alloc, sig, list, &v)?;
    after.push(v)?;
    Ok(after)
}

/// The list with the variant, if none of its members covers it, and then without those that it covers.
///
/// The members are not copied, and moved only where it covers one.
pub fn with_member(
    alloc: Global,
    sig: &Signature,
    list: Vec<Kept>,
    v: Kept,
) -> Result<Vec<Kept>, NoMemory>
    requires flat { IsFlatVariant sig.now v × All (IsFlatVariant sig.now) list.items }
    requires alike { All (λ k. AreAlike k v) list.items }
    ensures { IfOk result (λ after. IsAdded sig.now list.items v after.items) }
{
    let look = looked_through(alloc, sig, list.as_slice(), &v)?;
    if look.covered {
        return Ok(list);
    }
    if look.open {
        let after = with_uncovered(alloc, sig, list, v)?;
        return Ok(after);
    }
    let mut more = list;
    more.push(v)?;
    Ok(more)
}

// The variants alone.
fn variants(alloc: Global, list: Vec<Kept>) -> Result<Vec<Variant>, NoMemory>
    ensures { IfOk result (λ vs. vs.items ≡ list.items) }
{
    let mut vs = Vec::new(alloc);
    for k in list {
        vs.push(k.into_variant())?;
    }
    Ok(vs)
}

/// The list without those that another member covers; of members that cover each other the first stays.
///
/// The members are moved and not copied. Each is compared with those that are kept when its turn comes.
pub fn prune_kept(alloc: Global, sig: &Signature, list: Vec<Kept>) -> Result<Vec<Variant>, NoMemory>
    requires flat { All (IsFlatVariant sig.now) list.items }
    requires alike { All (λ a. All (AreAlike a) list.items) list.items }
    ensures pruned { IfOk result (λ kept. IsPruned sig.now list.items kept.items) }
{
    covering_of_variants_is_a_preorder();
    let mut kept = Vec::new(alloc);
    for v in list {
        kept = with_member(alloc, sig, kept, v)?;
    }
    let vs = variants(alloc, kept)?;
    Ok(vs)
}

/// The same of a list of which no member covers a later one: each is compared with those before it in one direction.
pub fn prune_folded(
    alloc: Global,
    sig: &Signature,
    list: Vec<Kept>,
) -> Result<Vec<Variant>, NoMemory>
    requires flat { All (IsFlatVariant sig.now) list.items }
    requires alike { All (λ a. All (AreAlike a) list.items) list.items }
    requires folded { AllPairs (λ a b. CoversVariant sig.now a b → ⊥) list.items }
    ensures pruned { IfOk result (λ kept. IsPruned sig.now list.items kept.items) }
{
    covering_of_variants_is_a_preorder();
    let mut kept = Vec::new(alloc);
    for v in list {
        kept = with_uncovered(alloc, sig, kept, v)?;
    }
    let vs = variants(alloc, kept)?;
    Ok(vs)
}

/// The same of variants that are not ready to be compared yet.
pub fn prune(alloc: Global, sig: &Signature, list: Vec<Variant>) -> Result<Vec<Variant>, NoMemory>
    requires flat { All (IsFlatVariant sig.now) list.items }
    requires alike { All (λ a. All (AreAlike a) list.items) list.items }
    ensures pruned { IfOk result (λ kept. IsPruned sig.now list.items kept.items) }
{
    let all = all_kept(alloc, sig, list)?;
    let kept = prune_kept(alloc, sig, all)?;
    Ok(kept)
}
