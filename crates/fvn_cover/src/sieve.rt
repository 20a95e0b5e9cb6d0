//! Lists that grow by one variant after another, with the marks of all members in blocks.
ghost use Rattle.std.specs.Prelude.{◌≡◌, ◌↔◌, ◌++◌, ◌∷◌, false, [], length, IsTrue, IfOk, All, Any};
ghost use Rattle.fvn_cover.specs.Covering.{CoversVariant, AreAlike, IsFlatVariant};
ghost use Rattle.fvn_cover.specs.Pruning.{IsCoveredBySome};
ghost use Rattle.fvn_cover.specs.Adding.{IsAdded};
ghost use Rattle.fvn_cover.specs.inner.Sieved.{HaveMarksIn};

use crate::keeping::Kept;
use crate::pruning::{Look, looked_through, with_uncovered};
use fvn_cover_counts::{MarkBlocks, Unkept};
use fvn_signature::Signature;
use fvn_terms::NoMemory;
use std::alloc::Global;
use std::marker::Model;

// The marks of all.
fn marks_of(alloc: Global, list: &[Kept]) -> Result<MarkBlocks, NoMemory>
    ensures { IfOk result (λ all. HaveMarksIn all list.now) }
{
    let mut all = MarkBlocks::new(alloc);
    for k in list {
        all = all.with_marks(alloc, k.own_marks())?;
    }
    Ok(all)
}

// One look through the list, if the marks do not refuse all of it.
fn looked_over(
    alloc: Global,
    sig: &Signature,
    list: &[Kept],
    marks: &MarkBlocks,
    v: &Kept,
) -> Result<Look, NoMemory>
    requires marks { HaveMarksIn marks.now list.now }
    requires flat { IsFlatVariant sig.now v.now × All (IsFlatVariant sig.now) list.now }
    requires alike { All (λ k. AreAlike k v.now) list.now }
    ensures covered { IfOk result (λ l. IsTrue l.covered ↔ IsCoveredBySome sig.now list.now v.now) }
    ensures open { IfOk result (λ l. l.open ≡ false → Any (CoversVariant sig.now v.now) list.now
        → ⊥) }
{
    let out = Unkept::of(sig);
    let own = v.own_marks();
    let apart = marks.refuses(out, &own);
    if apart {
        return Ok(Look {
            covered: false,
            open: false,
        });
    }
    let look = looked_through(alloc, sig, list, v)?;
    Ok(look)
}

// The list with the variant at the end, and the marks of all.
fn with_last(
    alloc: Global,
    list: Vec<Kept>,
    marks: MarkBlocks,
    v: Kept,
) -> Result<(Vec<Kept>, MarkBlocks), NoMemory>
    requires { HaveMarksIn marks list.items }
    ensures list { IfOk result (λ r. r.0.items ≡ list.items ++ v ∷ []) }
    ensures marks { IfOk result (λ r. HaveMarksIn r.1 r.0.items) }
{
    let known = marks.with_marks(alloc, v.own_marks())?;
    let mut more = list;
    more.push(v)?;
    Ok((more, known))
}

// The list with the variant, which none of its members covers, and without those that it covers; and the marks of all,
// which are made anew where some are gone.
fn with_open(
    alloc: Global,
    sig: &Signature,
    list: Vec<Kept>,
    marks: MarkBlocks,
    v: Kept,
) -> Result<(Vec<Kept>, MarkBlocks), NoMemory>
    requires marks { HaveMarksIn marks list.items }
    requires flat { IsFlatVariant sig.now v × All (IsFlatVariant sig.now) list.items }
    requires alike { All (λ k. AreAlike k v) list.items }
    requires free { IsCoveredBySome sig.now list.items v → ⊥ }
    ensures added { IfOk result (λ r. IsAdded sig.now list.items v r.0.items) }
    ensures marks { IfOk result (λ r. HaveMarksIn r.1 r.0.items) }
{
    let before = list.len();
    let last = v.own_marks();
    let known = marks.with_marks(alloc, last)?;
    let after = with_uncovered(alloc, sig, list, v)?;
    if before < after.len() {
        return Ok((after, known));
    }
    let all = marks_of(alloc, after.as_slice())?;
    Ok((after, all))
}

// The list with the variant, if none of its members covers it, and then without those that it covers; and the marks.
fn with_one(
    alloc: Global,
    sig: &Signature,
    list: Vec<Kept>,
    marks: MarkBlocks,
    v: Kept,
) -> Result<(Vec<Kept>, MarkBlocks), NoMemory>
    requires marks { HaveMarksIn marks list.items }
    requires flat { IsFlatVariant sig.now v × All (IsFlatVariant sig.now) list.items }
    requires alike { All (λ k. AreAlike k v) list.items }
    ensures added { IfOk result (λ r. IsAdded sig.now list.items v r.0.items) }
    ensures marks { IfOk result (λ r. HaveMarksIn r.1 r.0.items) }
{
    let look = looked_over(alloc, sig, list.as_slice(), &marks, &v)?;
    if look.covered {
        return Ok((list, marks));
    }
    if look.open {
        let some = with_open(alloc, sig, list, marks, v)?;
        return Ok(some);
    }
    let more = with_last(alloc, list, marks, v)?;
    Ok(more)
}

/// A list of variants to which one after another is added, seen as that list.
///
/// Beside it stand the marks of all members, which refuse most of what is compared without a look at the members.
#[derive(Drop)]
pub struct Sieve {
    list: Vec<Kept>,
    marks: MarkBlocks,
}

impl Model for Sieve {
    ghost use Rattle.std.specs.Prelude.{List};
    ghost use Rattle.fvn_cover.specs.declared.variant.Variant.{Variant};
    ghost use Rattle.fvn_cover.specs.inner.Sieved.{HaveMarksIn};

    ghost Value = { List Variant };

    ghost use Rattle.fvn_flat.specs.contracts.flat.Flat as flat;
    ghost use Rattle.std.specs.Coded.{codes};

    ghost coded = { Prim.hlevel (codes, flat.the_row.coded) };

    ghost view = { λ s. s.list.items };

    ghost invariant = { λ s. HaveMarksIn s.marks s.list.items };
}

impl Sieve {
    /// The list of no variant.
    pub fn new(alloc: Global) -> Sieve
        ensures { result ≡ [] }
    {
        Sieve {
            list: Vec::new(alloc),
            marks: MarkBlocks::new(alloc),
        }
    }

    /// The number of members.
    pub fn len(&self) -> usize
        ensures { result ≡ length self.now }
    {
        self.list.len()
    }

    /// The list with the variant, if none of its members covers it, and then without those that it covers.
    pub fn with_member(self, alloc: Global, sig: &Signature, v: Kept) -> Result<Sieve, NoMemory>
        requires flat { IsFlatVariant sig.now v × All (IsFlatVariant sig.now) self }
        requires alike { All (λ k. AreAlike k v) self }
        ensures { IfOk result (λ after. IsAdded sig.now self v after) }
    {
        let Sieve { list, marks } = self;
        let both = with_one(alloc, sig, list, marks, v)?;
        let (more, known) = both;
        Ok(Sieve {
            list: more,
            marks: known,
        })
    }

    /// The members alone.
    pub fn into_list(self) -> Vec<Kept>
        ensures { result.items ≡ self }
    {
        self.list
    }
}
