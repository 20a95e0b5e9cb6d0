//! Variants that are kept with the values of their variables, their profiles and their marks.
ghost use Rattle.std.specs.Prelude.{◌≡◌, ◌↔◌, false, IsTrue, IfOk, All};
ghost use Rattle.fvn_cover_counts.specs.Marks.{AreUnkept};
ghost use Rattle.fvn_cover.specs.Covering.{values_of, CoversVariant, AreAlike, IsFlatVariant};
ghost use Rattle.fvn_cover.specs.inner.Profiled.{IsProfiled, IsMarked};

use crate::covering::Shown;
use crate::reach::may_reach_all;
use crate::values::values;
use crate::variant::Variant;
use fvn_cover_counts::{Marks, Profile, Unkept};
use fvn_flat::Flat;
use fvn_signature::Signature;
use fvn_terms::NoMemory;
use std::alloc::Global;
use std::marker::Model;

// What is counted of a variant with these values.
fn profile(
    alloc: Global,
    sig: &Signature,
    v: &Variant,
    values: &[Flat],
) -> Result<Profile, NoMemory>
    requires flat { IsFlatVariant sig.now v.now }
    requires values { values.now ≡ values_of v.now }
    ensures { IfOk result (IsProfiled v.now) }
{
    let p = Profile::of(alloc, sig, v.terms.as_slice(), values)?;
    Ok(p)
}

// The marks of a variant with these values.
fn marks(sig: &Signature, v: &Variant, values: &[Flat], profile: &Profile) -> Marks
    requires values { values.now ≡ values_of v.now }
    requires profile { IsProfiled v.now profile.now }
    ensures { IsMarked v.now result }
{
    let terms = v.terms.as_slice();
    let out = Unkept::of(sig);
    Marks::of(out, profile, terms.len() + values.len())
}

/// A variant that is kept to be compared with others, seen as that variant.
///
/// It holds the values of the variant's variables, what is counted of these and of its terms, and their marks.
#[derive(Drop)]
pub struct Kept {
    variant: Variant,
    values: Vec<Flat>,
    profile: Profile,
    marks: Marks,
}

impl Model for Kept {
    ghost use Rattle.std.specs.Prelude.{◌≡◌};
    ghost use Rattle.fvn_cover.specs.declared.variant.Variant.{Variant};
    ghost use Rattle.fvn_cover.specs.Covering.{values_of};
    ghost use Rattle.fvn_cover.specs.inner.Profiled.{IsProfiled, IsMarked};

    ghost Value = { Variant };

    ghost use Rattle.fvn_flat.specs.contracts.flat.Flat as flat;
    ghost use Rattle.std.specs.Coded.{codes};

    ghost coded = { Prim.hlevel (codes, flat.the_row.coded) };

    ghost view = { λ k. k.variant };

    ghost invariant = { λ k. (k.values.items ≡ values_of k.variant) × IsProfiled k.variant k.profile
        × IsMarked k.variant k.marks };
}

impl Kept {
    /// The variant, its values in memory of their own, its profile and its marks.
    pub fn new(alloc: Global, sig: &Signature, variant: Variant) -> Result<Kept, NoMemory>
        requires { IsFlatVariant sig.now variant }
        ensures { IfOk result (λ k. k ≡ variant) }
    {
        let forms = values(alloc, &variant)?;
        let counts = profile(alloc, sig, &variant, forms.as_slice())?;
        let facts = marks(sig, &variant, forms.as_slice(), &counts);
        Ok(Kept {
            variant,
            values: forms,
            profile: counts,
            marks: facts,
        })
    }

    /// The variant.
    pub fn variant(&self) -> &Variant
        ensures { result.now ≡ self.now }
    {
        &self.variant
    }

    // The variant beside its values, its profile and its marks.
    pub(crate) fn shown(&self) -> Shown<'_>
        ensures { result ≡ self.now }
    {
        Shown::new(
            &self.variant,
            self.values.as_slice(),
            &self.profile,
            self.marks,
        )
    }

    // Whether this one covers the other, by all that stands beside them.
    //
    // It stands apart, so that the marks are compared in the loop that asks.
    #[inline(never)]
    fn is_covering_shown(
        &self,
        alloc: Global,
        sig: &Signature,
        out: Unkept,
        other: &Kept,
    ) -> Result<bool, NoMemory>
        requires out { AreUnkept sig.now out }
        requires alike { AreAlike self.now other.now }
        requires this { IsFlatVariant sig.now self.now }
        requires that { IsFlatVariant sig.now other.now }
        ensures { IfOk result (λ r. IsTrue r ↔ CoversVariant sig.now self.now other.now) }
    {
        let first = self.shown();
        let second = other.shown();
        let r = first.is_covering(alloc, sig, out, &second)?;
        Ok(r)
    }

    // Whether this one covers the other; marks and sorts alone are looked at first, since they refuse most.
    #[inline(always)]
    pub(crate) fn is_covering(
        &self,
        alloc: Global,
        sig: &Signature,
        out: Unkept,
        other: &Kept,
    ) -> Result<bool, NoMemory>
        requires out { AreUnkept sig.now out }
        requires alike { AreAlike self.now other.now }
        requires this { IsFlatVariant sig.now self.now }
        requires that { IsFlatVariant sig.now other.now }
        ensures { IfOk result (λ r. IsTrue r ↔ CoversVariant sig.now self.now other.now) }
    {
        if !self.may_cover(sig, out, other) {
            return Ok(false);
        }
        let r = self.is_covering_shown(alloc, sig, out, other)?;
        Ok(r)
    }

    // The marks.
    pub(crate) fn own_marks(&self) -> Marks
        ensures { IsMarked self.now result }
    {
        self.marks
    }

    // Whether the marks, and the sorts of values that are variables, leave it open that this one covers the other.
    #[inline(always)]
    pub(crate) fn may_cover(&self, sig: &Signature, out: Unkept, other: &Kept) -> bool
        requires out { AreUnkept sig.now out }
        requires alike { AreAlike self.now other.now }
        requires that { IsFlatVariant sig.now other.now }
        ensures { result ≡ false → CoversVariant sig.now self.now other.now → ⊥ }
    {
        if !self.marks.may_cover(out, &other.marks) {
            return false;
        }
        may_reach_all(sig, self.values.as_slice(), other.values.as_slice())
    }

    // Whether the marks refuse that one of the two covers the other.
    #[inline(always)]
    pub(crate) fn is_apart_from(&self, sig: &Signature, out: Unkept, other: &Kept) -> bool
        requires out { AreUnkept sig.now out }
        requires alike { AreAlike self.now other.now }
        ensures this { IsTrue result → CoversVariant sig.now self.now other.now → ⊥ }
        ensures that { IsTrue result → CoversVariant sig.now other.now self.now → ⊥ }
    {
        let _sig = sig;
        self.marks.are_apart(out, &other.marks)
    }

    /// The variant alone.
    pub fn into_variant(self) -> Variant
        ensures { result ≡ self }
    {
        self.variant
    }
}

/// All of these variants, each ready to be compared.
pub fn all_kept(alloc: Global, sig: &Signature, list: Vec<Variant>) -> Result<Vec<Kept>, NoMemory>
    requires { All (IsFlatVariant sig.now) list.items }
    ensures { IfOk result (λ all. all.items ≡ list.items) }
{
    let mut all = Vec::new(alloc);
    for v in list {
        let k = Kept::new(alloc, sig, v)?;
        all.push(k)?;
    }
    Ok(all)
}

// A variant of a caller, the values of its variables, its profile and its marks, which contracts see as the variant.
#[derive(Drop)]
pub(crate) struct Prepared<'a> {
    variant: &'a Variant,
    values: Vec<Flat>,
    profile: Profile,
    marks: Marks,
}

impl<'a> Model for Prepared<'a> {
    ghost use Rattle.std.specs.Prelude.{◌≡◌};
    ghost use Rattle.fvn_cover.specs.declared.variant.Variant.{Variant};
    ghost use Rattle.fvn_cover.specs.Covering.{values_of};
    ghost use Rattle.fvn_cover.specs.inner.Profiled.{IsProfiled, IsMarked};

    ghost Value = { Variant };

    ghost use Rattle.fvn_flat.specs.contracts.flat.Flat as flat;
    ghost use Rattle.std.specs.Coded.{codes};

    ghost coded = { Prim.hlevel (codes, flat.the_row.coded) };

    ghost view = { λ p. p.variant.now };

    ghost invariant = { λ p. (p.values.items ≡ values_of p.variant.now) × IsProfiled p.variant.now p.profile
        × IsMarked p.variant.now p.marks };
}

impl<'a> Prepared<'a> {
    // The variant, its values in memory of their own, its profile and its marks.
    pub(crate) fn new(
        alloc: Global,
        sig: &Signature,
        variant: &'a Variant,
    ) -> Result<Prepared<'a>, NoMemory>
        requires { IsFlatVariant sig.now variant.now }
        ensures { IfOk result (λ p. p ≡ variant.now) }
    {
        let forms = values(alloc, variant)?;
        let counts = profile(alloc, sig, variant, forms.as_slice())?;
        let facts = marks(sig, variant, forms.as_slice(), &counts);
        Ok(Prepared {
            variant,
            values: forms,
            profile: counts,
            marks: facts,
        })
    }

    // The variant beside its values, its profile and its marks.
    pub(crate) fn shown(&self) -> Shown<'_>
        ensures { result ≡ self.now }
    {
        Shown::new(
            self.variant,
            self.values.as_slice(),
            &self.profile,
            self.marks,
        )
    }
}
