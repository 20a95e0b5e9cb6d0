//! Whether one variant covers another.
ghost use Rattle.std.specs.Prelude.{◌≡◌, ◌↔◌, false, IsTrue, IfOk};
ghost use Rattle.fvn_cover.specs.Covering.{values_of, CoversVariant, AreAlike, IsFlatVariant};
ghost use Rattle.fvn_cover.specs.inner.Profiled.{IsProfiled, IsMarked};
ghost use Rattle.fvn_cover_counts.specs.Marks.{AreUnkept};

use crate::heads::may_match_all;
use crate::keeping::Prepared;
use crate::reach::may_reach_all;
use crate::variant::Variant;
use fvn_cover_counts::{Marks, Profile, Unkept};
use fvn_flat::Flat;
use fvn_match::matches_both;
use fvn_signature::Signature;
use fvn_terms::NoMemory;
use std::alloc::Global;
use std::marker::Model;

// A variant beside the values of its variables, its profile and its marks, which contracts see as the variant.
#[derive(Drop)]
pub(crate) struct Shown<'a> {
    variant: &'a Variant,
    values: &'a [Flat],
    profile: &'a Profile,
    marks: Marks,
}

impl<'a> Model for Shown<'a> {
    ghost use Rattle.std.specs.Prelude.{◌≡◌};
    ghost use Rattle.fvn_cover.specs.declared.variant.Variant.{Variant};
    ghost use Rattle.fvn_cover.specs.Covering.{values_of};
    ghost use Rattle.fvn_cover.specs.inner.Profiled.{IsProfiled, IsMarked};

    ghost Value = { Variant };

    ghost use Rattle.fvn_flat.specs.contracts.flat.Flat as flat;
    ghost use Rattle.std.specs.Coded.{codes};

    ghost coded = { Prim.hlevel (codes, flat.the_row.coded) };

    ghost view = { λ s. s.variant.now };

    ghost invariant = { λ s. (s.values.now ≡ values_of s.variant.now) × IsProfiled s.variant.now s.profile.now
        × IsMarked s.variant.now s.marks };
}

impl<'a> Shown<'a> {
    // The variant beside its values, its profile and its marks.
    pub(crate) fn new(
        variant: &'a Variant,
        values: &'a [Flat],
        profile: &'a Profile,
        marks: Marks,
    ) -> Shown<'a>
        requires values { values.now ≡ values_of variant.now }
        requires profile { IsProfiled variant.now profile.now }
        requires marks { IsMarked variant.now marks }
        ensures { result ≡ variant.now }
    {
        Shown {
            variant,
            values,
            profile,
            marks,
        }
    }

    // Whether heads leave it open of terms and values that they are instances of these.
    fn have_heads_of(&self, sig: &Signature, other: &Shown<'_>) -> bool
        requires alike { AreAlike self.now other.now }
        requires this { IsFlatVariant sig.now self.now }
        requires that { IsFlatVariant sig.now other.now }
        ensures { result ≡ false → CoversVariant sig.now self.now other.now → ⊥ }
    {
        let terms = self.variant.terms.as_slice();
        let others = other.variant.terms.as_slice();
        if !may_match_all(sig, terms, others) {
            return false;
        }
        may_match_all(sig, self.values, other.values)
    }

    // Whether this one covers the other; most that do not are refused by their marks, others by the sorts of values
    // that are variables, by their profiles, or by their heads.
    pub(crate) fn is_covering(
        &self,
        alloc: Global,
        sig: &Signature,
        out: Unkept,
        other: &Shown<'_>,
    ) -> Result<bool, NoMemory>
        requires out { AreUnkept sig.now out }
        requires alike { AreAlike self.now other.now }
        requires this { IsFlatVariant sig.now self.now }
        requires that { IsFlatVariant sig.now other.now }
        ensures { IfOk result (λ r. IsTrue r ↔ CoversVariant sig.now self.now other.now) }
    {
        if !self.marks.may_cover(out, &other.marks) {
            return Ok(false);
        }
        if !may_reach_all(sig, self.values, other.values) {
            return Ok(false);
        }
        if !self.profile.may_cover(sig, other.profile) {
            return Ok(false);
        }
        if !self.have_heads_of(sig, other) {
            return Ok(false);
        }
        let found = matches_both(
            alloc,
            sig,
            (self.variant.terms.as_slice(), self.values),
            (other.variant.terms.as_slice(), other.values),
        )?;
        Ok(found.is_some())
    }
}

/// Whether one well-sorted substitution makes the terms and values of `b` from those of `a`, modulo the axioms.
///
/// Each variant's values are copied once, counted and marked; the search, if marks and counts allow a covering, is that of `matches`.
pub fn covers(alloc: Global, sig: &Signature, a: &Variant, b: &Variant) -> Result<bool, NoMemory>
    requires alike { AreAlike a.now b.now }
    requires first { IsFlatVariant sig.now a.now }
    requires second { IsFlatVariant sig.now b.now }
    ensures exact { IfOk result (λ r. IsTrue r ↔ CoversVariant sig.now a.now b.now) }
{
    let out = Unkept::of(sig);
    let first = Prepared::new(alloc, sig, a)?;
    let second = Prepared::new(alloc, sig, b)?;
    let shown = first.shown();
    let other = second.shown();
    let r = shown.is_covering(alloc, sig, out, &other)?;
    Ok(r)
}
