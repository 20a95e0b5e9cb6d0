//! Marks of lists of flat terms: two words, compared before any profile.
ghost use Rattle.std.specs.Prelude.{◌≡◌, ◌↔◌, ◌<◌, false, length, List, IsTrue};
ghost use Rattle.fvn_forms.specs.Flat.{FlatTerm};
ghost use Rattle.fvn_cover_counts.specs.Profiles.{IsProfile};
ghost use Rattle.fvn_cover_counts.specs.Marks.{AreUnkept, AreMarks, IsWithin, IsBelow, MarksAllow, NeverMatchMarked};

use crate::bits::{identities_word, operators_word, variables_word};
use crate::profile::Profile;
use fvn_signature::Signature;

/// The operators that the axioms do not keep, and that marks leave out: a bit each.
#[derive(Clone, Copy)]
pub struct Unkept {
    pub(crate) bits: u64,
}

impl Unkept {
    /// Those of a signature: the operators that have an identity, and these identities.
    pub fn of(sig: &Signature) -> Unkept
        ensures { AreUnkept sig.now result }
    {
        Unkept {
            bits: identities_word(sig.declarations().ops.as_slice()),
        }
    }
}

/// Two words of facts: those that an instance keeps, and those that it cannot gain.
#[derive(Clone, Copy)]
pub struct Marks {
    pub(crate) out: Unkept,
    pub(crate) up: u64,
    pub(crate) down: u64,
}

// Whether the two are the same operators.
fn is_same(a: Unkept, b: Unkept) -> bool
    ensures { IsTrue result ↔ (a ≡ b) }
{
    a.bits == b.bits
}

// Whether each bit of the first word is one of the second.
fn is_within(v: u64, w: u64) -> bool
    ensures { IsTrue result ↔ IsWithin v w }
{
    v & w == v
}

// The bits that both words have.
fn common_bits(v: u64, w: u64) -> u64
    ensures first { IsWithin result v }
    ensures second { IsWithin result w }
{
    v & w
}

// The bits that one of the words has.
fn joined_bits(v: u64, w: u64) -> u64
    ensures first { IsWithin v result }
    ensures second { IsWithin w result }
{
    v | w
}

impl Marks {
    // Marks of which none is set.
    pub(crate) fn none() -> Marks {
        Marks {
            out: Unkept { bits: 0 },
            up: 0,
            down: 0,
        }
    }

    /// The marks of so many terms of which the profile was counted, without these operators.
    pub fn of(out: Unkept, profile: &Profile, count: usize) -> Marks
        ensures marks { (ts : List FlatTerm) → IsProfile ts profile.now → length ts ≡ count
            → AreMarks ts result }
        ensures out { result.out ≡ out }
    {
        Marks {
            out,
            up: operators_word(out.bits, profile.rows.as_slice()),
            down: variables_word(profile.rows.as_slice(), count),
        }
    }

    // Whether both were made without just these operators.
    pub(crate) fn are_without(&self, out: Unkept, other: &Marks) -> bool
        ensures { IsTrue result ↔ ((self.now.out ≡ out) × (other.now.out ≡ out)) }
    {
        is_same(self.out, out) && is_same(other.out, out)
    }

    // Whether the other has what this one has and an instance keeps, and this one what it cannot gain.
    pub(crate) fn are_within(&self, other: &Marks) -> bool
        ensures { IsTrue result ↔ IsBelow self.now other.now }
    {
        // Both words are compared before it is asked what either tells, since which of them refuses cannot be foreseen.
        is_within(self.up, other.up) & is_within(other.down, self.down)
    }

    // Whether both were made without the same operators.
    pub(crate) fn is_like(&self, other: &Marks) -> bool
        ensures { IsTrue result ↔ (self.now.out ≡ other.now.out) }
    {
        is_same(self.out, other.out)
    }

    // Marks below both.
    pub(crate) fn lower_of(&self, other: &Marks) -> Marks
        ensures out { result.out ≡ self.now.out }
        ensures first { IsBelow result self.now }
        ensures second { IsBelow result other.now }
    {
        Marks {
            out: self.out,
            up: common_bits(self.up, other.up),
            down: joined_bits(self.down, other.down),
        }
    }

    // Marks above both.
    pub(crate) fn upper_of(&self, other: &Marks) -> Marks
        ensures first { IsBelow self.now result }
        ensures second { IsBelow other.now result }
    {
        Marks {
            out: self.out,
            up: joined_bits(self.up, other.up),
            down: common_bits(self.down, other.down),
        }
    }

    /// Whether the marks allow that some substitution makes the terms of the other from those of these.
    ///
    /// The answer no is sure where just these operators are not kept by the axioms; the answer yes is not.
    pub fn may_cover(&self, out: Unkept, other: &Marks) -> bool
        ensures exact { IsTrue result ↔ MarksAllow out self.now other.now }
        ensures none { result ≡ false → NeverMatchMarked out self.now other.now }
    {
        if !self.are_without(out, other) {
            return true;
        }
        self.are_within(other)
    }

    /// Whether the marks refuse that some substitution makes the terms of the other from those of these,
    /// and that one makes these from those of the other.
    pub fn are_apart(&self, out: Unkept, other: &Marks) -> bool
        ensures there { IsTrue result → NeverMatchMarked out self.now other.now }
        ensures back { IsTrue result → NeverMatchMarked out other.now self.now }
    {
        if !self.are_without(out, other) {
            return false;
        }
        let there = self.are_within(other);
        let back = other.are_within(self);
        !(there | back)
    }
}
