//! Matchers of lists of flat terms.
ghost use Rattle.std.specs.Prelude.{◌≡◌, length};
ghost use Rattle.fvn_flat.specs.Fits.{AllFit};
ghost use Rattle.fvn_flat.specs.Bindings.{BindingsFit};
ghost use Rattle.fvn_match.specs.Matching.{HasNoMatcher, Matches, BindsJust, IfFound, IfNothing, joined};

use crate::goals::{Bound, Goals};
use crate::pairing::all_have_one_kind;
use crate::search::Search;
use crate::variables::variables;
use fvn_flat::{Flat, Subst};
use fvn_signature::Signature;
use fvn_terms::NoMemory;
use std::alloc::Global;

/// A substitution of the patterns' variables under which each pattern is its target, modulo the axioms.
///
/// The targets' variables stand as constants, also where a pattern has variables of the same names.
pub fn matches(
    alloc: Global,
    sig: &Signature,
    pattern: &[Flat],
    target: &[Flat],
) -> Result<Option<Subst>, NoMemory>
    requires patterns { AllFit sig.now pattern.now }
    requires targets { AllFit sig.now target.now }
    requires lengths { length pattern.now ≡ length target.now }
    // A well-sorted substitution of just the patterns' variables that makes each pattern its target.
    ensures some { IfFound result (Matches sig.now pattern.now target.now) }
    ensures binds { IfFound result (BindsJust pattern.now) }
    ensures fits { IfFound result (BindingsFit sig.now) }
    // Nothing is found only where no well-sorted substitution does so.
    ensures none { IfNothing result (HasNoMatcher sig.now pattern.now target.now) }
{
    let found = matches_both(alloc, sig, (pattern, &[]), (target, &[]))?;
    Ok(found)
}

/// The same for patterns that stand in two slices, and their targets, so that nothing is copied to make one of them.
pub fn matches_both(
    alloc: Global,
    sig: &Signature,
    pattern: (&[Flat], &[Flat]),
    target: (&[Flat], &[Flat]),
) -> Result<Option<Subst>, NoMemory>
    requires patterns { AllFit sig.now (joined pattern) }
    requires targets { AllFit sig.now (joined target) }
    requires first_lengths { length pattern.0.now ≡ length target.0.now }
    requires second_lengths { length pattern.1.now ≡ length target.1.now }
    ensures some { IfFound result (Matches sig.now (joined pattern.entry) (joined target.entry)) }
    ensures binds { IfFound result (BindsJust (joined pattern.entry)) }
    ensures fits { IfFound result (BindingsFit sig.now) }
    ensures none { IfNothing result
        (HasNoMatcher sig.now (joined pattern.entry) (joined target.entry)) }
{
    sig.recall_good();
    if !all_have_one_kind(sig, pattern.0, target.0) {
        return Ok(None);
    }
    if !all_have_one_kind(sig, pattern.1, target.1) {
        return Ok(None);
    }
    let vars = variables(alloc, pattern.0, pattern.1)?;
    let search = Search {
        alloc,
        sig,
        vars: vars.as_slice(),
        depth: 0,
    };
    let second = Goals::Lists(pattern.1, target.1, &Goals::Done);
    let goals = Goals::Lists(pattern.0, target.0, &second);
    let found = search.solve(&goals, &[], &Bound::Nothing)?;
    Ok(found)
}
