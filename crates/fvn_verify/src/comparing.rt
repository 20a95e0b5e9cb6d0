//! Comparing the two sides of a pair under a substitution.
ghost use Rattle.std.specs.Prelude.{◌≡◌, ◌<◌, IfOk};
ghost use Rattle.fvn_terms.specs.Plain.{term};
ghost use Rattle.fvn_terms.specs.Signature.{KeepsKinds, IsTerm};
ghost use Rattle.fvn_terms.specs.Substitution.{value};
ghost use Rattle.fvn_verify.specs.Verdicts.{IsFormOf};
ghost use Rattle.fvn_verify.specs.inner.Comparing.{
  under,
  AreKinded,
  IsSideAs,
  IsFlatForm,
  HasTwoInstances,
  IsDifference,
  IsCompared,
  earlier,
};

use crate::verdict::Verdict;
use fvn_flat::{Flat, Normal};
use fvn_forms::equality_is_that_of_flat_forms;
use fvn_rewrite::Rewriter;
use fvn_rewrite_laws::{kinded_theories_are_lawful, sequences_are_lawful};
use fvn_terms::{NoMemory, Plain, PlainSubst, rewriting_is_lawful, theory_equality_is_lawful};
use std::alloc::Global;

/// What comes of the two sides of a pair.
#[derive(Drop)]
pub enum Compared {
    /// Normal forms of both were found; these are they, where they differ.
    Found(Option<(Flat, Flat)>),
    /// The search for one of them ended so.
    Ended(Verdict),
}

// The flat form of a side under a substitution.
fn flat_form(
    alloc: Global,
    rewriter: &Rewriter<'_>,
    bindings: &PlainSubst,
    side: &Plain,
) -> Result<Flat, NoMemory>
    requires keeps { KeepsKinds rewriter.now.signature (value bindings.now.pairs) }
    requires kinded { IsTerm rewriter.now.signature (term side.now) }
    ensures { IfOk result (IsFlatForm (under rewriter.now (value bindings.now.pairs)) side.now) }
{
    let instance = bindings.apply(alloc, side)?;
    let form = rewriter.flat(&instance)?;
    Ok(form)
}

// The normal form of a side of which this is the flat form, or how the search for it ended.
fn form_of(
    rewriter: &Rewriter<'_>,
    bindings: &PlainSubst,
    side: &Plain,
    start: &Flat,
) -> Result<Normal, NoMemory>
    requires start { IsFlatForm (under rewriter.now (value bindings.now.pairs)) side.now start.now }
    requires limited { rewriter.now.bounds.size < u64.MAX }
    ensures { IfOk result (IsSideAs (under rewriter.now (value bindings.now.pairs)) side.now) }
{
    let _bindings = bindings;
    let _side = side;
    sequences_are_lawful();
    let found = rewriter.normal(start)?;
    Ok(found)
}

// The forms of two sides that are not equal modulo the axioms, where they differ.
fn difference(
    rewriter: &Rewriter<'_>,
    bindings: &PlainSubst,
    pair: &(Plain, Plain),
    left: Flat,
    right: Flat,
) -> Option<(Flat, Flat)>
    requires keeps { KeepsKinds rewriter.now.signature (value bindings.now.pairs) }
    requires kinded { AreKinded rewriter.now.signature pair.now }
    requires instances { HasTwoInstances (under rewriter.now (value bindings.now.pairs)) pair.now }
    requires left { IsFormOf (under rewriter.now (value bindings.now.pairs)) pair.now.0 left }
    requires right { IsFormOf (under rewriter.now (value bindings.now.pairs)) pair.now.1 right }
    ensures { IsDifference (under rewriter.now (value bindings.now.pairs)) pair.now result }
{
    rewriter.recall();
    equality_is_that_of_flat_forms();
    kinded_theories_are_lawful();
    rewriting_is_lawful();
    theory_equality_is_lawful();
    if left.same(&right) {
        None
    } else {
        Some((left, right))
    }
}

// Compares the right side of a pair with the flat form of the left one, and with its normal form.
fn compare_right(
    alloc: Global,
    rewriter: &Rewriter<'_>,
    bindings: &PlainSubst,
    pair: &(Plain, Plain),
    start: &Flat,
    left: Flat,
) -> Result<Compared, NoMemory>
    requires keeps { KeepsKinds rewriter.now.signature (value bindings.now.pairs) }
    requires kinded { AreKinded rewriter.now.signature pair.now }
    requires limited { rewriter.now.bounds.size < u64.MAX }
    requires start { IsFlatForm (under rewriter.now (value bindings.now.pairs)) pair.now.0
        start.now }
    requires left { IsFormOf (under rewriter.now (value bindings.now.pairs)) pair.now.0 left }
    ensures { IfOk result (IsCompared (under rewriter.now (value bindings.now.pairs)) pair.now) }
{
    rewriter.recall();
    equality_is_that_of_flat_forms();
    sequences_are_lawful();
    rewriting_is_lawful();
    theory_equality_is_lawful();
    let other = flat_form(alloc, rewriter, bindings, &pair.1)?;
    // Sides that are equal modulo the axioms have one form, whatever the equations are.
    if start.same(&other) {
        return Ok(Compared::Found(None));
    }
    let right = form_of(rewriter, bindings, &pair.1, &other)?;
    match right {
        Normal::Form(form) => Ok(Compared::Found(difference(rewriter, bindings, pair, left, form))),
        Normal::Steps(first, end) => Ok(Compared::Ended(Verdict::Steps(first, end))),
        Normal::Size(large) => Ok(Compared::Ended(Verdict::Size(large))),
    }
}

/// Compares the sides of a pair under a substitution.
pub fn compare(
    alloc: Global,
    rewriter: &Rewriter<'_>,
    bindings: &PlainSubst,
    pair: &(Plain, Plain),
) -> Result<Compared, NoMemory>
    requires keeps { KeepsKinds rewriter.now.signature (value bindings.now.pairs) }
    requires kinded { AreKinded rewriter.now.signature pair.now }
    requires limited { rewriter.now.bounds.size < u64.MAX }
    ensures { IfOk result (IsCompared (under rewriter.now (value bindings.now.pairs)) pair.now) }
{
    let start = flat_form(alloc, rewriter, bindings, &pair.0)?;
    let left = form_of(rewriter, bindings, &pair.0, &start)?;
    match left {
        Normal::Form(form) => {
            let compared = compare_right(alloc, rewriter, bindings, pair, &start, form)?;
            Ok(compared)
        }
        Normal::Steps(first, end) => Ok(Compared::Ended(Verdict::Steps(first, end))),
        Normal::Size(form) => Ok(Compared::Ended(Verdict::Size(form))),
    }
}

/// The first difference: the one so far, where there is one.
pub fn earlier(
    first: Option<(usize, Flat, Flat)>,
    number: usize,
    difference: Option<(Flat, Flat)>,
) -> Option<(usize, Flat, Flat)>
    ensures { result ≡ earlier first number difference }
{
    match first {
        Some(found) => Some(found),
        None => match difference {
            Some((left, right)) => Some((number, left, right)),
            None => None,
        },
    }
}
