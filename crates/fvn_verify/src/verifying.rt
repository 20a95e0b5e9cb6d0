//! Whether a substitution solves pairs in the theory of equations.
ghost use Rattle.std.specs.Prelude.{◌≡◌, ◌<◌, All, IfOk};
ghost use Rattle.fvn_terms.specs.Signature.{KeepsKinds};
ghost use Rattle.fvn_terms.specs.Substitution.{value};
ghost use Rattle.fvn_theory.specs.Equations.{equations_of};
ghost use Rattle.fvn_rewrite_laws.specs.Kinds.{AreOfOneKind};
ghost use Rattle.fvn_rewrite.specs.Usable.{AreUsable};
ghost use Rattle.fvn_verify.specs.Verdicts.{setting, IsVerdict};
ghost use Rattle.fvn_verify.specs.inner.Comparing.{under, AreKinded, concluded};

use crate::comparing::{Compared, compare, earlier};
use crate::verdict::Verdict;
use fvn_flat::Flat;
use fvn_rewrite::Rewriter;
use fvn_rewrite_rules::Rules;
use fvn_signature::Signature;
use fvn_terms::{NoMemory, Plain, PlainSubst};
use fvn_theory::Bounds;
use std::alloc::Global;

// The verdict on pairs all of whose forms were found, where this is their first difference.
fn conclude(first: Option<(usize, Flat, Flat)>) -> Verdict
    ensures { result ≡ concluded first }
{
    match first {
        None => Verdict::Yes,
        Some((number, left, right)) => Verdict::No(number, left, right),
    }
}

// Compares all pairs under a substitution, one after another.
fn verify_pairs(
    alloc: Global,
    rewriter: &Rewriter<'_>,
    pairs: &[(Plain, Plain)],
    bindings: &PlainSubst,
) -> Result<Verdict, NoMemory>
    requires keeps { KeepsKinds rewriter.now.signature (value bindings.now.pairs) }
    requires kinded { All (AreKinded rewriter.now.signature) pairs.now }
    requires limited { rewriter.now.bounds.size < u64.MAX }
    ensures { IfOk result (IsVerdict (under rewriter.now (value bindings.now.pairs)) pairs.now) }
{
    let mut first = None;
    for (i, pair) in pairs.iter().enumerate() {
        match compare(alloc, rewriter, bindings, pair)? {
            Compared::Ended(verdict) => return Ok(verdict),
            Compared::Found(difference) => first = earlier(first, i + 1, difference),
        }
    }
    Ok(conclude(first))
}

/// Whether a substitution solves pairs: whether the sides of each, with the substitution put in, are equal in the theory
/// of the equations that the rules are of, modulo the axioms.
///
/// Both sides of each pair are brought to normal forms, the left side first and pair by pair. A side from which
/// `bounds.steps` steps led to no normal form, or that came to a form with over `bounds.size` symbols, ends the search,
/// also behind a difference.
pub fn verify(
    alloc: Global,
    sig: &Signature,
    rules: &Rules,
    pairs: &[(Plain, Plain)],
    bindings: &PlainSubst,
    bounds: Bounds,
) -> Result<Verdict, NoMemory>
    requires rules { AreUsable sig.now rules.now }
    requires kinded { All (AreOfOneKind sig.now) pairs.now }
    requires limited { bounds.size < u64.MAX }
    requires keeps { KeepsKinds sig.now (value bindings.now.pairs) }
    ensures { IfOk result (IsVerdict (setting sig.now (equations_of rules.now.equations)
        (value bindings.now.pairs) bounds) pairs.now) }
{
    let rewriter = Rewriter::new(alloc, sig, rules, bounds);
    let verdict = verify_pairs(alloc, &rewriter, pairs, bindings)?;
    Ok(verdict)
}
