//! Reads flat terms and problems.
//!
//! A problem is a row of pairs with `; ` between them, each two terms with ` = ` between them.
ghost use Rattle.std.specs.Prelude.{All, IsTrue, IfOk, IfSome};
ghost use Rattle.fvn_terms.specs.Signature.{kind, HasKind};
ghost use Rattle.fvn_forms.specs.Flat.{plain};
ghost use Rattle.fvn_flat.specs.Fits.{Fits, AllFit};
ghost use Rattle.fvn_flat.specs.Problems.{IsProblem};
ghost use Rattle.fvn_flat.specs.Solving.{problem_of as pairs_of};

use super::terms::{has_kind, is_term, term_of};
use fvn_base::Seq;
use fvn_flat::{Flat, Pairs, flatten};
use fvn_signature::Signature;
use fvn_terms::{NoMemory, SortId};
use std::alloc::Global;

/// The flat form of the term that is written; none where it is not well-kinded.
pub fn flat_of(alloc: Global, sig: &Signature, text: &str) -> Result<Option<Flat>, NoMemory>
    ensures { IfOk result (λ o. IfSome o (Fits sig.now)) }
{
    match term_of(alloc, sig, text)? {
        Some(t) => {
            if !is_term(sig, &t) {
                return Ok(None);
            }
            let u = flatten(alloc, sig, &t)?;
            Ok(Some(u))
        }
        None => Ok(None),
    }
}

/// The flat forms of the terms that are written with commas between them; of no terms where nothing is written.
pub fn flats_of(alloc: Global, sig: &Signature, text: &str) -> Result<Option<Vec<Flat>>, NoMemory>
    ensures { IfOk result (λ o. IfSome o (λ ts. AllFit sig.now ts.items)) }
{
    let mut all = Vec::new(alloc);
    if text.is_empty() {
        return Ok(Some(all));
    }
    for word in text.split(", ") {
        let t = match flat_of(alloc, sig, word)? {
            Some(t) => t,
            None => return Ok(None),
        };
        all.push(t)?;
    }
    Ok(Some(all))
}

/// The two terms that are written.
fn pair_of(alloc: Global, sig: &Signature, text: &str) -> Result<Option<(Flat, Flat)>, NoMemory>
    ensures { IfOk result (λ o. IfSome o (λ p. Fits sig.now p.0 × Fits sig.now p.1)) }
{
    let (left, right) = text.split_once(" = ").unwrap_or((text, text));
    let Some(l) = flat_of(alloc, sig, left)? else {
        return Ok(None);
    };
    let Some(r) = flat_of(alloc, sig, right)? else {
        return Ok(None);
    };
    Ok(Some((l, r)))
}

/// The problem that is written; none where a term is not well-kinded.
pub fn problem_of(alloc: Global, sig: &Signature, text: &str) -> Result<Option<Pairs>, NoMemory>
    ensures { IfOk result (λ o. IfSome o (λ p.
        All (λ q. Fits sig.now q.0 × Fits sig.now q.1) p.pairs)) }
{
    let mut pairs = Vec::new(alloc);
    for pair in text.split("; ") {
        match pair_of(alloc, sig, pair)? {
            Some(p) => pairs.push(p)?,
            None => return Ok(None),
        }
    }
    Ok(Some(Pairs {
        pairs: Seq::from_vec(pairs),
    }))
}

/// Whether the term has the kind of the first sort.
fn is_side(alloc: Global, sig: &Signature, t: &Flat) -> Result<bool, NoMemory>
    ensures { IfOk result (λ r. IsTrue r →
        HasKind sig.now (plain t.now) (kind sig.now (record { 0 = 0 }))) }
{
    let u = t.to_plain(alloc)?;
    let found = has_kind(sig, &u, sig.kind(SortId(0)));
    Ok(found)
}

/// Whether both sides of each pair have the kind of the first sort.
pub fn are_sides(alloc: Global, sig: &Signature, problem: &Pairs) -> Result<bool, NoMemory>
    ensures { IfOk result (λ r. IsTrue r → IsProblem sig.now (pairs_of problem.now)) }
{
    for (left, right) in problem.pairs.as_slice() {
        if !is_side(alloc, sig, left)? {
            return Ok(false);
        }
        if !is_side(alloc, sig, right)? {
            return Ok(false);
        }
    }
    Ok(true)
}
