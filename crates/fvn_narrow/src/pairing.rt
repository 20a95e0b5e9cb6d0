//! Rules that are met in pairs, so that two summands of a sum are enough.
ghost use Rattle.std.specs.Prelude.{◌≡◌, ◌≤◌, ◌∷◌, [], IsTrue, IfOk, IfSome, All, Contains, None, Some, slice_get};
ghost use Rattle.fvn_terms.specs.Signature.{kind, axioms, HasKind};
ghost use Rattle.fvn_terms.specs.Equality.{IsAssociative, identity};
ghost use Rattle.fvn_forms.specs.Flat.{plain};
ghost use Rattle.fvn_forms.specs.Canon.{build, inst};
ghost use Rattle.fvn_flat.specs.Bindings.{value};
ghost use Rattle.fvn_flat.specs.Fits.{Fits, AllFit, Takes};
ghost use Rattle.fvn_flat.specs.FlatPlaces.{IsDivided};
ghost use Rattle.fvn_flat.specs.Forms.{head_of, args_of};
ghost use Rattle.fvn_rewrite_rules.specs.Given.{headed};
ghost use Rattle.fvn_rewrite.specs.Usable.{equations_by};
ghost use Rattle.fvn_lifting.specs.Pairs.{IsOneSummand, SummandsKeep, MayBeAnySummand, MeetsOne, IsMetByTwo};
ghost use Rattle.fvn_lifting.specs.Pairs.{parted_sum, IsParted, IsMetBySome, IsMet, IsMetInPairs};
ghost use Rattle.fvn_narrow.specs.inner.Pairing.{RankKeeps, AreAmong, HasInner, HasSumOf, IsOneBeside, IsHeadedFit};

use fvn_flat::{Flat, Subst};
use fvn_rewrite::Rewriter;
use fvn_rewrite_rules::Rule;
use fvn_signature::Signature;
use fvn_terms::{NoMemory, OpId, Rank, SortId, Var};
use std::alloc::Global;

// Whether the operator is associative.
pub(crate) fn is_associative(sig: &Signature, f: OpId) -> bool
    ensures { IsTrue result → IsAssociative (axioms sig.now f) }
{
    sig.axioms(f).is_sum()
}

// Whether another operator than f heads the form, one without an identity.
fn is_one_summand(sig: &Signature, f: OpId, t: &Flat) -> bool
    ensures { IsTrue result → IsOneSummand sig.now f t.now }
{
    let Some(g) = t.head() else {
        return false;
    };
    if g == f {
        return false;
    }
    sig.identity(g).is_none()
}

// Whether each argument of the rank has the sort, where what it gives has.
fn rank_keeps(sig: &Signature, rank: &Rank, s: SortId) -> bool
    ensures { IsTrue result → RankKeeps sig.now s rank.now }
{
    if !sig.leq(rank.result, s) {
        return true;
    }
    for q in rank.args.as_slice() {
        if !sig.leq(*q, s) {
            return false;
        }
    }
    true
}

// Whether each sum of the operator that has the sort has only summands of the sort.
pub(crate) fn summands_keep(sig: &Signature, f: OpId, s: SortId) -> bool
    requires { IsAssociative (axioms sig.now f) }
    ensures { IsTrue result → SummandsKeep sig.now f s }
{
    sig.recall_good();
    for i in 0..sig.rank_count(f) {
        if !rank_keeps(sig, sig.rank(f, i), s) {
            return false;
        }
    }
    true
}

// Whether the form is a variable that does not stand within the other one, and the summands of its sort keep this.
fn may_be_any_summand(sig: &Signature, f: OpId, t: &Flat, other: &Flat) -> bool
    requires { IsAssociative (axioms sig.now f) }
    ensures { IsTrue result → MayBeAnySummand sig.now f t.now other.now }
{
    let Some(x) = t.as_var() else {
        return false;
    };
    if !summands_keep(sig, f, x.sort) {
        return false;
    }
    if other.head().is_none() {
        return true;
    }
    !other.has_var(x)
}

// Whether one summand of the form's instance is enough.
fn meets_one(sig: &Signature, f: OpId, t: &Flat, other: &Flat) -> bool
    requires { IsAssociative (axioms sig.now f) }
    ensures { IsTrue result → MeetsOne sig.now f t.now other.now }
{
    if is_one_summand(sig, f, t) {
        return true;
    }
    may_be_any_summand(sig, f, t, other)
}

// Whether two summands, one from each of the form's, are enough.
fn is_met_by_two(sig: &Signature, f: OpId, t: &Flat) -> bool
    requires { head_of t.now ≡ Some f }
    ensures { IsTrue result → IsMetByTwo sig.now f t.now }
{
    if !is_associative(sig, f) {
        return false;
    }
    if sig.identity(f).is_some() {
        return false;
    }
    let ts = t.args();
    if ts.len() != 2 {
        return false;
    }
    if !meets_one(sig, f, &ts[0], &ts[1]) {
        return false;
    }
    meets_one(sig, f, &ts[1], &ts[0])
}

// The first place, from this one on, where the form stands.
fn place_of(ts: &[Flat], from: usize, t: &Flat) -> Option<usize>
    ensures { IfSome result (λ k. (from ≤ k) × (slice_get ts.now k ≡ Some t.now)) }
{
    for k in from..ts.len() {
        if ts[k].same(t) {
            return Some(k);
        }
    }
    None
}

// Whether the two forms stand among the others, in their order.
fn are_among(ts: &[Flat], t: &Flat, u: &Flat) -> bool
    ensures { IsTrue result → AreAmong (t.now ∷ u.now ∷ []) ts.now }
{
    let Some(i) = place_of(ts, 0, t) else {
        return false;
    };
    if i >= ts.len() {
        return false;
    }
    match place_of(ts, i + 1, u) {
        Some(_) => true,
        None => false,
    }
}

// A new variable of the sort of another.
fn new_like(x: Var, name: u32) -> Var
    ensures { (result.sort ≡ x.sort) × (result.name ≡ name) }
{
    Var {
        name,
        sort: x.sort,
        fresh: true,
    }
}

// The sum of two forms.
fn sum_of_two(alloc: Global, sig: &Signature, f: OpId, t: Flat, u: Flat) -> Result<Flat, NoMemory>
    requires fit { AllFit sig.now (t ∷ u ∷ []) }
    requires takes { Takes sig.now f (t ∷ u ∷ []) }
    ensures exact { IfOk result (λ w. w ≡ build sig.now f (t ∷ u ∷ [])) }
    ensures fits { IfOk result (Fits sig.now) }
{
    let mut two = Vec::new(alloc);
    two.push(t)?;
    two.push(u)?;
    let whole = Flat::app(alloc, sig, f, two)?;
    Ok(whole)
}

// What has the sum of two variables in place of another.
fn spread(
    alloc: Global,
    sig: &Signature,
    f: OpId,
    x: Var,
    form: &Flat,
    both: Flat,
) -> Result<Flat, NoMemory>
    requires sum { HasSumOf sig.now f x form.now }
    requires fits { Fits sig.now both }
    requires kind { HasKind sig.now (plain both) (kind sig.now x.sort) }
    ensures exact { IfOk result (λ w. w ≡ inst sig.now (value ((x, both) ∷ [])) form.now) }
    ensures fits { IfOk result (Fits sig.now) }
{
    sig.recall_good();
    let s = Subst::empty(alloc).with_pair(x, both)?;
    let opened = s.apply(alloc, sig, form)?;
    Ok(opened)
}

// The sum of the form, with the sum of two variables in place of one, and of the first of them.
fn opened(
    alloc: Global,
    sig: &Signature,
    f: OpId,
    form: &Flat,
    x: Var,
    one: Var,
    rest: Var,
) -> Result<Flat, NoMemory>
    requires sum { HasSumOf sig.now f x form.now }
    requires sorts { (one.sort ≡ x.sort) × (rest.sort ≡ x.sort) }
    ensures exact { IfOk result (λ t. t ≡ parted_sum sig.now f form.now x one rest) }
    ensures fits { IfOk result (Fits sig.now) }
{
    sig.recall_good();
    let both = sum_of_two(alloc, sig, f, Flat::var(one), Flat::var(rest))?;
    let inner = spread(alloc, sig, f, x, form, both)?;
    let whole = sum_of_two(alloc, sig, f, inner, Flat::var(one))?;
    Ok(whole)
}

// Whether the form and one summand of the variable's value are reducible as a sum.
fn is_parted(
    alloc: Global,
    rewriter: &Rewriter<'_>,
    f: OpId,
    x: Var,
    form: &Flat,
) -> Result<bool, NoMemory>
    requires { HasSumOf rewriter.now.signature f x form.now }
    ensures { IfOk result (λ is. IsTrue is
        → IsParted rewriter.now.signature (equations_by rewriter.now) f form.now x) }
{
    let one = new_like(x, 1);
    let rest = new_like(x, 2);
    let has_one = form.has_var(one);
    if has_one {
        return Ok(false);
    }
    let has_rest = form.has_var(rest);
    if has_rest {
        return Ok(false);
    }
    let target = opened(alloc, rewriter.signature(), f, form, x, one, rest)?;
    let is = rewriter.is_reducible(&target)?;
    Ok(is)
}

// Whether the operator has no identity.
pub(crate) fn has_no_identity(sig: &Signature, f: OpId) -> bool
    ensures { IsTrue result → identity (axioms sig.now f) ≡ None }
{
    sig.identity(f).is_none()
}

// The two arguments of a form, where it has two.
pub(crate) fn two_of(t: &Flat) -> Option<(&Flat, &Flat)>
    ensures { IfSome result (λ p. args_of t.now ≡ p.0.now ∷ p.1.now ∷ []) }
{
    let ts = t.args();
    if ts.len() != 2 {
        return None;
    }
    Some((&ts[0], &ts[1]))
}

// Whether the sum is of a variable, whose sort its summands keep, and of what another operator heads.
fn is_beside(sig: &Signature, f: OpId, x: Var, form: &Flat) -> bool
    ensures { IsTrue result → IsOneBeside sig.now f x form.now }
{
    let associative = is_associative(sig, f);
    if !associative {
        return false;
    }
    let lasting = has_no_identity(sig, f);
    if !lasting {
        return false;
    }
    let keep = summands_keep(sig, f, x.sort);
    if !keep {
        return false;
    }
    is_one_summand(sig, f, form)
}

// Whether one summand of the value of a variable is enough beside what another operator heads.
fn is_met_by_some(
    alloc: Global,
    rewriter: &Rewriter<'_>,
    f: OpId,
    t: &Flat,
) -> Result<bool, NoMemory>
    requires heads { head_of t.now ≡ Some f }
    requires fits { Fits rewriter.now.signature t.now }
    ensures { IfOk result (λ is. IsTrue is
        → IsMetBySome rewriter.now.signature (equations_by rewriter.now) f t.now) }
{
    rewriter.recall();
    let Some((first, form)) = two_of(t) else {
        return Ok(false);
    };
    let Some(x) = first.as_var() else {
        return Ok(false);
    };
    let beside = is_beside(rewriter.signature(), f, x, form);
    if !beside {
        return Ok(false);
    }
    let parted = is_parted(alloc, rewriter, f, x, form)?;
    Ok(parted)
}

// Whether two summands are enough for the form.
fn is_enough(alloc: Global, rewriter: &Rewriter<'_>, f: OpId, t: &Flat) -> Result<bool, NoMemory>
    requires heads { head_of t.now ≡ Some f }
    requires fits { Fits rewriter.now.signature t.now }
    ensures { IfOk result (λ is. IsTrue is
        → IsMet rewriter.now.signature (equations_by rewriter.now) f t.now) }
{
    let two = is_met_by_two(rewriter.signature(), f, t);
    if two {
        return Ok(true);
    }
    let some = is_met_by_some(alloc, rewriter, f, t)?;
    Ok(some)
}

// Whether two forms stand among the summands of another one.
fn are_within(two: &Flat, t: &Flat) -> bool
    ensures { IsTrue result → AreAmong (args_of two.now) (args_of t.now) }
{
    let ts = two.args();
    if ts.len() != 2 {
        return false;
    }
    are_among(t.args(), &ts[0], &ts[1])
}

// Whether the summands of one rule's left side are among those of the other's, and two are enough for it.
fn is_inner(
    alloc: Global,
    rewriter: &Rewriter<'_>,
    f: OpId,
    inner: &Rule,
    rule: &Rule,
) -> Result<bool, NoMemory>
    requires { IsHeadedFit rewriter.now.signature f inner.now }
    ensures { IfOk result (λ is. IsTrue is
        → HasInner rewriter.now.signature (equations_by rewriter.now) f inner.now rule.now) }
{
    let within = are_within(&inner.left, &rule.left);
    if !within {
        return Ok(false);
    }
    let met = is_enough(alloc, rewriter, f, &inner.left)?;
    Ok(met)
}

// Whether the rule, which is needed under f, is met in pairs.
pub(crate) fn is_met_in_pairs(
    alloc: Global,
    rewriter: &Rewriter<'_>,
    f: OpId,
    rule: &Rule,
) -> Result<bool, NoMemory>
    requires heads { head_of rule.now.left ≡ Some f }
    requires all { All (IsHeadedFit rewriter.now.signature f) (headed rewriter.now.rules f) }
    ensures { IfOk result (λ is. IsTrue is
        → IsMetInPairs rewriter.now.signature rewriter.now.rules rule.now) }
{
    for inner in rewriter.rules().headed(f) {
        let met = is_inner(alloc, rewriter, f, inner, rule)?;
        if met {
            return Ok(true);
        }
    }
    Ok(false)
}
