//! A guess at how a rule has another one as an instance: variables that the other lacks go to identities.
ghost use Rattle.std.specs.Prelude.{◌≡◌, ◌<◌, length, is_some, Contains, IsTrue, IfOk, IfSome};
ghost use Rattle.fvn_flat.specs.Bindings.{bound};
ghost use Rattle.fvn_rewrite_laws.specs.Identities.{identities};
ghost use Rattle.fvn_rewrite_laws.specs.Choices.{identities_below};
ghost use Rattle.fvn_rewrite_rules.specs.inner.Making.{IsKindedRule, AreSorted};
ghost use Rattle.fvn_rewrite_rules.specs.inner.Heads.{HasAsInstance};

use crate::instances::identity_form;
use crate::rule::Rule;
use fvn_cohere::{all_identities, identities_below};
use fvn_flat::{Subst, is_listed};
use fvn_signature::Signature;
use fvn_terms::{NoMemory, OpId, SortId, Var};
use std::alloc::Global;

// Whether the variable has a pair.
fn is_bound(s: &Subst, x: Var) -> bool
    ensures { result ≡ is_some (bound s.now x) }
{
    s.get(x).is_some()
}

// The first of the operators.
fn first_of(es: &[OpId]) -> OpId
    requires { 0 < length es.now }
    ensures { Contains es.now result }
{
    es[0]
}

// The identity at or below the sort, where there is just one.
fn only_below(
    alloc: Global,
    sig: &Signature,
    es: &[OpId],
    s: SortId,
) -> Result<Option<OpId>, NoMemory>
    requires { es.now ≡ identities sig.now }
    ensures { IfOk result (λ o. IfSome o (Contains (identities_below sig.now s))) }
{
    let below = identities_below(alloc, sig, es, s)?;
    let count = below.len();
    if count != 1 {
        return Ok(None);
    }
    let e = first_of(below.as_slice());
    Ok(Some(e))
}

// The substitution with one variable more, which goes to an identity: where just one is at or below its sort, and
// the variable is not bound yet.
fn with_identity(
    alloc: Global,
    sig: &Signature,
    es: &[OpId],
    s: Subst,
    x: Var,
) -> Result<Option<Subst>, NoMemory>
    requires identities { es.now ≡ identities sig.now }
    requires subst { AreSorted sig.now s }
    ensures { IfOk result (λ o. IfSome o (AreSorted sig.now)) }
{
    if is_bound(&s, x) {
        return Ok(None);
    }
    sig.recall_good();
    sig.recall_completed();
    let only = only_below(alloc, sig, es, x.sort)?;
    match only {
        None => Ok(None),
        Some(e) => {
            let form = identity_form(alloc, sig, x.sort, e)?;
            let more = s.with_pair(x, form)?;
            Ok(Some(more))
        }
    }
}

// The substitution that sends those variables to identities that are not kept, where just one is at or below the
// sort of each.
fn without_others(
    alloc: Global,
    sig: &Signature,
    es: &[OpId],
    vars: &[Var],
    kept: &[Var],
) -> Result<Option<Subst>, NoMemory>
    requires { es.now ≡ identities sig.now }
    ensures { IfOk result (λ o. IfSome o (AreSorted sig.now)) }
{
    let mut s = Subst::empty(alloc);
    for x in vars {
        if is_listed(kept, *x) {
            continue;
        }
        let next = with_identity(alloc, sig, es, s, *x)?;
        match next {
            None => return Ok(None),
            Some(more) => s = more,
        }
    }
    Ok(Some(s))
}

// Whether the substitution makes the left side of a rule that of another.
fn makes(
    alloc: Global,
    sig: &Signature,
    s: &Subst,
    rule: &Rule,
    other: &Rule,
) -> Result<bool, NoMemory>
    requires subst { AreSorted sig.now s.now }
    requires rule { IsKindedRule sig.now rule.now }
    ensures { IfOk result (λ b. IsTrue b → HasAsInstance sig.now rule.now other.now) }
{
    let t = s.apply(alloc, sig, &rule.left)?;
    let is = t.same(&other.left);
    Ok(is)
}

// Whether the left side of a rule becomes that of another rule of its equation where each variable that the other
// lacks goes to the one identity at or below its sort.
pub(crate) fn is_guessed(
    alloc: Global,
    sig: &Signature,
    rule: &Rule,
    other: &Rule,
) -> Result<bool, NoMemory>
    requires { IsKindedRule sig.now rule.now }
    ensures { IfOk result (λ b. IsTrue b → HasAsInstance sig.now rule.now other.now) }
{
    if rule.equation != other.equation {
        return Ok(false);
    }
    let es = all_identities(alloc, sig)?;
    let vars = rule.left.with_variables(Vec::new(alloc))?;
    let kept = other.left.with_variables(Vec::new(alloc))?;
    let away = without_others(alloc, sig, es.as_slice(), vars.as_slice(), kept.as_slice())?;
    match away {
        None => Ok(false),
        Some(s) => {
            let is = makes(alloc, sig, &s, rule, other)?;
            Ok(is)
        }
    }
}
