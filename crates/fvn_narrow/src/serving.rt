//! Rules that serve at a form in place of others: a variable takes what two arguments of the other rule take.
ghost use Rattle.std.specs.Prelude.{◌≡◌, ◌∷◌, Some, Contains, IsTrue, IfSome};
ghost use Rattle.fvn_flat.specs.Fits.{Fits};
ghost use Rattle.fvn_flat.specs.Forms.{head_of, args_of};
ghost use Rattle.fvn_narrow.specs.inner.Serving.{AreBehindTwo, StandsInNone, HasTwoFor, HasLowIdentity, HasKeptSort, ServesAt, SomeServes};

use crate::pairing::{is_associative, summands_keep};
use fvn_flat::Flat;
use fvn_rewrite_rules::Rule;
use fvn_signature::Signature;
use fvn_terms::{OpId, SortId, Var};

// Whether the operator heads the form.
fn is_headed(t: &Flat, f: OpId) -> bool
    ensures { IsTrue result → head_of t.now ≡ Some f }
{
    match t.head() {
        Some(g) => g == f,
        None => false,
    }
}

// The first of the form's arguments, and those behind it.
fn first_of(t: &Flat) -> Option<(&Flat, &[Flat])>
    ensures { IfSome result (λ p. args_of t.now ≡ p.0.now ∷ p.1.now) }
{
    let Some((first, others)) = t.args().split_first() else {
        return None;
    };
    Some((first, others))
}

// What stands behind the first two of the form's arguments.
fn behind_two(t: &Flat) -> Option<&[Flat]>
    ensures { IfSome result (λ last. AreBehindTwo last.now (args_of t.now)) }
{
    let Some((_one, behind)) = first_of(t) else {
        return None;
    };
    let Some((_rest, last)) = behind.split_first() else {
        return None;
    };
    Some(last)
}

// Whether both lists have the same forms in the same order.
fn are_same(ts: &[Flat], us: &[Flat]) -> bool
    ensures { IsTrue result → (ts.now ≡ us.now) }
{
    if ts.len() != us.len() {
        return false;
    }
    for i in 0..ts.len() {
        if !ts[i].same(&us[i]) {
            return false;
        }
    }
    true
}

// Whether the variable stands in none of the forms.
fn stands_in_none(x: Var, ts: &[Flat]) -> bool
    ensures { IsTrue result → StandsInNone x ts.now }
{
    for t in ts {
        let within = t.has_var(x);
        if within {
            return false;
        }
    }
    true
}

// The variable in whose place the other form has two arguments.
fn variable_for_two(left: &Flat, other: &Flat) -> Option<Var>
    ensures { IfSome result (HasTwoFor left.now other.now) }
{
    let Some((first, others)) = first_of(left) else {
        return None;
    };
    let Some(x) = first.as_var() else {
        return None;
    };
    let Some(last) = behind_two(other) else {
        return None;
    };
    if others.is_empty() {
        return None;
    }
    let alike = are_same(last, others);
    if !alike {
        return None;
    }
    let outside = stands_in_none(x, others);
    if !outside {
        return None;
    }
    Some(x)
}

// Whether the operator has no identity, or one of the sort.
fn has_low_identity(sig: &Signature, f: OpId, s: SortId) -> bool
    ensures { IsTrue result → HasLowIdentity sig.now f s }
{
    let Some(e) = sig.identity(f) else {
        return true;
    };
    let low = sig.result(e, &[]);
    sig.leq(low, s)
}

// Whether the form has the sort, which the summands of the operator keep.
fn has_kept_sort(sig: &Signature, f: OpId, s: SortId, at: &Flat) -> bool
    requires { Fits sig.now at.now }
    ensures { IsTrue result → HasKeptSort sig.now f s at.now }
{
    let associative = is_associative(sig, f);
    if !associative {
        return false;
    }
    let neutral = has_low_identity(sig, f, s);
    if !neutral {
        return false;
    }
    let keep = summands_keep(sig, f, s);
    if !keep {
        return false;
    }
    sig.leq(at.least_sort(sig), s)
}

// Whether what meets the other left side at the form meets the first one as well.
fn serves_at(sig: &Signature, at: &Flat, left: &Flat, other: &Flat) -> bool
    requires { Fits sig.now at.now }
    ensures { IsTrue result → ServesAt sig.now at.now left.now other.now }
{
    let Some(f) = left.head() else {
        return false;
    };
    let headed = is_headed(other, f);
    if !headed {
        return false;
    }
    let Some(x) = variable_for_two(left, other) else {
        return false;
    };
    has_kept_sort(sig, f, x.sort, at)
}

// Whether one of the rules serves at the form in place of this one.
pub(crate) fn some_serves(sig: &Signature, at: &Flat, rules: &[Rule], rule: &Rule) -> bool
    requires { Fits sig.now at.now }
    ensures { IsTrue result → SomeServes sig.now at.now rules.now rule.now }
{
    for other in rules {
        let serves = serves_at(sig, at, &other.left, &rule.left);
        if serves {
            return true;
        }
    }
    false
}

// Whether the other rule is one of the same equation that serves at the form in this one's place, under an operator
// with an identity.
fn replaces(sig: &Signature, at: &Flat, other: &Rule, rule: &Rule) -> bool
    requires { Fits sig.now at.now }
    ensures { IsTrue result → ServesAt sig.now at.now other.now.left rule.now.left }
{
    if other.equation != rule.equation {
        return false;
    }
    let Some(f) = rule.left.head() else {
        return false;
    };
    if sig.identity(f).is_none() {
        return false;
    }
    serves_at(sig, at, &other.left, &rule.left)
}

// The first of the rules that replaces this one at the form.
pub(crate) fn replacement<'r>(
    sig: &Signature,
    at: &Flat,
    rules: &'r [Rule],
    rule: &Rule,
) -> Option<&'r Rule>
    requires { Fits sig.now at.now }
    ensures { IfSome result (λ other.
        Contains rules.now other.now × ServesAt sig.now at.now other.now.left rule.now.left) }
{
    for other in rules {
        let serves = replaces(sig, at, other, rule);
        if serves {
            return Some(other);
        }
    }
    None
}
