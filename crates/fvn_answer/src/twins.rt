//! Which of two variables has the lesser number in the least text.
ghost use Rattle.std.specs.Prelude.{◌≡◌, ◌≢◌, ◌≤◌, ◌<◌, ℕ, true, false, length, slice_index_or, Contains};
ghost use Rattle.std.specs.Option.{is_some};
ghost use Rattle.fvn_forms.specs.Flat.{FlatTerm};
ghost use Rattle.fvn_flat.specs.Bindings.{value};
ghost use Rattle.fvn_flat.specs.Forms.{variable_of, args_of};
ghost use Rattle.fvn_answer.specs.inner.Twins.{is_here, times, KeepsText, RaisesText, LowersNot, LowersNone, LowersNoPrinted, GoesFirst, HasFirst, IsPassedOver, LeadsUpTo};

use crate::printed::Printed;
use crate::texts::operator;
use fvn_flat::{Flat, Subst, is_listed};
use fvn_signature::Signature;
use fvn_terms::Var;

// Whether the term is the variable.
fn is_variable(t: &Flat, x: Var) -> bool
    ensures { result ≡ is_here x (variable_of t.now) }
{
    match t.as_var() {
        Some(z) => z == x,
        None => false,
    }
}

// How often the variable stands among the arguments.
fn times(args: &[Flat], x: Var) -> usize
    ensures { result ≡ times x args.now }
{
    let mut n: usize = 0;
    for u in args {
        if is_variable(u, x) {
            n += 1;
        }
    }
    n
}

// Whether the two variables stand equally often among arguments that may be exchanged.
fn stand_equally(exchange: bool, t: &Flat, x: Var, y: Var) -> bool
    ensures { result ≡ true → exchange ≡ true →
        times x (args_of t.now) ≡ times y (args_of t.now) }
{
    if !exchange {
        return true;
    }
    let args = t.args();
    times(args, x) == times(args, y)
}

// Whether the variable is neither of the two.
fn is_neither(z: Var, x: Var, y: Var) -> bool
    ensures { result ≡ true → (z ≢ x) × (z ≢ y) }
{
    if z == x {
        return false;
    }
    z != y
}

// Whether the argument is a variable among arguments that may be exchanged.
fn is_exchanged(exchange: bool, t: &Flat) -> bool
    ensures { result ≡ true → (exchange ≡ true) × (is_some (variable_of t.now) ≡ true) }
{
    if !exchange {
        return false;
    }
    t.as_var().is_some()
}

// Whether exchanging the numbers of the two variables leaves the text of the term as it is: each
// of them stands only among arguments that may be exchanged, and there as often as the other.
fn keeps_term(signature: &Signature, x: Var, y: Var, t: &Flat) -> bool
    ensures { result ≡ true → KeepsText signature.now x y t.now }
{
    match t.as_var() {
        Some(z) => is_neither(z, x, y),
        None => {
            let exchange = signature.axioms(operator(t)).is_commutative();
            for u in t.args() {
                if !is_exchanged(exchange, u) {
                    if !keeps_term(signature, x, y, u) {
                        return false;
                    }
                }
            }
            stand_equally(exchange, t, x, y)
        }
    }
}

// Whether it leaves the text of a variable's value as it is.
fn keeps_value(signature: &Signature, x: Var, y: Var, subst: &Subst, z: Var) -> bool
    ensures { result ≡ true → KeepsText signature.now x y (value subst.now z) }
{
    match subst.get(z) {
        Some(t) => keeps_term(signature, x, y, t),
        None => is_neither(z, x, y),
    }
}

// Whether all arguments are variables.
fn are_variables(args: &[Flat]) -> bool
    ensures { result ≡ true → (i : ℕ) (z : FlatTerm) → i < length args.now →
        is_some (variable_of (slice_index_or args.now i z)) ≡ true }
{
    for u in args {
        if u.as_var().is_none() {
            return false;
        }
    }
    true
}

// Whether all arguments are variables, and x stands more often among them than y.
fn stands_more_often(t: &Flat, x: Var, y: Var) -> bool
    ensures variables { result ≡ true → (i : ℕ) (z : FlatTerm) → i < length (args_of t.now) →
        is_some (variable_of (slice_index_or (args_of t.now) i z)) ≡ true }
    ensures more { result ≡ true → times y (args_of t.now) < times x (args_of t.now) }
{
    let args = t.args();
    if !are_variables(args) {
        return false;
    }
    times(args, y) < times(args, x)
}

// Whether the two variables are one.
fn are_one(z: Var, x: Var) -> bool
    ensures { result ≡ true → z ≡ x }
{
    z == x
}

// Whether exchanging the numbers of the two variables, of which x has the lesser one, raises the
// text of the term: the first argument that it does not leave as it is, or where arguments may be
// exchanged, their texts in byte order.
fn raises_term(signature: &Signature, x: Var, y: Var, t: &Flat) -> bool
    ensures { result ≡ true → RaisesText signature.now x y t.now }
{
    match t.as_var() {
        Some(z) => are_one(z, x),
        None => {
            if signature.axioms(operator(t)).is_commutative() {
                return stands_more_often(t, x, y);
            }
            for u in t.args() {
                if !keeps_term(signature, x, y, u) {
                    return raises_term(signature, x, y, u);
                }
            }
            false
        }
    }
}

// Whether it raises the text of a variable's value.
fn raises_value(signature: &Signature, x: Var, y: Var, subst: &Subst, z: Var) -> bool
    ensures { result ≡ true → RaisesText signature.now x y (value subst.now z) }
{
    match subst.get(z) {
        Some(t) => raises_term(signature, x, y, t),
        None => are_one(z, x),
    }
}

// Whether it leaves the text of the term as it is, or raises it.
fn lowers_no_term(signature: &Signature, x: Var, y: Var, t: &Flat) -> bool
    ensures { result ≡ true → LowersNot signature.now x y t.now }
{
    if keeps_term(signature, x, y, t) {
        return true;
    }
    raises_term(signature, x, y, t)
}

// Whether it leaves the texts of the values of variables as they are, or raises the first that it
// does not.
fn lowers_no_value(signature: &Signature, x: Var, y: Var, subst: &Subst, vars: &[Var]) -> bool
    ensures { result ≡ true → LowersNone signature.now x y subst.now vars.now }
{
    for z in vars {
        if !keeps_value(signature, x, y, subst, *z) {
            return raises_value(signature, x, y, subst, *z);
        }
    }
    true
}

// Whether the sorts of the variables are one.
fn have_one_sort(x: Var, y: Var) -> bool
    ensures { result ≡ true → x.sort ≡ y.sort }
{
    x.sort == y.sort
}

// Whether it lowers no text of what is printed before it raises one.
fn lowers_none(signature: &Signature, x: Var, y: Var, printed: &Printed<'_>) -> bool
    ensures { result ≡ true → LowersNoPrinted signature.now x y printed.now }
{
    match printed {
        Printed::Alone(t) => lowers_no_term(signature, x, y, t),
        Printed::Values(subst, vars) => lowers_no_value(signature, x, y, subst, vars),
        Printed::Variant(t, subst, vars) => {
            if !keeps_term(signature, x, y, t) {
                return raises_term(signature, x, y, t);
            }
            lowers_no_value(signature, x, y, subst, vars)
        }
    }
}

/// Whether no text in which x has the greater one of the two numbers stands before the one with
/// the two exchanged.
pub(crate) fn goes_first(signature: &Signature, printed: &Printed<'_>, x: Var, y: Var) -> bool
    ensures { result ≡ true → GoesFirst signature.now printed.now x y }
{
    if !have_one_sort(x, y) {
        return false;
    }
    lowers_none(signature, x, y, printed)
}

// Whether the variable y is a tip, and goes before x.
fn is_first_tip(signature: &Signature, printed: &Printed<'_>, tips: &[Var], y: Var, x: Var) -> bool
    ensures { result ≡ true → Contains tips.now y × GoesFirst signature.now printed.now y x }
{
    if !is_listed(tips, y) {
        return false;
    }
    goes_first(signature, printed, y, x)
}

// Whether one of the tips stands in the order from k on and before j, and goes before x.
fn has_first(
    signature: &Signature,
    printed: &Printed<'_>,
    order: &[Var],
    k: usize,
    j: usize,
    tips: &[Var],
    x: Var,
) -> bool
    requires within { j ≤ length order.now }
    ensures { result ≡ true → HasFirst signature.now printed.now order.now k j tips.now x }
{
    for i in k..j {
        if is_first_tip(signature, printed, tips, order[i], x) {
            return true;
        }
    }
    false
}

/// Whether the variable at j is to have the next number: it is a tip, and none that stands from k
/// on and before it goes before it.
pub(crate) fn is_tried(
    signature: &Signature,
    printed: &Printed<'_>,
    order: &[Var],
    k: usize,
    j: usize,
    tips: &[Var],
) -> bool
    requires within { j < length order.now }
    ensures { result ≡ false → IsPassedOver signature.now printed.now order.now k j tips.now }
{
    let x = order[j];
    if !is_listed(tips, x) {
        return false;
    }
    !has_first(signature, printed, order, k, j, tips, x)
}

/// Whether the variable at k goes before all that stand behind it.
pub(crate) fn leads(signature: &Signature, printed: &Printed<'_>, order: &[Var], k: usize) -> bool
    requires within { k < length order.now }
    ensures { result ≡ true →
        LeadsUpTo signature.now printed.now order.now k (length order.now) }
{
    for i in k + 1..order.len() {
        if !goes_first(signature, printed, order[k], order[i]) {
            return false;
        }
    }
    true
}
