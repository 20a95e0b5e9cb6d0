//! What two linear forms show, number by number.
ghost use Rattle.std.specs.Prelude.{◌≡◌, ◌↔◌, ◌<◌, IsTrue, length};
ghost use Rattle.fvn_terms.specs.declared.plain.Var.{Var};
ghost use Rattle.fvn_weights.specs.declared.limits.TheConstants.{MOST};
ghost use Rattle.fvn_weights.specs.inner.Numbers.{found, TellsAbove};
ghost use Rattle.fvn_weights.specs.inner.Forms.{IsPlaced, IsOverForm, IsGrowingForm, ShowForms};

use crate::forms::Form;
use crate::limits::MOST;
use crate::slots::number_of;
use fvn_terms::Var;

/// What the forms of the two sides of an equation show.
#[derive(Clone, Copy)]
pub enum Outcome {
    Falling,
    Big,
    Growing,
}

// Whether a number is too large to be compared.
fn is_over(n: u64) -> bool
    ensures { IsTrue result ↔ (MOST < n) }
{
    n > MOST
}

// Whether the number of the variable at a place is too large; the number that stands there is looked at first.
fn is_over_at(form: &Form, i: usize) -> bool
    requires placed { IsPlaced form.now }
    requires within { i < length form.now.factors.items }
    ensures { TellsAbove (λ x. MOST) form.now.factors.items i result }
{
    let factors = form.factors.as_slice();
    let here = is_over(factors[i].1);
    if !here {
        return false;
    }
    let number = number_of(factors, form.starts.as_slice(), factors[i].0);
    let over = is_over(number);
    over
}

// Whether the number of some variable is too large.
fn has_over(form: &Form) -> bool
    requires { IsPlaced form.now }
    ensures { IsTrue result ↔ ((x : Var) × (MOST < found form.now.factors.items x)) }
{
    for i in 0..form.factors.len() {
        let over = is_over_at(form, i);
        if over {
            return true;
        }
    }
    false
}

// Whether a number of the form is too large.
fn is_over_form(form: &Form) -> bool
    requires { IsPlaced form.now }
    ensures { IsTrue result ↔ IsOverForm form.now }
{
    let over = is_over(form.constant);
    if over {
        return true;
    }
    let some = has_over(form);
    some
}

// Whether the first number is smaller.
fn is_smaller(a: u64, b: u64) -> bool
    ensures { IsTrue result ↔ (a < b) }
{
    a < b
}

// Whether the number of the variable at a place of the second form is smaller in the first one; the number that
// stands there is looked at first.
fn grows_at(left: &Form, right: &Form, i: usize) -> bool
    requires left { IsPlaced left.now }
    requires right { IsPlaced right.now }
    requires within { i < length right.now.factors.items }
    ensures { TellsAbove (found left.now.factors.items) right.now.factors.items i result }
{
    let factors = right.factors.as_slice();
    let x = factors[i].0;
    let before = number_of(left.factors.as_slice(), left.starts.as_slice(), x);
    let here = is_smaller(before, factors[i].1);
    if !here {
        return false;
    }
    let after = number_of(factors, right.starts.as_slice(), x);
    let smaller = is_smaller(before, after);
    smaller
}

// Whether the number of some variable is smaller in the first form.
fn grows_somewhere(left: &Form, right: &Form) -> bool
    requires left { IsPlaced left.now }
    requires right { IsPlaced right.now }
    ensures { IsTrue result ↔
        ((x : Var) × (found left.now.factors.items x < found right.now.factors.items x)) }
{
    for i in 0..right.factors.len() {
        let grows = grows_at(left, right, i);
        if grows {
            return true;
        }
    }
    false
}

// Whether the constant is no smaller in the second form, or some number greater.
fn grows(left: &Form, right: &Form) -> bool
    requires left { IsPlaced left.now }
    requires right { IsPlaced right.now }
    ensures { IsTrue result ↔ IsGrowingForm left.now right.now }
{
    let falls = is_smaller(right.constant, left.constant);
    if !falls {
        return true;
    }
    let some = grows_somewhere(left, right);
    some
}

/// What two forms show.
pub(crate) fn shown_by(left: &Form, right: &Form) -> Outcome
    requires left { IsPlaced left.now }
    requires right { IsPlaced right.now }
    ensures { ShowForms left.now right.now result }
{
    let first = is_over_form(left);
    if first {
        return Outcome::Big;
    }
    let second = is_over_form(right);
    if second {
        return Outcome::Big;
    }
    let more = grows(left, right);
    if more {
        return Outcome::Growing;
    }
    Outcome::Falling
}
