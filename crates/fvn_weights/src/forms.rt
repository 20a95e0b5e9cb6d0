//! Values of terms as linear forms.
ghost use Rattle.std.specs.Prelude.{◌≡◌, OnOk, [], slice_get, slice_index_or};
ghost use Rattle.fvn_terms.specs.Plain.{term};
ghost use Rattle.fvn_weights.specs.Weighing.{linear, constant_in, coefficients_in, coefficient_in};
ghost use Rattle.fvn_weights.specs.inner.Forms.{IsPlaced, IsAdded, AreAdded, IsFormOf};

use crate::numbers::{plus, times};
use crate::slots::{make_room, raise};
use crate::weights::Weights;
use fvn_terms::{Args, NoMemory, OpId, Plain, Var};
use std::alloc::Global;

/// A constant, and a number for each variable of a term; for each slot of variables it is noted where the first one
/// stands.
pub struct Form {
    pub constant: u64,
    pub factors: Vec<(Var, u64)>,
    pub starts: Vec<usize>,
}

impl Drop for Form {
    fn drop(self) {
        let Form {
            constant: _,
            factors: _,
            starts: _,
        } = self;
    }
}

impl Form {
    /// The form of nothing, without room.
    pub(crate) fn new(alloc: Global) -> Form
        ensures constant { result.constant ≡ 0 }
        ensures factors { result.factors.items ≡ [] }
    {
        Form {
            constant: 0,
            factors: Vec::new(alloc),
            starts: Vec::new(alloc),
        }
    }
}

/// What the weight of an operator adds.
pub(crate) fn constant_at(weights: &Weights, f: OpId) -> u64
    ensures { result ≡ constant_in (slice_get weights.now.list f.0) }
{
    match weights.list.as_slice().get(usize::from(f.0)) {
        Some(w) => w.constant,
        None => 0,
    }
}

/// By what the weight of an operator multiplies its arguments.
pub(crate) fn coefficients_of(weights: &Weights, f: OpId) -> &[u64]
    ensures { result.now ≡ coefficients_in (slice_get weights.now.list f.0) }
{
    match weights.list.as_slice().get(usize::from(f.0)) {
        Some(w) => w.coefficients.as_slice(),
        None => &[],
    }
}

// The coefficient at a place; one where none is said.
fn counted(coefficients: &[u64], i: usize) -> u64
    ensures { result ≡ slice_index_or coefficients.now i 1 }
{
    match coefficients.get(i) {
        Some(c) => *c,
        None => 1,
    }
}

/// By what the weight of an operator multiplies the argument at a place.
pub(crate) fn coefficient_at(weights: &Weights, f: OpId, i: usize) -> u64
    ensures { result ≡ coefficient_in (slice_get weights.now.list f.0) i }
{
    match coefficients_of(weights, f).get(i) {
        Some(c) => *c,
        None => 1,
    }
}

// Adds a term so many times.
#[cycle(add)]
fn add_term(form: &mut Form, weights: &Weights, t: &Plain, factor: u64) -> Result<(), NoMemory>
    requires { IsPlaced form.old }
    ensures { OnOk result
        (IsAdded (linear weights.now.list) factor (term t.now) form.old form.new) }
{
    match t {
        Plain::Var(x) => {
            raise(&mut form.factors, &mut form.starts, *x, factor)?;
            Ok(())
        }
        Plain::App(f, us) => {
            let adds = constant_at(weights, *f);
            let own = times(factor, adds);
            let more = plus(form.constant, own);
            form.constant = more;
            add_all(form, weights, *f, us, factor)?;
            Ok(())
        }
    }
}

// Adds the arguments of an operator, so many times what each counts.
#[cycle(add)]
fn add_all(
    form: &mut Form,
    weights: &Weights,
    f: OpId,
    us: &Args,
    factor: u64,
) -> Result<(), NoMemory>
    requires { IsPlaced form.old }
    ensures { OnOk result
        (AreAdded (linear weights.now.list) factor f us.now form.old form.new) }
{
    let coefficients = coefficients_of(weights, f);
    let mut i: usize = 0;
    for t in &us.items {
        let count = counted(coefficients, i);
        let many = times(factor, count);
        add_term(form, weights, t, many)?;
        i += 1;
    }
    Ok(())
}

/// Makes of a form that of a term's value.
pub(crate) fn set_form(
    alloc: Global,
    form: &mut Form,
    weights: &Weights,
    t: &Plain,
) -> Result<(), NoMemory>
    ensures { OnOk result (IsFormOf (linear weights.now.list) (term t.now) form.new) }
{
    make_room(alloc, &mut form.starts)?;
    form.factors.clear();
    form.constant = 0;
    add_term(form, weights, t, 1)?;
    Ok(())
}
