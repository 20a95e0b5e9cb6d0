//! The goals of a search for a matcher, and the values that were bound so far.
ghost use Rattle.std.specs.Prelude.{◌≡◌, ◌∷◌};
ghost use Rattle.fvn_terms.specs.Substitution.{same_var};
ghost use Rattle.fvn_flat.specs.Bindings.{Bindings};
ghost use Rattle.fvn_match.specs.inner.Goals.{bindings_of, with_bindings, IsBoundTo};

use fvn_flat::Flat;
use fvn_terms::{OpId, Var};

// Patterns and their targets, place by place, which were last taken apart where so many variables were bound as `seen`
// says.
#[derive(Clone, Copy)]
pub(crate) struct Pairs<'a> {
    pub(crate) patterns: &'a [&'a Flat],
    pub(crate) targets: &'a [&'a Flat],
    pub(crate) seen: usize,
}

// Pairs of a pattern and its target, which come one after another.
#[derive(Drop)]
pub(crate) enum Goals<'a> {
    // Nothing is left.
    Done,
    // Patterns and their targets, place by place.
    Lists(&'a [Flat], &'a [Flat], &'a Goals<'a>),
    // The same of references.
    Pairs(Pairs<'a>, &'a Goals<'a>),
}

// Patterns whose summands under the operator are to be different pieces, each so often as its number says.
// Where so many variables were bound as `seen` says, no pattern was one of them.
#[derive(Clone, Copy)]
pub(crate) struct SumGoal<'a> {
    pub(crate) op: OpId,
    pub(crate) patterns: &'a [&'a Flat],
    pub(crate) pieces: &'a [&'a Flat],
    pub(crate) left: &'a [usize],
    pub(crate) seen: usize,
}

// A variable with its value.
#[derive(Clone, Copy)]
pub(crate) struct Binding<'a> {
    pub(crate) name: Var,
    pub(crate) value: &'a Flat,
}

// Whether the pair is of the variable.
fn is_named(pair: &Binding<'_>, v: Var) -> bool
    ensures { result ≡ same_var pair.now.name v }
{
    if pair.name == v {
        return true;
    }
    false
}

// The value that the pair gives the variable, or else the one from before.
fn newer<'a>(pair: &Binding<'a>, v: Var, before: Option<&'a Flat>) -> Option<&'a Flat>
    ensures { (b : Bindings) → IsBoundTo b v before.entry →
        IsBoundTo ((pair.now.name, pair.now.value.now) ∷ b) v result }
{
    let is = is_named(pair, v);
    if is {
        return Some(pair.value);
    }
    before
}

// The value that the last of the pairs gives the variable, or else the one from before.
pub(crate) fn newest<'a>(
    pairs: &[Binding<'a>],
    v: Var,
    before: Option<&'a Flat>,
) -> Option<&'a Flat>
    ensures { (b : Bindings) → IsBoundTo b v before.entry →
        IsBoundTo (with_bindings b pairs.now) v result }
{
    let mut found = before;
    for pair in pairs {
        found = newer(pair, v, found);
    }
    found
}

// Whether one of the pairs is of the variable.
fn has_name(pairs: &[Binding<'_>], v: Var) -> bool {
    for pair in pairs {
        if pair.name == v {
            return true;
        }
    }
    false
}

// Variables with their values, the newest last.
#[derive(Clone, Copy)]
pub(crate) struct Latest<'a> {
    pub(crate) pairs: &'a [Binding<'a>],
}

// Values of variables, the newest first.
#[derive(Drop)]
pub(crate) enum Bound<'a> {
    // No variable is bound.
    Nothing,
    // A variable with its value, and others.
    Bind(Var, &'a Flat, &'a Bound<'a>),
    // Variables with their values, the last of which is the newest, and others.
    Several(Latest<'a>, &'a Bound<'a>),
}

impl Bound<'_> {
    // How many variables are bound.
    pub(crate) fn count(&self) -> usize {
        match self {
            Bound::Nothing => 0,
            Bound::Bind(_, _, rest) => rest.count().saturating_add(1),
            Bound::Several(values, rest) => rest.count().saturating_add(values.pairs.len()),
        }
    }

    // Whether the variable is one of so many that were bound last.
    pub(crate) fn is_new(&self, v: Var, newest: usize) -> bool {
        if newest == 0 {
            return false;
        }
        match self {
            Bound::Nothing => false,
            Bound::Bind(x, _, rest) => {
                if *x == v {
                    return true;
                }
                rest.is_new(v, newest - 1)
            }
            Bound::Several(values, rest) => {
                if has_name(values.pairs, v) {
                    return true;
                }
                rest.is_new(v, newest.saturating_sub(values.pairs.len()))
            }
        }
    }

    // What the variable is bound to.
    pub(crate) fn get(&self, v: Var) -> Option<&Flat>
        ensures { IsBoundTo (bindings_of self.now) v result }
    {
        match self {
            Bound::Nothing => None,
            Bound::Bind(x, t, rest) => {
                if *x == v {
                    return Some(&**t);
                }
                rest.get(v)
            }
            Bound::Several(values, rest) => {
                let before = rest.get(v);
                newest(values.pairs, v, before)
            }
        }
    }
}
