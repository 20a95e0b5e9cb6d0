//! The symbols of terms: variables and operators.
ghost use Rattle.std.specs.Prelude.{◌≡◌};
ghost use Rattle.fvn_forms.specs.Settled.{Settled};
ghost use Rattle.fvn_cover_counts.specs.Weights.{same_symbol};
ghost use Rattle.fvn_cover_counts.specs.inner.Heads.{symbol_of, further};

use fvn_flat::Flat;
use fvn_signature::Signature;
use fvn_terms::{OpId, Var};

/// A variable or an operator.
#[derive(Clone, Copy)]
pub(crate) enum Symbol {
    Variable(Var),
    Operator(OpId),
}

// Whether the two are one symbol.
pub(crate) fn is_same(a: Symbol, b: Symbol) -> bool
    ensures { result ≡ same_symbol a b }
{
    match a {
        Symbol::Variable(x) => match b {
            Symbol::Variable(y) => x == y,
            Symbol::Operator(_) => false,
        },
        Symbol::Operator(f) => match b {
            Symbol::Variable(_) => false,
            Symbol::Operator(g) => f == g,
        },
    }
}

// The symbol at the top of a term.
pub(crate) fn top_symbol(t: &Flat) -> Symbol
    ensures { result ≡ symbol_of t.now }
{
    match t.as_var() {
        Some(x) => Symbol::Variable(x),
        None => match t.head() {
            Some(f) => Symbol::Operator(f),
            None => Symbol::Operator(OpId(0)),
        },
    }
}

// How often the symbol at the top stands there beyond once: a sum of n terms has n - 1 operators.
pub(crate) fn further(sig: &Signature, t: &Flat) -> usize
    requires { Settled sig.now t.now }
    ensures { result ≡ further t.now }
{
    match t.head() {
        None => 0,
        Some(f) => {
            if sig.axioms(f).is_sum() {
                return t.args().len().saturating_sub(2);
            }
            0
        }
    }
}
