//! Which operators the axioms keep.
ghost use Rattle.std.specs.Prelude.{◌≡◌, ◌↔◌, true, IsTrue, Any};
ghost use Rattle.fvn_terms.specs.Equality.{identity};
ghost use Rattle.fvn_forms.specs.Canon.{is_identity};
ghost use Rattle.fvn_cover_counts.specs.Weights.{IsKept};

use fvn_signature::Signature;
use fvn_terms::{Axioms, OpDecl, OpId};

// Whether the axioms have this identity.
fn names_identity(axioms: Axioms, e: OpId) -> bool
    ensures { result ≡ is_identity (identity axioms) e }
{
    match axioms.identity() {
        Some(f) => f == e,
        None => false,
    }
}

// Whether the constant is the identity of one of the operators.
fn is_identity(ops: &[OpDecl], e: OpId) -> bool
    ensures { IsTrue result ↔ Any (λ o. is_identity (identity o.axioms) e ≡ true) ops.now }
{
    for o in ops {
        if names_identity(o.axioms, e) {
            return true;
        }
    }
    false
}

// Whether the operator has no identity and is none.
pub(crate) fn is_kept(sig: &Signature, f: OpId) -> bool
    ensures { IsTrue result ↔ IsKept sig.now f }
{
    match sig.identity(f) {
        Some(_) => false,
        None => !is_identity(sig.declarations().ops.as_slice(), f),
    }
}
