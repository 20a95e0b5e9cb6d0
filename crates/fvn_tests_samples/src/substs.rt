//! Reads substitutions.
ghost use Rattle.std.specs.Prelude.{IfOk, IfSome};
ghost use Rattle.fvn_flat.specs.Bindings.{BindingsFit};

use super::terms::{has_kind, term_of, var_of};
use fvn_flat::{Subst, flatten};
use fvn_signature::Signature;
use fvn_terms::{NoMemory, Plain, Var};
use std::alloc::Global;

/// One more variable bound, where it is free and the term is of its kind.
fn with_pair(
    alloc: Global,
    sig: &Signature,
    s: &Subst,
    v: Var,
    t: &Plain,
) -> Result<Option<Subst>, NoMemory>
    requires { BindingsFit sig.now s.now }
    ensures { IfOk result (λ o. IfSome o (BindingsFit sig.now)) }
{
    sig.recall_good();
    match s.get(v) {
        Some(_) => Ok(None),
        None => {
            if !has_kind(sig, t, sig.kind(v.sort)) {
                return Ok(None);
            }
            let u = flatten(alloc, sig, t)?;
            let more = s.bind(alloc, v, &u)?;
            Ok(Some(more))
        }
    }
}

/// The substitution that binds nothing.
fn nothing(alloc: Global, sig: &Signature) -> Subst
    ensures { BindingsFit sig.now result }
{
    Subst::empty(alloc)
}

/// A substitution is a row of pairs, each a variable and its term; none where a term does not fit.
pub fn subst_of(alloc: Global, sig: &Signature, text: &str) -> Result<Option<Subst>, NoMemory>
    ensures { IfOk result (λ o. IfSome o (BindingsFit sig.now)) }
{
    let mut s = nothing(alloc, sig);
    for pair in text.split("; ") {
        let (x, word) = pair.split_once(' ').unwrap_or((pair, ""));
        let t = match term_of(alloc, sig, word)? {
            Some(t) => t,
            None => return Ok(None),
        };
        s = match with_pair(alloc, sig, &s, var_of(x), &t)? {
            Some(more) => more,
            None => return Ok(None),
        };
    }
    Ok(Some(s))
}
