//! Variants with new variables, from which one step goes on.
ghost use Rattle.std.specs.Prelude.{◌≡◌, [], IfOk};
ghost use Rattle.fvn_cover.specs.Covering.{IsFlatVariant};
ghost use Rattle.fvn_flat.specs.Bindings.{value, BindingsFit};
ghost use Rattle.fvn_flat.specs.Variables.{with_variables};
ghost use Rattle.fvn_exploring.specs.Children.{HoldsVariables};
ghost use Rattle.fvn_narrow_children.specs.Starts.{IsStartOf};
ghost use Rattle.fvn_narrow_children.specs.inner.Renaming.{value_variables, IsRenamedBy};

use crate::values::{instances, values_under};
use fvn_base::Seq;
use fvn_base::limits::FIRST_FRESH;
use fvn_cover::Variant;
use fvn_flat::{Subst, fresh_variables, with_variable};
use fvn_signature::Signature;
use fvn_terms::{NoMemory, Var};
use std::alloc::Global;

/// A variant with new variables, numbered from 1, and the number after the last one.
#[derive(Drop)]
pub struct Start {
    pub variant: Variant,
    pub next: u32,
}

// The list with the variables of the value of one more variable.
fn with_value(s: &Subst, x: Var, list: Vec<Var>) -> Result<Vec<Var>, NoMemory>
    ensures { IfOk result (λ all. all.items ≡ with_variables (value s.now x) list.items) }
{
    match s.get(x) {
        Some(t) => {
            let all = t.with_variables(list)?;
            Ok(all)
        }
        None => {
            let all = with_variable(list, x)?;
            Ok(all)
        }
    }
}

// The variables of the variant's values, in order of first occurrence.
pub(crate) fn value_names(alloc: Global, v: &Variant) -> Result<Vec<Var>, NoMemory>
    ensures { IfOk result (λ all. all.items ≡ value_variables v.now.subst v.now.vars []) }
{
    let mut all = Vec::new(alloc);
    for x in v.vars.as_slice() {
        all = with_value(&v.subst, *x, all)?;
    }
    Ok(all)
}

// The variant under a renaming of its variables.
fn renamed(alloc: Global, sig: &Signature, v: &Variant, s: &Subst) -> Result<Variant, NoMemory>
    requires variant { IsFlatVariant sig.now v.now }
    requires fits { BindingsFit sig.now s.now }
    ensures { IfOk result (IsRenamedBy sig.now s.now v.now) }
{
    let terms = instances(alloc, sig, s, v.terms.as_slice())?;
    let subst = values_under(alloc, sig, v, s)?;
    let vars = Seq::from_slice(alloc, v.vars.as_slice())?;
    Ok(Variant {
        terms: Seq::from_vec(terms),
        subst,
        vars,
    })
}

/// The variant with its variables renamed to new ones of the same sorts, numbered from 1 in order of first occurrence.
///
/// Where there are too many of them it is told that memory is short.
pub fn start_of(alloc: Global, sig: &Signature, v: &Variant) -> Result<Start, NoMemory>
    requires variant { IsFlatVariant sig.now v.now }
    requires holds { HoldsVariables v.now }
    ensures { IfOk result (λ start. IsStartOf sig.now start.next v.now start.variant) }
{
    let names = value_names(alloc, v)?;
    if names.len() >= FIRST_FRESH as usize {
        return Err(NoMemory);
    }
    sig.recall_good();
    let (s, next) = fresh_variables(alloc, names.as_slice(), 1)?;
    let variant = renamed(alloc, sig, v, &s)?;
    Ok(Start { variant, next })
}
