//! Extensions: a new variable beside both sides of a rule whose left side is headed by an associative operator.
ghost use Rattle.std.specs.Prelude.{◌≡◌, true, [], ◌∷◌, ◌++◌, filter_map, Some, All, IfOk};
ghost use Rattle.std.specs.List.{cons_option};
ghost use Rattle.fvn_terms.specs.Signature.{axioms};
ghost use Rattle.fvn_terms.specs.Equality.{is_sum};
ghost use Rattle.fvn_flat.specs.Fits.{Fits, AllFit, Takes};
ghost use Rattle.fvn_flat.specs.Forms.{head_of};
ghost use Rattle.fvn_forms.specs.Flat.{fvar};
ghost use Rattle.fvn_rewrite_rules.specs.inner.Making.{IsKindedRule, new_variable, beside, extended, extension_of};

use crate::rule::Rule;
use fvn_flat::Flat;
use fvn_signature::Signature;
use fvn_terms::{NoMemory, OpId, Var};
use std::alloc::Global;

// The fresh variable 0 of the form's kind.
fn new_variable(sig: &Signature, t: &Flat) -> Var
    requires { Fits sig.now t.now }
    ensures { result ≡ new_variable sig.now t.now }
{
    Var {
        name: 0,
        sort: t.kind(sig),
        fresh: true,
    }
}

// A side with a variable beside it.
fn beside(alloc: Global, sig: &Signature, f: OpId, z: Var, side: &Flat) -> Result<Flat, NoMemory>
    requires fit { AllFit sig.now (side.now ∷ fvar z ∷ []) }
    requires takes { Takes sig.now f (side.now ∷ fvar z ∷ []) }
    ensures { IfOk result (λ t. t ≡ beside sig.now f z side.now) }
{
    let copy = side.copy(alloc)?;
    let mut both = Vec::new(alloc);
    both.push(copy)?;
    both.push(Flat::var(z))?;
    let t = Flat::app(alloc, sig, f, both)?;
    Ok(t)
}

// The rule with a new variable beside both sides.
fn extended(alloc: Global, sig: &Signature, rule: &Rule, f: OpId) -> Result<Rule, NoMemory>
    requires kinds { IsKindedRule sig.now rule.now }
    requires head { head_of rule.now.left ≡ Some f }
    requires associative { is_sum (axioms sig.now f) ≡ true }
    ensures { IfOk result (λ r. r ≡ extended sig.now rule.now f) }
{
    sig.recall_good();
    let z = new_variable(sig, &rule.left);
    let left = beside(alloc, sig, f, z, &rule.left)?;
    let right = beside(alloc, sig, f, z, &rule.right)?;
    Ok(Rule {
        left,
        right,
        equation: rule.equation,
    })
}

// The extension of a rule, where an associative operator heads its left side.
fn extension(alloc: Global, sig: &Signature, rule: &Rule) -> Result<Option<Rule>, NoMemory>
    requires { IsKindedRule sig.now rule.now }
    ensures { IfOk result (λ r. r ≡ extension_of sig.now rule.now) }
{
    match rule.left.head() {
        None => Ok(None),
        Some(f) => {
            if !sig.axioms(f).is_sum() {
                return Ok(None);
            }
            let wide = extended(alloc, sig, rule, f)?;
            Ok(Some(wide))
        }
    }
}

// The rules with one more, if there is one.
fn with_one(rules: Vec<Rule>, more: Option<Rule>) -> Result<Vec<Rule>, NoMemory>
    ensures { IfOk result (λ all. all.items ≡ rules.items ++ cons_option more []) }
{
    let mut all = rules;
    match more {
        None => Ok(all),
        Some(r) => {
            all.push(r)?;
            Ok(all)
        }
    }
}

// The extensions of rules.
pub(crate) fn extensions(
    alloc: Global,
    sig: &Signature,
    rules: &[Rule],
) -> Result<Vec<Rule>, NoMemory>
    requires { All (IsKindedRule sig.now) rules.now }
    ensures { IfOk result (λ all. all.items ≡ filter_map (extension_of sig.now) rules.now) }
{
    let mut all = Vec::new(alloc);
    for rule in rules {
        let wide = extension(alloc, sig, rule)?;
        all = with_one(all, wide)?;
    }
    Ok(all)
}
