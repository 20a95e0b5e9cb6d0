//! Identity instances of an equation.
ghost use Rattle.std.specs.Prelude.{◌≡◌, ◌++◌, [], map, All, Contains, IfOk};
ghost use Rattle.fvn_terms.specs.Plain.{term};
ghost use Rattle.fvn_terms.specs.Equality.{constant};
ghost use Rattle.fvn_forms.specs.Flat.{fconstant};
ghost use Rattle.fvn_flat.specs.Bindings.{BindingsFit};
ghost use Rattle.fvn_rewrite_laws.specs.Kinds.{HasOneKind};
ghost use Rattle.fvn_rewrite_laws.specs.Identities.{identities};
ghost use Rattle.fvn_rewrite_laws.specs.Choices.{identities_below};
ghost use Rattle.fvn_theory.specs.Equations.{sides_of};
ghost use Rattle.fvn_rewrite_rules.specs.inner.Making.{goes_to, IsKindedRule, instance_by, by_identities, with_choices, AreInstancesOver, AreInstances};

use crate::rule::Rule;
use fvn_cohere::{distinct_variables, identities_below};
use fvn_flat::{Flat, Subst, flatten};
use fvn_signature::Signature;
use fvn_terms::{Args, NoMemory, OpId, Plain, SortId, Var};
use fvn_theory::Equation;
use std::alloc::Global;

// The constant as a term.
fn constant(alloc: Global, e: OpId) -> Plain
    ensures { term result ≡ constant e }
{
    Plain::App(e, Args::from_vec(Vec::new(alloc)))
}

// The flat form of an identity at or below a sort.
pub(crate) fn identity_form(
    alloc: Global,
    sig: &Signature,
    s: SortId,
    e: OpId,
) -> Result<Flat, NoMemory>
    requires { Contains (identities_below sig.now s) e }
    ensures { IfOk result (λ t. t ≡ fconstant e) }
{
    sig.recall_good();
    sig.recall_completed();
    let t = constant(alloc, e);
    let form = flatten(alloc, sig, &t)?;
    Ok(form)
}

// The substitution that sends a variable to an identity at or below its sort.
fn sent_to(alloc: Global, sig: &Signature, x: Var, e: OpId) -> Result<Subst, NoMemory>
    requires { Contains (identities_below sig.now x.sort) e }
    ensures is { IfOk result (λ s. s ≡ goes_to x e) }
    ensures fits { IfOk result (BindingsFit sig.now) }
{
    sig.recall_good();
    sig.recall_completed();
    let form = identity_form(alloc, sig, x.sort, e)?;
    let s = Subst::empty(alloc).bind(alloc, x, &form)?;
    Ok(s)
}

// The rule with its variables replaced.
fn instance_by(alloc: Global, sig: &Signature, s: &Subst, rule: &Rule) -> Result<Rule, NoMemory>
    requires subst { BindingsFit sig.now s.now }
    requires rule { IsKindedRule sig.now rule.now }
    ensures { IfOk result (λ r. r ≡ instance_by sig.now s.now rule.now) }
{
    let left = s.apply(alloc, sig, &rule.left)?;
    let right = s.apply(alloc, sig, &rule.right)?;
    Ok(Rule {
        left,
        right,
        equation: rule.equation,
    })
}

// Some rules, and behind them others with their variables replaced.
fn with_instances_by(
    alloc: Global,
    sig: &Signature,
    s: &Subst,
    rules: &[Rule],
    before: Vec<Rule>,
) -> Result<Vec<Rule>, NoMemory>
    requires subst { BindingsFit sig.now s.now }
    requires rules { All (IsKindedRule sig.now) rules.now }
    ensures { IfOk result (λ all.
        all.items ≡ before.items ++ map (instance_by sig.now s.now) rules.now) }
{
    let mut all = before;
    for rule in rules {
        let instance = instance_by(alloc, sig, s, rule)?;
        all.push(instance)?;
    }
    Ok(all)
}

// The rules in which a variable goes to one of these identities, in turn.
fn by_identities(
    alloc: Global,
    sig: &Signature,
    x: Var,
    es: &[OpId],
    rules: &[Rule],
) -> Result<Vec<Rule>, NoMemory>
    requires below { es.now ≡ identities_below sig.now x.sort }
    requires rules { All (IsKindedRule sig.now) rules.now }
    ensures { IfOk result (λ all. all.items ≡ by_identities sig.now x rules.now es.now) }
{
    let mut all = Vec::new(alloc);
    for e in es {
        let s = sent_to(alloc, sig, x, *e)?;
        all = with_instances_by(alloc, sig, &s, rules, all)?;
    }
    Ok(all)
}

// The rules, and those in which a variable goes to an identity at or below its sort.
fn with_choices(
    alloc: Global,
    sig: &Signature,
    es: &[OpId],
    rules: Vec<Rule>,
    x: Var,
) -> Result<Vec<Rule>, NoMemory>
    requires identities { es.now ≡ identities sig.now }
    requires rules { All (IsKindedRule sig.now) rules.items }
    ensures { IfOk result (λ all. all.items ≡ with_choices sig.now rules.items x) }
{
    let below = identities_below(alloc, sig, es, x.sort)?;
    let mut more = by_identities(alloc, sig, x, below.as_slice(), rules.as_slice())?;
    let mut all = rules;
    all.append(&mut more)?;
    Ok(all)
}

// The equation itself, in flat form.
fn itself(
    alloc: Global,
    sig: &Signature,
    number: usize,
    e: &Equation,
) -> Result<Vec<Rule>, NoMemory>
    requires { HasOneKind sig.now (sides_of e.now) }
    ensures { IfOk result (λ all. AreInstancesOver sig.now number (sides_of e.now) [] all.items) }
{
    sig.recall_good();
    sig.recall_completed();
    let left = flatten(alloc, sig, &e.left)?;
    let right = flatten(alloc, sig, &e.right)?;
    let mut all = Vec::new(alloc);
    all.push(Rule {
        left,
        right,
        equation: number,
    })?;
    Ok(all)
}

// All identity instances of an equation: some, perhaps none, of the variables of its left side go to identities.
pub(crate) fn instances(
    alloc: Global,
    sig: &Signature,
    es: &[OpId],
    number: usize,
    e: &Equation,
) -> Result<Vec<Rule>, NoMemory>
    requires identities { es.now ≡ identities sig.now }
    requires kinds { HasOneKind sig.now (sides_of e.now) }
    ensures { IfOk result (λ all. AreInstances sig.now number (sides_of e.now) all.items) }
{
    sig.recall_good();
    sig.recall_completed();
    let vars = distinct_variables(alloc, &e.left)?;
    let mut all = itself(alloc, sig, number, e)?;
    for x in vars.as_slice() {
        all = with_choices(alloc, sig, es, all, *x)?;
    }
    Ok(all)
}
