//! The rules that are needed under each head: those of whose left sides no other is more general.
ghost use Rattle.std.specs.Prelude.{◌≡◌, ◌↔◌, IsTrue, Some, All, IfOk};
ghost use Rattle.fvn_flat.specs.Forms.{head_of};
ghost use Rattle.fvn_rewrite_rules.specs.inner.Making.{IsKindedRule};
ghost use Rattle.fvn_rewrite_rules.specs.inner.Heads.{HasAsInstance, SomeHasInstance, ServesAs, SomeServesAs, AreLeft, AreNeededWith, AreNeeded, IsTable};

use crate::guessing::is_guessed;
use crate::rule::Rule;
use fvn_base::Seq;
use fvn_match::{matches, may_match};
use fvn_signature::Signature;
use fvn_terms::{NoMemory, OpId};
use std::alloc::Global;
use std::slice::from_ref;

// Whether a substitution makes the left side of a rule that of another. Where heads tell that none does, nothing is
// matched.
fn has_instance(alloc: Global, sig: &Signature, rule: &Rule, other: &Rule) -> Result<bool, NoMemory>
    requires rule { IsKindedRule sig.now rule.now }
    requires other { IsKindedRule sig.now other.now }
    ensures { IfOk result (λ b. IsTrue b ↔ HasAsInstance sig.now rule.now other.now) }
{
    let open = may_match(sig, &rule.left, &other.left);
    if !open {
        return Ok(false);
    }
    let guessed = is_guessed(alloc, sig, rule, other)?;
    if guessed {
        return Ok(true);
    }
    let found = matches(alloc, sig, from_ref(&rule.left), from_ref(&other.left))?;
    let is = found.is_some();
    Ok(is)
}

// Whether a rule serves in place of another one: it has it as an instance, and where each has the other, the other has
// no smaller right side.
fn serves(alloc: Global, sig: &Signature, rule: &Rule, other: &Rule) -> Result<bool, NoMemory>
    requires rule { IsKindedRule sig.now rule.now }
    requires other { IsKindedRule sig.now other.now }
    ensures { IfOk result (ServesAs sig.now rule.now other.now) }
{
    let general = has_instance(alloc, sig, rule, other)?;
    if !general {
        return Ok(false);
    }
    let small = rule.right.size() <= other.right.size();
    if small {
        return Ok(true);
    }
    let back = has_instance(alloc, sig, other, rule)?;
    if back {
        return Ok(false);
    }
    Ok(true)
}

// Whether one of the rules that are made from the same equation has this one as an instance, and serves in its place:
// most identity instances of an equation are instances of the equation itself.
fn own_serves(alloc: Global, sig: &Signature, rules: &[Rule], rule: &Rule) -> Result<bool, NoMemory>
    requires rules { All (IsKindedRule sig.now) rules.now }
    requires rule { IsKindedRule sig.now rule.now }
    ensures { IfOk result (λ b. IsTrue b → SomeHasInstance sig.now rules.now rule.now) }
{
    for general in rules {
        if general.equation != rule.equation {
            continue;
        }
        let found = serves(alloc, sig, general, rule)?;
        if found {
            return Ok(true);
        }
    }
    Ok(false)
}

// Whether one of the rules serves in place of this one; those of the same equation are asked first.
fn some_serves(
    alloc: Global,
    sig: &Signature,
    rules: &[Rule],
    rule: &Rule,
) -> Result<bool, NoMemory>
    requires rules { All (IsKindedRule sig.now) rules.now }
    requires rule { IsKindedRule sig.now rule.now }
    ensures { IfOk result (SomeServesAs sig.now rules.now rule.now) }
{
    let own = own_serves(alloc, sig, rules, rule)?;
    if own {
        return Ok(true);
    }
    for general in rules {
        let found = serves(alloc, sig, general, rule)?;
        if found {
            return Ok(true);
        }
    }
    Ok(false)
}

// The rules, but for the instances of one more.
fn without_instances(
    alloc: Global,
    sig: &Signature,
    rules: &[Rule],
    general: &Rule,
) -> Result<Vec<Rule>, NoMemory>
    requires rules { All (IsKindedRule sig.now) rules.now }
    requires general { IsKindedRule sig.now general.now }
    ensures { IfOk result (λ all. AreLeft sig.now general.now rules.now all.items) }
{
    let mut all = Vec::new(alloc);
    for rule in rules {
        let found = has_instance(alloc, sig, general, rule)?;
        if found {
            continue;
        }
        let copy = rule.copy(alloc)?;
        all.push(copy)?;
    }
    Ok(all)
}

// The rules with one more, and without its instances; as they are, where one of them serves in its place.
fn needed_with(
    alloc: Global,
    sig: &Signature,
    needed: Vec<Rule>,
    rule: &Rule,
) -> Result<Vec<Rule>, NoMemory>
    requires needed { All (IsKindedRule sig.now) needed.items }
    requires rule { IsKindedRule sig.now rule.now }
    ensures { IfOk result (λ all. AreNeededWith sig.now rule.now needed.items all.items) }
{
    let found = some_serves(alloc, sig, needed.as_slice(), rule)?;
    if found {
        return Ok(needed);
    }
    let copy = rule.copy(alloc)?;
    let mut all = without_instances(alloc, sig, needed.as_slice(), rule)?;
    all.push(copy)?;
    Ok(all)
}

// Whether the operator heads the left side.
fn is_headed_by(rule: &Rule, f: OpId) -> bool
    ensures { IsTrue result ↔ (head_of rule.now.left ≡ Some f) }
{
    match rule.left.head() {
        Some(g) => g == f,
        None => false,
    }
}

// The rules that are needed under a head.
fn needed_under(
    alloc: Global,
    sig: &Signature,
    rules: &[Rule],
    f: OpId,
) -> Result<Vec<Rule>, NoMemory>
    requires { All (IsKindedRule sig.now) rules.now }
    ensures { IfOk result (λ all. AreNeeded sig.now f rules.now all.items) }
{
    let mut needed = Vec::new(alloc);
    for rule in rules {
        if !is_headed_by(rule, f) {
            continue;
        }
        needed = needed_with(alloc, sig, needed, rule)?;
    }
    Ok(needed)
}

// For each operator the rules that are needed under it.
pub(crate) fn table(
    alloc: Global,
    sig: &Signature,
    rules: &[Rule],
) -> Result<Vec<Seq<Rule>>, NoMemory>
    requires { All (IsKindedRule sig.now) rules.now }
    ensures { IfOk result (λ all. IsTable sig.now rules.now all.items) }
{
    sig.recall_good();
    let mut all = Vec::new(alloc);
    for n in 0..sig.op_count() {
        let needed = needed_under(alloc, sig, rules, OpId(n as u16))?;
        all.push(Seq::from_vec(needed))?;
    }
    Ok(all)
}
