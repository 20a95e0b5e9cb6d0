//! The rules whose overlaps are tested: they subsume all others.
ghost use Rattle.std.specs.Prelude.{◌≡◌, IsTrue, All, IfOk};
ghost use Rattle.fvn_critical_pairs.specs.Overlaps.{Subsumes, SomeSubsumes, SubsumeAll};
ghost use Rattle.fvn_critical.specs.inner.Choosing.{SidesFit};

use crate::heading::heads;
use fvn_match::matches_both;
use fvn_rewrite_rules::Rule;
use fvn_signature::Signature;
use fvn_terms::NoMemory;
use std::alloc::Global;
use std::slice::from_ref;

// Whether the first rule subsumes the second: one substitution makes both sides of the second from those of the first,
// and one operator heads both left sides. Right sides are matched first, since most refuse at once.
fn subsumes(
    alloc: Global,
    sig: &Signature,
    general: &Rule,
    special: &Rule,
) -> Result<bool, NoMemory>
    requires general { SidesFit sig.now general.now }
    requires special { SidesFit sig.now special.now }
    ensures { IfOk result (λ b. IsTrue b → Subsumes sig.now general.now special.now) }
{
    let Some(head) = special.left.head() else {
        return Ok(false);
    };
    if !heads(head, &general.left) {
        return Ok(false);
    }
    let found = matches_both(
        alloc,
        sig,
        (from_ref(&general.right), from_ref(&general.left)),
        (from_ref(&special.right), from_ref(&special.left)),
    )?;
    Ok(found.is_some())
}

// Whether one of the rules subsumes this one.
fn some_subsumes(
    alloc: Global,
    sig: &Signature,
    rules: &[Rule],
    rule: &Rule,
) -> Result<bool, NoMemory>
    requires rules { All (SidesFit sig.now) rules.now }
    requires rule { SidesFit sig.now rule.now }
    ensures { IfOk result (λ b. IsTrue b → SomeSubsumes sig.now rules.now rule.now) }
{
    for general in rules {
        let found = subsumes(alloc, sig, general, rule)?;
        if found {
            return Ok(true);
        }
    }
    Ok(false)
}

// The same rule, in memory of its own.
fn copy_of(alloc: Global, rule: &Rule) -> Result<Rule, NoMemory>
    ensures { IfOk result (λ r. r ≡ rule.now) }
{
    let left = rule.left.copy(alloc)?;
    let right = rule.right.copy(alloc)?;
    Ok(Rule {
        left,
        right,
        equation: rule.equation,
    })
}

// The same rules, in memory of their own.
fn copies(alloc: Global, rules: &[Rule]) -> Result<Vec<Rule>, NoMemory>
    ensures { IfOk result (λ all. all.items ≡ rules.now) }
{
    let mut all = Vec::new(alloc);
    for rule in rules {
        let copy = copy_of(alloc, rule)?;
        all.push(copy)?;
    }
    Ok(all)
}

// The rules from the last one to the first, but for those that a later one subsumes.
fn without_subsumed(alloc: Global, sig: &Signature, rules: Vec<Rule>) -> Result<Vec<Rule>, NoMemory>
    requires { All (SidesFit sig.now) rules.items }
    ensures { IfOk result (λ chosen. SubsumeAll sig.now rules.items chosen.items) }
{
    let mut rest = rules;
    let mut chosen = Vec::new(alloc);
    while let Some(rule) = rest.pop() {
        let found = some_subsumes(alloc, sig, chosen.as_slice(), &rule)?;
        if found {
            continue;
        }
        chosen.push(rule)?;
    }
    Ok(chosen)
}

// Some of the rules, in their order, that subsume all; none of them subsumes another one.
pub(crate) fn chosen_rules(
    alloc: Global,
    sig: &Signature,
    rules: &[Rule],
) -> Result<Vec<Rule>, NoMemory>
    requires { All (SidesFit sig.now) rules.now }
    ensures { IfOk result (λ chosen. SubsumeAll sig.now rules.now chosen.items) }
{
    let all = copies(alloc, rules)?;
    let back = without_subsumed(alloc, sig, all)?;
    let chosen = without_subsumed(alloc, sig, back)?;
    Ok(chosen)
}
