//! Engines of rewriting, over a module and what was read in it.
ghost use Rattle.std.specs.Prelude.{◌≡◌, ◌<◌, All, IfOk};
ghost use Rattle.fvn_terms.specs.Signature.{KeepsKinds};
ghost use Rattle.fvn_terms.specs.Substitution.{value};
ghost use Rattle.fvn_theory.specs.Equations.{equations_of};
ghost use Rattle.fvn_rewrite_laws.specs.Kinds.{AreOfOneKind};
ghost use Rattle.fvn_rewrite_rules.specs.Given.{AreRules};
ghost use Rattle.fvn_rewrite.specs.Usable.{AreUsable};
ghost use Rattle.fvn_verify.specs.Verdicts.{setting, IsVerdict};

use fvn_module::Module;
use fvn_problems::{Bindings, Problem};
use fvn_rewrite_rules::{Rules, extend as rules_of};
use fvn_terms::NoMemory;
use fvn_theory::Bounds;
use fvn_verify::{Verdict, verify as verdict_on};
use std::alloc::Global;

/// The rules of a module: all identity instances of its equations, and the extension of each whose left side an
/// associative operator heads, with a new variable of its kind.
pub fn extend(alloc: Global, declared: &Module) -> Result<Rules, NoMemory>
    ensures equations { IfOk result (λ rules. rules.equations ≡ declared.now.equations) }
    ensures rules { IfOk result (AreRules declared.now.signature) }
{
    declared.recall_readable();
    let rules = rules_of(alloc, declared.signature(), declared.equations())?;
    Ok(rules)
}

/// Whether bindings solve a problem in the theory of a module's equations, modulo the axioms.
pub fn verify(
    alloc: Global,
    declared: &Module,
    rules: &Rules,
    problem: &Problem,
    bindings: &Bindings,
    bounds: Bounds,
) -> Result<Verdict, NoMemory>
    requires rules { AreUsable declared.now.signature rules.now }
    requires kinded { All (AreOfOneKind declared.now.signature) problem.now.pairs }
    requires limited { bounds.size < u64.MAX }
    requires keeps { KeepsKinds declared.now.signature (value bindings.now.subst.pairs) }
    ensures { IfOk result (IsVerdict (setting declared.now.signature
        (equations_of rules.now.equations) (value bindings.now.subst.pairs) bounds)
        problem.now.pairs) }
{
    let verdict = verdict_on(
        alloc,
        declared.signature(),
        rules,
        problem.pairs.as_slice(),
        &bindings.subst,
        bounds,
    )?;
    Ok(verdict)
}
