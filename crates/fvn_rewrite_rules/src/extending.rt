//! From equations to their rules.
ghost use Rattle.std.specs.Prelude.{◌≡◌, All, IfOk};
ghost use Rattle.fvn_theory.specs.Equations.{IsReadableEquation};
ghost use Rattle.fvn_rewrite_rules.specs.Given.{AreRules};

use crate::equations::{copied, rules_of};
use crate::heads::table;
use crate::rules::Rules;
use fvn_rewrite_laws::rules_are_lawful;
use fvn_signature::Signature;
use fvn_terms::NoMemory;
use fvn_theory::Equation;
use std::alloc::Global;

/// The rules of equations: all identity instances of these, and the extension of each whose left side an
/// associative operator heads, with a new variable of its kind.
///
/// The table by heads may leave out rules whose left sides are instances of those of others.
pub fn extend(alloc: Global, sig: &Signature, equations: &[Equation]) -> Result<Rules, NoMemory>
    requires { All (IsReadableEquation sig.now) equations.now }
    ensures equations { IfOk result (λ rules. rules.equations ≡ equations.now) }
    ensures rules { IfOk result (AreRules sig.now) }
{
    rules_are_lawful();
    sig.recall_good();
    sig.recall_completed();
    let rules = rules_of(alloc, sig, equations)?;
    let table = table(alloc, sig, rules.as_slice())?;
    let copies = copied(alloc, equations)?;
    Ok(Rules {
        equations: copies,
        rules,
        table,
    })
}
