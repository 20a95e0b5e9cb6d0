//! Rules with new variables.
ghost use Rattle.std.specs.Prelude.{IfOk};
ghost use Rattle.fvn_flat.specs.Fits.{Fits};
ghost use Rattle.fvn_critical_pairs.specs.Overlaps.{IsRenewed};

use fvn_base::limits::FIRST_FRESH;
use fvn_flat::fresh_variables;
use fvn_rewrite_rules::Rule;
use fvn_signature::Signature;
use fvn_terms::NoMemory;
use std::alloc::Global;

// A rule with new variables, numbered from 1, and the number after the last one.
#[derive(Drop)]
pub(crate) struct New {
    pub(crate) rule: Rule,
    pub(crate) next: u32,
}

// The rule with its variables renamed to new ones of the same sorts, numbered from 1 in order of first occurrence.
// Where there are too many of them it is told that memory is short.
pub(crate) fn renewed(alloc: Global, sig: &Signature, rule: &Rule) -> Result<New, NoMemory>
    requires left { Fits sig.now rule.now.left }
    requires right { Fits sig.now rule.now.right }
    ensures { IfOk result (λ new. IsRenewed sig.now new.next rule.now new.rule) }
{
    let some = rule.left.with_variables(Vec::new(alloc))?;
    let all = rule.right.with_variables(some)?;
    if all.len() >= FIRST_FRESH as usize {
        return Err(NoMemory);
    }
    sig.recall_good();
    let (s, next) = fresh_variables(alloc, all.as_slice(), 1)?;
    let left = s.apply(alloc, sig, &rule.left)?;
    let right = s.apply(alloc, sig, &rule.right)?;
    Ok(New {
        rule: Rule {
            left,
            right,
            equation: rule.equation,
        },
        next,
    })
}
