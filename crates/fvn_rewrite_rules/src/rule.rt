//! One rule.
ghost use Rattle.std.specs.Prelude.{◌≡◌, IfOk};

use fvn_flat::Flat;
use fvn_terms::NoMemory;
use std::alloc::Global;

/// A rule: its sides in flat form, and the number, from 1, of the equation that it is made from.
#[derive(Drop)]
pub struct Rule {
    pub left: Flat,
    pub right: Flat,
    pub equation: usize,
}

impl Rule {
    // The same rule, in memory of its own.
    pub(crate) fn copy(&self, alloc: Global) -> Result<Rule, NoMemory>
        ensures { IfOk result (λ r. r ≡ self.now) }
    {
        let left = self.left.copy(alloc)?;
        let right = self.right.copy(alloc)?;
        Ok(Rule {
            left,
            right,
            equation: self.equation,
        })
    }
}
