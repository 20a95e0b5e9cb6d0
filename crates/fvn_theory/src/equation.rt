//! Equations.
ghost use Rattle.std.specs.Prelude.{◌≡◌, IfOk};

use fvn_terms::{NoMemory, Plain};
use std::alloc::Global;

/// An equation: its left side is replaced by its right side.
#[derive(Drop)]
pub struct Equation {
    pub left: Plain,
    pub right: Plain,
}

impl Equation {
    /// The equation, in memory of its own.
    pub fn copy(&self, alloc: Global) -> Result<Equation, NoMemory>
        ensures { IfOk result (λ e. e ≡ self.now) }
    {
        let left = self.left.copy(alloc)?;
        let right = self.right.copy(alloc)?;
        Ok(Equation { left, right })
    }
}
