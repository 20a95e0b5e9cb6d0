//! What is searched in, and how far.
ghost use Rattle.std.specs.Prelude.{◌≡◌};

use fvn_base::limits::TERM_SYMBOLS;
use fvn_cmd_words::Reach;
use fvn_exploring::Limits;
use fvn_module::Module;
use fvn_rewrite_rules::Rules;
use std::alloc::Global;

/// What is searched in: a module with its rules, how far, and by how many workers.
#[derive(Clone, Copy)]
pub struct Search<'a> {
    pub alloc: Global,
    pub declared: &'a Module,
    pub rules: &'a Rules,
    pub reach: Reach,
    pub workers: u32,
}

impl Search<'_> {
    /// The limits of the exploration.
    pub fn limits(&self) -> Limits
        ensures levels { result.levels ≡ self.now.reach.levels }
        ensures variants { result.variants ≡ self.now.reach.variants }
        ensures steps { result.steps ≡ self.now.reach.steps }
        ensures size { result.size ≡ TERM_SYMBOLS }
        ensures workers { result.workers ≡ self.now.workers }
    {
        Limits {
            levels: self.reach.levels,
            variants: self.reach.variants,
            steps: self.reach.steps,
            size: TERM_SYMBOLS,
            workers: self.workers,
        }
    }
}
