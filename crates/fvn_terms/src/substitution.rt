//! Substitutions, kept as pairs of a variable and its term.
ghost use Rattle.std.specs.Prelude.{◌≡◌, Some, None, MatchOption, IfOk};
ghost use Rattle.fvn_terms.specs.Plain.{term};
ghost use Rattle.fvn_terms.specs.Substitution.{bound, value, apply, apply_all};

use crate::plain::{Args, Plain, Var};
use fvn_base::{NoMemory, Seq};
use std::alloc::Global;

/// Terms for some variables; a variable without a pair stays as it is.
#[derive(Drop)]
pub struct PlainSubst {
    pub pairs: Seq<(Var, Plain)>,
}

impl PlainSubst {
    /// What the first pair for `v` gives it.
    pub fn get(&self, v: Var) -> Option<&Plain>
        ensures { MatchOption result (bound self.now.pairs v ≡ None)
            (λ t. bound self.now.pairs v ≡ Some t.now) }
    {
        for (x, t) in self.pairs.as_slice() {
            if *x == v {
                return Some(t);
            }
        }
        None
    }

    /// The term with all bound variables replaced at once.
    #[cycle(apply)]
    pub fn apply(&self, alloc: Global, t: &Plain) -> Result<Plain, NoMemory>
        ensures { IfOk result (λ u. term u ≡ apply (value self.now.pairs) (term t.now)) }
    {
        match t {
            Plain::Var(x) => match self.get(*x) {
                Some(u) => u.copy(alloc),
                None => Ok(Plain::Var(*x)),
            },
            Plain::App(f, us) => Ok(Plain::App(*f, self.apply_all(alloc, us)?)),
        }
    }

    /// The arguments with all bound variables replaced at once.
    #[cycle(apply)]
    pub fn apply_all(&self, alloc: Global, us: &Args) -> Result<Args, NoMemory>
        ensures { IfOk result (λ vs. vs ≡ apply_all (value self.now.pairs) us.now) }
    {
        let mut items = Vec::new(alloc);
        for u in &us.items {
            items.push(self.apply(alloc, u)?)?;
        }
        Ok(Args { items })
    }
}
