//! Substitutions of flat forms from bindings that were read.
ghost use Rattle.std.specs.Prelude.{IfOk};
ghost use Rattle.fvn_flat.specs.Bindings.{BindingsFit};
ghost use Rattle.fvn_terms.specs.Sorts.{IsWellSorted};
ghost use Rattle.fvn_terms.specs.Substitution.{value};
ghost use Rattle.fvn_answer.specs.Asked.{AreAsked, HaveSorts};

use fvn_flat::{Subst, flatten};
use fvn_problems::{Bindings, Problem};
use fvn_signature::Signature;
use fvn_terms::{NoMemory, Plain};
use std::alloc::Global;

/// What bindings give the variables of a problem.
pub fn filled(
    alloc: Global,
    signature: &Signature,
    problem: &Problem,
    bindings: &Bindings,
) -> Result<Subst, NoMemory>
    requires vars { AreAsked signature.now problem.now.names.texts problem.now.vars }
    requires sorted { IsWellSorted signature.now (value bindings.now.subst.pairs) }
    ensures fit { IfOk result (BindingsFit signature.now) }
    ensures sorts { IfOk result (HaveSorts signature.now problem.now.vars) }
{
    signature.recall_good();
    let mut subst = Subst::empty(alloc);
    for x in problem.vars.as_slice() {
        let t = bindings.subst.apply(alloc, &Plain::Var(*x))?;
        let form = flatten(alloc, signature, &t)?;
        subst = subst.bind(alloc, *x, &form)?;
    }
    Ok(subst)
}
