//! The lines of unifiers.
ghost use Rattle.std.specs.Prelude.{IfOk, All};
ghost use Rattle.fvn_answer.specs.Asked.{AreAsked, HaveSorts};
ghost use Rattle.fvn_answer.specs.Writing.{bytes_of as lines_in};
ghost use Rattle.fvn_flat.specs.Bindings.{BindingsFit};
ghost use Rattle.fvn_cmd_unify.specs.inner.Told.{AreLinesOfBindings};

use fvn_answer::{Line, line_of};
use fvn_flat::Subst;
use fvn_module::Module;
use fvn_problems::Problem;
use fvn_terms::NoMemory;
use std::alloc::Global;

/// A line for each of the substitutions.
pub fn lines_of(
    alloc: Global,
    declared: &Module,
    problem: &Problem,
    unifiers: &[Subst],
) -> Result<Vec<Line>, NoMemory>
    requires vars { AreAsked declared.now.signature problem.now.names.texts problem.now.vars }
    requires fit { All (BindingsFit declared.now.signature) unifiers.now }
    requires sorts { All (HaveSorts declared.now.signature problem.now.vars) unifiers.now }
    ensures { IfOk result (λ lines. AreLinesOfBindings declared.now problem.now unifiers.now
        (lines_in lines.items)) }
{
    let mut lines = Vec::new(alloc);
    for s in unifiers {
        let line = line_of(alloc, declared, &problem.names, s, problem.vars.as_slice())?;
        lines.push(line)?;
    }
    Ok(lines)
}
