//! The next unifier on kinds, or why there is none.
ghost use Rattle.std.specs.Prelude.{◌≡◌, None, IfOk};
ghost use Rattle.fvn_axunify.specs.inner.Nexts.{IsNext};

use fvn_combine::{CombineEnd, Combiner};
use fvn_flat::{SizeCause, SolveEnd, Subst};
use fvn_terms::NoMemory;

// A unifier on kinds, or the end of the search.
#[derive(Drop)]
pub(crate) enum Next {
    Given(Subst),
    End(SolveEnd),
}

// The next unifier on kinds of a search that has not ended.
pub(crate) fn step(combiner: &mut Combiner) -> Result<Next, NoMemory>
    requires { combiner.old.ended ≡ None }
    ensures same { combiner.new.combining ≡ combiner.old.combining }
    ensures next { IfOk result (IsNext combiner.old combiner.new) }
{
    match combiner.advance() {
        Ok(Some(g)) => Ok(Next::Given(g)),
        Ok(None) => Ok(Next::End(SolveEnd::Complete)),
        Err(CombineEnd::Basis(f, system)) => Ok(Next::End(SolveEnd::Basis(f, system))),
        Err(CombineEnd::Size(list)) => Ok(Next::End(SolveEnd::Size(SizeCause::Binding(list)))),
        Err(CombineEnd::NoMemory) => Err(NoMemory),
    }
}
