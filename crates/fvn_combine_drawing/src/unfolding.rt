//! What bindings unfold to, where it is not too large.
ghost use Rattle.std.specs.Prelude.{◌-◌, ◌^◌, ◌<◌, All, IfOk};
ghost use Rattle.fvn_terms.specs.Signature.{IsSort};
ghost use Rattle.fvn_flat.specs.SolvedLists.{IsTriangular};
ghost use Rattle.fvn_combine_triangular.specs.CombineUnfoldingSizes.{IsFitting, AddUp};
ghost use Rattle.fvn_combine_drawing.specs.inner.Unfolded.{IsUnfoldedFrom};

use crate::drawing::Drawn;
use fvn_combine_triangular::{is_too_large, unfold};
use fvn_flat::SolvedList;
use fvn_signature::Signature;
use fvn_terms::{NoMemory, Var};
use std::alloc::Global;

/// The substitution that the bindings unfold to, or the bindings where a variable would have too
/// many symbols.
pub(crate) fn unfold_within(
    alloc: Global,
    sig: &Signature,
    list: SolvedList,
    variables: &[Var],
    size: u64,
) -> Result<Drawn, NoMemory>
    requires fitting { All (IsFitting sig.now) list.bindings }
    requires triangular { IsTriangular list.bindings }
    requires add_up { AddUp sig.now list.bindings }
    requires sorts { All (λ x. IsSort sig.now x.sort) variables.now }
    requires size { size < 2 ^ 64 - 1 }
    ensures { IfOk result (IsUnfoldedFrom sig.now list.bindings variables.now size) }
{
    if is_too_large(alloc, sig, &list, variables, size)? {
        return Ok(Drawn::TooLarge(list));
    }
    let g = unfold(alloc, sig, &list, variables)?;
    g.recall_bindings();
    Ok(Drawn::Unifier(g))
}
