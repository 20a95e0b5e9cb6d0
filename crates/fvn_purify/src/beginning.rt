//! The cursor over the splits of a problem, at its start.
ghost use Rattle.std.specs.Prelude.{◌≡◌, ◌↔◌, Option, IfOk};
ghost use Rattle.fvn_terms.specs.Substitution.{Substitution};
ghost use Rattle.fvn_terms.specs.Unifiers.{Problem};
ghost use Rattle.fvn_flat.specs.Problems.{IsProblem};
ghost use Rattle.fvn_flat.specs.SolvedLists.{IsKindUnifier};
ghost use Rattle.fvn_combine_tree.specs.Questions.{IsStart};
ghost use Rattle.fvn_combine_nodes.specs.declared.state.State.{State};
ghost use Rattle.fvn_purify.specs.Parts.{AreClassesOf, outline};
ghost use Rattle.fvn_purify.specs.Obeying.{ObeysSplit};
ghost use Rattle.fvn_purify.specs.Splits.{IsSplit};
ghost use Rattle.fvn_purify.specs.Cursor.{Pending};
ghost use Rattle.fvn_purify.specs.inner.Choices.{asking};
ghost use Rattle.fvn_purify.specs.declared.split.Split.{Split as InSplit};

use crate::choosing::Partial;
use crate::classes::Classes;
use crate::cursor::Splits;
use fvn_combine_nodes::unifiers_partition;
use fvn_combine_tree::start;
use fvn_signature::Signature;
use fvn_terms::NoMemory;
use std::alloc::Global;

/// The state that every partition has, if there is a partition.
pub(crate) fn begun(
    alloc: Global,
    sig: &Signature,
    classes: &Classes,
) -> Result<Vec<Partial>, NoMemory>
    ensures { IfOk result (λ partials.
        (r : Option State) × IsStart sig.now classes.now.table r × (partials.items ≡ asking r)) }
{
    let mut partials = Vec::new(alloc);
    match start(alloc, sig, &classes.table)? {
        None => Ok(partials),
        Some(state) => {
            partials.push(Partial::Asking(state))?;
            Ok(partials)
        }
    }
}

/// The splits of a problem's parts, none of them given yet.
pub fn splits<'a>(
    alloc: Global,
    sig: &'a Signature,
    classes: &'a Classes,
) -> Result<Splits<'a>, NoMemory>
    requires classes { (problem : Problem) ×
        IsProblem sig.now problem × AreClassesOf sig.now problem classes.now }
    ensures of { IfOk result (λ s.
        (s.declarations ≡ sig.now) × (s.outline ≡ outline classes.now)) }
    // All splits are to come, and nothing else.
    ensures exact { IfOk result (λ s. (split : InSplit) →
        Pending s split ↔ IsSplit sig.now (outline classes.now) split) }
    // Every unifier on kinds obeys one of them.
    ensures complete { IfOk result (λ s. (problem : Problem) (u : Substitution) →
        IsProblem sig.now problem → AreClassesOf sig.now problem classes.now →
        IsKindUnifier sig.now problem u → (split : InSplit) ×
        ObeysSplit sig.now (outline classes.now) u split × Pending s split) }
{
    sig.recall_good();
    classes.table.recall_well_made();
    unifiers_partition();
    let partials = begun(alloc, sig, classes)?;
    Ok(Splits {
        alloc,
        sig,
        classes,
        partials,
    })
}
