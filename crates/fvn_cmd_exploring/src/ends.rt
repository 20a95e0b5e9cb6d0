//! How an answer over an exploration ends.
ghost use Rattle.std.specs.Prelude.{◌≡◌, IfOk};
ghost use Rattle.fvn_exploring.specs.declared.ends.ExploreEnd.TheVariants.{Complete};
ghost use Rattle.fvn_module_loading.specs.Losses.{IsLossOf};
ghost use Rattle.fvn_cmd_exploring.specs.Ends.{end_told};

use fvn_answer::End;
use fvn_base::limits::{TERM_SYMBOLS, UNIFIERS};
use fvn_cmd_words::Reach;
use fvn_exploring::ExploreEnd;
use fvn_module::Module;
use fvn_module_loading::sort_loss;
use fvn_terms::NoMemory;
use std::alloc::Global;

/// The end that is told of that of an exploration, after so many lines.
pub fn end_told(
    alloc: Global,
    reach: Reach,
    end: &ExploreEnd,
    loss: Option<usize>,
    count: usize,
) -> Result<End, NoMemory>
    ensures { IfOk result (λ told. told ≡ end_told reach end.now loss count) }
{
    match end {
        ExploreEnd::Complete => match loss {
            None => Ok(End::Complete(count)),
            Some(number) => Ok(End::Sorts(number)),
        },
        ExploreEnd::Levels(_) => Ok(End::Levels(reach.levels)),
        ExploreEnd::Variants(_) => Ok(End::Variants(reach.variants)),
        ExploreEnd::Steps(start, _) => {
            let form = start.copy(alloc)?;
            Ok(End::Steps(reach.steps, form))
        }
        ExploreEnd::Size(_) => Ok(End::Size(TERM_SYMBOLS)),
        ExploreEnd::Basis(f, _) => Ok(End::Basis(*f)),
        ExploreEnd::Unifiers(_, _) => Ok(End::Unifiers(UNIFIERS)),
    }
}

/// Where an exploration came to its end, the first equation of the module that loses a sort, if one does.
pub fn loss_after(
    alloc: Global,
    declared: &Module,
    end: &ExploreEnd,
) -> Result<Option<usize>, NoMemory>
    ensures { IfOk result (λ loss. end.now ≡ Complete → IsLossOf declared.now loss) }
{
    match end {
        ExploreEnd::Complete => {
            let loss = sort_loss(alloc, declared)?;
            Ok(loss)
        }
        ExploreEnd::Levels(_) => Ok(None),
        ExploreEnd::Variants(_) => Ok(None),
        ExploreEnd::Steps(_, _) => Ok(None),
        ExploreEnd::Size(_) => Ok(None),
        ExploreEnd::Basis(_, _) => Ok(None),
        ExploreEnd::Unifiers(_, _) => Ok(None),
    }
}
