//! Equations that lose a sort.
ghost use Rattle.std.specs.Prelude.{All, MatchOption, IfOk};
ghost use Rattle.fvn_terms.specs.Plain.{term};
ghost use Rattle.fvn_rewrite_laws.specs.Kinds.{IsKindedEquation};
ghost use Rattle.fvn_rewrite_laws.specs.Losses.{AreSortDecreasing, IsFirstLoss};
ghost use Rattle.fvn_theory.specs.Equations.{IsReadableEquation, equations_of};
ghost use Rattle.fvn_cohere.specs.Promises.{IsNumberIn, OfEquation, LosesAs};

use crate::choosing::unchosen;
use crate::equations::equation_at;
use crate::identities::identities;
use crate::searching::{Search, Sought};
use crate::shapes::Chosen;
use crate::variables::variables_of_both;
use fvn_signature::Signature;
use fvn_terms::{NoMemory, Plain};
use fvn_theory::Equation;
use std::alloc::Global;

// Whether an equation loses a sort.
fn loses(alloc: Global, sig: &Signature, left: &Plain, right: &Plain) -> Result<bool, NoMemory>
    requires { IsKindedEquation sig.now (term left.now, term right.now) }
    ensures { IfOk result (LosesAs sig.now (term left.now) (term right.now)) }
{
    sig.recall_good();
    sig.recall_completed();
    let es = identities(alloc, sig)?;
    let ids = es.as_slice();
    let vars = variables_of_both(alloc, right, left)?;
    let list = vars.as_slice();
    let all = unchosen(alloc, sig, ids, Sought::Loss, list)?;
    let left_over = all.as_slice();
    let search = Search {
        sig,
        identities: ids,
        sought: Sought::Loss,
        left,
        right,
        unchosen: left_over,
    };
    if let Some(told) = search.loss_by_sorts(alloc)? {
        return Ok(told);
    }
    let found = search.find(0, &Chosen::Nothing);
    Ok(found)
}

// Whether the equation of this number loses a sort.
fn loses_at(
    alloc: Global,
    sig: &Signature,
    equations: &[Equation],
    number: usize,
) -> Result<bool, NoMemory>
    requires number { IsNumberIn equations.now number }
    requires readable { All (IsReadableEquation sig.now) equations.now }
    ensures { IfOk result (λ b. OfEquation equations.now number
        (λ e. LosesAs sig.now (term e.left) (term e.right) b)) }
{
    let e = equation_at(equations, number);
    let found = loses(alloc, sig, &e.left, &e.right)?;
    Ok(found)
}

/// The number, from 1, of the first equation that is not sort-decreasing; none where each is.
///
/// It goes through the choices of sorts and identities for the variables of each equation, those of its
/// right side first, and leaves a branch where bounds of the sorts of both sides show that nothing is
/// lost in it. `instances_fit` says whether they are few enough at worst.
pub fn sort_loss(
    alloc: Global,
    sig: &Signature,
    equations: &[Equation],
) -> Result<Option<usize>, NoMemory>
    requires { All (IsReadableEquation sig.now) equations.now }
    ensures { IfOk result (λ n. MatchOption n
        (AreSortDecreasing sig.now (equations_of equations.now))
        (IsFirstLoss sig.now (equations_of equations.now))) }
{
    for i in 0..equations.len() {
        let number = i + 1;
        let found = loses_at(alloc, sig, equations, number)?;
        if found {
            return Ok(Some(number));
        }
    }
    Ok(None)
}
