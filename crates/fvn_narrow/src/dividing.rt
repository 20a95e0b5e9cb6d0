//! Steps at one form: as a whole, or two summands at a time.
ghost use Rattle.std.specs.Prelude.{◌≡◌, ◌<◌, None, length, IsTrue, IfOk};
ghost use Rattle.fvn_terms.specs.Signature.{axioms};
ghost use Rattle.fvn_terms.specs.Equality.{IsAssociative};
ghost use Rattle.fvn_flat.specs.Forms.{args_of};
ghost use Rattle.fvn_rewrite_rules.specs.Given.{headed};
ghost use Rattle.fvn_narrow.specs.inner.Turns.{IsReady, IsFormAt, IsSumAt, IsTryOf};
ghost use Rattle.fvn_narrow.specs.inner.Turns.{ForEach, TryLiftsByParts, AreFound};

use crate::posing::is_whole;
use crate::stepping::Part;
use crate::summing::at_pairs;
use crate::tools::{Solves, Tools};
use crate::trying::{by_rules, is_met, with_more};
use fvn_base::Seq;
use fvn_exploring::Expansion;
use fvn_flat::Flat;
use fvn_narrow_children::Start;
use fvn_rewrite_rules::Rule;
use fvn_terms::{NoMemory, OpId};
use std::alloc::Global;

// Whether one of the rules is met in pairs.
fn some_met<S: Solves>(
    tools: &Tools<'_, '_, S>,
    alloc: Global,
    rules: &[Rule],
) -> Result<bool, NoMemory> {
    for rule in rules {
        let met = is_met(tools, alloc, rule)?;
        if met {
            return Ok(true);
        }
    }
    Ok(false)
}

// Whether the form is a sum that is taken two summands at a time.
fn is_divided<S: Solves>(
    tools: &Tools<'_, '_, S>,
    alloc: Global,
    at: &Flat,
    f: OpId,
    rules: &[Rule],
) -> Result<bool, NoMemory>
    ensures { IfOk result (λ is. IsTrue is
        → (IsAssociative (axioms tools.now.rewriter.now.signature f)
        × (2 < length (args_of at.now)))) }
{
    if at.args().len() <= 2 {
        return Ok(false);
    }
    if !tools.rewriter.signature().axioms(f).is_sum() {
        return Ok(false);
    }
    let met = some_met(tools, alloc, rules)?;
    Ok(met)
}

// The children at all pairs of summands, and at the whole sum by the rules that are not met in pairs.
fn by_parts<S: Solves>(
    tools: &Tools<'_, '_, S>,
    alloc: Global,
    start: &Start,
    sum: &Part<'_>,
    f: OpId,
) -> Result<Expansion, NoMemory>
    requires ready { IsReady tools.now.rewriter.now start.now.variant start.now.next }
    requires sum { IsSumAt tools.now.rewriter.now start.now.variant sum.now.member sum.now.path.now f
        sum.now.at.now }
    requires whole { sum.now.beside ≡ None }
    ensures { IfOk result (AreFound tools.now.rewriter.now (S.most_unifiers tools.now.solver.now)
        (S.drawn tools.now.solver.now) start.now.variant
        (ForEach (TryLiftsByParts tools.now.rewriter.now (S.most_unifiers tools.now.solver.now)
        start.now.variant) (IsTryOf sum.now.at.now (headed tools.now.rewriter.now.rules f)))) }
{
    let pairs = at_pairs(tools, alloc, start, sum, f)?;
    let (children, end) = with_more(Vec::new(alloc), pairs)?;
    if !is_whole(&end) {
        return Ok(Expansion {
            children: Seq::from_vec(children),
            end,
        });
    }
    let rest = by_rules(
        tools,
        alloc,
        start,
        sum,
        tools.rewriter.rules().headed(f),
        true,
    )?;
    let (all, last) = with_more(children, rest)?;
    Ok(Expansion {
        children: Seq::from_vec(all),
        end: last,
    })
}

// The children at a form that f heads.
pub(crate) fn at_form<S: Solves>(
    tools: &Tools<'_, '_, S>,
    alloc: Global,
    start: &Start,
    form: &Part<'_>,
    f: OpId,
) -> Result<Expansion, NoMemory>
    requires ready { IsReady tools.now.rewriter.now start.now.variant start.now.next }
    requires form { IsFormAt tools.now.rewriter.now start.now.variant form.now.member form.now.path.now
        f form.now.at.now }
    requires whole { form.now.beside ≡ None }
    ensures { IfOk result (AreFound tools.now.rewriter.now (S.most_unifiers tools.now.solver.now)
        (S.drawn tools.now.solver.now) start.now.variant
        (ForEach (TryLiftsByParts tools.now.rewriter.now (S.most_unifiers tools.now.solver.now)
        start.now.variant) (IsTryOf form.now.at.now (headed tools.now.rewriter.now.rules f)))) }
{
    let rules = tools.rewriter.rules().headed(f);
    let divided = is_divided(tools, alloc, form.at, f, rules)?;
    if divided {
        let parts = by_parts(tools, alloc, start, form, f)?;
        return Ok(parts);
    }
    let e = by_rules(tools, alloc, start, form, rules, false)?;
    Ok(e)
}
