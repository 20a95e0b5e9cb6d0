//! Steps at one part by several rules.
ghost use Rattle.std.specs.Prelude.{IsTrue, All, IfOk};
ghost use Rattle.fvn_flat.specs.Fits.{Fits};
ghost use Rattle.fvn_lifting.specs.Pairs.{IsMetInPairs};
ghost use Rattle.fvn_narrow.specs.inner.Joining.{AreJoined};
ghost use Rattle.fvn_narrow.specs.inner.Turns.{turn_of, try_of, IsReady, IsTurnAt, IsTryOf, IsPassedOver};
ghost use Rattle.fvn_narrow.specs.inner.Turns.{ForEach, TryLifts, TryLiftsUnless, TryLiftsAmong, AreFound};

use crate::pairing::is_met_in_pairs;
use crate::posing::is_whole;
use crate::serving::{replacement, some_serves};
use crate::stepping::{Part, by_rule};
use crate::tools::{Solves, Tools};
use fvn_base::Seq;
use fvn_cover::Variant;
use fvn_exploring::{ExpandEnd, Expansion};
use fvn_flat::Flat;
use fvn_narrow_children::{Start, no_children};
use fvn_rewrite_laws::rules_are_lawful;
use fvn_rewrite_rules::Rule;
use fvn_terms::NoMemory;
use std::alloc::Global;

// The children so far with those of one more expansion, and its end.
pub(crate) fn with_more(
    children: Vec<Variant>,
    next: Expansion,
) -> Result<(Vec<Variant>, ExpandEnd), NoMemory>
    ensures { IfOk result (λ r. AreJoined children.items next r.0.items r.1) }
{
    let (more, end) = next.into_parts();
    let mut rest = more.into_vec();
    let mut all = children;
    all.append(&mut rest)?;
    Ok((all, end))
}

// Whether the rule is met in pairs.
pub(crate) fn is_met<S: Solves>(
    tools: &Tools<'_, '_, S>,
    alloc: Global,
    rule: &Rule,
) -> Result<bool, NoMemory>
    ensures { IfOk result (λ is. IsTrue is
        → IsMetInPairs tools.now.rewriter.now.signature tools.now.rewriter.now.rules rule.now) }
{
    tools.rewriter.recall();
    rules_are_lawful();
    let Some(f) = rule.left.head() else {
        return Ok(false);
    };
    let met = is_met_in_pairs(alloc, tools.rewriter, f, rule)?;
    Ok(met)
}

// Whether a rule is passed over at a form: where those that are met in pairs are, this is one; where they are not,
// another one serves in its place.
fn is_passed_over<S: Solves>(
    tools: &Tools<'_, '_, S>,
    alloc: Global,
    at: &Flat,
    rules: &[Rule],
    rule: &Rule,
    passes: bool,
) -> Result<bool, NoMemory>
    requires { Fits tools.now.rewriter.now.signature at.now }
    ensures { IfOk result (λ is. IsTrue is
        → IsPassedOver tools.now.rewriter.now passes rules.now (try_of at.now rule.now)) }
{
    if passes {
        let met = is_met(tools, alloc, rule)?;
        return Ok(met);
    }
    let served = some_serves(tools.rewriter.signature(), at, rules, rule);
    Ok(served)
}

// The children at a part by a rule that is needed there, or by the one that replaces it.
fn by_needed<S: Solves>(
    tools: &Tools<'_, '_, S>,
    alloc: Global,
    start: &Start,
    part: &Part<'_>,
    rule: &Rule,
) -> Result<Expansion, NoMemory>
    requires ready { IsReady tools.now.rewriter.now start.now.variant start.now.next }
    requires turn { IsTurnAt tools.now.rewriter.now start.now.variant part.now.at.now
        (turn_of part.now.member part.now.path.now part.now.beside rule.now) }
    requires fits { Fits tools.now.rewriter.now.signature part.now.at.now }
    ensures { IfOk result (AreFound tools.now.rewriter.now (S.most_unifiers tools.now.solver.now)
        (S.drawn tools.now.solver.now) start.now.variant
        (TryLifts tools.now.rewriter.now (S.most_unifiers tools.now.solver.now) start.now.variant
        (try_of part.now.at.now rule.now))) }
{
    tools.rewriter.recall();
    rules_are_lawful();
    let all = tools.rewriter.rules().rules();
    let Some(other) = replacement(tools.rewriter.signature(), part.at, all, rule) else {
        let e = by_rule(tools, alloc, start, part, rule)?;
        return Ok(e);
    };
    let by_other = by_rule(tools, alloc, start, part, other)?;
    Ok(by_other)
}

// The children at a part by a rule, one of several; none where it is passed over.
fn by_rule_unless<S: Solves>(
    tools: &Tools<'_, '_, S>,
    alloc: Global,
    start: &Start,
    part: &Part<'_>,
    rules: &[Rule],
    rule: &Rule,
    passes: bool,
) -> Result<Expansion, NoMemory>
    requires ready { IsReady tools.now.rewriter.now start.now.variant start.now.next }
    requires turn { IsTurnAt tools.now.rewriter.now start.now.variant part.now.at.now
        (turn_of part.now.member part.now.path.now part.now.beside rule.now) }
    requires fits { Fits tools.now.rewriter.now.signature part.now.at.now }
    ensures { IfOk result (AreFound tools.now.rewriter.now (S.most_unifiers tools.now.solver.now)
        (S.drawn tools.now.solver.now) start.now.variant
        (TryLiftsAmong tools.now.rewriter.now (S.most_unifiers tools.now.solver.now)
        start.now.variant passes rules.now (try_of part.now.at.now rule.now))) }
{
    let over = is_passed_over(tools, alloc, part.at, rules, rule, passes)?;
    if over {
        return Ok(no_children(alloc));
    }
    let e = by_needed(tools, alloc, start, part, rule)?;
    Ok(e)
}

// The children at a part by these rules, up to the first that stops. Where those that are met in pairs are not passed
// over, those are in whose place another one serves.
pub(crate) fn by_rules<S: Solves>(
    tools: &Tools<'_, '_, S>,
    alloc: Global,
    start: &Start,
    part: &Part<'_>,
    rules: &[Rule],
    passes: bool,
) -> Result<Expansion, NoMemory>
    requires ready { IsReady tools.now.rewriter.now start.now.variant start.now.next }
    requires turns { All (λ rule. IsTurnAt tools.now.rewriter.now start.now.variant
        part.now.at.now (turn_of part.now.member part.now.path.now part.now.beside rule)) rules.now }
    ensures { IfOk result (AreFound tools.now.rewriter.now (S.most_unifiers tools.now.solver.now)
        (S.drawn tools.now.solver.now) start.now.variant
        (ForEach (TryLiftsUnless tools.now.rewriter.now (S.most_unifiers tools.now.solver.now)
        start.now.variant passes) (IsTryOf part.now.at.now rules.now))) }
{
    tools.rewriter.recall();
    rules_are_lawful();
    let mut children = Vec::new(alloc);
    for rule in rules {
        let next = by_rule_unless(tools, alloc, start, part, rules, rule, passes)?;
        let (all, end) = with_more(children, next)?;
        children = all;
        if !is_whole(&end) {
            return Ok(Expansion {
                children: Seq::from_vec(children),
                end,
            });
        }
    }
    Ok(Expansion {
        children: Seq::from_vec(children),
        end: ExpandEnd::Whole,
    })
}
