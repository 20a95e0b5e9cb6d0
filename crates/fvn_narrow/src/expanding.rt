//! All children of a variant: every part of its terms, with every rule that is needed there.
ghost use Rattle.std.specs.Prelude.{All, IfOk};
ghost use Rattle.fvn_rewrite_rules.specs.Given.{headed};
ghost use Rattle.fvn_exploring.specs.Expansions.{IsExpandable, IsExpansionOf};
ghost use Rattle.fvn_narrow.specs.Settings.{narrowing_setting};
ghost use Rattle.fvn_narrow.specs.inner.Placing.{IsPlaceIn, IsTryIn};
ghost use Rattle.fvn_narrow.specs.inner.Turns.{IsReady, IsTryOf, IsAny, ForEach, TryLiftsByParts, TurnLifts, AreFound};

use crate::dividing::at_form;
use crate::placing::{Place, all_places};
use crate::posing::is_whole;
use crate::stepping::Part;
use crate::tools::{Solves, Tools};
use crate::trying::with_more;
use fvn_base::Seq;
use fvn_cover::Variant;
use fvn_exploring::{ExpandEnd, Expansion};
use fvn_flat::Subst;
use fvn_lifting::{renamed_forms_have_the_same_instances, whole_expansions_lift};
use fvn_narrow_children::{Start, no_children, some_reducible, start_of};
use fvn_rewrite_coherence::rules_are_coherent;
use fvn_rewrite_laws::sequences_are_lawful;
use fvn_terms::NoMemory;
use std::alloc::Global;

// The children at a place.
fn at_place<S: Solves>(
    tools: &Tools<'_, '_, S>,
    alloc: Global,
    start: &Start,
    place: &Place<'_>,
) -> Result<Expansion, NoMemory>
    requires ready { IsReady tools.now.rewriter.now start.now.variant start.now.next }
    requires place { IsPlaceIn start.now.variant.terms place.now }
    ensures { IfOk result (AreFound tools.now.rewriter.now (S.most_unifiers tools.now.solver.now)
        (S.drawn tools.now.solver.now) start.now.variant
        (ForEach (TryLiftsByParts tools.now.rewriter.now (S.most_unifiers tools.now.solver.now)
        start.now.variant)
        (IsTryOf place.now.at.now (headed tools.now.rewriter.now.rules place.now.head)))) }
{
    let part = Part {
        member: place.member,
        path: place.path.as_slice(),
        at: place.at,
        beside: None,
    };
    let e = at_form(tools, alloc, start, &part, place.head)?;
    Ok(e)
}

// The children at these places, up to the first that stops.
fn at_places<S: Solves>(
    tools: &Tools<'_, '_, S>,
    alloc: Global,
    start: &Start,
    places: &[Place<'_>],
) -> Result<Expansion, NoMemory>
    requires ready { IsReady tools.now.rewriter.now start.now.variant start.now.next }
    requires places { All (IsPlaceIn start.now.variant.terms) places.now }
    ensures { IfOk result (AreFound tools.now.rewriter.now (S.most_unifiers tools.now.solver.now)
        (S.drawn tools.now.solver.now) start.now.variant
        (ForEach (TryLiftsByParts tools.now.rewriter.now (S.most_unifiers tools.now.solver.now)
        start.now.variant) (IsTryIn tools.now.rewriter.now.rules places.now))) }
{
    let mut children = Vec::new(alloc);
    for place in places {
        let next = at_place(tools, alloc, start, place)?;
        let (all, end) = with_more(children, next)?;
        children = all;
        if !is_whole(&end) {
            return Ok(Expansion {
                children: Seq::from_vec(children),
                end,
            });
        }
    }
    Ok(Expansion {
        children: Seq::from_vec(children),
        end: ExpandEnd::Whole,
    })
}

// The children in all terms, up to the first that stops; a form that stands at several places is met at the first one.
fn in_terms<S: Solves>(
    tools: &Tools<'_, '_, S>,
    alloc: Global,
    start: &Start,
) -> Result<Expansion, NoMemory>
    requires ready { IsReady tools.now.rewriter.now start.now.variant start.now.next }
    ensures { IfOk result (AreFound tools.now.rewriter.now (S.most_unifiers tools.now.solver.now)
        (S.drawn tools.now.solver.now) start.now.variant
        (ForEach (TurnLifts tools.now.rewriter.now (S.most_unifiers tools.now.solver.now)
        start.now.variant) IsAny)) }
{
    let rules = tools.rewriter.rules();
    let terms = start.variant.terms.as_slice();
    let places = all_places(alloc, rules, terms)?;
    let e = at_places(tools, alloc, start, places.as_slice())?;
    Ok(e)
}

// All children of a variant. Its variables are renamed to new ones first; where one of its values is reducible, so is
// that of every instance, and there is no child.
pub(crate) fn expansion<S: Solves>(
    tools: &Tools<'_, '_, S>,
    alloc: Global,
    v: &Variant,
    _first_fresh: u32,
) -> Result<Expansion, NoMemory>
    requires { IsExpandable (narrowing_setting tools.now.rewriter.now (S.most_unifiers tools.now.solver.now))
        _first_fresh v.now }
    ensures { IfOk result (IsExpansionOf
        (narrowing_setting tools.now.rewriter.now (S.most_unifiers tools.now.solver.now))
        (S.drawn tools.now.solver.now) v.now) }
{
    tools.rewriter.recall();
    rules_are_coherent();
    sequences_are_lawful();
    renamed_forms_have_the_same_instances();
    whole_expansions_lift();
    let start = start_of(alloc, tools.rewriter.signature(), v)?;
    let vars = start.variant.vars.as_slice();
    let none = Subst::empty(alloc);
    let lost = some_reducible(tools.rewriter, vars, &none, &start.variant.subst)?;
    if lost {
        return Ok(no_children(alloc));
    }
    let e = in_terms(tools, alloc, &start)?;
    Ok(e)
}
