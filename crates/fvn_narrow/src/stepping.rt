//! Steps at one part by one rule.
ghost use Rattle.std.specs.Prelude.{◌≡◌, All, IfOk};
ghost use Rattle.fvn_flat.specs.Bindings.{BindingsFit};
ghost use Rattle.fvn_flat.specs.Fits.{AllFit};
ghost use Rattle.fvn_flat.specs.FlatPlaces.{with_beside};
ghost use Rattle.fvn_narrow.specs.inner.Turns.{turn_of, IsReady, CanStandBeside, CanReplace, AreMembers};
ghost use Rattle.fvn_narrow.specs.inner.Turns.{IsMeetingAt, AreGrownAt, try_of, TryLifts, AreFound};

use crate::posing::{ended, problem};
use crate::tools::{Solves, Tools};
use fvn_base::Seq;
use fvn_exploring::Expansion;
use fvn_flat::{Flat, Subst};
use fvn_lifting::{successors_are_steps, turns_lift};
use fvn_narrow_children::{Start, grown, no_children};
use fvn_places::{add_copies, clash, put, with_one_replaced};
use fvn_rewrite_laws::{lists_are_lawful, rules_are_lawful};
use fvn_rewrite_rules::Rule;
use fvn_signature::Signature;
use fvn_terms::{NoMemory, OpId, rewriting_is_lawful};
use std::alloc::Global;

// A part of one of the terms: the path to a form, and what stands beside the part in it.
#[derive(Drop)]
pub(crate) struct Part<'p> {
    pub(crate) member: usize,
    pub(crate) path: &'p [usize],
    pub(crate) at: &'p Flat,
    pub(crate) beside: Option<(OpId, Seq<Flat>)>,
}

// The form with what stands beside the part.
fn with_others(
    alloc: Global,
    sig: &Signature,
    beside: &Option<(OpId, Seq<Flat>)>,
    right: &Flat,
) -> Result<Flat, NoMemory>
    requires { CanStandBeside sig.now beside.now right.now }
    ensures { IfOk result (λ given. given ≡ with_beside sig.now beside.now right.now) }
{
    match beside {
        None => {
            let given = right.copy(alloc)?;
            Ok(given)
        }
        Some((f, others)) => {
            let mut summands = Vec::new(alloc);
            summands.push(right.copy(alloc)?)?;
            let all = add_copies(alloc, summands, others.as_slice())?;
            let given = Flat::app(alloc, sig, *f, all)?;
            Ok(given)
        }
    }
}

// The terms, with a form in place of that to which the part's path leads.
fn members(
    alloc: Global,
    sig: &Signature,
    terms: &[Flat],
    part: &Part<'_>,
    given: &Flat,
) -> Result<Vec<Flat>, NoMemory>
    requires terms { AllFit sig.now terms.now }
    requires given { CanReplace sig.now terms.now part.now.member part.now.path.now given.now }
    ensures { IfOk result (λ all.
        AreMembers sig.now terms.now part.now.member part.now.path.now given.now all.items) }
{
    let u = put(alloc, sig, &terms[part.member], part.path, given)?;
    let all = with_one_replaced(alloc, terms, part.member, u)?;
    Ok(all)
}

// The children that the unifiers make.
fn children<S: Solves>(
    tools: &Tools<'_, '_, S>,
    alloc: Global,
    start: &Start,
    part: &Part<'_>,
    rule: &Rule,
    unifiers: &[Subst],
) -> Result<Expansion, NoMemory>
    requires ready { IsReady tools.now.rewriter.now start.now.variant start.now.next }
    requires turn { IsMeetingAt tools.now.rewriter.now start.now.variant part.now.at.now
        (turn_of part.now.member part.now.path.now part.now.beside rule.now) }
    requires unifiers { All (BindingsFit tools.now.rewriter.now.signature) unifiers.now }
    ensures { IfOk result (AreGrownAt tools.now.rewriter.now start.now.variant
        (turn_of part.now.member part.now.path.now part.now.beside rule.now) unifiers.now) }
{
    if unifiers.is_empty() {
        return Ok(no_children(alloc));
    }
    tools.rewriter.recall();
    rules_are_lawful();
    let sig = tools.rewriter.signature();
    let terms = start.variant.terms.as_slice();
    let given = with_others(alloc, sig, &part.beside, &rule.right)?;
    let all = members(alloc, sig, terms, part, &given)?;
    let e = grown(
        alloc,
        tools.rewriter,
        tools.size,
        &start.variant,
        all.as_slice(),
        unifiers,
    )?;
    Ok(e)
}

// The children by a rule whose left side the head of a part heads; the solver is not asked where the two clash.
pub(crate) fn by_rule<S: Solves>(
    tools: &Tools<'_, '_, S>,
    alloc: Global,
    start: &Start,
    part: &Part<'_>,
    rule: &Rule,
) -> Result<Expansion, NoMemory>
    requires ready { IsReady tools.now.rewriter.now start.now.variant start.now.next }
    requires turn { IsMeetingAt tools.now.rewriter.now start.now.variant part.now.at.now
        (turn_of part.now.member part.now.path.now part.now.beside rule.now) }
    ensures { IfOk result (AreFound tools.now.rewriter.now (S.most_unifiers tools.now.solver.now)
        (S.drawn tools.now.solver.now) start.now.variant
        (TryLifts tools.now.rewriter.now (S.most_unifiers tools.now.solver.now) start.now.variant
        (try_of part.now.at.now rule.now))) }
{
    tools.rewriter.recall();
    rewriting_is_lawful();
    lists_are_lawful();
    rules_are_lawful();
    successors_are_steps();
    turns_lift();
    let clashing = clash(tools.rewriter.signature(), part.at, &rule.left);
    if clashing {
        return Ok(no_children(alloc));
    }
    let given = problem(alloc, part.at, &rule.left)?;
    let solved = tools.solver.solve(alloc, &given, start.next)?;
    let grown = children(tools, alloc, start, part, rule, solved.unifiers.as_slice())?;
    Ok(ended(given, solved, grown))
}
