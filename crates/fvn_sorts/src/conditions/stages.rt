//! The conditions of a good signature, one after another.
ghost use Rattle.std.specs.Prelude.{◌≡◌, ◌+◌, IfOk, map};
ghost use Rattle.fvn_terms.specs.declared.plain.OpId.{OpId};
ghost use Rattle.fvn_terms.specs.Signature.{kind};
ghost use Rattle.fvn_signature_draft.specs.DraftOf.{IsDraftOf};
ghost use Rattle.fvn_sorts.specs.Faults.{HasNoResult, HasBadBrackets, HasBadCollapse};
ghost use Rattle.fvn_sorts.specs.inner.Searches.{IsFirstFrom, AgreeInKinds, fault_at, place_of, IsFirstList, the_list, one_sort, three_sorts};

use crate::conditions::brackets::{Triple, bad_triple, first_not_collapsing};
use crate::conditions::cycles::first_cycle;
use crate::conditions::fault::SigFault;
use crate::conditions::preregular::first_without;
use crate::conditions::shapes::{Condition, first_failing};
use fvn_base::Seq;
use fvn_signature::Draft;
use fvn_signature_draft::{Collected, has_earlier_alike, without_repeats};
use fvn_terms::{Declarations, NoMemory, OpId, SortId};
use std::alloc::Global;

/// A sort on a cycle of the order.
fn cycle_fault(draft: &Draft, collected: &Collected) -> Option<SigFault>
    requires { IsDraftOf collected.now draft.now }
    ensures { IsFirstFrom collected.now 1 2 result }
{
    match first_cycle(draft, collected) {
        Some(s) => Some(SigFault::SortCycle(s)),
        None => None,
    }
}

/// An operator whose declarations fail the condition.
fn declaration_fault(draft: &Draft, collected: &Collected, condition: Condition) -> Option<SigFault>
    requires { IsDraftOf collected.now draft.now }
    ensures { IsFirstFrom collected.now (place_of condition) (place_of condition + 1) result }
{
    match first_failing(draft, collected, condition) {
        Some(op) => Some(fault_at(condition, op)),
        None => None,
    }
}

/// The fault that an operator has by the condition.
fn fault_at(condition: Condition, op: OpId) -> SigFault
    ensures { result ≡ fault_at condition op }
{
    match condition {
        Condition::Kinds => SigFault::KindsDiffer(op),
        Condition::Shape => SigFault::AxiomShape(op),
        Condition::Same => SigFault::AxiomsDiffer(op),
        Condition::Identity => SigFault::IdentityBad(op),
    }
}

/// The kinds of sorts.
fn kinds_of_sorts(
    alloc: Global,
    declarations: &Declarations,
    sorts: &[SortId],
) -> Result<Vec<SortId>, NoMemory>
    ensures { IfOk result (λ v. v.items ≡ map (kind declarations.now) sorts.now) }
{
    let mut kinds = Vec::new(alloc);
    for s in sorts {
        kinds.push(declarations.kind(*s))?;
    }
    Ok(kinds)
}

/// The first sorts of its argument kinds over which the operator has no least result.
fn without_result(
    alloc: Global,
    draft: &Draft,
    collected: &Collected,
    op: OpId,
) -> Result<Option<Seq<SortId>>, NoMemory>
    requires draft { IsDraftOf collected.now draft.now }
    requires agree { AgreeInKinds collected.now }
    ensures { IfOk result (IsFirstList the_list (HasNoResult collected.now op)) }
{
    let ranks = draft.declared_ranks(op);
    if ranks.is_empty() {
        return Ok(None);
    }
    let kinds = kinds_of_sorts(alloc, &draft.declarations, ranks[0].args.as_slice())?;
    let fewer = without_repeats(alloc, draft.ranks_of(op))?;
    let found = first_without(alloc, draft, kinds.as_slice(), fewer.as_slice())?;
    Ok(found)
}

/// An operator that is not preregular.
fn result_fault(
    alloc: Global,
    draft: &Draft,
    collected: &Collected,
) -> Result<Option<SigFault>, NoMemory>
    requires draft { IsDraftOf collected.now draft.now }
    requires agree { AgreeInKinds collected.now }
    ensures { IfOk result (IsFirstFrom collected.now 6 7) }
{
    for op in 0..collected.operators {
        if has_earlier_alike(&draft.declarations, OpId(op)) {
            continue;
        }
        match without_result(alloc, draft, collected, OpId(op))? {
            Some(list) => return Ok(Some(SigFault::NotPreregular(OpId(op), list))),
            None => {}
        }
    }
    Ok(None)
}

/// The first sorts of its kind over which the sort of the operator's sum depends on its brackets.
fn bad_brackets(draft: &Draft, collected: &Collected, op: OpId) -> Option<Triple>
    requires draft { IsDraftOf collected.now draft.now }
    requires agree { AgreeInKinds collected.now }
    ensures { IsFirstList three_sorts
        (λ t. HasBadBrackets collected.now op t.first t.second t.third) result }
{
    let ranks = draft.declared_ranks(op);
    if ranks.is_empty() {
        return None;
    }
    if !draft.axioms(op).is_sum() {
        return None;
    }
    bad_triple(draft, op, draft.declarations.kind(ranks[0].result))
}

/// An operator over whose sums the sorts depend on the brackets.
fn bracket_fault(draft: &Draft, collected: &Collected) -> Option<SigFault>
    requires draft { IsDraftOf collected.now draft.now }
    requires agree { AgreeInKinds collected.now }
    ensures { IsFirstFrom collected.now 7 8 result }
{
    for op in 0..collected.operators {
        if has_earlier_alike(&draft.declarations, OpId(op)) {
            continue;
        }
        match bad_brackets(draft, collected, OpId(op)) {
            Some(t) => {
                return Some(SigFault::NotAssocSorts(OpId(op), t.first, t.second, t.third));
            }
            None => {}
        }
    }
    None
}

/// The first sort of its kind that is not at or below that of its sum with the operator's identity.
fn bad_collapse(draft: &Draft, collected: &Collected, op: OpId) -> Option<SortId>
    requires draft { IsDraftOf collected.now draft.now }
    requires agree { AgreeInKinds collected.now }
    ensures { IsFirstList one_sort (HasBadCollapse collected.now op) result }
{
    let ranks = draft.declared_ranks(op);
    if ranks.is_empty() {
        return None;
    }
    match draft.axioms(op).identity() {
        Some(identity) => first_not_collapsing(
            draft,
            op,
            identity,
            draft.declarations.kind(ranks[0].result),
        ),
        None => None,
    }
}

/// An operator with such a sort.
fn collapse_fault(draft: &Draft, collected: &Collected) -> Option<SigFault>
    requires draft { IsDraftOf collected.now draft.now }
    requires agree { AgreeInKinds collected.now }
    ensures { IsFirstFrom collected.now 8 9 result }
{
    for op in 0..collected.operators {
        match bad_collapse(draft, collected, OpId(op)) {
            Some(s) => return Some(SigFault::NotCollapsing(OpId(op), s)),
            None => {}
        }
    }
    None
}

/// The first fault of the order and the declarations.
fn first_declared_fault(draft: &Draft, collected: &Collected) -> Option<SigFault>
    requires { IsDraftOf collected.now draft.now }
    ensures { IsFirstFrom collected.now 1 6 result }
{
    let cycle = cycle_fault(draft, collected);
    if cycle.is_some() {
        return cycle;
    }
    let kinds = declaration_fault(draft, collected, Condition::Kinds);
    if kinds.is_some() {
        return kinds;
    }
    let shape = declaration_fault(draft, collected, Condition::Shape);
    if shape.is_some() {
        return shape;
    }
    let same = declaration_fault(draft, collected, Condition::Same);
    if same.is_some() {
        return same;
    }
    declaration_fault(draft, collected, Condition::Identity)
}

/// The first fault of the sorts of results.
fn first_result_fault(
    alloc: Global,
    draft: &Draft,
    collected: &Collected,
) -> Result<Option<SigFault>, NoMemory>
    requires draft { IsDraftOf collected.now draft.now }
    requires agree { AgreeInKinds collected.now }
    ensures { IfOk result (IsFirstFrom collected.now 6 9) }
{
    let without = result_fault(alloc, draft, collected)?;
    if without.is_some() {
        return Ok(without);
    }
    let brackets = bracket_fault(draft, collected);
    if brackets.is_some() {
        return Ok(brackets);
    }
    Ok(collapse_fault(draft, collected))
}

/// The first fault after the sizes.
pub fn first_fault(
    alloc: Global,
    draft: &Draft,
    collected: &Collected,
) -> Result<Option<SigFault>, NoMemory>
    requires { IsDraftOf collected.now draft.now }
    ensures { IfOk result (IsFirstFrom collected.now 1 9) }
{
    match first_declared_fault(draft, collected) {
        Some(fault) => Ok(Some(fault)),
        None => {
            let later = first_result_fault(alloc, draft, collected)?;
            Ok(later)
        }
    }
}
