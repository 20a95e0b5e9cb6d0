//! The identities of a signature, and the sorts and identities at or below a sort.
ghost use Rattle.std.specs.Prelude.{◌≡◌, [], filter, nat_lt, Some, IfOk};
ghost use Rattle.fvn_terms.specs.declared.plain.OpId.{OpId};
ghost use Rattle.fvn_forms.specs.SortOrder.{at_or_below};
ghost use Rattle.fvn_forms.specs.Ranks.{result as least_result};
ghost use Rattle.fvn_rewrite_laws.specs.Identities.{is_listed_op, with_operator, identities};
ghost use Rattle.fvn_signature.specs.FirstSorts.{first_sorts};
ghost use Rattle.fvn_rewrite_laws.specs.Choices.{sorts_below};

use fvn_signature::Signature;
use fvn_terms::{NoMemory, OpId, SortId};
use std::alloc::Global;

// Whether a sort is another one or below it.
pub(crate) fn is_at_or_below(sig: &Signature, s: SortId, q: SortId) -> bool
    ensures { result ≡ at_or_below sig.now s q }
{
    sig.leq(s, q)
}

// Whether the operator is listed.
pub(crate) fn is_listed(es: &[OpId], e: OpId) -> bool
    ensures { result ≡ is_listed_op es.now e }
{
    for g in es {
        if e == *g {
            return true;
        }
    }
    false
}

// The operators with one more at the end, if it is not there yet.
fn with_one(es: Vec<OpId>, e: OpId) -> Result<Vec<OpId>, NoMemory>
    ensures { IfOk result (λ all. all.items ≡ with_operator es.items (Some e)) }
{
    let mut all = es;
    if is_listed(all.as_slice(), e) {
        return Ok(all);
    }
    all.push(e)?;
    Ok(all)
}

// The same, where there is one.
fn with_operator(es: Vec<OpId>, e: Option<OpId>) -> Result<Vec<OpId>, NoMemory>
    ensures { IfOk result (λ all. all.items ≡ with_operator es.items e) }
{
    match e {
        None => Ok(es),
        Some(g) => {
            let all = with_one(es, g)?;
            Ok(all)
        }
    }
}

/// The identities of the operators, each once, in the order in which the operators are declared.
pub fn identities(alloc: Global, sig: &Signature) -> Result<Vec<OpId>, NoMemory>
    ensures { IfOk result (λ all. all.items ≡ identities sig.now) }
{
    let mut all = Vec::new(alloc);
    for op in sig.declarations().ops.as_slice() {
        all = with_operator(all, op.axioms.identity())?;
    }
    Ok(all)
}

// Whether the sort of a constant is this one or below it.
fn stands_below(sig: &Signature, e: OpId, s: SortId) -> bool
    ensures { result ≡ at_or_below sig.now (least_result sig.now e []) s }
{
    let low = sig.result(e, &[]);
    is_at_or_below(sig, low, s)
}

/// Those of the constants whose sort is this one or below it.
pub fn identities_below(
    alloc: Global,
    sig: &Signature,
    es: &[OpId],
    s: SortId,
) -> Result<Vec<OpId>, NoMemory>
    ensures { IfOk result (λ all. all.items ≡
        filter (λ e. at_or_below sig.now (least_result sig.now e []) s) es.now) }
{
    let mut all = Vec::new(alloc);
    for e in es {
        if !stands_below(sig, *e, s) {
            continue;
        }
        all.push(*e)?;
    }
    Ok(all)
}

// The declared sorts at or below a sort.
fn declared_below(alloc: Global, sig: &Signature, s: SortId) -> Result<Vec<SortId>, NoMemory>
    ensures { IfOk result (λ all. all.items ≡
        filter (λ q. at_or_below sig.now q s) (first_sorts sig.now.sorts)) }
{
    let mut all = Vec::new(alloc);
    for n in 0..sig.declarations().sorts {
        if is_at_or_below(sig, SortId(n), s) {
            all.push(SortId(n))?;
        }
    }
    Ok(all)
}

// Whether the sort is declared, and so no kind.
fn is_declared(sig: &Signature, s: SortId) -> bool
    ensures { result ≡ nat_lt s.0 sig.now.sorts }
{
    let sorts = sig.declarations().sorts;
    s.0 < sorts
}

// The sorts at or below a sort.
pub(crate) fn sorts_below(
    alloc: Global,
    sig: &Signature,
    s: SortId,
) -> Result<Vec<SortId>, NoMemory>
    ensures { IfOk result (λ all. all.items ≡ sorts_below sig.now s) }
{
    let mut all = declared_below(alloc, sig, s)?;
    if is_declared(sig, s) {
        return Ok(all);
    }
    all.push(s)?;
    Ok(all)
}
