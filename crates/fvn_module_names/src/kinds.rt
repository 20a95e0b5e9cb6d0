//! The numbers of kinds.
ghost use Rattle.std.specs.Prelude.{◌≡◌, ◌<◌, ◌≤◌, ◌+◌, ◌*◌, map, length, All, IfOk};
ghost use Rattle.fvn_forms.specs.SortOrder.{sort_number};
ghost use Rattle.fvn_signature_draft.specs.declared.collected.Collected.{Collected};
ghost use Rattle.fvn_module_names.specs.Order.{kinds_of};
ghost use Rattle.fvn_module_names.specs.inner.Numbering.{HasLabels, IsNumbered};

use crate::order::join_statements;
use fvn_module_syntax::Statement;
use fvn_syntax::Texts;
use fvn_terms::NoMemory;
use std::alloc::Global;

/// The kinds of the sorts, and the number after the last kind.
#[derive(Drop)]
struct SortKinds {
    kinds: Vec<usize>,
    next: usize,
}

// The kind of each sort, by the label of its class: kinds are numbered after the sorts, as they are met.
fn sort_kinds(alloc: Global, labels: &[usize]) -> Result<SortKinds, NoMemory>
    requires { All (λ l. l < length labels.now) labels.now }
    ensures { IfOk result (λ k. (order : Collected) → HasLabels order labels.now →
        IsNumbered order k.kinds.items k.next order.sorts) }
{
    let mut next = labels.len();
    let mut kinds = Vec::new(alloc);
    let mut known: Vec<Option<usize>> = vec![in alloc; None; labels.len()]?;
    for label in labels {
        match known[*label] {
            Some(kind) => kinds.push(kind)?,
            None => {
                known[*label] = Some(next);
                kinds.push(next)?;
                next += 1;
            }
        }
    }
    Ok(SortKinds { kinds, next })
}

/// The kind of each sort that statements declare, and then of each kind.
pub fn find_kinds(
    alloc: Global,
    sorts: &Texts,
    statements: &[Statement<'_>],
) -> Result<Vec<usize>, NoMemory>
    ensures kinds { IfOk result (λ v. map sort_number v.items ≡ kinds_of sorts.now statements.now) }
    ensures in_range { IfOk result (λ v. All (λ k. k < length v.items) v.items) }
    ensures sorts { IfOk result (λ v. length sorts.now ≤ length v.items) }
    ensures few { IfOk result (λ v. length v.items ≤ 2 * length sorts.now) }
{
    let classes = join_statements(alloc, sorts, statements)?;
    let SortKinds { mut kinds, next } = sort_kinds(alloc, classes.labels())?;
    for kind in sorts.len()..next {
        kinds.push(kind)?;
    }
    Ok(kinds)
}
