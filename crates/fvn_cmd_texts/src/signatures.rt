//! The refusals of signatures.
ghost use Rattle.std.specs.Prelude.{◌≡◌, ◌++◌, ◌∷◌, [], map, OnOk};
ghost use Rattle.fvn_cmd_texts.specs.Refusals.{kind_text, number, operator_text, sort_text, spaced, told};

use crate::pieces::{name_at, push_word};
use fvn_base::NoMemory;
use fvn_sorts::SigFault;
use fvn_syntax::Names;
use fvn_terms::{OpId, SortId};

/// The number of a signature's fault.
pub(crate) fn number(fault: &SigFault) -> Option<u8>
    ensures { result ≡ number fault.now }
{
    match fault {
        SigFault::SortCycle(_) => Some(1),
        SigFault::KindsDiffer(_) => Some(2),
        SigFault::AxiomShape(_) => Some(3),
        SigFault::AxiomsDiffer(_) => Some(4),
        SigFault::IdentityBad(_) => Some(5),
        SigFault::NotPreregular(_, _) => Some(6),
        SigFault::NotAssocSorts(_, _, _, _) => Some(7),
        SigFault::NotCollapsing(_, _) => Some(8),
        SigFault::TooMany => Some(9),
        SigFault::NoMemory => None,
    }
}

// The text goes on with a space and an operator.
fn push_operator(text: &mut Vec<u8>, names: &Names, f: OpId) -> Result<(), NoMemory>
    ensures { OnOk result (text.new.items ≡
        text.old.items ++ spaced (operator_text names.now f ∷ [])) }
{
    push_word(text, name_at(&names.ops, usize::from(f.0)))
}

// The text goes on with a space and a kind, named after a sort.
fn push_kind(text: &mut Vec<u8>, top: &[u8]) -> Result<(), NoMemory>
    ensures { OnOk result (text.new.items ≡ text.old.items ++ (32 ∷ kind_text top.now)) }
{
    text.extend_from_slice(b" [")?;
    text.extend_from_slice(top)?;
    text.push(b']')?;
    Ok(())
}

// The text goes on with a space and a sort.
fn push_sort(text: &mut Vec<u8>, names: &Names, tops: &[SortId], s: SortId) -> Result<(), NoMemory>
    ensures { OnOk result (text.new.items ≡
        text.old.items ++ (32 ∷ sort_text names.now tops.now s)) }
{
    let place = usize::from(s.0);
    let count = names.sorts.len();
    if place < count {
        return push_word(text, name_at(&names.sorts, place));
    }
    let top = match tops.get(place - count) {
        Some(top) => *top,
        None => s,
    };
    push_kind(text, name_at(&names.sorts, usize::from(top.0)))
}

// The text goes on with sorts, each after a space.
fn push_sorts(
    text: &mut Vec<u8>,
    names: &Names,
    tops: &[SortId],
    sorts: &[SortId],
) -> Result<(), NoMemory>
    ensures { OnOk result (text.new.items ≡
        text.old.items ++ spaced (map (sort_text names.now tops.now) sorts.now)) }
{
    for s in sorts {
        push_sort(text, names, tops, *s)?;
    }
    Ok(())
}

/// The text goes on with what the fault holds, each after a space.
pub(crate) fn push_told(
    text: &mut Vec<u8>,
    fault: &SigFault,
    names: &Names,
    tops: &[SortId],
) -> Result<(), NoMemory>
    ensures { OnOk result (text.new.items ≡
        text.old.items ++ spaced (told names.now tops.now fault.now)) }
{
    match fault {
        SigFault::SortCycle(s) => push_sorts(text, names, tops, &[*s]),
        SigFault::KindsDiffer(f) => push_operator(text, names, *f),
        SigFault::AxiomShape(f) => push_operator(text, names, *f),
        SigFault::AxiomsDiffer(f) => push_operator(text, names, *f),
        SigFault::IdentityBad(f) => push_operator(text, names, *f),
        SigFault::NotPreregular(f, sorts) => {
            push_operator(text, names, *f)?;
            push_sorts(text, names, tops, sorts.as_slice())
        }
        SigFault::NotAssocSorts(f, s, q, r) => {
            push_operator(text, names, *f)?;
            push_sorts(text, names, tops, &[*s, *q, *r])
        }
        SigFault::NotCollapsing(f, s) => {
            push_operator(text, names, *f)?;
            push_sorts(text, names, tops, &[*s])
        }
        SigFault::TooMany => Ok(()),
        SigFault::NoMemory => Ok(()),
    }
}
