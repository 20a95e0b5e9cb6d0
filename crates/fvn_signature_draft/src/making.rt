//! The draft of what was collected.
ghost use Rattle.std.specs.Prelude.{◌≤◌, IfOk};
ghost use Rattle.fvn_base.specs.declared.limits.TheConstants.{SORTS, OPERATORS};
ghost use Rattle.fvn_signature_draft.specs.Collected.{IsClosed};
ghost use Rattle.fvn_signature_draft.specs.DraftOf.{IsDraftOf};

use crate::closure::closure;
use crate::collected::Collected;
use crate::completing::completed;
use crate::kinds::kinds_of;
use crate::ranks::all_ranks;
use crate::tables::all_tables;
use fvn_signature::Draft;
use fvn_terms::NoMemory;
use std::alloc::Global;

/// What was collected with its kinds, before its results are known.
fn draft_without_tables(alloc: Global, collected: &Collected) -> Result<Draft, NoMemory>
    requires few { collected.now.sorts ≤ SORTS }
    requires operators { collected.now.operators ≤ OPERATORS }
    requires closed { IsClosed collected.now }
    ensures { IfOk result (IsDraftOf collected.now) }
{
    let list = kinds_of(alloc, collected)?;
    let total = list.len() as u16;
    let declarations = completed(alloc, collected, list)?;
    let words = closure(alloc, declarations.sorts, declarations.below.as_slice())?;
    let ranks = all_ranks(alloc, &declarations, collected.operators)?;
    Ok(Draft {
        declarations,
        total,
        words,
        ranks,
        tables: Vec::new(alloc),
    })
}

/// What was collected with its kinds, and the tables beside it.
pub fn draft_of(alloc: Global, collected: &Collected) -> Result<Draft, NoMemory>
    requires few { collected.now.sorts ≤ SORTS }
    requires operators { collected.now.operators ≤ OPERATORS }
    requires closed { IsClosed collected.now }
    ensures { IfOk result (IsDraftOf collected.now) }
{
    let draft = draft_without_tables(alloc, collected)?;
    let tables = all_tables(alloc, &draft, collected.operators)?;
    let Draft {
        declarations,
        total,
        words,
        ranks,
        tables: _,
    } = draft;
    Ok(Draft {
        declarations,
        total,
        words,
        ranks,
        tables,
    })
}
