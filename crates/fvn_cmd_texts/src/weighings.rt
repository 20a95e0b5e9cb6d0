//! The text of what weights show of equations.
ghost use Rattle.std.specs.Prelude.{◌≡◌, Some, IfOk};
ghost use Rattle.fvn_cmd_texts.specs.Weighings.{weigh_fault_text};

use crate::pieces::{name_at, numbered, push_word};
use fvn_base::NoMemory;
use fvn_syntax::Names;
use fvn_terms::OpId;
use fvn_weights::WeighFault;
use std::alloc::Global;

// The text of an operator whose weight does not fit.
fn shape_text(alloc: Global, names: &Names, f: OpId) -> Result<Vec<u8>, NoMemory>
    ensures { IfOk result (λ text.
        weigh_fault_text names.now (WeighFault.Shape f) ≡ Some text.items) }
{
    let mut text = Vec::from_slice(alloc, b"weights shape")?;
    push_word(&mut text, name_at(&names.ops, usize::from(f.0)))?;
    Ok(text)
}

/// The text of the first fault of weights, without a line end.
pub fn weigh_fault_text(
    alloc: Global,
    names: &Names,
    fault: &WeighFault,
) -> Result<Vec<u8>, NoMemory>
    ensures { IfOk result (λ text. weigh_fault_text names.now fault.now ≡ Some text.items) }
{
    match fault {
        WeighFault::Shape(f) => shape_text(alloc, names, *f),
        WeighFault::TooBig(n) => numbered(alloc, b"weights big ", *n),
        WeighFault::Grows(n) => numbered(alloc, b"weights grows ", *n),
        WeighFault::NoMemory => Err(NoMemory),
    }
}
