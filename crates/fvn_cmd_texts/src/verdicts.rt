//! The text of a verdict on the pairs of a problem.
ghost use Rattle.std.specs.Prelude.{◌≡◌, IfOk};
ghost use Rattle.fvn_cmd_texts.specs.Verdicts.{verdict_text};

use crate::pieces::numbered;
use fvn_base::NoMemory;
use std::alloc::Global;

/// The text that says that the sides of each pair are equal, or which pair is the first whose sides are not, without a
/// line end.
pub fn verdict_text(alloc: Global, difference: Option<usize>) -> Result<Vec<u8>, NoMemory>
    ensures { IfOk result (λ text. text.items ≡ verdict_text difference) }
{
    match difference {
        None => Ok(Vec::from_slice(alloc, b"yes")?),
        Some(number) => numbered(alloc, b"no ", number),
    }
}
