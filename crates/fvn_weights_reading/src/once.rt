//! Whether a name is written twice.
ghost use Rattle.std.specs.Prelude.{◌≡◌, [], IfOk};
ghost use Rattle.fvn_weights_reading.specs.inner.Steps.{are_new};

use crate::entry::Entry;
use fvn_syntax::Texts;
use fvn_terms::NoMemory;
use std::alloc::Global;

/// Whether no name is written twice.
pub(crate) fn are_once(alloc: Global, list: &[Entry<'_>]) -> Result<bool, NoMemory>
    ensures { IfOk result (λ once. once ≡ are_new [] list.now) }
{
    let mut texts = Texts::new(alloc);
    for entry in list {
        let name = entry.name.bytes();
        let there = texts.place(name).is_some();
        if there {
            return Ok(false);
        }
        texts.insert(alloc, name)?;
    }
    Ok(true)
}
