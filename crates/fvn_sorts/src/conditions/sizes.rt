//! Whether more was collected than a signature may have.
ghost use Rattle.std.specs.Prelude.{◌↔◌, IsTrue};
ghost use Rattle.fvn_sorts.specs.Faults.{IsTooLarge};

use fvn_base::limits::{ARGUMENTS, OPERATORS, SORTS};
use fvn_signature_draft::Collected;

/// Whether more was collected than a signature may have.
pub fn is_too_large(collected: &Collected) -> bool
    ensures { IsTrue result ↔ IsTooLarge collected.now }
{
    if collected.sorts > SORTS || collected.operators > OPERATORS {
        return true;
    }
    for declaration in collected.declarations.as_slice() {
        if declaration.rank.args.len() > ARGUMENTS {
            return true;
        }
    }
    false
}
