//! What heads a form.
ghost use Rattle.fvn_critical.specs.inner.Testing.{HeadsAs};

use fvn_flat::Flat;
use fvn_terms::OpId;

// Whether the operator heads the term.
pub(crate) fn heads(f: OpId, t: &Flat) -> bool
    ensures { HeadsAs f t.now result }
{
    match t.head() {
        Some(g) => f == g,
        None => false,
    }
}
