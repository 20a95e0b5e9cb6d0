//! How an answer ends.
ghost use Rattle.std.specs.Prelude.{◌≡◌};
ghost use Rattle.fvn_cmd_unify.specs.inner.Told.{end_told};

use fvn_answer::End;
use fvn_base::limits::{TERM_SYMBOLS, UNIFIERS};
use fvn_flat::SolveEnd;

// The end that is told, after so many unifiers.
pub(crate) fn end_told(end: &SolveEnd, count: usize) -> End
    ensures { result ≡ end_told end.now count }
{
    match end {
        SolveEnd::Complete => End::Complete(count),
        SolveEnd::Basis(f, _) => End::Basis(*f),
        SolveEnd::Unifiers => End::Unifiers(UNIFIERS),
        SolveEnd::Size(_) => End::Size(TERM_SYMBOLS),
    }
}
