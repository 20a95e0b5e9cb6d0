//! The status that goes with the end of an answer.
ghost use Rattle.std.specs.Prelude.{◌≡◌};
ghost use Rattle.fvn_cmd.specs.Ends.{status_of_end};

use crate::status::Status;
use fvn_answer::End;

/// The status that goes with an end.
pub fn status_of_end(end: &End) -> Status
    ensures { result ≡ status_of_end end.now }
{
    match end {
        End::Complete(0) => Status::Nothing,
        End::Complete(_) => Status::Solved,
        End::Levels(_) => Status::Ended,
        End::Variants(_) => Status::Ended,
        End::Steps(_, _) => Status::Ended,
        End::Size(_) => Status::Ended,
        End::Basis(_) => Status::Ended,
        End::Unifiers(_) => Status::Ended,
        End::Sorts(_) => Status::Ended,
    }
}
