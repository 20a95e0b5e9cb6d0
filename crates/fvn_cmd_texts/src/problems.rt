//! The text of each refusal of a problem.
ghost use Rattle.std.specs.Prelude.{◌≡◌, Some, None, IfOk};
ghost use Rattle.fvn_cmd_texts.specs.ProblemRefusals.{problem_number, problem_text};

use crate::pieces::numbered;
use fvn_base::NoMemory;
use fvn_lex::LexFault;
use fvn_problems::ProblemFault;
use std::alloc::Global;

// The number of a fault; want of memory has none.
fn problem_number(fault: ProblemFault) -> Option<usize>
    ensures { result ≡ problem_number fault }
{
    match fault {
        ProblemFault::Lex(LexFault::BadByte(_)) => Some(1),
        ProblemFault::Lex(LexFault::BlockComment(_)) => Some(1),
        ProblemFault::Lex(LexFault::NoMemory) => None,
        ProblemFault::Text => Some(2),
        ProblemFault::UnknownName => Some(3),
        ProblemFault::Arity => Some(4),
        ProblemFault::WrongKind => Some(5),
        ProblemFault::TooLarge => Some(6),
        ProblemFault::ReservedName => Some(7),
        ProblemFault::WrongSort => Some(8),
        ProblemFault::NoMemory => None,
    }
}

/// The text of the refusal of a problem, a term text or a binding text, without a line end.
pub fn problem_text(alloc: Global, fault: ProblemFault) -> Result<Vec<u8>, NoMemory>
    ensures { IfOk result (λ text. problem_text fault ≡ Some text.items) }
{
    match problem_number(fault) {
        Some(k) => {
            let text = numbered(alloc, b"problem ", k)?;
            Ok(text)
        }
        None => Err(NoMemory),
    }
}
