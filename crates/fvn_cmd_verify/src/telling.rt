//! The answer that tells a verdict.
ghost use Rattle.std.specs.Prelude.{◌≡◌, IfOk};
ghost use Rattle.fvn_answer.specs.Answers.{FitsEnd};
ghost use Rattle.fvn_cmd.specs.Texts.{bytes_of, line};
ghost use Rattle.fvn_cmd_texts.specs.Verdicts.{verdict_text};
ghost use Rattle.fvn_cmd_verify.specs.Verdicts.{IsLastLine, IsToldAs};
ghost use Rattle.fvn_cmd_verify.specs.inner.Steps.{FitsVerdict};

use fvn_answer::{End, answer_text};
use fvn_base::limits::TERM_SYMBOLS;
use fvn_cmd::{Answer, Status, Text};
use fvn_cmd_texts::verdict_text;
use fvn_module::Module;
use fvn_terms::NoMemory;
use fvn_verify::Verdict;
use std::alloc::Global;

// The answer that all pairs are equal, or which is the first that is not.
fn tell_pairs(alloc: Global, status: Status, difference: Option<usize>) -> Result<Answer, NoMemory>
    ensures status { IfOk result (λ a. a.status ≡ status) }
    ensures text { IfOk result (λ a. bytes_of a.text ≡ line (verdict_text difference)) }
{
    let text = verdict_text(alloc, difference)?;
    let answer = Answer::one_line(status, text)?;
    Ok(answer)
}

// The answer that the search ended so.
fn tell_end(alloc: Global, declared: &Module, end: &End) -> Result<Answer, NoMemory>
    requires { FitsEnd declared.now.signature end.now }
    ensures status { IfOk result (λ a. a.status ≡ Status.Ended) }
    ensures text { IfOk result (λ a. IsLastLine declared.now end.now (bytes_of a.text)) }
{
    let text = answer_text(alloc, declared, Vec::new(alloc), end)?;
    Ok(Answer {
        status: Status::Ended,
        text: Text::Made(text),
    })
}

// The answer that tells a verdict that came with this limit on steps.
pub(crate) fn tell(
    alloc: Global,
    declared: &Module,
    steps: u64,
    verdict: Verdict,
) -> Result<Answer, NoMemory>
    requires { FitsVerdict declared.now.signature verdict }
    ensures { IfOk result (λ a.
        IsToldAs declared.now steps verdict a.status (bytes_of a.text)) }
{
    match verdict {
        Verdict::Yes => {
            let answer = tell_pairs(alloc, Status::Solved, None)?;
            Ok(answer)
        }
        Verdict::No(number, _, _) => {
            let answer = tell_pairs(alloc, Status::Nothing, Some(number))?;
            Ok(answer)
        }
        Verdict::Steps(start, _) => {
            let end = End::Steps(steps, start);
            let answer = tell_end(alloc, declared, &end)?;
            Ok(answer)
        }
        Verdict::Size(_) => {
            let end = End::Size(TERM_SYMBOLS);
            let answer = tell_end(alloc, declared, &end)?;
            Ok(answer)
        }
    }
}
