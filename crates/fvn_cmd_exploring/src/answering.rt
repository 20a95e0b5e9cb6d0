//! The answer over an exploration.
ghost use Rattle.std.specs.Prelude.{IfOk};
ghost use Rattle.fvn_answer.specs.Writing.{bytes_of as lines_in};
ghost use Rattle.fvn_cmd.specs.Texts.{bytes_of};
ghost use Rattle.fvn_cmd_exploring.specs.Answers.{CanBeTold, IsAnswerAfter};

use crate::ends::{end_told, loss_after};
use crate::search::Search;
use fvn_answer::{Line, answer_text};
use fvn_cmd::{Answer, Text, status_of_end};
use fvn_exploring::ExploreEnd;
use fvn_terms::NoMemory;

/// The answer with these lines, where an exploration ended so.
pub fn answer_after(
    search: &Search<'_>,
    end: &ExploreEnd,
    lines: Vec<Line>,
) -> Result<Answer, NoMemory>
    requires { CanBeTold search.now.declared.now search.now.reach end.now }
    ensures { IfOk result (λ a. IsAnswerAfter search.now.declared.now search.now.reach end.now
        (lines_in lines.items) a.status (bytes_of a.text)) }
{
    let declared = search.declared;
    let loss = loss_after(search.alloc, declared, end)?;
    let count = lines.as_slice().len();
    let told = end_told(search.alloc, search.reach, end, loss, count)?;
    let text = answer_text(search.alloc, declared, lines, &told)?;
    Ok(Answer {
        status: status_of_end(&told),
        text: Text::Made(text),
    })
}
