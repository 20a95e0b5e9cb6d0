//! Laws of words, questions, refusals, answers and outcomes, and of the numbers of options, each the contract of a function
//! that does nothing.
ghost use Rattle.fvn_tool.specs.Laws.{
  AnswersSayExactly,
  OutcomesAreDetermined,
  QuestionsAreDetermined,
  RefusalsAreRight,
  WordsAreOneCommand,
};
ghost use Rattle.fvn_tool.specs.Limits.{AreStepLimits};

use fvn_cmd::{readers_are_lawful, refusals_are_lawful};
use fvn_cmd_laws::{
    answers_are_exact, explored_answers_are_exact, sorts_are_told_once, verdicts_are_exact,
    weighings_are_exact,
};

/// Words are one command at most.
pub fn words_are_one_command()
    ensures { WordsAreOneCommand }
{}

/// A command asks one question at most of some bytes, is refused with one text at most, and not both.
pub fn questions_are_determined()
    ensures { QuestionsAreDetermined }
{
    readers_are_lawful();
    refusals_are_lawful();
}

/// A module is refused exactly where it is too long or not loaded, and else words exactly where one of them is not what it
/// should be, with the line of the first fault.
pub fn refusals_are_right()
    ensures { RefusalsAreRight }
{
    refusals_are_lawful();
}

/// What is told of sorts is right, there are no unifiers exactly at Nothing, bindings solve a problem or do not, and
/// weights show that the equations terminate or do not, as is told.
pub fn answers_say_exactly()
    ensures { AnswersSayExactly }
{
    sorts_are_told_once();
    verdicts_are_exact();
    answers_are_exact();
    weighings_are_exact();
    explored_answers_are_exact();
}

/// Words and the bytes of a source have at most one outcome, but for answers to one question, which agree.
///
/// By `outcome` in the report of `run`, two runs over them have the same status and the same text,
/// where neither status is ReadFault, WriteFault or NoMemory, or both answer one question. Of two
/// answers of `unify` each may give any complete set of unifiers that may be drawn and of which none
/// is an instance of another, or meet any bound of the problem, also where the other is complete.
/// Where `verify` tells a verdict, both runs do, and where the equations are confluent, they tell the
/// same unless one ended at a bound. Complete answers have equally many lines (`answers_are_exact` of
/// `fvn_cmd_laws`).
pub fn outcomes_are_determined()
    ensures { OutcomesAreDetermined }
{
    sorts_are_told_once();
    verdicts_are_exact();
    answers_are_exact();
    weighings_are_exact();
    questions_are_determined();
}

/// The numbers of options where the words tell none, the most that they may ask for, and the least and the greatest number
/// of `work` are those that are written in `AreStepLimits`.
pub fn step_limits_are()
    ensures { AreStepLimits }
{}
