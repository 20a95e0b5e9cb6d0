//! Laws of answers, each the contract of a function that does nothing.
ghost use Rattle.fvn_cmd_laws.specs.Laws.{
  AmpleLimitsAreNotTold,
  AnswersAreExact,
  ExploredAnswersAreExact,
  SortsAreToldOnce,
  VerdictsAreExact,
  WeighingsAreExact,
};

use fvn_cmd::readers_are_lawful;
use fvn_verify::verdicts_agree;

/// Of the sorts of a module one thing is told.
pub fn sorts_are_told_once()
    ensures { SortsAreToldOnce }
{
    readers_are_lawful();
}

/// What is told of bindings is exact; where the equations are confluent, verdicts that ended at no bound are one, and where
/// no bound is met, none ended a verdict.
pub fn verdicts_are_exact()
    ensures { VerdictsAreExact }
{
    verdicts_agree();
}

/// `complete 0` comes exactly where nothing unifies, all unifiers are found where no bound is met, and a complete answer to
/// a problem has as many as every complete set of which none is an instance of another.
pub fn answers_are_exact()
    ensures { AnswersAreExact }
{}

/// What is told of weights is exact, and one thing.
pub fn weighings_are_exact()
    ensures { WeighingsAreExact }
{}

/// What the status of answers over an exploration tells is exact.
pub fn explored_answers_are_exact()
    ensures { ExploredAnswersAreExact }
{}

/// No answer ends at a limit of levels or of variants that is large enough.
pub fn ample_limits_are_not_told()
    ensures { AmpleLimitsAreNotTold }
{}
