//! What is proved of all texts, each law carried by a function that does nothing.
ghost use Rattle.fvn_problems.specs.Laws.{
  QueriesAreSpelledOnce,
  ProblemsAreSpelledOnce,
  BindingsAreSpelledOnce,
  NamesGoOn,
  QueryFaultsAreDetermined,
  ProblemFaultsAreDetermined,
  BindingFaultsAreDetermined,
  QueryNamesAreWords,
  QueryNamesDiffer,
  ProblemNamesAreWords,
  ProblemNamesDiffer,
  QueriesAreKinded,
  ProblemsAreKinded,
  QueriesAreDetermined,
  ProblemsAreDetermined,
  BindingsAreDetermined,
  RefusedQueriesAskNothing,
  RefusedProblemsAskNothing,
  RefusedBindingsBindNothing,
};

use fvn_lex::{pieces_by_form, pieces_stand_alone};
use fvn_syntax::terms_are_well_kinded;

/// Two term texts that are spelled alike are one.
pub fn queries_are_spelled_once()
    ensures { QueriesAreSpelledOnce }
{}

/// Two problems that are spelled alike are one.
pub fn problems_are_spelled_once()
    ensures { ProblemsAreSpelledOnce }
{}

/// Two lists of bindings that are spelled alike are one.
pub fn bindings_are_spelled_once()
    ensures { BindingsAreSpelledOnce }
{}

/// The names of the variables before a term stay, and others come behind them.
pub fn names_go_on()
    ensures { NamesGoOn }
{}

/// But for want of memory, a term text has one first fault at most.
pub fn query_faults_are_determined()
    ensures { QueryFaultsAreDetermined }
{}

/// But for want of memory, a problem has one first fault at most.
pub fn problem_faults_are_determined()
    ensures { ProblemFaultsAreDetermined }
{}

/// But for want of memory, a binding text has one first fault at most.
pub fn binding_faults_are_determined()
    ensures { BindingFaultsAreDetermined }
{}

/// The name of each variable of a term text is a word with a colon behind it, and does not begin with `#`.
pub fn query_names_are_words()
    ensures { QueryNamesAreWords }
{
    pieces_by_form();
    pieces_stand_alone();
}

/// The name of each variable of a problem is a word with a colon behind it, and does not begin with `#`.
pub fn problem_names_are_words()
    ensures { ProblemNamesAreWords }
{
    pieces_by_form();
    pieces_stand_alone();
}

/// No two variables of a problem have one name.
pub fn problem_names_differ()
    ensures { ProblemNamesDiffer }
{}

/// No two variables of a term text have one name.
pub fn query_names_differ()
    ensures { QueryNamesDiffer }
{}

/// The term of a term text is well-kinded, and the variables are those in it, each once.
pub fn queries_are_kinded()
    ensures { QueriesAreKinded }
{
    terms_are_well_kinded();
}

/// The sides of each pair of a problem are well-kinded and of one kind, and the variables are those in them.
pub fn problems_are_kinded()
    ensures { ProblemsAreKinded }
{
    terms_are_well_kinded();
}

/// A text asks one term at most.
pub fn queries_are_determined()
    ensures { QueriesAreDetermined }
{}

/// A text asks one problem at most.
pub fn problems_are_determined()
    ensures { ProblemsAreDetermined }
{}

/// A text binds one thing at most in a problem that a text asks.
pub fn bindings_are_determined()
    ensures { BindingsAreDetermined }
{}

/// But for want of memory, a text with a fault as a term text asks nothing.
pub fn refused_queries_ask_nothing()
    ensures { RefusedQueriesAskNothing }
{}

/// But for want of memory, a text with a fault as a problem asks nothing.
pub fn refused_problems_ask_nothing()
    ensures { RefusedProblemsAskNothing }
{}

/// But for want of memory, a text with a fault as a binding text binds nothing.
pub fn refused_bindings_bind_nothing()
    ensures { RefusedBindingsBindNothing }
{}
