//! What is proved of all texts, each law carried by a function that does nothing.
ghost use Rattle.fvn_module.specs.Laws.{
  ModulesAreDetermined,
  RefusalsAreDetermined,
  RefusedTextsDeclareNothing,
  ModulesAreGood,
};

use fvn_lex::pieces_stand_alone;
use fvn_module_statements::statements_are_determined;
use fvn_sorts::faultless_signatures_are_good;

/// A text is one module at most.
pub fn modules_are_determined()
    ensures { ModulesAreDetermined }
{
    statements_are_determined();
}

/// But for want of memory, a text has one first fault at most.
pub fn refusals_are_determined()
    ensures { RefusalsAreDetermined }
{
    statements_are_determined();
}

/// But for want of memory, a text with a fault is no module.
pub fn refused_texts_declare_nothing()
    ensures { RefusedTextsDeclareNothing }
{
    statements_are_determined();
}

/// A module is readable, and its signature is good, with all that its queries need.
pub fn modules_are_good()
    ensures { ModulesAreGood }
{
    pieces_stand_alone();
    faultless_signatures_are_good();
}
