//! What is proved of all texts and modules, each law carried by a function that does nothing.
ghost use Rattle.fvn_module_loading.specs.Laws.{
  LoadedModulesAreDetermined,
  LoadedModulesAreGood,
  LoadFaultsAreDetermined,
  FaultyTextsAreNotLoaded,
  LossesAreDetermined,
};

use fvn_cohere::harmless_equations_are_admissible;
use fvn_module::{
    modules_are_determined, modules_are_good, refusals_are_determined,
    refused_texts_declare_nothing,
};

/// A text is loaded as one module at most.
pub fn loaded_modules_are_determined()
    ensures { LoadedModulesAreDetermined }
{
    modules_are_determined();
}

/// A loaded module is readable, its signature is good, with all that its queries need, and its equations are admissible.
pub fn loaded_modules_are_good()
    ensures { LoadedModulesAreGood }
{
    modules_are_good();
    harmless_equations_are_admissible();
}

/// But for want of memory, a text has one first fault at most.
pub fn load_faults_are_determined()
    ensures { LoadFaultsAreDetermined }
{
    modules_are_determined();
    refusals_are_determined();
    refused_texts_declare_nothing();
}

/// But for want of memory, a text with a fault is not loaded.
pub fn faulty_texts_are_not_loaded()
    ensures { FaultyTextsAreNotLoaded }
{
    modules_are_determined();
    refused_texts_declare_nothing();
}

/// A module has one first equation that loses a sort, or none.
pub fn losses_are_determined()
    ensures { LossesAreDetermined }
{}
