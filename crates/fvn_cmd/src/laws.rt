//! What holds of all that is read, and of all refusals, each the contract of a function that does nothing.
ghost use Rattle.fvn_cmd.specs.Laws.{ReadersAreLawful, RefusalsAreLawful};

use fvn_module_loading::{
    faulty_texts_are_not_loaded, load_faults_are_determined, loaded_modules_are_determined,
    losses_are_determined,
};
use fvn_problems::{
    binding_faults_are_determined, bindings_are_determined, problem_faults_are_determined,
    problems_are_determined, queries_are_determined, query_faults_are_determined,
    refused_bindings_bind_nothing, refused_problems_ask_nothing, refused_queries_ask_nothing,
};
use fvn_weights_reading::{
    refused_texts_weigh_nothing, weight_faults_are_determined, weights_are_determined,
};

/// A text says one thing at most, has one first fault at most but for want of memory, and not both.
pub fn readers_are_lawful()
    ensures { ReadersAreLawful }
{
    loaded_modules_are_determined();
    load_faults_are_determined();
    faulty_texts_are_not_loaded();
    losses_are_determined();
    problems_are_determined();
    refused_problems_ask_nothing();
    problem_faults_are_determined();
    bindings_are_determined();
    refused_bindings_bind_nothing();
    binding_faults_are_determined();
    weights_are_determined();
    refused_texts_weigh_nothing();
    weight_faults_are_determined();
    queries_are_determined();
    refused_queries_ask_nothing();
    query_faults_are_determined();
}

/// For the words of all commands: bytes and words are refused with one status and one text at most, and only where the
/// bytes are not loaded, or else not all words are what they should be.
pub fn refusals_are_lawful()
    ensures { RefusalsAreLawful }
{
    readers_are_lawful();
}
