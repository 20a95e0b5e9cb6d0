//! What is answered for weights of the operators of a module, as texts.
ghost use Rattle.fvn_weights.specs.Weighing.{AreWeightsOf};

use fvn_module::Module;
use fvn_signature::Signature;
use fvn_terms::NoMemory;
use fvn_theory::Equation;
use fvn_weights::{WeighFault, Weights, weigh};
use std::alloc::Global;
use std::string::String;

/// A word and a number.
pub fn push_number(
    text: &mut String,
    alloc: Global,
    before: &str,
    number: usize,
) -> Result<(), NoMemory> {
    text.push_str(before)?;
    text.push_str(&format!(in alloc; "{number}")?)?;
    Ok(())
}

// A fault with its number.
fn push_fault(text: &mut String, alloc: Global, fault: &WeighFault) -> Result<(), NoMemory> {
    match fault {
        WeighFault::Shape(f) => push_number(text, alloc, "shape ", usize::from(f.0)),
        WeighFault::TooBig(number) => push_number(text, alloc, "big ", *number),
        WeighFault::Grows(number) => push_number(text, alloc, "grows ", *number),
        WeighFault::NoMemory => push_number(text, alloc, "memory ", 0),
    }
}

// What is answered for weights.
fn push_weighed(
    text: &mut String,
    alloc: Global,
    sig: &Signature,
    equations: &[Equation],
    weights: &Weights,
) -> Result<(), NoMemory>
    requires { AreWeightsOf sig.now weights.now.list }
{
    match weigh(alloc, sig, equations, weights) {
        Ok(()) => push_number(text, alloc, "terminates ", 0),
        Err(fault) => push_fault(text, alloc, &fault),
    }
}

// The same, where there is a weight for each operator.
fn push_tested(
    text: &mut String,
    alloc: Global,
    sig: &Signature,
    equations: &[Equation],
    weights: &Weights,
) -> Result<(), NoMemory> {
    if weights.list.len() != sig.op_count() {
        return push_number(text, alloc, "operators ", sig.op_count());
    }
    push_weighed(text, alloc, sig, equations, weights)
}

/// What is answered for weights of a module.
pub fn push_answer(
    text: &mut String,
    alloc: Global,
    module: &Module,
    weights: &Weights,
) -> Result<(), NoMemory> {
    push_tested(text, alloc, module.signature(), module.equations(), weights)
}

/// A module with these statements.
pub fn module_of(alloc: Global, statements: &str) -> Result<String, NoMemory> {
    let mut text = String::new(alloc);
    text.push_str("fmod M is ")?;
    text.push_str(statements)?;
    text.push_str(" endfm")?;
    Ok(text)
}
