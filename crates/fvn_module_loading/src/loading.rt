//! Loading a module.
ghost use Rattle.std.specs.Prelude.{◌≡◌, ◌⊎◌, IfOk, IfErr};
ghost use Rattle.fvn_module.specs.declared.fault.ModuleFault.TheVariants.{NoMemory as OutOfMemory};
ghost use Rattle.fvn_module_loading.specs.Loading.{
  fault_of_left,
  HasHarmlessSides,
  HasLeftFault,
  IsLoaded,
  IsLoadFault,
  IsOnlyLoaded,
  HasNoLoad,
};

use crate::checks::first_left_fault;
use fvn_cohere::LeftFault;
use fvn_module::{Module, ModuleFault, Place, read_module};
use fvn_terms::NoMemory;
use std::alloc::Global;

// What is wrong with a left side, as a fault of its module.
fn fault_of_left(left: LeftFault) -> ModuleFault
    ensures { result ≡ fault_of_left left }
{
    match left {
        LeftFault::TooManyInstances(k) => ModuleFault::TooMany(Place::Equation(k)),
        LeftFault::BecomesVariable(k) => ModuleFault::VariableLeft(k),
        LeftFault::BecomesIdentity(k) => ModuleFault::IdentityLeft(k),
    }
}

// The module, where its left sides are harmless, or the fault of the first that is not.
fn judged(alloc: Global, declared: Module) -> Result<Module, ModuleFault>
    ensures ok { IfOk result (λ m. (m ≡ declared) × HasHarmlessSides declared) }
    ensures err { IfErr result (λ fault. (fault ≡ OutOfMemory) ⊎ HasLeftFault declared fault) }
{
    match first_left_fault(alloc, &declared) {
        Ok(None) => Ok(declared),
        Ok(Some(left)) => Err(fault_of_left(left)),
        Err(NoMemory) => Err(ModuleFault::NoMemory),
    }
}

/// The module that a text is, where no left side of it is at fault; else the first fault of the text.
///
/// What makes a text no module is told before what is wrong with a left side.
pub fn load(alloc: Global, bytes: &[u8]) -> Result<Module, ModuleFault>
    ensures ok { IfOk result (IsLoaded bytes.now) }
    ensures only { IfOk result (IsOnlyLoaded bytes.now) }
    ensures err { IfErr result (IsLoadFault bytes.now) }
    ensures none { IfErr result (HasNoLoad bytes.now) }
{
    match read_module(alloc, bytes) {
        Ok(declared) => judged(alloc, declared),
        Err(fault) => Err(fault),
    }
}
