//! The signature of a module.
ghost use Rattle.std.specs.Prelude.{◌≡◌, IfOk, IfErr};
ghost use Rattle.fvn_sorts.specs.Faults.{IsTooLarge};
ghost use Rattle.fvn_module.specs.inner.Steps.{IsFinished, IsFinishRefused, IsSigned, IsSigningRefused};
ghost use Rattle.fvn_module_names.specs.Variables.{no_variables};
ghost use Rattle.fvn_syntax.specs.declared.names.Names.{Names};

use crate::fault::ModuleFault;
use fvn_base::Seq;
use fvn_module_declarations::{Declared, NameFault, declare};
use fvn_module_syntax::Form;
use fvn_signature::Signature;
use fvn_sorts::{SigFault, SignatureBuilder};
use fvn_syntax::{Names, Texts, Variables};
use std::alloc::Global;

/// A signature with its names.
#[derive(Drop)]
pub struct Signed {
    pub signature: Signature,
    pub names: Names,
}

// The names without the variables.
fn names_alone(alloc: Global, names: Names) -> Names
    ensures { result ≡ record names { variables = no_variables } }
{
    let Names {
        module_name,
        sorts,
        ops,
        ..
    } = names;
    Names {
        module_name,
        sorts,
        ops,
        variables: Variables {
            texts: Texts::new(alloc),
            sorts: Seq::new(alloc),
        },
    }
}

// The signature of what was collected, with its names.
fn finish(alloc: Global, names: Names, builder: SignatureBuilder) -> Result<Signed, ModuleFault>
    requires { IsTooLarge builder → ⊥ }
    ensures ok { IfOk result (IsFinished names builder) }
    ensures err { IfErr result (IsFinishRefused names builder) }
{
    let tops = builder.tops(alloc)?;
    match builder.finish(alloc) {
        Ok(signature) => Ok(Signed { signature, names }),
        Err(SigFault::NoMemory) => Err(ModuleFault::NoMemory),
        Err(fault) => Err(ModuleFault::Signature(fault, names_alone(alloc, names), tops)),
    }
}

/// The signature that statements declare, with their names, or the first fault among these or of it.
pub fn sign(alloc: Global, form: &Form<'_>) -> Result<Signed, ModuleFault>
    ensures ok { IfOk result (IsSigned form.now) }
    ensures err { IfErr result (IsSigningRefused form.now) }
{
    match declare(alloc, form) {
        Err(NameFault::UnknownName(n)) => Err(ModuleFault::UnknownName(n)),
        Err(NameFault::Twice(n)) => Err(ModuleFault::Twice(n)),
        Err(NameFault::NoMemory) => Err(ModuleFault::NoMemory),
        Ok(Declared::TooLarge(names)) => {
            let tops = Seq::new(alloc);
            Err(ModuleFault::Signature(SigFault::TooMany, names, tops))
        }
        Ok(Declared::Fitting(names, builder)) => finish(alloc, names, builder),
    }
}
