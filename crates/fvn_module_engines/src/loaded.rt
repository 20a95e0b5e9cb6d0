//! Modules with their rules.
ghost use Rattle.std.specs.Prelude.{IfOk, IfErr};
ghost use Rattle.fvn_module_loading.specs.Loading.{IsLoadFault, HasNoLoad};
ghost use Rattle.fvn_module_engines.specs.Loaded.{IsWhole, IsOf};

use crate::engines::extend;
use fvn_module::{Module, ModuleFault};
use fvn_module_loading::{load, sort_loss};
use fvn_rewrite_rules::Rules;
use fvn_terms::NoMemory;
use std::alloc::Global;

/// A module, its rules, and the number of its first equation that is not sort-decreasing, where there is one.
#[derive(Drop)]
pub struct Loaded {
    pub declared: Module,
    pub rules: Rules,
    pub loss: Option<usize>,
}

// The module, with its rules and its first loss of a sort.
fn with_rules(alloc: Global, declared: Module) -> Result<Loaded, NoMemory>
    ensures { IfOk result (IsOf declared) }
{
    let rules = extend(alloc, &declared)?;
    let loss = sort_loss(alloc, &declared)?;
    Ok(Loaded {
        declared,
        rules,
        loss,
    })
}

/// The module that a text is, with its rules and its first loss of a sort; else the first fault of the text.
pub fn load_with_rules(alloc: Global, bytes: &[u8]) -> Result<Loaded, ModuleFault>
    ensures ok { IfOk result (IsWhole bytes.now) }
    ensures err { IfErr result (IsLoadFault bytes.now) }
    ensures none { IfErr result (HasNoLoad bytes.now) }
{
    match load(alloc, bytes) {
        Ok(declared) => match with_rules(alloc, declared) {
            Ok(loaded) => Ok(loaded),
            Err(NoMemory) => Err(ModuleFault::NoMemory),
        },
        Err(fault) => Err(fault),
    }
}
