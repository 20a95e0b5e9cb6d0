//! Modules with their rules.
ghost use Rattle.std.specs.Prelude.{IfOk, IfErr};
ghost use Rattle.fvn_module_loading.specs.Loading.{IsLoaded, IsLoadFault};
ghost use Rattle.fvn_cmd_exploring.specs.Searches.{AreRulesOf};

use fvn_cohere::harmless_equations_are_admissible;
use fvn_module::{Module, ModuleFault};
use fvn_module_engines::extend;
use fvn_module_loading::load;
use fvn_rewrite_rules::Rules;
use std::alloc::Global;

/// A module and its rules.
pub struct Loaded {
    pub declared: Module,
    pub rules: Rules,
}

impl Drop for Loaded {
    fn drop(self) {
        let Loaded {
            declared: _,
            rules: _,
        } = self;
    }
}

/// The module that a text is, with its rules; else the first fault of the text.
pub fn load_with_rules(alloc: Global, bytes: &[u8]) -> Result<Loaded, ModuleFault>
    ensures ok { IfOk result (λ l. IsLoaded bytes.now l.declared) }
    ensures rules { IfOk result (λ l. AreRulesOf l.declared l.rules) }
    ensures err { IfErr result (IsLoadFault bytes.now) }
{
    harmless_equations_are_admissible();
    let declared = load(alloc, bytes)?;
    declared.recall_readable();
    let rules = extend(alloc, &declared)?;
    Ok(Loaded { declared, rules })
}
