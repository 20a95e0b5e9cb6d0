//! What the statements of a module declare.
ghost use Rattle.std.specs.Prelude.{◌≡◌, ◌⊎◌, IfOk, IfErr};
ghost use Rattle.fvn_sorts.specs.Faults.{IsTooLarge};
ghost use Rattle.fvn_module_names.specs.declared.fault.NameFault.TheVariants.{NoMemory as OutOfMemory};
ghost use Rattle.fvn_module_names.specs.Variables.{variables_of};
ghost use Rattle.fvn_module_declarations.specs.Module.{collected_in, names_alone};
ghost use Rattle.fvn_module_declarations.specs.Answer.{IsDeclared};
ghost use Rattle.fvn_module_names.specs.Faults.{HasNames, IsFirstFault};
ghost use Rattle.fvn_module_names.specs.Ranges.{IsInRange};
ghost use Rattle.fvn_module_names.specs.Vocabulary.{vocabulary_of};

use crate::building::build;
use crate::sizes::is_too_large;
use fvn_base::Seq;
use fvn_module_names::{NameFault, VariableTable, Vocabulary, test_statements};
use fvn_module_syntax::Form;
use fvn_sorts::SignatureBuilder;
use fvn_syntax::{Names, Texts, Variables};
use fvn_terms::NoMemory;
use std::alloc::Global;

/// What statements declare: names with what a signature is made of, or names of sorts and operators alone, where
/// there are more sorts, operators, or arguments of one operator than a signature may have.
#[derive(Drop)]
pub enum Declared {
    Fitting(Names, SignatureBuilder),
    TooLarge(Names),
}

// A copy of the name of a module.
fn copy_name(alloc: Global, form: &Form<'_>) -> Result<Seq<u8>, NoMemory>
    ensures { IfOk result (λ name. name ≡ form.now.name) }
{
    let name = Vec::from_slice(alloc, form.name.bytes())?;
    Ok(Seq::from_vec(name))
}

// The names of a module without its variables.
fn name_alone(alloc: Global, form: &Form<'_>, v: Vocabulary) -> Result<Names, NoMemory>
    requires { v ≡ vocabulary_of form.now.statements }
    ensures { IfOk result (λ names. names ≡ names_alone form.now) }
{
    let name = copy_name(alloc, form)?;
    let none = Variables {
        texts: Texts::new(alloc),
        sorts: Seq::new(alloc),
    };
    Ok(v.into_names(name, none))
}

// What the statements of a module declare, where their names are not at fault and they fit.
fn fit(
    alloc: Global,
    form: &Form<'_>,
    v: Vocabulary,
    table: VariableTable,
) -> Result<Declared, NoMemory>
    requires vocabulary { v ≡ vocabulary_of form.now.statements }
    requires in_range { IsInRange v }
    requires variables { table ≡ variables_of v.sorts v.kinds form.now.statements }
    requires named { HasNames form.now.statements }
    requires small { IsTooLarge (collected_in form.now.statements) → ⊥ }
    ensures { IfOk result (IsDeclared form.now) }
{
    let builder = build(alloc, &v, form.statements.as_slice())?;
    let variables = table.into_variables(alloc)?;
    let name = copy_name(alloc, form)?;
    let names = v.into_names(name, variables);
    Ok(Declared::Fitting(names, builder))
}

/// What the statements of a module declare, or the first fault among their names.
///
/// Sorts, operators and the order of sorts are collected from all statements. Then each statement is tested in
/// order: first for names that are not declared, and then for names that are declared otherwise before. Equations
/// declare nothing.
pub fn declare(alloc: Global, form: &Form<'_>) -> Result<Declared, NameFault>
    ensures ok { IfOk result (IsDeclared form.now) }
    ensures err { IfErr result (λ fault. (fault ≡ OutOfMemory) ⊎
        IsFirstFault form.now.statements fault) }
{
    let statements = form.statements.as_slice();
    let v = Vocabulary::collect(alloc, statements)?;
    let table = test_statements(alloc, &v, statements)?;
    if is_too_large(&v, statements) {
        let names = name_alone(alloc, form, v)?;
        return Ok(Declared::TooLarge(names));
    }
    let declared = fit(alloc, form, v, table)?;
    Ok(declared)
}
