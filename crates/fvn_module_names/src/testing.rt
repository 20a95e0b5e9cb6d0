//! The first fault among the names of statements.
ghost use Rattle.std.specs.Prelude.{◌≡◌, ◌⊎◌, IfOk, IfErr, OnOk};
ghost use Rattle.fvn_module_names.specs.declared.fault.NameFault.TheVariants.{NoMemory as OutOfMemory};
ghost use Rattle.fvn_module_names.specs.Names.{operators_in};
ghost use Rattle.fvn_module_names.specs.Variables.{variables_of};
ghost use Rattle.fvn_module_names.specs.Vocabulary.{vocabulary_of};
ghost use Rattle.fvn_module_names.specs.Faults.{HasNames, IsFirstFault};
ghost use Rattle.fvn_module_names.specs.inner.Testing.{with_past, Passes, IsFault};

use crate::earlier::Earlier;
use crate::fault::NameFault;
use crate::names::{as_texts, operator_names};
use crate::twice::declares_twice;
use crate::unknown::names_unknown;
use crate::variables::VariableTable;
use crate::vocabulary::Vocabulary;
use fvn_module_syntax::Statement;
use fvn_syntax::Text;
use std::alloc::Global;

// The fault of a statement whose operators have these names, behind what is declared earlier.
fn find_fault(
    v: &Vocabulary,
    earlier: &Earlier,
    names: &[Text<'_>],
    statement: &Statement<'_>,
    number: usize,
) -> Result<(), NameFault>
    requires { names.now ≡ operators_in statement.now }
    ensures ok { OnOk result (Passes v.now earlier.now statement.now) }
    ensures err { IfErr result (IsFault v.now earlier.now statement.now number) }
{
    if names_unknown(v, earlier.operators(), names, statement) {
        return Err(NameFault::UnknownName(number));
    }
    if declares_twice(
        v,
        earlier.constants(),
        earlier.variables(),
        names,
        statement,
    ) {
        return Err(NameFault::Twice(number));
    }
    Ok(())
}

// Tests a statement, and adds what it declares to what is declared earlier.
fn test_statement(
    alloc: Global,
    v: &Vocabulary,
    earlier: &mut Earlier,
    statement: &Statement<'_>,
    number: usize,
) -> Result<(), NameFault>
    ensures passes { OnOk result (Passes v.now earlier.old statement.now) }
    ensures noted { OnOk result (earlier.new ≡ with_past v.now earlier.old statement.now) }
    ensures err { IfErr result (λ fault. (fault ≡ OutOfMemory) ⊎
        IsFault v.now earlier.old statement.now number fault) }
{
    let owned = operator_names(alloc, statement)?;
    let names = as_texts(alloc, owned.as_slice())?;
    find_fault(v, earlier, names.as_slice(), statement, number)?;
    earlier.note(alloc, v, names.as_slice(), statement)?;
    Ok(())
}

/// Tests the names of all statements in order, and tells the variables that they declare.
pub fn test_statements(
    alloc: Global,
    v: &Vocabulary,
    statements: &[Statement<'_>],
) -> Result<VariableTable, NameFault>
    requires { v.now ≡ vocabulary_of statements.now }
    ensures named { OnOk result (HasNames statements.now) }
    ensures variables { IfOk result (λ t. t ≡ variables_of v.now.sorts v.now.kinds statements.now) }
    ensures err { IfErr result (λ fault. (fault ≡ OutOfMemory) ⊎
        IsFirstFault statements.now fault) }
{
    let mut earlier = Earlier::new(alloc);
    for (i, statement) in statements.iter().enumerate() {
        test_statement(alloc, v, &mut earlier, statement, i + 1)?;
    }
    Ok(earlier.into_variables())
}
