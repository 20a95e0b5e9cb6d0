//! What the statements so far declare.
ghost use Rattle.std.specs.Prelude.{◌≡◌, OnOk};
ghost use Rattle.fvn_module_names.specs.Names.{operators_in, constants_in, with_texts};
ghost use Rattle.fvn_module_names.specs.Variables.{with_declared};
ghost use Rattle.fvn_module_names.specs.inner.Testing.{no_past, with_past};

use crate::names::{declares_constants, insert_all};
use crate::variables::VariableTable;
use crate::vocabulary::Vocabulary;
use fvn_module_syntax::Statement;
use fvn_syntax::{Text, Texts};
use fvn_terms::NoMemory;
use std::alloc::Global;
use std::marker::Model;

/// The operators, constants and variables that the statements so far declare.
#[derive(Drop)]
pub struct Earlier {
    operators: Texts,
    constants: Texts,
    variables: VariableTable,
}

impl Model for Earlier {
    ghost use Rattle.fvn_module_names.specs.inner.Testing.{Past};

    ghost Value = { Past };

    ghost view = { λ e. record {
      operators = e.operators;
      constants = e.constants;
      variables = e.variables;
    } };
}

// The texts with the constants that a statement declares, among the operators with these names.
fn insert_constants(
    alloc: Global,
    constants: &mut Texts,
    names: &[Text<'_>],
    statement: &Statement<'_>,
) -> Result<(), NoMemory>
    requires { names.now ≡ operators_in statement.now }
    ensures { OnOk result (constants.new ≡ with_texts constants.old (constants_in statement.now)) }
{
    if declares_constants(statement) {
        insert_all(alloc, constants, names)
    } else {
        Ok(())
    }
}

// The variables with those that a statement declares.
fn insert_variables(
    alloc: Global,
    v: &Vocabulary,
    variables: &mut VariableTable,
    statement: &Statement<'_>,
) -> Result<(), NoMemory>
    ensures { OnOk result (variables.new ≡
        with_declared v.now.sorts v.now.kinds variables.old statement.now) }
{
    match statement {
        Statement::Variables { names, sort, .. } => match v.find_sort(sort) {
            Some(sort) => variables.insert_all(alloc, names.as_slice(), sort),
            None => Ok(()),
        },
        _ => Ok(()),
    }
}

impl Earlier {
    /// Nothing.
    pub fn new(alloc: Global) -> Earlier
        ensures { result ≡ no_past }
    {
        Earlier {
            operators: Texts::new(alloc),
            constants: Texts::new(alloc),
            variables: VariableTable::new(alloc),
        }
    }

    /// The operators.
    pub fn operators(&self) -> &Texts
        ensures { result.now ≡ self.now.operators }
    {
        &self.operators
    }

    /// The constants.
    pub fn constants(&self) -> &Texts
        ensures { result.now ≡ self.now.constants }
    {
        &self.constants
    }

    /// The variables.
    pub fn variables(&self) -> &VariableTable
        ensures { result.now ≡ self.now.variables }
    {
        &self.variables
    }

    /// The variables alone.
    pub fn into_variables(self) -> VariableTable
        ensures { result ≡ self.variables }
    {
        self.variables
    }

    /// Adds what one more statement declares, whose operators have these names.
    pub fn note(
        &mut self,
        alloc: Global,
        v: &Vocabulary,
        names: &[Text<'_>],
        statement: &Statement<'_>,
    ) -> Result<(), NoMemory>
        requires { names.now ≡ operators_in statement.now }
        ensures { OnOk result (self.new ≡ with_past v.now self.old statement.now) }
    {
        insert_all(alloc, &mut self.operators, names)?;
        insert_constants(alloc, &mut self.constants, names, statement)?;
        insert_variables(alloc, v, &mut self.variables, statement)
    }
}
