//! Whether a statement declares a name that is declared otherwise before.
ghost use Rattle.std.specs.Prelude.{◌≡◌, not, option_map};
ghost use Rattle.std.specs.List.{list_any};
ghost use Rattle.fvn_forms.specs.SortOrder.{sort_number};
ghost use Rattle.fvn_syntax.specs.Pieces.{is_colon_name};
ghost use Rattle.fvn_syntax.specs.Names.{sorted_name};
ghost use Rattle.fvn_module_names.specs.Names.{operators_in};
ghost use Rattle.fvn_module_names.specs.Faults.{
  is_none,
  is_other,
  reads_as_variable,
  clashes,
  is_declared_otherwise,
  declares_twice_after,
};

use crate::names::declares_constants;
use crate::unknown::is_missing;
use crate::variables::VariableTable;
use crate::vocabulary::Vocabulary;
use fvn_module_syntax::Statement;
use fvn_syntax::{Text, Texts, find_last_colon};

// Whether a text ends with a colon and has a byte before it.
fn ends_with_colon(text: &[u8]) -> bool
    ensures { result ≡ is_colon_name text.now }
{
    1 < text.len() && text[text.len() - 1] == b':'
}

// Whether a name is NAME:SORT.
fn is_sorted_name(sorts: &Texts, name: &[u8]) -> bool
    ensures { result ≡ not (is_none (sorted_name sorts.now name.now)) }
{
    match find_last_colon(name) {
        Some(i) => i != 0 && sorts.place(&name[i + 1..]).is_some(),
        None => false,
    }
}

// Whether a name would be read as a variable.
fn reads_as_variable(v: &Vocabulary, name: &[u8]) -> bool
    ensures { result ≡ reads_as_variable v.now.sorts v.now.ops v.now.kinds name.now }
{
    ends_with_colon(name) || is_sorted_name(v.sorts(), name)
}

// Whether a constant would be read as a variable, or has the name of an earlier one.
fn clashes(v: &Vocabulary, variables: &VariableTable, name: &[u8]) -> bool
    ensures { result ≡ clashes v.now.sorts v.now.ops v.now.kinds variables.now name.now }
{
    reads_as_variable(v, name) || variables.has(name)
}

// Whether one of these constants does so.
fn any_clash(v: &Vocabulary, variables: &VariableTable, names: &[Text<'_>]) -> bool
    ensures { result ≡
        list_any (clashes v.now.sorts v.now.ops v.now.kinds variables.now) names.now }
{
    names.iter().any(|name| clashes(v, variables, name.bytes()))
}

// Whether there are two sorts, and they differ.
fn is_other(one: Option<usize>, other: Option<usize>) -> bool
    ensures { result ≡ is_other (option_map sort_number one) (option_map sort_number other) }
{
    match (one, other) {
        (Some(s), Some(q)) => s != q,
        _ => false,
    }
}

// Whether a variable was declared with another sort, or has the name of an earlier constant.
fn is_declared_otherwise(
    v: &Vocabulary,
    constants: &Texts,
    variables: &VariableTable,
    sort: Option<usize>,
    name: &[u8],
) -> bool
    ensures { result ≡
        is_declared_otherwise v.now.sorts v.now.ops v.now.kinds constants.now variables.now
        (option_map sort_number sort) name.now }
{
    is_other(variables.find_sort(name), sort) || !is_missing(constants, name)
}

// Whether one of these variables is so.
fn any_declared_otherwise(
    v: &Vocabulary,
    constants: &Texts,
    variables: &VariableTable,
    sort: Option<usize>,
    names: &[Text<'_>],
) -> bool
    ensures { result ≡ list_any
        (is_declared_otherwise v.now.sorts v.now.ops v.now.kinds constants.now variables.now
        (option_map sort_number sort))
        names.now }
{
    names.iter().any(|name| is_declared_otherwise(v, constants, variables, sort, name.bytes()))
}

/// Whether a statement that declares the operators with these names, behind those of the earlier constants and
/// variables, declares a name that is declared otherwise.
pub fn declares_twice(
    v: &Vocabulary,
    constants: &Texts,
    variables: &VariableTable,
    names: &[Text<'_>],
    statement: &Statement<'_>,
) -> bool
    requires { names.now ≡ operators_in statement.now }
    ensures { result ≡
        declares_twice_after v.now.sorts v.now.ops v.now.kinds constants.now variables.now
        statement.now }
{
    match statement {
        Statement::Operator { .. } => declares_constants(statement)
            && any_clash(v, variables, names),
        Statement::Operators { .. } => {
            declares_constants(statement) && any_clash(v, variables, names)
        }
        Statement::Variables { names, sort, .. } => {
            let sort = v.find_sort(sort);
            any_declared_otherwise(v, constants, variables, sort, names.as_slice())
        }
        _ => false,
    }
}
