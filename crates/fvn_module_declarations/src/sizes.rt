//! Whether statements declare more than a signature may have.
ghost use Rattle.std.specs.Prelude.{◌≡◌, ◌↔◌, IsTrue};
ghost use Rattle.std.specs.List.{list_any};
ghost use Rattle.fvn_sorts.specs.Faults.{IsTooLarge};
ghost use Rattle.fvn_module_declarations.specs.Module.{collected_in};
ghost use Rattle.fvn_module_declarations.specs.inner.Shapes.{has_long_rank};
ghost use Rattle.fvn_module_names.specs.Vocabulary.{vocabulary_of};

use fvn_base::limits::{ARGUMENTS, OPERATORS, SORTS};
use fvn_module_names::Vocabulary;
use fvn_module_syntax::Statement;

// Whether a statement declares an operator with more arguments than one may have.
fn has_long_rank(statement: &Statement<'_>) -> bool
    ensures { result ≡ has_long_rank statement.now }
{
    match statement {
        Statement::Operator { rank, .. } => rank.args.len() > ARGUMENTS,
        Statement::Operators { names, rank, .. } => {
            !names.is_empty() && rank.args.len() > ARGUMENTS
        }
        _ => false,
    }
}

// Whether one of these statements does.
fn any_long_rank(statements: &[Statement<'_>]) -> bool
    ensures { result ≡ list_any has_long_rank statements.now }
{
    statements.iter().any(|statement| has_long_rank(statement))
}

/// Whether statements declare more sorts, operators, or arguments of one operator than a signature may have.
pub fn is_too_large(v: &Vocabulary, statements: &[Statement<'_>]) -> bool
    requires { v.now ≡ vocabulary_of statements.now }
    ensures { IsTrue result ↔ IsTooLarge (collected_in statements.now) }
{
    if v.sorts().len() > usize::from(SORTS) {
        return true;
    }
    if v.ops().len() > usize::from(OPERATORS) {
        return true;
    }
    any_long_rank(statements)
}
