//! The names that statements declare.
ghost use Rattle.std.specs.Prelude.{◌≡◌, if◌then◌else◌, ◌++◌, [], map, IfOk, OnOk};
ghost use Rattle.fvn_module_names.specs.Names.{
  quoted,
  joined,
  name_text,
  sorts_in,
  operators_in,
  constants_in,
  with_texts,
  sorts_of,
  operators_of,
};

use fvn_base::Seq;
use fvn_module_syntax::{OperatorName, Statement};
use fvn_syntax::{Piece, Row, Text, Texts};
use fvn_terms::NoMemory;
use std::alloc::Global;

// Puts a token of a name at the end of the bytes so far.
fn push_quoted(name: &mut Vec<u8>, piece: &Piece<'_>) -> Result<(), NoMemory>
    ensures { OnOk result (name.new.items ≡ name.old.items ++ quoted piece.now) }
{
    if !piece.is_word() {
        name.push(b'`')?;
    }
    name.extend_from_slice(piece.text())?;
    Ok(())
}

/// The name that tokens make.
pub fn join(alloc: Global, row: &Row<'_>) -> Result<Vec<u8>, NoMemory>
    ensures { IfOk result (λ v. v.items ≡ joined row.now) }
{
    let mut name = Vec::new(alloc);
    for piece in row.pieces() {
        push_quoted(&mut name, piece)?;
    }
    Ok(name)
}

// The text of a name behind `ops`.
fn name_bytes(alloc: Global, name: &OperatorName<'_>) -> Result<Vec<u8>, NoMemory>
    ensures { IfOk result (λ v. v.items ≡ name_text name.now) }
{
    match name {
        OperatorName::Single(text) => {
            let bytes = Vec::from_slice(alloc, text.bytes())?;
            Ok(bytes)
        }
        OperatorName::Round(row) => {
            let bytes = join(alloc, row)?;
            Ok(bytes)
        }
    }
}

// The texts of the names behind `ops`.
fn all_names(alloc: Global, names: &[OperatorName<'_>]) -> Result<Vec<Seq<u8>>, NoMemory>
    ensures { IfOk result (λ v. v.items ≡ map name_text names.now) }
{
    let mut all = Vec::new(alloc);
    for name in names {
        let bytes = name_bytes(alloc, name)?;
        all.push(Seq::from_vec(bytes))?;
    }
    Ok(all)
}

/// The operators that a statement declares.
pub fn operator_names(alloc: Global, statement: &Statement<'_>) -> Result<Vec<Seq<u8>>, NoMemory>
    ensures { IfOk result (λ v. v.items ≡ operators_in statement.now) }
{
    match statement {
        Statement::Operator { name, .. } => {
            let bytes = join(alloc, name)?;
            let mut all = Vec::new(alloc);
            all.push(Seq::from_vec(bytes))?;
            Ok(all)
        }
        Statement::Operators { names, .. } => {
            let all = all_names(alloc, names.as_slice())?;
            Ok(all)
        }
        _ => Ok(Vec::new(alloc)),
    }
}

/// Puts each text at the end where it is new.
pub fn insert_all(alloc: Global, texts: &mut Texts, names: &[Text<'_>]) -> Result<(), NoMemory>
    ensures { OnOk result (texts.new ≡ with_texts texts.old names.now) }
{
    for name in names {
        let _place = texts.insert(alloc, name.bytes())?;
    }
    Ok(())
}

/// Owned texts as texts.
pub fn as_texts<'b>(alloc: Global, owned: &'b [Seq<u8>]) -> Result<Vec<Text<'b>>, NoMemory>
    ensures { IfOk result (λ v. v.items ≡ owned.now) }
{
    let mut texts = Vec::new(alloc);
    for text in owned {
        texts.push(Text::new(text.as_slice()))?;
    }
    Ok(texts)
}

// The texts with the sorts that a statement declares.
fn insert_sorts(alloc: Global, sorts: &mut Texts, statement: &Statement<'_>) -> Result<(), NoMemory>
    ensures { OnOk result (sorts.new ≡ with_texts sorts.old (sorts_in statement.now)) }
{
    match statement {
        Statement::Sorts { names, .. } => insert_all(alloc, sorts, names.as_slice()),
        _ => Ok(()),
    }
}

/// The sorts that statements declare.
pub fn collect_sorts(alloc: Global, statements: &[Statement<'_>]) -> Result<Texts, NoMemory>
    ensures { IfOk result (λ t. t ≡ sorts_of statements.now) }
{
    let mut sorts = Texts::new(alloc);
    for statement in statements {
        insert_sorts(alloc, &mut sorts, statement)?;
    }
    Ok(sorts)
}

/// The texts with the operators that a statement declares.
pub fn insert_operators(
    alloc: Global,
    operators: &mut Texts,
    statement: &Statement<'_>,
) -> Result<(), NoMemory>
    ensures { OnOk result (operators.new ≡ with_texts operators.old (operators_in statement.now)) }
{
    let owned = operator_names(alloc, statement)?;
    let names = as_texts(alloc, owned.as_slice())?;
    insert_all(alloc, operators, names.as_slice())
}

/// The operators that statements declare.
pub fn collect_operators(alloc: Global, statements: &[Statement<'_>]) -> Result<Texts, NoMemory>
    ensures { IfOk result (λ t. t ≡ operators_of statements.now) }
{
    let mut operators = Texts::new(alloc);
    for statement in statements {
        insert_operators(alloc, &mut operators, statement)?;
    }
    Ok(operators)
}

/// Whether a statement declares constants.
pub fn declares_constants(statement: &Statement<'_>) -> bool
    ensures { constants_in statement.now ≡ (if result then operators_in statement.now else []) }
{
    match statement {
        Statement::Operator { rank, .. } => rank.args.is_empty(),
        Statement::Operators { rank, .. } => rank.args.is_empty(),
        _ => false,
    }
}
