//! Reading a statement.
ghost use Rattle.std.specs.Prelude.{◌≡◌, IfOk};
ghost use Rattle.fvn_module_statements.specs.inner.Names.{sort_names_of, groups_of, variables_of};
ghost use Rattle.fvn_module_statements.specs.inner.Statements.{sorts_read, groups_read, variables_read, operator_with, operators_with, operator_of, operators_of, operators_at, keyword_of, statement_of, statement_behind};
ghost use Rattle.fvn_module_syntax.specs.LeftOut.{feature_of};

use crate::attributes::read_attributes;
use crate::equations::read_equation;
use crate::names::{
    AnyName, all_touch, read_groups, read_sort_names, read_variables, split_colon, touch,
};
use crate::outcome::Reading;
use crate::reader::read_all;
use crate::sorts::read_rank;
use crate::words::is_text;
use fvn_base::Seq;
use fvn_module_syntax::{Feature, OperatorName, Statement};
use fvn_syntax::{Piece, Row};
use fvn_terms::NoMemory;
use std::alloc::Global;

/// A word that begins a statement; of those that have a plural it tells which one it is.
#[derive(Clone, Copy)]
pub enum Keyword {
    Sorts(bool),
    Subsorts(bool),
    Operator,
    Operators,
    Variables(bool),
    Equation,
}

// The statement that begins with the word, if one does.
fn keyword_of(word: &[u8]) -> Option<Keyword>
    ensures { result ≡ keyword_of word.now }
{
    if is_text(word, b"sort") {
        Some(Keyword::Sorts(false))
    } else if is_text(word, b"sorts") {
        Some(Keyword::Sorts(true))
    } else if is_text(word, b"subsort") {
        Some(Keyword::Subsorts(false))
    } else if is_text(word, b"subsorts") {
        Some(Keyword::Subsorts(true))
    } else if is_text(word, b"op") {
        Some(Keyword::Operator)
    } else if is_text(word, b"ops") {
        Some(Keyword::Operators)
    } else if is_text(word, b"var") {
        Some(Keyword::Variables(false))
    } else if is_text(word, b"vars") {
        Some(Keyword::Variables(true))
    } else if is_text(word, b"eq") {
        Some(Keyword::Equation)
    } else {
        None
    }
}

// The left-out form that a word begins.
fn feature_of(word: &[u8]) -> Option<Feature>
    ensures { result ≡ feature_of word.now }
{
    if is_text(word, b"protecting")
        || is_text(word, b"pr")
        || is_text(word, b"including")
        || is_text(word, b"inc")
        || is_text(word, b"extending")
        || is_text(word, b"ex")
    {
        Some(Feature::Import)
    } else if is_text(word, b"mb") || is_text(word, b"cmb") {
        Some(Feature::Membership)
    } else if is_text(word, b"ceq") || is_text(word, b"cq") {
        Some(Feature::Condition)
    } else if is_text(word, b"rl") || is_text(word, b"crl") {
        Some(Feature::Rule)
    } else {
        None
    }
}

// What follows the colon behind one name.
fn read_operator_with<'a>(
    alloc: Global,
    name: Row<'a>,
    row: &'a [Piece<'a>],
) -> Result<Reading<Statement<'a>>, NoMemory>
    ensures { IfOk result (λ r. r ≡ operator_with name.entry row.now) }
{
    let Some((rank, rest)) = read_rank(alloc, row)? else {
        return Ok(Reading::NoForm);
    };
    match read_attributes(alloc, rest.pieces())? {
        Reading::Read(attributes) => Ok(Reading::Read(Statement::Operator {
            name,
            rank,
            attributes,
        })),
        Reading::LeftOut(feature) => Ok(Reading::LeftOut(feature)),
        Reading::NoForm => Ok(Reading::NoForm),
    }
}

// What follows the colon behind several names.
fn read_operators_with<'a>(
    alloc: Global,
    names: Seq<OperatorName<'a>>,
    row: &'a [Piece<'a>],
) -> Result<Reading<Statement<'a>>, NoMemory>
    ensures { IfOk result (λ r. r ≡ operators_with names.entry row.now) }
{
    let Some((rank, rest)) = read_rank(alloc, row)? else {
        return Ok(Reading::NoForm);
    };
    match read_attributes(alloc, rest.pieces())? {
        Reading::Read(attributes) => Ok(Reading::Read(Statement::Operators {
            names,
            rank,
            attributes,
        })),
        Reading::LeftOut(feature) => Ok(Reading::LeftOut(feature)),
        Reading::NoForm => Ok(Reading::NoForm),
    }
}

// What follows `op`.
fn read_operator<'a>(
    alloc: Global,
    row: &'a [Piece<'a>],
) -> Result<Reading<Statement<'a>>, NoMemory>
    ensures { IfOk result (λ r. r ≡ operator_of row.now) }
{
    let Some((name, rest)) = split_colon(row) else {
        if touch(row) {
            return Ok(Reading::NoForm);
        }
        return Ok(Reading::LeftOut(Feature::Name));
    };
    if name.pieces().is_empty() {
        return Ok(Reading::NoForm);
    }
    if !touch(name.pieces()) {
        return Ok(Reading::LeftOut(Feature::Name));
    }
    read_operator_with(alloc, name, rest.pieces())
}

// The names behind `ops`, and what follows them.
fn read_operators_at<'a>(
    alloc: Global,
    names: Seq<OperatorName<'a>>,
    row: &'a [Piece<'a>],
) -> Result<Reading<Statement<'a>>, NoMemory>
    ensures { IfOk result (λ r. r ≡ operators_at names.entry row.now) }
{
    if !all_touch(names.as_slice()) {
        return Ok(Reading::LeftOut(Feature::Name));
    }
    if names.is_empty() {
        return Ok(Reading::NoForm);
    }
    match row.split_first() {
        Some((piece, rest)) if piece.is_name(b":") => read_operators_with(alloc, names, rest),
        _ => Ok(Reading::NoForm),
    }
}

// What follows `ops`.
fn read_operators<'a>(
    alloc: Global,
    row: &'a [Piece<'a>],
) -> Result<Reading<Statement<'a>>, NoMemory>
    ensures { IfOk result (λ r. r ≡ operators_of row.now) }
{
    let (names, rest) = read_all(alloc, &AnyName, row)?;
    read_operators_at(alloc, names, rest.pieces())
}

// What follows `sort`.
fn read_sorts<'a>(
    alloc: Global,
    plural: bool,
    row: &'a [Piece<'a>],
) -> Result<Reading<Statement<'a>>, NoMemory>
    ensures { IfOk result (λ r. r ≡ sorts_read plural (sort_names_of row.now)) }
{
    match read_sort_names(alloc, row)? {
        None => Ok(Reading::NoForm),
        Some(names) => Ok(Reading::Read(Statement::Sorts { plural, names })),
    }
}

// What follows `subsort`.
fn read_subsorts<'a>(
    alloc: Global,
    plural: bool,
    row: &'a [Piece<'a>],
) -> Result<Reading<Statement<'a>>, NoMemory>
    ensures { IfOk result (λ r. r ≡ groups_read plural (groups_of row.now)) }
{
    match read_groups(alloc, row)? {
        None => Ok(Reading::NoForm),
        Some(groups) => Ok(Reading::Read(Statement::Subsorts { plural, groups })),
    }
}

// What follows `var`.
fn read_vars<'a>(
    alloc: Global,
    plural: bool,
    row: &'a [Piece<'a>],
) -> Result<Reading<Statement<'a>>, NoMemory>
    ensures { IfOk result (λ r. r ≡ variables_read plural (variables_of row.now)) }
{
    match read_variables(alloc, row)? {
        None => Ok(Reading::NoForm),
        Some((names, sort)) => Ok(Reading::Read(Statement::Variables {
            plural,
            names,
            sort,
        })),
    }
}

// What follows the word that begins a statement.
fn read_behind<'a>(
    alloc: Global,
    keyword: Option<Keyword>,
    row: &'a [Piece<'a>],
) -> Result<Reading<Statement<'a>>, NoMemory>
    ensures { IfOk result (λ r. r ≡ statement_behind row.now keyword) }
{
    match keyword {
        None => Ok(Reading::NoForm),
        Some(Keyword::Sorts(plural)) => read_sorts(alloc, plural, row),
        Some(Keyword::Subsorts(plural)) => read_subsorts(alloc, plural, row),
        Some(Keyword::Operator) => read_operator(alloc, row),
        Some(Keyword::Operators) => read_operators(alloc, row),
        Some(Keyword::Equation) => read_equation(alloc, row),
        Some(Keyword::Variables(plural)) => read_vars(alloc, plural, row),
    }
}

/// What the tokens of a statement, without its dot, are: a statement that is read, a form that is left out, or no form.
/// The texts are borrowed from the tokens; it takes time linear in them.
pub fn read_statement<'a>(
    alloc: Global,
    row: &'a [Piece<'a>],
) -> Result<Reading<Statement<'a>>, NoMemory>
    ensures { IfOk result (λ r. r ≡ statement_of row.now) }
{
    let Some((piece, rest)) = row.split_first() else {
        return Ok(Reading::NoForm);
    };
    if !piece.is_word() {
        return Ok(Reading::NoForm);
    }
    if let Some(feature) = feature_of(piece.text()) {
        return Ok(Reading::LeftOut(feature));
    }
    read_behind(alloc, keyword_of(piece.text()), rest)
}
