//! Cutting a module into statements, and reading them.
ghost use Rattle.std.specs.Prelude.{◌≡◌, ◌⊎◌, Ok, Err, IfOk, IfErr};
ghost use Rattle.fvn_module_statements.specs.declared.form.FormFault.TheVariants.{NoMemory as OutOfMemory};
ghost use Rattle.fvn_module_syntax.specs.declared.form.Form.{Form};
ghost use Rattle.fvn_module_statements.specs.Forms.{IsFormOf, HasNoForm, IsFirstFault};
ghost use Rattle.fvn_module_statements.specs.inner.Forms.{behind, before_end, frame_of, split_dot, body_of, form_of};
ghost use Rattle.fvn_module_syntax.specs.Words.{is_stop};

use crate::attributes::read_word;
use crate::outcome::Reading;
use crate::reading::read_statement;
use crate::words::is_text;
use fvn_base::Seq;
use fvn_module_syntax::{Feature, Form, Statement};
use fvn_syntax::{Piece, Row, Text};
use fvn_terms::NoMemory;
use std::alloc::{AllocFailed, Global};
use thiserror::Error;

/// Why tokens are no module, told of the first statement that is refused.
///
/// Statements are numbered from 1. After `NoMemory` the tokens may be a module: there was no room for it.
#[derive(Clone, Copy, Debug, PartialEq, Eq, Error)]
pub enum FormFault {
    #[error("the text does not begin with `fmod NAME is`, or `endfm` is not its last token alone")]
    Header,
    #[error("statement {0} is of no form, or no dot follows it")]
    Statement(usize),
    #[error("statement {0} has a form of Maude that is left out here: {1:?}")]
    LeftOut(usize, Feature),
    #[error("out of memory")]
    NoMemory,
}

impl<T: Drop> From<AllocFailed<T>> for FormFault {
    ghost from_gives = { λ _ fault. fault ≡ OutOfMemory };

    fn from(_error: AllocFailed<T>) -> FormFault {
        FormFault::NoMemory
    }
}

impl From<NoMemory> for FormFault {
    ghost from_gives = { λ _ fault. fault ≡ OutOfMemory };

    fn from(_error: NoMemory) -> FormFault {
        FormFault::NoMemory
    }
}

// What stands behind a first word of this text.
fn behind<'a>(row: &'a [Piece<'a>], text: &[u8]) -> Option<Row<'a>>
    ensures { result ≡ behind text.now row.now }
{
    let Some((first, rest)) = row.split_first() else {
        return None;
    };
    if first.is_name(text) {
        Some(Row::new(rest))
    } else {
        None
    }
}

// What stands before the first `endfm`, which is the last token.
fn before_end<'a>(row: &'a [Piece<'a>]) -> Option<Row<'a>>
    ensures { result ≡ before_end row.now }
{
    for (i, piece) in row.iter().enumerate() {
        if piece.is_name(b"endfm") {
            if row[i + 1..].is_empty() {
                return Some(Row::new(&row[..i]));
            }
            return None;
        }
    }
    None
}

// The name of a module, and what stands between `is` and `endfm`.
fn read_frame<'a>(row: &'a [Piece<'a>]) -> Option<(Text<'a>, Row<'a>)>
    ensures { result ≡ frame_of row.now }
{
    let Some(rest) = behind(row, b"fmod") else {
        return None;
    };
    let Some((name, rest)) = read_word(rest.pieces()) else {
        return None;
    };
    let Some(rest) = behind(rest.pieces(), b"is") else {
        return None;
    };
    let Some(body) = before_end(rest.pieces()) else {
        return None;
    };
    if is_text(name.bytes(), b"endfm") {
        None
    } else {
        Some((name, body))
    }
}

// Whether the token is a dot that ends a statement.
fn is_stop(piece: &Piece<'_>) -> bool
    ensures { result ≡ is_stop piece.now }
{
    piece.is_dot() && is_text(piece.text(), b".")
}

// What stands before and behind the first dot.
fn split_dot<'a>(row: &'a [Piece<'a>]) -> Option<(Row<'a>, Row<'a>)>
    ensures { result ≡ split_dot row.now }
{
    for (i, piece) in row.iter().enumerate() {
        if is_stop(piece) {
            return Some((Row::new(&row[..i]), Row::new(&row[i + 1..])));
        }
    }
    None
}

// The statements of a module.
fn read_body<'a>(alloc: Global, row: &'a [Piece<'a>]) -> Result<Seq<Statement<'a>>, FormFault>
    ensures ok { IfOk result (λ statements. body_of row.now ≡ Ok statements) }
    ensures err { IfErr result (λ fault. (fault ≡ OutOfMemory) ⊎ (body_of row.now ≡ Err fault)) }
{
    let mut list = Vec::new(alloc);
    let mut rest = Row::new(row);
    for (i, _piece) in row.iter().enumerate() {
        let Some((statement, after)) = split_dot(rest.pieces()) else {
            if rest.pieces().is_empty() {
                return Ok(Seq::from_vec(list));
            }
            return Err(FormFault::Statement(i + 1));
        };
        match read_statement(alloc, statement.pieces())? {
            Reading::Read(statement) => {
                list.push(statement)?;
                rest = after;
            }
            Reading::LeftOut(feature) => return Err(FormFault::LeftOut(i + 1, feature)),
            Reading::NoForm => return Err(FormFault::Statement(i + 1)),
        }
    }
    Ok(Seq::from_vec(list))
}

// The form of the tokens, or the first fault of its frame or its statements.
fn form_of<'a>(alloc: Global, row: &'a [Piece<'a>]) -> Result<Form<'a>, FormFault>
    ensures ok { IfOk result (λ form. form_of row.now ≡ Ok form) }
    ensures err { IfErr result (λ fault. (fault ≡ OutOfMemory) ⊎ (form_of row.now ≡ Err fault)) }
{
    let Some((name, body)) = read_frame(row) else {
        return Err(FormFault::Header);
    };
    let statements = read_body(alloc, body.pieces())?;
    Ok(Form { name, statements })
}

/// The module that tokens are; else their first fault.
///
/// Statements are told in their order. In each of them, a form of Maude that is left out is told where the
/// reading comes to it; else the statement has no form.
pub fn read_form<'a>(alloc: Global, row: &'a [Piece<'a>]) -> Result<Form<'a>, FormFault>
    ensures ok { IfOk result (IsFormOf row.now) }
    ensures only { IfOk result (λ form. (other : Form) → IsFormOf row.now other → other ≡ form) }
    ensures first { IfErr result (λ fault. (fault ≡ OutOfMemory) ⊎ IsFirstFault row.now fault) }
    ensures none { IfErr result (λ fault. (fault ≡ OutOfMemory) ⊎ HasNoForm row.now) }
{
    form_of(alloc, row)
}
