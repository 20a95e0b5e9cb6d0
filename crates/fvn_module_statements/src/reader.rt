//! Reading as many things as stand one after another.
ghost use Rattle.std.specs.Prelude.{◌≡◌, [], IfOk};
ghost use Rattle.fvn_module_statements.specs.inner.Gather.{gather};

use fvn_base::Seq;
use fvn_syntax::{Piece, Row};
use fvn_terms::NoMemory;
use std::alloc::Global;

/// What reads one thing at the beginning of some tokens, where it stands there, and tells what follows it.
pub trait Reader<'a, T> {
    ghost use Rattle.std.specs.Prelude.{List, Option};
    ghost use Rattle.fvn_lex.specs.Cut.{Piece as LexPiece};

    ghost reads: { List LexPiece → Option (T × List LexPiece) };

    fn read(&self, alloc: Global, row: &'a [Piece<'a>]) -> Result<Option<(T, Row<'a>)>, NoMemory>
        ensures { IfOk result (λ r. r ≡ reads row.now) };
}

/// All things that are read, one after another, and what is left.
pub fn read_all<'a, T: Drop, R: Reader<'a, T>>(
    alloc: Global,
    reader: &R,
    row: &'a [Piece<'a>],
) -> Result<(Seq<T>, Row<'a>), NoMemory>
    ensures { IfOk result (λ r. r ≡ gather R.reads row.now [] row.now) }
{
    let mut list = Vec::new(alloc);
    let mut rest = Row::new(row);
    for _piece in row {
        match reader.read(alloc, rest.pieces())? {
            None => return Ok((Seq::from_vec(list), rest)),
            Some((item, after)) => {
                list.push(item)?;
                rest = after;
            }
        }
    }
    Ok((Seq::from_vec(list), rest))
}
