//! Tokens, and the faults for which a text has none.

use std::alloc::AllocFailed;
use thiserror::Error;

/// What kind of token it is: one of the bytes `( ) [ ] { } ,`, the word `.` alone, or any other word.
#[derive(Clone, Copy, Debug, PartialEq, Eq)]
pub enum Class {
    Word,
    Special,
    Dot,
}

/// A token: the bytes of the text from `start` up to, but not at, `end`.
#[derive(Clone, Copy, Debug, PartialEq, Eq)]
pub struct Token {
    pub start: usize,
    pub end: usize,
    pub class: Class,
}

/// Why a text has no tokens.
///
/// `BadByte` holds the offset of a byte that may stand in comments alone, `BlockComment` the offset of the
/// first of the four bytes `---(` or `***(`. After `NoMemory` the text may have tokens: the list of them found
/// no room.
#[derive(Clone, Copy, Debug, PartialEq, Eq, Error)]
pub enum LexFault {
    #[error("the byte at offset {0} may stand in a comment alone")]
    BadByte(usize),
    #[error("a block comment begins at offset {0}: write a line comment in its place")]
    BlockComment(usize),
    #[error("memory was refused")]
    NoMemory,
}

impl<T: Drop> From<AllocFailed<T>> for LexFault {
    ghost use Rattle.std.specs.Prelude.{◌≡◌};
    ghost use Rattle.fvn_lex.specs.declared.token.LexFault.TheVariants.{NoMemory};

    ghost from_gives = { λ _ fault. fault ≡ NoMemory };

    fn from(_error: AllocFailed<T>) -> LexFault {
        LexFault::NoMemory
    }
}
