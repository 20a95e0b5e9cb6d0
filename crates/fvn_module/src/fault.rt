//! Why a module is refused.
ghost use Rattle.std.specs.Prelude.{◌≡◌};
ghost use Rattle.fvn_module.specs.declared.fault.ModuleFault.TheVariants.{NoMemory as OutOfMemory};

use fvn_base::{NoMemory, Seq};
use fvn_lex::LexFault;
use fvn_module_syntax::Feature;
use fvn_sorts::SigFault;
use fvn_syntax::Names;
use fvn_terms::SortId;
use std::alloc::AllocFailed;
use thiserror::Error;

/// A statement or an equation, by its number from 1. Equations are numbered among equations.
#[derive(Clone, Copy, Debug, PartialEq, Eq)]
pub enum Place {
    Statement(usize),
    Equation(usize),
}

/// The first fault of a module's text. Statements are numbered from 1, and so are equations among equations.
///
/// A fault of the signature is told with the names of sorts and operators, and with the sort after which each kind
/// is named, in the order of kinds; where there is too much of something, without these sorts. After `NoMemory` the
/// text may be a module: there was no room for it.
#[derive(Debug, Error)]
pub enum ModuleFault {
    #[error("the text has no tokens: {0}")]
    Lex(LexFault),
    #[error("the text does not begin with `fmod NAME is`, or `endfm` is not its last token alone")]
    Header,
    #[error("statement {0} is of no form, or no dot follows it")]
    Statement(usize),
    #[error("statement {0} names what is not declared (for `ditto`: before it), or has sorts of two kinds in one bracket")]
    UnknownName(usize),
    #[error("statement {0} declares a name that is declared otherwise before it, or a constant whose name reads as a variable")]
    Twice(usize),
    #[error("in statement {0} an operator has another number of arguments than declared")]
    Arity(usize),
    #[error("in statement {0} an argument or a side is of another kind than is wanted")]
    WrongKind(usize),
    #[error("statement {0} has a form of Maude that is left out here: {1:?}")]
    LeftOut(usize, Feature),
    #[error("the signature is refused: {0}")]
    Signature(SigFault, Names, Seq<SortId>),
    #[error("a left side of equation {0} becomes a variable")]
    VariableLeft(usize),
    #[error("the right side of equation {0} has a variable that its left side has not")]
    ExtraVariable(usize),
    #[error("a left side of equation {0} becomes an identity")]
    IdentityLeft(usize),
    #[error("there are too many equations or symbols: {0:?}")]
    TooMany(Place),
    #[error("the text has too many bytes")]
    TooLong,
    #[error("out of memory")]
    NoMemory,
}

impl Drop for ModuleFault {
    fn drop(self) {
        match self {
            ModuleFault::Lex(_) => {}
            ModuleFault::Header => {}
            ModuleFault::Statement(_) => {}
            ModuleFault::UnknownName(_) => {}
            ModuleFault::Twice(_) => {}
            ModuleFault::Arity(_) => {}
            ModuleFault::WrongKind(_) => {}
            ModuleFault::LeftOut(_, _) => {}
            ModuleFault::Signature(_, _, _) => {}
            ModuleFault::VariableLeft(_) => {}
            ModuleFault::ExtraVariable(_) => {}
            ModuleFault::IdentityLeft(_) => {}
            ModuleFault::TooMany(_) => {}
            ModuleFault::TooLong => {}
            ModuleFault::NoMemory => {}
        }
    }
}

impl From<NoMemory> for ModuleFault {
    ghost from_gives = { λ _ fault. fault ≡ OutOfMemory };

    fn from(_error: NoMemory) -> ModuleFault {
        ModuleFault::NoMemory
    }
}

impl<T: Drop> From<AllocFailed<T>> for ModuleFault {
    ghost from_gives = { λ _ fault. fault ≡ OutOfMemory };

    fn from(_error: AllocFailed<T>) -> ModuleFault {
        ModuleFault::NoMemory
    }
}
