//! The text of each refusal of a module.
ghost use Rattle.std.specs.Prelude.{◌≡◌, Some, IfOk};
ghost use Rattle.fvn_cmd_texts.specs.Refusals.{feature_word, signature_text, refusal_text};

use crate::pieces::{numbered, push_word};
use crate::signatures::{number, push_told};
use fvn_base::NoMemory;
use fvn_lex::LexFault;
use fvn_module::{ModuleFault, Place};
use fvn_module_syntax::Feature;
use fvn_sorts::SigFault;
use fvn_syntax::Names;
use fvn_terms::SortId;
use std::alloc::Global;

// The word for a form that is left out.
fn feature_word(feature: Feature) -> &'static [u8]
    ensures { result.now ≡ feature_word feature }
{
    match feature {
        Feature::Import => b"import",
        Feature::Membership => b"membership",
        Feature::Condition => b"condition",
        Feature::Rule => b"rule",
        Feature::Name => b"name",
        Feature::Assoc => b"assoc",
        Feature::Identity => b"identity",
        Feature::Attribute => b"attribute",
        Feature::Equation => b"equation",
    }
}

// The refusal of a text that has no tokens.
fn lex_text(alloc: Global, fault: LexFault) -> Result<Vec<u8>, NoMemory>
    ensures { IfOk result (λ text. refusal_text (ModuleFault.Lex fault) ≡ Some text.items) }
{
    match fault {
        LexFault::BadByte(n) => numbered(alloc, b"module 1 byte ", n),
        LexFault::BlockComment(n) => numbered(alloc, b"module 1 byte ", n),
        LexFault::NoMemory => Err(NoMemory),
    }
}

// The refusal of a form that is left out.
fn left_out_text(alloc: Global, n: usize, feature: Feature) -> Result<Vec<u8>, NoMemory>
    ensures { IfOk result (λ text. refusal_text (ModuleFault.LeftOut n feature) ≡ Some text.items) }
{
    let mut text = numbered(alloc, b"module 8 statement ", n)?;
    push_word(&mut text, feature_word(feature))?;
    Ok(text)
}

// The refusal of a signature.
fn signature_text(
    alloc: Global,
    fault: &SigFault,
    names: &Names,
    tops: &[SortId],
) -> Result<Vec<u8>, NoMemory>
    ensures { IfOk result (λ text.
        signature_text names.now tops.now fault.now ≡ Some text.items) }
{
    let Some(k) = number(fault) else {
        return Err(NoMemory);
    };
    let mut text = numbered(alloc, b"module 9.", usize::from(k))?;
    push_told(&mut text, fault, names, tops)?;
    Ok(text)
}

/// The text of a module's refusal, without a line end.
pub fn refusal_text(alloc: Global, fault: &ModuleFault) -> Result<Vec<u8>, NoMemory>
    ensures { IfOk result (λ text. refusal_text fault.now ≡ Some text.items) }
{
    match fault {
        ModuleFault::Lex(fault) => lex_text(alloc, *fault),
        ModuleFault::Header => Ok(Vec::from_slice(alloc, b"module 2")?),
        ModuleFault::Statement(n) => numbered(alloc, b"module 3 statement ", *n),
        ModuleFault::UnknownName(n) => numbered(alloc, b"module 4 statement ", *n),
        ModuleFault::Twice(n) => numbered(alloc, b"module 5 statement ", *n),
        ModuleFault::Arity(n) => numbered(alloc, b"module 6 statement ", *n),
        ModuleFault::WrongKind(n) => numbered(alloc, b"module 7 statement ", *n),
        ModuleFault::LeftOut(n, feature) => left_out_text(alloc, *n, *feature),
        ModuleFault::Signature(fault, names, tops) => {
            signature_text(alloc, fault, names, tops.as_slice())
        }
        ModuleFault::VariableLeft(k) => numbered(alloc, b"module 10 equation ", *k),
        ModuleFault::ExtraVariable(k) => numbered(alloc, b"module 11 equation ", *k),
        ModuleFault::IdentityLeft(k) => numbered(alloc, b"module 12 equation ", *k),
        ModuleFault::TooMany(Place::Statement(n)) => numbered(alloc, b"module 13 statement ", *n),
        ModuleFault::TooMany(Place::Equation(k)) => numbered(alloc, b"module 13 equation ", *k),
        ModuleFault::TooLong => Ok(Vec::from_slice(alloc, b"module 14")?),
        ModuleFault::NoMemory => Err(NoMemory),
    }
}
