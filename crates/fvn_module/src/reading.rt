//! Reading a module.
ghost use Rattle.std.specs.Prelude.{◌≡◌, ◌⊎◌, All, IfOk, IfErr};
ghost use Rattle.fvn_lex.specs.Parts.{HasPieces};
ghost use Rattle.fvn_lex.specs.Join.{IsPiece};
ghost use Rattle.fvn_module_statements.specs.Forms.{IsFormOf, HasNoForm};
ghost use Rattle.fvn_module.specs.declared.fault.ModuleFault.TheVariants.{NoMemory as OutOfMemory};
ghost use Rattle.fvn_module.specs.ModuleText.{Declares, IsModule, IsOnlyModule, HasNoModule};
ghost use Rattle.fvn_module.specs.Refusals.{Refuses};
ghost use Rattle.fvn_module.specs.inner.Steps.{
  fault_of_cut,
  IsOnlyForm,
  IsFormRefused,
  IsWritable,
  IsSigned,
  IsFormFault,
  IsModuleOf,
  IsRowFault,
  IsModuleAlone,
  IsTextFault,
};

use crate::equations::read_equations;
use crate::fault::ModuleFault;
use crate::module::Module;
use crate::signing::{Signed, sign};
use fvn_lex::{LexFault, pieces_stand_alone};
use fvn_module_statements::{FormFault, read_form};
use fvn_module_syntax::Form;
use fvn_syntax::{Piece, cut};
use std::alloc::Global;

// The fault of a text without tokens.
fn cut_fault(fault: LexFault) -> ModuleFault
    ensures { result ≡ fault_of_cut fault }
{
    match fault {
        LexFault::BadByte(_) => ModuleFault::Lex(fault),
        LexFault::BlockComment(_) => ModuleFault::Lex(fault),
        LexFault::NoMemory => ModuleFault::NoMemory,
    }
}

// The pieces of a text.
fn cut_text<'a>(alloc: Global, bytes: &'a [u8]) -> Result<Vec<Piece<'a>>, ModuleFault>
    ensures ok { IfOk result (λ list. HasPieces bytes.now list.items) }
    ensures err { IfErr result (IsTextFault bytes.now) }
{
    match cut(alloc, bytes) {
        Ok(list) => Ok(list),
        Err(fault) => Err(cut_fault(fault)),
    }
}

// The statements of a module.
fn read_statements<'a>(alloc: Global, row: &'a [Piece<'a>]) -> Result<Form<'a>, ModuleFault>
    ensures ok { IfOk result (IsFormOf row.now) }
    ensures only { IfOk result (IsOnlyForm row.now) }
    ensures err { IfErr result (IsFormRefused row.now) }
    ensures none { IfErr result (λ fault. (fault ≡ OutOfMemory) ⊎ HasNoForm row.now) }
{
    match read_form(alloc, row) {
        Ok(form) => Ok(form),
        Err(FormFault::Header) => Err(ModuleFault::Header),
        Err(FormFault::Statement(n)) => Err(ModuleFault::Statement(n)),
        Err(FormFault::LeftOut(n, feature)) => Err(ModuleFault::LeftOut(n, feature)),
        Err(FormFault::NoMemory) => Err(ModuleFault::NoMemory),
    }
}

// The module of statements that declare a good signature.
fn read_signed(alloc: Global, form: &Form<'_>, signed: Signed) -> Result<Module, ModuleFault>
    requires writable { IsWritable form.now }
    requires signed { IsSigned form.now signed }
    ensures ok { IfOk result (Declares form.now) }
    ensures err { IfErr result (IsFormFault form.now) }
{
    signed.signature.recall_completed();
    match read_equations(alloc, &signed, form.statements.as_slice()) {
        Ok(equations) => {
            let Signed { signature, names } = signed;
            Ok(Module {
                signature,
                names,
                equations,
            })
        }
        Err(fault) => Err(fault),
    }
}

// The module of statements.
fn read_declared(alloc: Global, form: &Form<'_>) -> Result<Module, ModuleFault>
    requires { IsWritable form.now }
    ensures ok { IfOk result (Declares form.now) }
    ensures err { IfErr result (IsFormFault form.now) }
{
    match sign(alloc, form) {
        Ok(signed) => read_signed(alloc, form, signed),
        Err(fault) => Err(fault),
    }
}

// The module of pieces, which are tokens by themselves.
fn read_pieces<'a>(alloc: Global, row: &'a [Piece<'a>]) -> Result<Module, ModuleFault>
    requires { All IsPiece row.now }
    ensures ok { IfOk result (IsModuleOf row.now) }
    ensures err { IfErr result (IsRowFault row.now) }
{
    match read_statements(alloc, row) {
        Ok(form) => read_declared(alloc, &form),
        Err(fault) => Err(fault),
    }
}

// The module of a text, without what follows from its definition.
fn read_text(alloc: Global, bytes: &[u8]) -> Result<Module, ModuleFault>
    ensures ok { IfOk result (IsModuleAlone bytes.now) }
    ensures err { IfErr result (IsTextFault bytes.now) }
{
    pieces_stand_alone();
    match cut_text(alloc, bytes) {
        Ok(row) => read_pieces(alloc, row.as_slice()),
        Err(fault) => Err(fault),
    }
}

/// The module that a text is, or its first fault.
///
/// Tokens, the frame and the form of each statement, the names of statements, the signature, the number of
/// equations, and the equations one after another are tested in this order.
pub fn read_module(alloc: Global, bytes: &[u8]) -> Result<Module, ModuleFault>
    ensures ok { IfOk result (IsModule bytes.now) }
    ensures only { IfOk result (IsOnlyModule bytes.now) }
    ensures err { IfErr result (Refuses bytes.now) }
    ensures none { IfErr result (HasNoModule bytes.now) }
{
    read_text(alloc, bytes)
}
