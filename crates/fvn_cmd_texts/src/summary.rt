//! The texts of what a module declares, and of what its equations keep.
ghost use Rattle.std.specs.Prelude.{◌≡◌, ◌++◌, IfOk, OnOk, decimal};
ghost use Rattle.fvn_cmd_texts.specs.Summaries.{summary_text, sorts_text};

use crate::pieces::{numbered, push_number};
use fvn_base::NoMemory;
use fvn_module::Module;
use std::alloc::Global;

// The text goes on with these bytes and a number.
fn push_count(text: &mut Vec<u8>, head: &[u8], n: usize) -> Result<(), NoMemory>
    ensures { OnOk result (text.new.items ≡ text.old.items ++ head.now ++ decimal n) }
{
    text.extend_from_slice(head)?;
    push_number(text, n)
}

/// The text that says how much a module declares, without a line end.
pub fn summary_text(alloc: Global, declared: &Module) -> Result<Vec<u8>, NoMemory>
    ensures { IfOk result (λ text. text.items ≡ summary_text declared.now) }
{
    let names = declared.names();
    let mut text = Vec::from_slice(alloc, b"module ")?;
    text.extend_from_slice(names.module_text())?;
    push_count(&mut text, b" sorts ", names.sorts.len())?;
    push_count(&mut text, b" kinds ", declared.signature().kind_count())?;
    push_count(&mut text, b" operators ", names.ops.len())?;
    push_count(&mut text, b" equations ", declared.equations().len())?;
    Ok(text)
}

/// The text that says that each equation keeps sorts, or which is the first that loses one, without a line end.
pub fn sorts_text(alloc: Global, loss: Option<usize>) -> Result<Vec<u8>, NoMemory>
    ensures { IfOk result (λ text. text.items ≡ sorts_text loss) }
{
    match loss {
        None => Ok(Vec::from_slice(alloc, b"sorts kept")?),
        Some(number) => numbered(alloc, b"cause sorts ", number),
    }
}
