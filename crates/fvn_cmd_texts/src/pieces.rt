//! Numbers and names in a text.
ghost use Rattle.std.specs.Prelude.{◌≡◌, ◌++◌, ◌∷◌, [], IfOk, OnOk, decimal};
ghost use Rattle.fvn_cmd_texts.specs.Refusals.{name_at};

use fvn_base::NoMemory;
use fvn_syntax::Texts;
use itoa::Buffer;
use std::alloc::Global;

/// The text goes on with a number.
pub(crate) fn push_number(text: &mut Vec<u8>, n: usize) -> Result<(), NoMemory>
    ensures { OnOk result (text.new.items ≡ text.old.items ++ decimal n) }
{
    let mut buffer = Buffer::new();
    text.extend_from_slice(buffer.format(n).as_bytes())?;
    Ok(())
}

/// These bytes, and then a number.
pub(crate) fn numbered(alloc: Global, head: &[u8], n: usize) -> Result<Vec<u8>, NoMemory>
    ensures { IfOk result (λ text. text.items ≡ head.now ++ decimal n) }
{
    let mut text = Vec::from_slice(alloc, head)?;
    push_number(&mut text, n)?;
    Ok(text)
}

/// The name at a place, or the empty one.
pub(crate) fn name_at(names: &Texts, place: usize) -> &[u8]
    ensures { result.now ≡ name_at names.now place }
{
    if place < names.len() {
        names.text(place)
    } else {
        &[]
    }
}

/// The text goes on with a space and a word.
pub(crate) fn push_word(text: &mut Vec<u8>, word: &[u8]) -> Result<(), NoMemory>
    ensures { OnOk result (text.new.items ≡ text.old.items ++ (32 ∷ word.now)) }
{
    text.push(b' ')?;
    text.extend_from_slice(word)?;
    Ok(())
}
