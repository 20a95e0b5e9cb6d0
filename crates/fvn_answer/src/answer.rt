//! Answer texts.
ghost use Rattle.std.specs.Prelude.{◌≡◌, ◌<◌, ◌++◌, ◌∷◌, [], length, codes, IfOk, OnOk};
ghost use Rattle.fvn_flat.specs.Fits.{Fits};
ghost use Rattle.fvn_answer.specs.inner.Readable.{AreReadable};
ghost use Rattle.fvn_answer.specs.Writing.{op_text, bytes_of};
ghost use Rattle.fvn_answer.specs.Answers.{numbered, ended, FitsEnd, IsStepsLine, IsEndLine, AreInByteOrder, IsAnswerText};

use crate::end::End;
use crate::printed::Printed;
use crate::search::numbered_text;
use fvn_flat::Flat;
use fvn_module::Module;
use fvn_signature::Signature;
use fvn_syntax::{Names, Texts, VarNames};
use fvn_terms::{NoMemory, OpId};
use itoa::Buffer;
use std::alloc::Global;

/// A line, as its bytes.
pub type Line = Vec<u8>;

// Words and a number behind them.
fn numbered(alloc: Global, words: &[u8], n: u64) -> Result<Vec<u8>, NoMemory>
    ensures { IfOk result (λ line. line.items ≡ numbered words.now n) }
{
    let mut buffer = Buffer::new();
    let mut line = Vec::from_slice(alloc, words)?;
    line.extend_from_slice(buffer.format(n).as_bytes())?;
    Ok(line)
}

// The line of a bound of steps: its number and its term.
fn steps_line(
    alloc: Global,
    signature: &Signature,
    names: &Names,
    n: u64,
    t: &Flat,
) -> Result<Vec<u8>, NoMemory>
    requires names { AreReadable signature.now names.now }
    requires term { Fits signature.now t.now }
    ensures { IfOk result (λ line. IsStepsLine signature.now names.now n t.now line.items) }
{
    let nameless = VarNames {
        texts: Texts::new(alloc),
    };
    let mut line = numbered(alloc, b"bound steps ", n)?;
    let term = numbered_text(alloc, signature, names, &nameless, &Printed::Alone(t))?;
    line.push(b' ')?;
    line.extend_from_slice(term.as_slice())?;
    Ok(line)
}

// The line of a bound of a basis: the operator's name.
fn basis_line(
    alloc: Global,
    signature: &Signature,
    names: &Names,
    f: OpId,
) -> Result<Vec<u8>, NoMemory>
    requires names { AreReadable signature.now names.now }
    requires operator { f.0 < length signature.now.ops }
    ensures { IfOk result (λ line.
        line.items ≡ codes "bound basis " ++ op_text signature.now names.now f) }
{
    let _signature = signature;
    let mut line = Vec::from_slice(alloc, b"bound basis ")?;
    line.extend_from_slice(names.op_text(f))?;
    Ok(line)
}

// The line of an end.
fn end_line(
    alloc: Global,
    signature: &Signature,
    names: &Names,
    end: &End,
) -> Result<Vec<u8>, NoMemory>
    requires names { AreReadable signature.now names.now }
    requires end { FitsEnd signature.now end.now }
    ensures { IfOk result (λ line. IsEndLine signature.now names.now end.now line.items) }
{
    match end {
        End::Complete(n) => numbered(alloc, b"complete ", *n as u64),
        End::Levels(n) => numbered(alloc, b"bound levels ", u64::from(*n)),
        End::Variants(n) => numbered(alloc, b"bound variants ", u64::from(*n)),
        End::Steps(n, t) => steps_line(alloc, signature, names, *n, t),
        End::Size(n) => numbered(alloc, b"bound size ", *n),
        End::Basis(f) => basis_line(alloc, signature, names, *f),
        End::Unifiers(n) => numbered(alloc, b"bound unifiers ", u64::from(*n)),
        End::Sorts(n) => numbered(alloc, b"cause sorts ", *n as u64),
    }
}

// The lines in byte order, each once.
fn in_order(lines: Vec<Line>) -> Result<Vec<Line>, NoMemory>
    ensures { IfOk result (λ sorted.
        AreInByteOrder (bytes_of lines.items) (bytes_of sorted.items)) }
{
    let mut sorted = lines;
    sorted.sort()?;
    sorted.dedup();
    Ok(sorted)
}

// The bytes of lines and of a last one, each with its line feed.
fn room(lines: &[Line], last: usize) -> usize {
    let mut bytes = last.saturating_add(1);
    for line in lines {
        bytes = bytes.saturating_add(line.len()).saturating_add(1);
    }
    bytes
}

// The text goes on with a line.
fn push_line(text: &mut Vec<u8>, line: &[u8]) -> Result<(), NoMemory>
    ensures { OnOk result (text.new.items ≡ text.old.items ++ ended (line.now ∷ [])) }
{
    text.extend_from_slice(line)?;
    text.push(b'\n')?;
    Ok(())
}

// The text goes on with lines.
fn push_lines(text: &mut Vec<u8>, lines: &[Line]) -> Result<(), NoMemory>
    ensures { OnOk result (text.new.items ≡ text.old.items ++ ended (bytes_of lines.now)) }
{
    for line in lines {
        push_line(text, line.as_slice())?;
    }
    Ok(())
}

/// The text of an answer: its lines in byte order, each once, and then the line of its end.
pub fn answer_text(
    alloc: Global,
    declared: &Module,
    lines: Vec<Line>,
    end: &End,
) -> Result<Vec<u8>, NoMemory>
    requires end { FitsEnd declared.now.signature end.now }
    ensures { IfOk result (λ text. IsAnswerText declared.now.signature declared.now.names
        (bytes_of lines.items) end.now text.items) }
{
    declared.recall_readable();
    let sorted = in_order(lines)?;
    let last = end_line(alloc, declared.signature(), declared.names(), end)?;
    let mut text = Vec::with_capacity(alloc, room(sorted.as_slice(), last.len()))?;
    push_lines(&mut text, sorted.as_slice())?;
    push_line(&mut text, last.as_slice())?;
    Ok(text)
}
