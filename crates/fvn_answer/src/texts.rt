//! The texts of variables and terms.
ghost use Rattle.std.specs.Prelude.{◌≡◌, ◌<◌, ◌++◌, Some, None, false, IfOk, OnOk};
ghost use Rattle.fvn_lex.specs.Parts.{is_quoted_after};
ghost use Rattle.fvn_terms.specs.Signature.{IsSort};
ghost use Rattle.fvn_signature.specs.Queries.{IsKind};
ghost use Rattle.fvn_flat.specs.Forms.{variable_of, head_of};
ghost use Rattle.fvn_answer.specs.Numberings.{number, new_name};
ghost use Rattle.fvn_answer.specs.inner.Readable.{AreReadable};
ghost use Rattle.fvn_answer.specs.Writing.{text_of, top, sorted, written, bytes_of};
ghost use Rattle.fvn_answer.specs.inner.Bytes.{beside, over_texts, arranged_texts, IsPrintable};

use fvn_flat::Flat;
use fvn_signature::{Signature, direct_subsorts_cover, direct_subsorts_of_kinds};
use fvn_syntax::Names;
use fvn_terms::{Axioms, NoMemory, OpId, SortId, Var};
use itoa::Buffer;
use std::alloc::Global;

// Whether the last byte is a backquote.
fn is_quoted(text: &[u8]) -> bool
    ensures { result ≡ is_quoted_after false text.now }
{
    if text.is_empty() {
        return false;
    }
    text[text.len() - 1] == b'`'
}

/// The text goes on with a special byte; after a backquote one space stands between.
pub(crate) fn push_special(text: &mut Vec<u8>, special: u8) -> Result<(), NoMemory>
    ensures { OnOk result (text.new.items ≡ beside text.old.items special) }
{
    if is_quoted(text.as_slice()) {
        text.push(b' ')?;
    }
    text.push(special)?;
    Ok(())
}

// The sort after which a kind is named.
fn top(signature: &Signature, kind: SortId) -> SortId
    requires { IsKind signature.now kind }
    ensures exact { result ≡ top signature.now kind }
    ensures declared { result.0 < signature.now.sorts }
{
    signature.recall_good();
    signature.recall_completed();
    direct_subsorts_cover();
    direct_subsorts_of_kinds();
    signature.direct_subsort(kind, 0)
}

/// The text goes on with a variable of this name and sort.
pub(crate) fn push_sorted(
    signature: &Signature,
    names: &Names,
    text: &mut Vec<u8>,
    name: &[u8],
    s: SortId,
) -> Result<(), NoMemory>
    requires names { AreReadable signature.now names.now }
    requires sort { IsSort signature.now s }
    ensures { OnOk result (text.new.items ≡
        text.old.items ++ text_of (sorted signature.now names.now name.now s)) }
{
    text.extend_from_slice(name)?;
    text.push(b':')?;
    if s.0 < signature.declarations().sorts {
        text.extend_from_slice(names.sort_text(s))?;
        return Ok(());
    }
    let named = top(signature, s);
    text.push(b'[')?;
    text.extend_from_slice(names.sort_text(named))?;
    push_special(text, b']')?;
    Ok(())
}

/// The number of a variable, counted from 1.
pub(crate) fn number(order: &[Var], x: Var) -> usize
    ensures { result ≡ number order.now x }
{
    let mut n: usize = 1;
    for y in order {
        if *y == x {
            return n;
        }
        n += 1;
    }
    0
}

/// The text goes on with a new variable.
pub(crate) fn push_new(
    signature: &Signature,
    names: &Names,
    order: &[Var],
    text: &mut Vec<u8>,
    x: Var,
) -> Result<(), NoMemory>
    requires names { AreReadable signature.now names.now }
    requires sort { IsSort signature.now x.sort }
    ensures { OnOk result (text.new.items ≡
        text.old.items ++ text_of (sorted signature.now names.now (new_name order.now x) x.sort)) }
{
    let mut buffer = Buffer::new();
    text.push(b'#')?;
    text.extend_from_slice(buffer.format(number(order, x)).as_bytes())?;
    push_sorted(signature, names, text, &[], x.sort)?;
    Ok(())
}

/// The texts of an operator's arguments, in byte order where they may be exchanged.
pub(crate) fn arrange(axioms: Axioms, texts: &mut Vec<Vec<u8>>) -> Result<(), NoMemory>
    ensures { OnOk result
        (bytes_of texts.new.items ≡ arranged_texts axioms (bytes_of texts.old.items)) }
{
    if axioms.is_commutative() {
        texts.sort()?;
    }
    Ok(())
}

// The bytes of a name over texts, or a few more.
fn room(name: &[u8], texts: &[Vec<u8>]) -> usize {
    let mut bytes = name.len().saturating_add(2);
    for t in texts {
        bytes = bytes.saturating_add(t.len()).saturating_add(1);
    }
    bytes
}

/// A name, and in parentheses the texts of arguments where there are any.
pub(crate) fn over(alloc: Global, name: &[u8], texts: &[Vec<u8>]) -> Result<Vec<u8>, NoMemory>
    ensures { IfOk result (λ text. text.items ≡ over_texts name.now (bytes_of texts.now)) }
{
    let mut text = Vec::with_capacity(alloc, room(name, texts))?;
    text.extend_from_slice(name)?;
    if texts.is_empty() {
        return Ok(text);
    }
    let mut before = b'(';
    for t in texts {
        push_special(&mut text, before)?;
        text.extend_from_slice(t.as_slice())?;
        before = b',';
    }
    push_special(&mut text, b')')?;
    Ok(text)
}

/// The operator of a term that is no variable.
pub(crate) fn operator(t: &Flat) -> OpId
    requires { variable_of t.now ≡ None }
    ensures { head_of t.now ≡ Some result }
{
    match t.head() {
        Some(f) => f,
        None => OpId(0),
    }
}

// How many arguments a term has.
fn arity(t: &Flat) -> usize {
    t.args().len()
}

/// The text of a term.
pub(crate) fn term_text(
    alloc: Global,
    signature: &Signature,
    names: &Names,
    order: &[Var],
    t: &Flat,
) -> Result<Vec<u8>, NoMemory>
    requires names { AreReadable signature.now names.now }
    requires term { IsPrintable signature.now t.now }
    ensures { IfOk result (λ text.
        text.items ≡ text_of (written signature.now names.now order.now t.now)) }
{
    match t.as_var() {
        Some(x) => {
            let mut text = Vec::new(alloc);
            push_new(signature, names, order, &mut text, x)?;
            Ok(text)
        }
        None => {
            let f = operator(t);
            let mut texts = Vec::with_capacity(alloc, arity(t))?;
            for u in t.args() {
                let text = term_text(alloc, signature, names, order, u)?;
                texts.push(text)?;
            }
            arrange(signature.axioms(f), &mut texts)?;
            let text = over(alloc, names.op_text(f), texts.as_slice())?;
            Ok(text)
        }
    }
}
