//! Fronts: what is known of a text under all numberings that begin alike.
ghost use Rattle.std.specs.Prelude.{◌≡◌, ◌++◌, ◌∷◌, ◌⊎◌, ◌&&◌, ℕ, Bool, List, [], true, false, decimal, IfOk, OnOk};
ghost use Rattle.fvn_terms.specs.declared.plain.Var.{Var};
ghost use Rattle.fvn_terms.specs.Signature.{IsSort};
ghost use Rattle.fvn_syntax.specs.Pieces.{Text};
ghost use Rattle.fvn_answer.specs.Numberings.{new_name};
ghost use Rattle.fvn_answer.specs.Writing.{is_after, text_of, sorted, written, bytes_of};
ghost use Rattle.fvn_answer.specs.inner.Readable.{AreReadable};
ghost use Rattle.fvn_answer.specs.inner.Bytes.{with_each, over_texts, IsPrintable};
ghost use Rattle.fvn_answer.specs.inner.Fronts.{AtLeast, Agrees, HasTips, IsFrontOf, AreGathered, arranged_if, upto};

use crate::texts::{arrange, number, operator, over, push_new, push_special};
use fvn_flat::Flat;
use fvn_signature::Signature;
use fvn_syntax::Names;
use fvn_terms::{NoMemory, Var};
use itoa::Buffer;
use std::alloc::Global;

/// How far a numbering is fixed: the first `known` variables of the order have its numbers.
#[derive(Drop)]
pub(crate) struct Fixed<'a> {
    pub(crate) order: &'a [Var],
    pub(crate) known: usize,
}

/// The whole text, or where there are tips two texts.
///
/// The first ends at the number of a tip, a variable whose number is not known, and the text does
/// not stand before it. Where none of the tips has the next number, the text does not stand before
/// the later one.
#[derive(Drop)]
pub(crate) struct Front {
    pub(crate) text: Vec<u8>,
    pub(crate) later: Vec<u8>,
    pub(crate) tips: Vec<Var>,
}

// `#` and a number.
fn numbered(alloc: Global, n: usize) -> Result<Vec<u8>, NoMemory>
    ensures { IfOk result (λ text. text.items ≡ 35 ∷ decimal n) }
{
    let mut buffer = Buffer::new();
    let mut text = Vec::new(alloc);
    text.push(b'#')?;
    text.extend_from_slice(buffer.format(n).as_bytes())?;
    Ok(text)
}

// A new variable's text, where its number is not known: up to the least number that it can have,
// and up to the least one but the next.
fn open_front(alloc: Global, least: usize, later: usize, x: Var) -> Result<Front, NoMemory>
    ensures tips { IfOk result (λ f. f.tips.items ≡ x ∷ []) }
    ensures text { IfOk result (λ f. f.text.items ≡ 35 ∷ decimal least) }
    ensures later { IfOk result (λ f. f.later.items ≡ 35 ∷ decimal later) }
{
    let text = numbered(alloc, least)?;
    let later = numbered(alloc, later)?;
    let mut tips = Vec::new(alloc);
    tips.push(x)?;
    Ok(Front { text, later, tips })
}

/// The front of a text that is known to its end.
pub(crate) fn closed(alloc: Global, text: Vec<u8>) -> Front
    ensures tips { result.tips.items ≡ [] }
    ensures text { result.text ≡ text }
    ensures later { result.later.items ≡ [] }
{
    Front {
        text,
        later: Vec::new(alloc),
        tips: Vec::new(alloc),
    }
}

/// The front of a new variable's text.
pub(crate) fn new_front(
    alloc: Global,
    signature: &Signature,
    names: &Names,
    fixed: &Fixed<'_>,
    x: Var,
) -> Result<Front, NoMemory>
    requires names { AreReadable signature.now names.now }
    requires sort { IsSort signature.now x.sort }
    ensures { IfOk result (λ f. (other : List Var) → Agrees fixed.now other →
        IsFrontOf fixed.now.known other f
        (text_of (sorted signature.now names.now (new_name other x) x.sort))) }
{
    let n = number(fixed.order, x);
    if n == 0 {
        let front = open_front(alloc, 0, 0, x)?;
        return Ok(front);
    }
    if fixed.known < n {
        let least = fixed.known.saturating_add(1);
        let later = fixed.known.saturating_add(2);
        let front = open_front(alloc, least, later, x)?;
        return Ok(front);
    }
    let mut text = Vec::new(alloc);
    push_new(signature, names, fixed.order, &mut text, x)?;
    Ok(closed(alloc, text))
}

// The first of two texts.
fn lesser(v: Vec<u8>, w: Vec<u8>) -> Vec<u8>
    ensures first { AtLeast result.items v.items }
    ensures second { AtLeast result.items w.items }
{
    if v.cmp(&w).is_lt() { v } else { w }
}

// The least of two fronts that have tips. Where they are one text, both have its tips.
fn merged(least: Front, front: Front) -> Result<Front, NoMemory>
    ensures { IfOk result (λ l. (known : ℕ) (other : List Var) (whole all : List Text) (w : Text) →
        HasTips least → HasTips front → AreGathered known other true whole least all →
        IsFrontOf known other front w → AreGathered known other true whole l (all ++ w ∷ [])) }
{
    if front.text.cmp(&least.text).is_lt() {
        let later_front = lesser(front.later, least.text);
        return Ok(Front {
            text: front.text,
            later: later_front,
            tips: front.tips,
        });
    }
    if least.text.cmp(&front.text).is_lt() {
        let later_least = lesser(least.later, front.text);
        return Ok(Front {
            text: least.text,
            later: later_least,
            tips: least.tips,
        });
    }
    let mut tips = least.tips;
    tips.extend_from_slice(front.tips.as_slice())?;
    let later = lesser(least.later, front.later);
    Ok(Front {
        text: least.text,
        later,
        tips,
    })
}

// One more argument: its text, where that is known to its end, or else the least front.
fn gather(texts: &mut Vec<Vec<u8>>, least: Front, front: Front) -> Result<Front, NoMemory>
    ensures { IfOk result (λ l. (known : ℕ) (other : List Var) (exchange : Bool)
        (all : List Text) (w : Text) → (exchange ≡ true) ⊎ (least.tips.items ≡ []) →
        AreGathered known other exchange (bytes_of texts.old.items) least all →
        IsFrontOf known other front w →
        AreGathered known other exchange (bytes_of texts.new.items) l (all ++ w ∷ [])) }
{
    if front.tips.is_empty() {
        texts.push(front.text)?;
        return Ok(least);
    }
    if least.tips.is_empty() {
        return Ok(front);
    }
    let both = merged(least, front)?;
    Ok(both)
}

// Whether arguments may be exchanged and the text stands after the least front.
fn stands_later(exchange: bool, t: &[u8], least: &[u8]) -> bool
    ensures { result ≡ (exchange && is_after t.now least.now) }
{
    if !exchange {
        return false;
    }
    t.cmp(least).is_gt()
}

// The text goes on with the least front as its last argument.
fn push_least(text: &mut Vec<u8>, before: u8, least: &[u8]) -> Result<(), NoMemory>
    ensures { OnOk result (text.new.items ≡ with_each before text.old.items (least.now ∷ [])) }
{
    push_special(text, before)?;
    text.extend_from_slice(least)?;
    Ok(())
}

// A name and the texts of the first arguments, up to the least front.
fn over_least(
    alloc: Global,
    name: &[u8],
    exchange: bool,
    texts: &[Vec<u8>],
    least: &[u8],
) -> Result<Vec<u8>, NoMemory>
    ensures { IfOk result (λ text. text.items ≡
        with_each 40 name.now (upto exchange least.now (bytes_of texts.now) ++ least.now ∷ [])) }
{
    let mut text = Vec::from_slice(alloc, name)?;
    let mut before = b'(';
    for t in texts {
        if stands_later(exchange, t.as_slice(), least) {
            push_least(&mut text, before, least)?;
            return Ok(text);
        }
        push_special(&mut text, before)?;
        text.extend_from_slice(t.as_slice())?;
        before = b',';
    }
    push_least(&mut text, before, least)?;
    Ok(text)
}

// The front of a name over arguments: the texts of some, and the least front of others.
fn over_front(
    alloc: Global,
    name: &[u8],
    exchange: bool,
    texts: &[Vec<u8>],
    least: Front,
) -> Result<Front, NoMemory>
    ensures { IfOk result (λ f. (known : ℕ) (other : List Var) (whole all : List Text) →
        bytes_of texts.now ≡ arranged_if exchange whole →
        AreGathered known other exchange whole least all →
        IsFrontOf known other f (over_texts name.now (arranged_if exchange all))) }
{
    if least.tips.is_empty() {
        let text = over(alloc, name, texts)?;
        return Ok(closed(alloc, text));
    }
    let text = over_least(alloc, name, exchange, texts, least.text.as_slice())?;
    let later = over_least(alloc, name, exchange, texts, least.later.as_slice())?;
    Ok(Front {
        text,
        later,
        tips: least.tips,
    })
}

// Whether the next argument is looked at: where arguments may not be exchanged, none is behind
// the first tip.
fn goes_on(exchange: bool, least: &Front) -> bool
    ensures more { result ≡ true → (exchange ≡ true) ⊎ (least.now.tips.items ≡ []) }
    ensures end { result ≡ false → (exchange ≡ false) × HasTips least.now }
{
    if exchange {
        return true;
    }
    least.tips.is_empty()
}

/// The front of a term's text.
pub(crate) fn term_front(
    alloc: Global,
    signature: &Signature,
    names: &Names,
    fixed: &Fixed<'_>,
    t: &Flat,
) -> Result<Front, NoMemory>
    requires names { AreReadable signature.now names.now }
    requires term { IsPrintable signature.now t.now }
    ensures { IfOk result (λ f. (other : List Var) → Agrees fixed.now other →
        IsFrontOf fixed.now.known other f
        (text_of (written signature.now names.now other t.now))) }
{
    match t.as_var() {
        Some(x) => new_front(alloc, signature, names, fixed, x),
        None => {
            let f = operator(t);
            let exchange = signature.axioms(f).is_commutative();
            let mut texts = Vec::new(alloc);
            let mut least = closed(alloc, Vec::new(alloc));
            for u in t.args() {
                if goes_on(exchange, &least) {
                    let front = term_front(alloc, signature, names, fixed, u)?;
                    least = gather(&mut texts, least, front)?;
                }
            }
            arrange(signature.axioms(f), &mut texts)?;
            let front = over_front(alloc, names.op_text(f), exchange, texts.as_slice(), least)?;
            Ok(front)
        }
    }
}
