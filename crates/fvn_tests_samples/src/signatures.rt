//! Reads signatures.
//!
//! A signature is a row of statements with `; ` between them: sorts, as `A B C`; a pair of them, as `A < B`;
//! declarations, as `f : A B -> C [comm]`. Sorts are A, B, C and on, and operators f, g, h and on. A sort in
//! brackets is its kind, and `~>` makes a declaration partial.
ghost use Rattle.std.specs.Prelude.{◌≤◌, ◌<◌, All, IsTrue};
ghost use Rattle.fvn_signature_draft.specs.Collected.{Names};

use fvn_base::Seq;
use fvn_base::limits::FIRST_KIND;
use fvn_signature::Signature;
use fvn_sorts::SignatureBuilder;
use fvn_terms::{Axioms, NoMemory, OpId, Rank, SortId};
use std::alloc::Global;

/// More operators than a signature has.
const MOST_OPERATORS: u16 = 1000;

/// More sorts than a signature has.
const MOST_SORTS: u16 = 100;

/// Whether the sort is declared, or the kind of one that is.
fn names(sorts: u16, s: SortId) -> bool
    ensures { IsTrue result → Names sorts s }
{
    if s.0 < sorts {
        return true;
    }
    s.0 >= FIRST_KIND && s.0 - FIRST_KIND < sorts
}

/// Whether each of the sorts is.
fn all_names(sorts: u16, list: &[SortId]) -> bool
    ensures { IsTrue result → All (Names sorts) list.now }
{
    for s in list {
        if !names(sorts, *s) {
            return false;
        }
    }
    true
}

/// How many letters after the first one the word's letter comes.
fn number(word: &str, first: u8) -> u16 {
    match word.as_bytes().first() {
        Some(letter) => u16::from(letter.wrapping_sub(first)),
        None => 0,
    }
}

/// A sort is a letter from A on, and its kind this letter in brackets.
pub fn sort_of(word: &str) -> SortId {
    match word.strip_prefix("[") {
        Some(rest) => SortId(number(rest, b'A').wrapping_add(FIRST_KIND)),
        None => SortId(number(word, b'A')),
    }
}

/// An operator is a letter from f on.
pub fn operator_of(word: &str) -> OpId {
    OpId(number(word, b'f'))
}

/// The axioms that attributes tell.
fn axioms_of(text: &str) -> Axioms {
    if let Some((_, identity)) = text.split_once("id: ") {
        return Axioms::AssocCommId(operator_of(identity));
    }
    if text.starts_with("assoc") {
        return Axioms::AssocComm;
    }
    if text.starts_with("comm") {
        Axioms::Comm
    } else {
        Axioms::Free
    }
}

/// The sorts up to the arrow.
fn sorts_of(alloc: Global, text: &str) -> Result<Vec<SortId>, NoMemory> {
    let mut list = Vec::new(alloc);
    for word in text.split(' ') {
        if word != "-" && word != "~" {
            list.push(sort_of(word))?;
        }
    }
    Ok(list)
}

/// The sorts of the arguments and of the result.
fn rank_of(alloc: Global, from: &str, gives: &str) -> Result<Rank, NoMemory> {
    let args = sorts_of(alloc, from)?;
    Ok(Rank {
        args: Seq::from_vec(args),
        result: sort_of(gives),
    })
}

/// Whether the operator is declared or the next one, and the rank has declared sorts.
fn may_declare(builder: &SignatureBuilder, op: OpId, rank: &Rank) -> bool
    ensures known_or_next { IsTrue result → op.0 ≤ builder.now.operators }
    ensures room { IsTrue result → builder.now.operators < 1000 }
    ensures args { IsTrue result → All (Names builder.now.sorts) rank.now.args }
    ensures gives { IsTrue result → Names builder.now.sorts rank.now.result }
{
    if op.0 > builder.op_count() {
        return false;
    }
    if builder.op_count() >= MOST_OPERATORS {
        return false;
    }
    if !all_names(builder.sort_count(), rank.args.as_slice()) {
        return false;
    }
    names(builder.sort_count(), rank.result)
}

/// One more declaration, as `A B -> C [comm]`; none where it names what is not declared.
fn with_operator(
    alloc: Global,
    builder: SignatureBuilder,
    op: OpId,
    text: &str,
) -> Result<Option<SignatureBuilder>, NoMemory> {
    let (from, to) = text.split_once("> ").unwrap_or((text, ""));
    let (gives, attributes) = to.split_once(" [").unwrap_or((to, ""));
    let rank = rank_of(alloc, from, gives)?;
    if !may_declare(&builder, op, &rank) {
        return Ok(None);
    }
    let more = builder.op(op, rank, from.ends_with('~'), axioms_of(attributes))?;
    Ok(Some(more))
}

/// One more pair of the order; none where a sort is not declared.
fn with_pair(
    builder: SignatureBuilder,
    low: SortId,
    high: SortId,
) -> Result<Option<SignatureBuilder>, NoMemory> {
    let count = builder.sort_count();
    if low.0 >= count {
        return Ok(None);
    }
    if high.0 >= count {
        return Ok(None);
    }
    let more = builder.subsort(low, high)?;
    Ok(Some(more))
}

/// So many sorts more; none where they are over a hundred.
fn with_sorts(
    builder: SignatureBuilder,
    count: usize,
) -> Result<Option<SignatureBuilder>, NoMemory> {
    let mut more = builder;
    for _ in 0..count {
        if more.sort_count() >= MOST_SORTS {
            return Ok(None);
        }
        more = more.sort()?;
    }
    Ok(Some(more))
}

/// One statement: sorts, a pair of them, or a declaration.
fn stated(
    alloc: Global,
    builder: SignatureBuilder,
    text: &str,
) -> Result<Option<SignatureBuilder>, NoMemory> {
    if let Some((low, high)) = text.split_once(" < ") {
        return with_pair(builder, sort_of(low), sort_of(high));
    }
    if let Some((op, rank)) = text.split_once(" : ") {
        return with_operator(alloc, builder, operator_of(op), rank);
    }
    with_sorts(builder, text.split(' ').count())
}

/// What the statements of the text give; none where one names what is not declared.
fn collected(alloc: Global, text: &str) -> Result<Option<SignatureBuilder>, NoMemory> {
    let mut builder = SignatureBuilder::new(alloc);
    for statement in text.split("; ") {
        builder = match stated(alloc, builder, statement)? {
            Some(more) => more,
            None => return Ok(None),
        };
    }
    Ok(Some(builder))
}

/// The signature of the text; none where it is refused.
pub fn signature_of(alloc: Global, text: &str) -> Result<Option<Signature>, NoMemory> {
    match collected(alloc, text)? {
        Some(builder) => Ok(builder.finish(alloc).ok()),
        None => Ok(None),
    }
}
