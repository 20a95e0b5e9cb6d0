//! Reading attributes of operators.
ghost use Rattle.std.specs.Prelude.{◌≡◌, ◌||◌, IfOk, codes};
ghost use Rattle.std.specs.List.{list_any};
ghost use Rattle.fvn_module_statements.specs.inner.Attributes.{word_of as the_word, made, words_before, words_in_parens, identity_of, attribute_named, attribute_of, is_close, attributes_of};
ghost use Rattle.fvn_module_syntax.specs.LeftOut.{begins_own, begins_further, is_next, is_assoc, is_comm, is_ditto, stands, left_out, first_left_out, begins_identity, left_out_at_word, left_out_at, left_out_in};

use crate::outcome::Reading;
use crate::reader::{Reader, read_all};
use crate::words::is_text;
use fvn_base::Seq;
use fvn_module_syntax::{Attribute, Feature};
use fvn_syntax::{Piece, Row, Text};
use fvn_terms::NoMemory;
use std::alloc::Global;

// A word.
pub struct AnyWord;

impl<'a> Reader<'a, Text<'a>> for AnyWord {
    ghost use Rattle.fvn_module_statements.specs.inner.Attributes.{word_of};

    ghost reads = { word_of };

    fn read(
        &self,
        _alloc: Global,
        row: &'a [Piece<'a>],
    ) -> Result<Option<(Text<'a>, Row<'a>)>, NoMemory> {
        Ok(read_word(row))
    }
}

/// The word at the beginning, and what follows it.
pub fn read_word<'a>(row: &'a [Piece<'a>]) -> Option<(Text<'a>, Row<'a>)>
    ensures { result ≡ Rattle.fvn_module_statements.specs.inner.Attributes.word_of row.now }
{
    let Some((piece, rest)) = row.split_first() else {
        return None;
    };
    if piece.is_word() {
        Some((Text::new(piece.text()), Row::new(rest)))
    } else {
        None
    }
}

// One word or more, before a parenthesis that closes.
fn words_before<'a>(words: Seq<Text<'a>>, row: &'a [Piece<'a>]) -> Option<(Seq<Text<'a>>, Row<'a>)>
    ensures { result ≡ words_before words.entry row.now }
{
    if words.is_empty() {
        return None;
    }
    let Some((piece, rest)) = row.split_first() else {
        return None;
    };
    if piece.is_special(b")") {
        Some((words, Row::new(rest)))
    } else {
        None
    }
}

// Words in parentheses.
fn words_in_parens<'a>(
    alloc: Global,
    row: &'a [Piece<'a>],
) -> Result<Option<(Seq<Text<'a>>, Row<'a>)>, NoMemory>
    ensures { IfOk result (λ r. r ≡ words_in_parens row.now) }
{
    let Some((piece, rest)) = row.split_first() else {
        return Ok(None);
    };
    if !piece.is_special(b"(") {
        return Ok(None);
    }
    let (words, rest) = read_all(alloc, &AnyWord, rest)?;
    Ok(words_before(words, rest.pieces()))
}

// Whether an attribute of an operator begins with a word.
fn begins_own(word: &[u8]) -> bool
    ensures { result ≡ begins_own word.now }
{
    is_text(word, b"assoc")
        || is_text(word, b"comm")
        || is_text(word, b"ctor")
        || is_text(word, b"ditto")
        || is_text(word, b"id:")
        || is_text(word, b"prec")
        || is_text(word, b"gather")
        || is_text(word, b"format")
}

// Whether a further attribute of Maude, which is left out, begins with a word.
fn begins_further(word: &[u8]) -> bool
    ensures { result ≡ begins_further word.now }
{
    is_text(word, b"left")
        || is_text(word, b"right")
        || is_text(word, b"memo")
        || is_text(word, b"frozen")
        || is_text(word, b"iter")
        || is_text(word, b"idem")
        || is_text(word, b"strat")
        || is_text(word, b"strategy")
        || is_text(word, b"poly")
        || is_text(word, b"special")
        || is_text(word, b"metadata")
}

// Whether an attribute begins with the word: one that is read here, or a further one of Maude.
fn begins_attribute(word: &[u8]) -> bool
    ensures { result ≡ (begins_own word.now || begins_further word.now) }
{
    begins_own(word) || begins_further(word)
}

// Whether the next attribute or the end begins with a token.
fn is_next(piece: &Piece<'_>) -> bool
    ensures { result ≡ is_next piece.now }
{
    (piece.is_word() && begins_attribute(piece.text())) || piece.is_special(b"]")
}

// A word, and behind it the next attribute or the end.
fn read_identity<'a>(row: &'a [Piece<'a>]) -> Option<(Attribute<'a>, Row<'a>)>
    ensures { result ≡ identity_of row.now }
{
    let Some((word, rest)) = row.split_first() else {
        return None;
    };
    let Some((next, _)) = rest.split_first() else {
        return None;
    };
    if word.is_word() && is_next(next) {
        Some((Attribute::Identity(Text::new(word.text())), Row::new(rest)))
    } else {
        None
    }
}

// What follows `prec`.
fn read_precedence<'a>(row: &'a [Piece<'a>]) -> Option<(Attribute<'a>, Row<'a>)>
    ensures { result ≡ made Attribute.Precedence (the_word row.now) }
{
    let Some((text, rest)) = read_word(row) else {
        return None;
    };
    Some((Attribute::Precedence(text), rest))
}

// What follows `gather`.
fn read_gather<'a>(
    alloc: Global,
    row: &'a [Piece<'a>],
) -> Result<Option<(Attribute<'a>, Row<'a>)>, NoMemory>
    ensures { IfOk result (λ r. r ≡ made Attribute.Gather (words_in_parens row.now)) }
{
    match words_in_parens(alloc, row)? {
        None => Ok(None),
        Some((words, rest)) => Ok(Some((Attribute::Gather(words), rest))),
    }
}

// What follows `format`.
fn read_format<'a>(
    alloc: Global,
    row: &'a [Piece<'a>],
) -> Result<Option<(Attribute<'a>, Row<'a>)>, NoMemory>
    ensures { IfOk result (λ r. r ≡ made Attribute.Format (words_in_parens row.now)) }
{
    match words_in_parens(alloc, row)? {
        None => Ok(None),
        Some((words, rest)) => Ok(Some((Attribute::Format(words), rest))),
    }
}

// The attribute that begins with a word.
fn read_named<'a>(
    alloc: Global,
    word: &[u8],
    row: &'a [Piece<'a>],
) -> Result<Option<(Attribute<'a>, Row<'a>)>, NoMemory>
    ensures { IfOk result (λ r. r ≡ attribute_named word.now row.now) }
{
    if is_text(word, b"assoc") {
        Ok(Some((Attribute::Assoc, Row::new(row))))
    } else if is_text(word, b"comm") {
        Ok(Some((Attribute::Comm, Row::new(row))))
    } else if is_text(word, b"ctor") {
        Ok(Some((Attribute::Constructor, Row::new(row))))
    } else if is_text(word, b"ditto") {
        Ok(Some((Attribute::Ditto, Row::new(row))))
    } else if is_text(word, b"id:") {
        Ok(read_identity(row))
    } else if is_text(word, b"prec") {
        Ok(read_precedence(row))
    } else if is_text(word, b"gather") {
        read_gather(alloc, row)
    } else if is_text(word, b"format") {
        read_format(alloc, row)
    } else {
        Ok(None)
    }
}

// An attribute.
struct AnyAttribute;

impl<'a> Reader<'a, Attribute<'a>> for AnyAttribute {
    ghost use Rattle.fvn_module_statements.specs.inner.Attributes.{attribute_of as attribute_at};

    ghost reads = { attribute_at };

    fn read(
        &self,
        alloc: Global,
        row: &'a [Piece<'a>],
    ) -> Result<Option<(Attribute<'a>, Row<'a>)>, NoMemory> {
        let Some((piece, rest)) = row.split_first() else {
            return Ok(None);
        };
        if !piece.is_word() {
            return Ok(None);
        }
        read_named(alloc, piece.text(), rest)
    }
}

// Whether the attribute is `assoc`.
fn is_assoc(attribute: &Attribute<'_>) -> bool
    ensures { result ≡ is_assoc attribute.now }
{
    matches!(attribute, Attribute::Assoc)
}

// Whether the attribute is `comm`.
fn is_comm(attribute: &Attribute<'_>) -> bool
    ensures { result ≡ is_comm attribute.now }
{
    matches!(attribute, Attribute::Comm)
}

// Whether the attribute is `ditto`.
fn is_ditto(attribute: &Attribute<'_>) -> bool
    ensures { result ≡ is_ditto attribute.now }
{
    matches!(attribute, Attribute::Ditto)
}

// Whether the word stands before the bracket that closes.
fn stands(word: &[u8], row: &[Piece<'_>]) -> bool
    ensures { result ≡ stands word.now row.now }
{
    for piece in row {
        if piece.is_special(b"]") {
            return false;
        }
        if piece.is_name(word) {
            return true;
        }
    }
    false
}

// The left-out form that an attribute is, where these stand beside it.
fn left_out(assoc: bool, comm: bool, ditto: bool, attribute: &Attribute<'_>) -> Option<Feature>
    ensures { result ≡ left_out assoc comm ditto attribute.now }
{
    match attribute {
        Attribute::Assoc if !comm && !ditto => Some(Feature::Assoc),
        Attribute::Identity(_) if !comm || !assoc => Some(Feature::Identity),
        _ => None,
    }
}

// The first left-out form among the attributes, by what stands beside them.
fn first_left_out(
    assoc: bool,
    comm: bool,
    ditto: bool,
    attributes: &[Attribute<'_>],
) -> Option<Feature>
    ensures { result ≡ first_left_out assoc comm ditto attributes.now }
{
    for attribute in attributes {
        if let Some(feature) = left_out(assoc, comm, ditto, attribute) {
            return Some(feature);
        }
    }
    None
}

// Whether an identity begins here.
fn begins_identity(row: &[Piece<'_>]) -> bool
    ensures { result ≡ begins_identity row.now }
{
    match row.first() {
        Some(piece) => piece.is_name(b"id:"),
        None => false,
    }
}

// The left-out form that the word and what follows it are.
fn left_out_at_word(word: &[u8], row: &[Piece<'_>]) -> Option<Feature>
    ensures { result ≡ left_out_at_word word.now row.now }
{
    if is_text(word, b"id:") {
        return Some(Feature::Identity);
    }
    if (is_text(word, b"left") || is_text(word, b"right")) && begins_identity(row) {
        return Some(Feature::Identity);
    }
    if is_text(word, b"prec") || is_text(word, b"gather") || is_text(word, b"format") {
        return None;
    }
    Some(Feature::Attribute)
}

// The left-out form that begins where no attribute can be read.
fn left_out_at(row: &[Piece<'_>]) -> Option<Feature>
    ensures { result ≡ left_out_at row.now }
{
    let Some((piece, rest)) = row.split_first() else {
        return None;
    };
    if piece.is_word() {
        left_out_at_word(piece.text(), rest)
    } else {
        None
    }
}

// Whether one of the attributes is `assoc`.
fn any_assoc(attributes: &[Attribute<'_>]) -> bool
    ensures { result ≡ list_any is_assoc attributes.now }
{
    attributes.iter().any(|attribute| is_assoc(attribute))
}

// Whether `assoc` is one of the attributes, or stands in the tokens.
fn has_assoc(attributes: &[Attribute<'_>], row: &[Piece<'_>]) -> bool
    ensures { result ≡ (list_any is_assoc attributes.now || stands (codes "assoc") row.now) }
{
    any_assoc(attributes) || stands(b"assoc", row)
}

// Whether one of the attributes is `comm`.
fn any_comm(attributes: &[Attribute<'_>]) -> bool
    ensures { result ≡ list_any is_comm attributes.now }
{
    attributes.iter().any(|attribute| is_comm(attribute))
}

// Whether `comm` is one of the attributes, or stands in the tokens.
fn has_comm(attributes: &[Attribute<'_>], row: &[Piece<'_>]) -> bool
    ensures { result ≡ (list_any is_comm attributes.now || stands (codes "comm") row.now) }
{
    any_comm(attributes) || stands(b"comm", row)
}

// Whether one of the attributes is `ditto`.
fn any_ditto(attributes: &[Attribute<'_>]) -> bool
    ensures { result ≡ list_any is_ditto attributes.now }
{
    attributes.iter().any(|attribute| is_ditto(attribute))
}

// Whether `ditto` is one of the attributes, or stands in the tokens.
fn has_ditto(attributes: &[Attribute<'_>], row: &[Piece<'_>]) -> bool
    ensures { result ≡ (list_any is_ditto attributes.now || stands (codes "ditto") row.now) }
{
    any_ditto(attributes) || stands(b"ditto", row)
}

// The first left-out form among attributes that were read, and at what is left of them.
fn left_out_in(attributes: &[Attribute<'_>], row: &[Piece<'_>]) -> Option<Feature>
    ensures { result ≡ left_out_in attributes.now row.now }
{
    let assoc = has_assoc(attributes, row);
    let comm = has_comm(attributes, row);
    let ditto = has_ditto(attributes, row);
    match first_left_out(assoc, comm, ditto, attributes) {
        Some(feature) => Some(feature),
        None => left_out_at(row),
    }
}

/// Whether the tokens are a bracket that closes, alone.
pub fn is_close(row: &[Piece<'_>]) -> bool
    ensures { result ≡ is_close row.now }
{
    row.len() == 1 && row[0].is_special(b"]")
}

/// The attributes in brackets that are the tokens; no token is no attribute.
pub fn read_attributes<'a>(
    alloc: Global,
    row: &'a [Piece<'a>],
) -> Result<Reading<Seq<Attribute<'a>>>, NoMemory>
    ensures { IfOk result (λ r. r ≡ attributes_of row.now) }
{
    let Some((piece, rest)) = row.split_first() else {
        return Ok(Reading::Read(Seq::new(alloc)));
    };
    if !piece.is_special(b"[") {
        return Ok(Reading::NoForm);
    }
    let (attributes, rest) = read_all(alloc, &AnyAttribute, rest)?;
    if let Some(feature) = left_out_in(attributes.as_slice(), rest.pieces()) {
        return Ok(Reading::LeftOut(feature));
    }
    if attributes.is_empty() || !is_close(rest.pieces()) {
        return Ok(Reading::NoForm);
    }
    Ok(Reading::Read(attributes))
}
