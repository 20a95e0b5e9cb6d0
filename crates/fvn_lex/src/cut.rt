//! Cutting a text into tokens, in one pass over its bytes.
ghost use Rattle.std.specs.Prelude.{◌≡◌, ◌+◌, ◌<◌, ◌^◌, ◌⊎◌, ◌++◌, IfOk, IfErr, OnOk, map};
ghost use Rattle.fvn_lex.specs.Bytes.{is_blank, is_special, is_printed, goes_on, begins_block, begins_comment};
ghost use Rattle.fvn_lex.specs.Cut.{lex, pieces_of, piece_at};
ghost use Rattle.fvn_lex.specs.inner.Machine.{begin, advance, LeadsTo, StopsAt, rest_of};
ghost use Rattle.fvn_lex.specs.Parts.{IsCutInto, IsFirstFault};
ghost use Rattle.fvn_lex.specs.Spans.{AreWithin, AreInOrder};

use crate::token::{Class, LexFault, Token};
use std::alloc::Global;

/// Where the reading stands: between tokens, in a comment, or inside a word.
///
/// A word has the offset at which it began, its class so far, and whether its last byte is a backquote.
#[derive(Clone, Copy)]
enum Place {
    Between,
    Comment,
    Inside {
        start: usize,
        class: Class,
        quoted: bool,
    },
}

// Whether the byte is white space.
#[tactic(auto, unfolding(crate::specs::Bytes::is_blank))]
fn is_blank_byte(byte: u8) -> bool
    ensures { result ≡ is_blank byte }
{
    matches!(byte, b'\t' | b'\n' | b'\r' | b' ')
}

// Whether the byte is a token by itself.
#[tactic(auto, unfolding(crate::specs::Bytes::is_special))]
fn is_special_byte(byte: u8) -> bool
    ensures { result ≡ is_special byte }
{
    matches!(byte, b'(' | b')' | b',' | b'[' | b']' | b'{' | b'}')
}

// Whether the byte is a printed one of ASCII.
#[tactic(auto, unfolding(crate::specs::Bytes::is_printed))]
fn is_printed_byte(byte: u8) -> bool
    ensures { result ≡ is_printed byte }
{
    33 <= byte && byte <= 126
}

// Whether the byte goes on with a word whose last byte is a backquote, or is not.
#[tactic(auto, unfolding(crate::specs::Bytes::goes_on))]
fn goes_on_byte(quoted: bool, byte: u8) -> bool
    ensures { result ≡ goes_on quoted byte }
{
    is_printed_byte(byte) && (quoted || !is_special_byte(byte))
}

// Whether a comment begins here.
#[tactic(auto, unfolding(crate::specs::Bytes::begins_comment))]
fn begins_comment_text(text: &[u8]) -> bool
    ensures { result ≡ begins_comment text.now }
{
    text.starts_with(b"---") || text.starts_with(b"***")
}

// Whether a block comment begins here.
#[tactic(auto, unfolding(crate::specs::Bytes::begins_block))]
fn begins_block_text(text: &[u8]) -> bool
    ensures { result ≡ begins_block text.now }
{
    text.starts_with(b"---(") || text.starts_with(b"***(")
}

// Reads the byte where a token would begin: a special byte is pushed as a token.
#[tactic(auto, unfolding(crate::specs::inner::Machine::begin))]
fn begin_byte(
    offset: usize,
    byte: u8,
    text: &[u8],
    list: &mut Vec<Token>,
) -> Result<Place, LexFault>
    requires { offset + 1 < 2 ^ 64 }
    ensures ok { IfOk result (LeadsTo (begin offset byte text.now) list.old.items list.new.items) }
    ensures err { IfErr result (StopsAt (begin offset byte text.now)) }
{
    if is_blank_byte(byte) {
        return Ok(Place::Between);
    }
    if is_special_byte(byte) {
        list.push(Token {
            start: offset,
            end: offset + 1,
            class: Class::Special,
        })?;
        return Ok(Place::Between);
    }
    if begins_block_text(text) {
        return Err(LexFault::BlockComment(offset));
    }
    if begins_comment_text(text) {
        return Ok(Place::Comment);
    }
    if !is_printed_byte(byte) {
        return Err(LexFault::BadByte(offset));
    }
    let class = if byte == b'.' {
        Class::Dot
    } else {
        Class::Word
    };
    Ok(Place::Inside {
        start: offset,
        class,
        quoted: byte == b'`',
    })
}

// Reads the byte at a place, and pushes the tokens that it completes.
#[tactic(auto, unfolding(crate::specs::inner::Machine::advance))]
fn move_on(
    place: Place,
    offset: usize,
    byte: u8,
    text: &[u8],
    list: &mut Vec<Token>,
) -> Result<Place, LexFault>
    requires { offset + 1 < 2 ^ 64 }
    ensures ok { IfOk result
        (LeadsTo (advance place offset byte text.now) list.old.items list.new.items) }
    ensures err { IfErr result (StopsAt (advance place offset byte text.now)) }
{
    match place {
        Place::Between => begin_byte(offset, byte, text, list),
        Place::Comment => Ok(if byte == b'\n' {
            Place::Between
        } else {
            Place::Comment
        }),
        Place::Inside {
            start,
            class,
            quoted,
        } => {
            if goes_on_byte(quoted, byte) {
                let class = Class::Word;
                let quoted = byte == b'`';
                return Ok(Place::Inside {
                    start,
                    class,
                    quoted,
                });
            }
            list.push(Token {
                start,
                end: offset,
                class,
            })?;
            begin_byte(offset, byte, text, list)
        }
    }
}

// Pushes the word that the end of the text completes.
fn finish(place: Place, end: usize, list: &mut Vec<Token>) -> Result<(), LexFault>
    ensures ok { OnOk result (list.new.items ≡ list.old.items ++ rest_of place end) }
    ensures err { IfErr result (λ fault. fault ≡ LexFault.NoMemory) }
{
    if let Place::Inside { start, class, .. } = place {
        list.push(Token { start, end, class })?;
    }
    Ok(())
}

/// The tokens of a text, in their order.
///
/// White space is the bytes 9, 10, 13 and 32. Each of `( ) [ ] { } ,` is a token by itself. Three dashes or
/// three stars, where a token would begin, begin a comment that runs to the next byte 10; directly before a
/// `(` they are refused. Every other token is a longest run of bytes 33 to 126 in which one of the special
/// bytes stands only directly after a backquote.
pub fn tokens(alloc: Global, bytes: &[u8]) -> Result<Vec<Token>, LexFault>
    ensures ok { IfOk result (λ list. lex bytes.now ≡ Ok list.items) }

    // The text of each piece is the slice of its token.
    ensures pieces { IfOk result (λ list.
        pieces_of bytes.now ≡ Some (map (piece_at bytes.now) list.items)) }
    ensures within { IfOk result (λ list. AreWithin bytes.now list.items) }
    ensures ordered { IfOk result (λ list. AreInOrder list.items) }

    ensures err { IfErr result (λ fault.
        (fault ≡ LexFault.NoMemory) ⊎ (lex bytes.now ≡ Err fault)) }

    // Beside the definition: all bytes are those of white space, comments and these tokens, each as long as it
    // can be, and a fault is the first.
    ensures cut { IfOk result (λ list. IsCutInto bytes.now list.items) }
    ensures first { IfErr result (λ fault.
        (fault ≡ LexFault.NoMemory) ⊎ IsFirstFault bytes.now fault) }
{
    let mut list = Vec::new(alloc);
    let mut place = Place::Between;
    for (offset, byte) in bytes.iter().enumerate() {
        place = move_on(place, offset, *byte, &bytes[offset..], &mut list)?;
    }
    finish(place, bytes.len(), &mut list)?;
    Ok(list)
}
