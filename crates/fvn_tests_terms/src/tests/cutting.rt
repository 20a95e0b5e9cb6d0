//! Texts with their tokens or faults, each rule with its edges.
use fvn_lex::{Class, LexFault, Token, tokens};
use std::alloc::Global;
use std::process::Abort;
use std::test::Fail;

// Each row of a table is a text and what is shown of it, with a bar between; a semicolon stands between rows.
const WORDS: &str = "\
    |;\
    \u{20}\t\r\n|;\
    a|w0-1 ;\
    fmod AC is|w0-4 w5-7 w8-10 ;\
    \u{20}a\tb\rc\nd |w1-2 w3-4 w5-6 w7-8 ;\
    \r\na\r\n|w2-3 ;\
    !~|w0-2 ;\
    X:S|w0-3 ;\
    =? -->|w0-2 w3-6 ;\
    #1:[A]|w0-3 s3-4 w4-5 s5-6 ;\
    .|d0-1 ;\
    ..|w0-2 ;\
    . .|d0-1 d2-3 ;\
    a.b|w0-3 ;\
    a. .b|w0-2 w3-5 ;\
    a .|w0-1 d2-3 ;\
    (.)|s0-1 d1-2 s2-3 ;\
    .`|w0-2 ";

const SPECIALS: &str = "\
    ()[]{},|s0-1 s1-2 s2-3 s3-4 s4-5 s5-6 s6-7 ;\
    f(a,b)|w0-1 s1-2 w2-3 s3-4 w4-5 s5-6 ;\
    a{b}[c]|w0-1 s1-2 w2-3 s3-4 s4-5 w5-6 s6-7 ;\
    _`,_|w0-4 ;\
    `(`)`[`]`{`}`,|w0-14 ;\
    `|w0-1 ;\
    a`|w0-2 ;\
    ` a|w0-1 w2-3 ;\
    `a,|w0-2 s2-3 ;\
    ``|w0-2 ;\
    ``(|w0-3 ;\
    `((|w0-2 s2-3 ;\
    `(`|w0-3 ;\
    `.|w0-2 ";

const COMMENTS: &str = "\
    ---|;\
    ***|;\
    --- a b\nc|w8-9 ;\
    *** ( [ `\n.|d10-11 ;\
    a --- b|w0-1 ;\
    a--- b|w0-4 w5-6 ;\
    (--- b\n)|s0-1 s7-8 ;\
    --|w0-2 ;\
    ** *|w0-2 w3-4 ;\
    --*|w0-3 ;\
    ----|;\
    --- (|;\
    ---\r(\n(|s6-7 ;\
    ---\n---\na|w8-9 ;\
    --- \u{e9}\u{7f}\u{0}\nb|w9-10 ;\
    --- \u{80}\nb|w7-8 ;\
    ---(|block 0;\
    \u{20}***(|block 1;\
    a(---(|block 2;\
    a---(|w0-4 s4-5 ;\
    ----(|;\
    `---(|w0-4 s4-5 ;\
    --- ***(\n***(|block 9";

const REFUSED: &str = "\
    \u{0}|bad 0;\
    \u{7f}|bad 0;\
    a\u{7f}|bad 1;\
    a \u{b}|bad 2;\
    a\u{c}b|bad 1;\
    (\u{8}|bad 1;\
    a\u{1f}|bad 1;\
    a\u{e9}|bad 1;\
    `\u{e9}|bad 1;\
    \u{1}\u{2}|bad 0;\
    \u{1} ---(|bad 0;\
    ---( \u{1}|block 0;\
    --- \u{1}\n\u{2}|bad 6";

// A byte behind two letters, and what is shown of the three.
const BYTES: &str = "128|bad 2;255|bad 2;126|w0-3 ;33|w0-3 ;32|w0-2 ";

// Lines of 32 bytes, and how many tokens 32,768 of each have.
const LINES: &str = "op _`,_ : S S -> S .\r\n--- x.\r\n.\n|294912;\
    ([{,}]) ([{,}]) ([{,}]) ([{,}])\n|917504;\
    a`(b`)c`[d`]e`{f`}g`,h``i```j`.k|1;\
    --- *** `( \t\u{e9} a comment alone.\n|0";

// The letter of a class.
fn letter(class: Class) -> &'static str {
    match class {
        Class::Word => "w",
        Class::Special => "s",
        Class::Dot => "d",
    }
}

// A number in decimal, behind a word.
fn push_number(text: &mut String, alloc: Global, word: &str, number: usize) -> Result<(), Fail> {
    text.push_str(word)?;
    text.push_str(&format!(in alloc; "{number}")?)?;
    Ok(())
}

// A token with its span.
fn push_token(text: &mut String, alloc: Global, token: Token) -> Result<(), Fail> {
    push_number(text, alloc, letter(token.class), token.start)?;
    push_number(text, alloc, "-", token.end)?;
    text.push(' ')?;
    Ok(())
}

// The tokens with their spans: w a word, s a special byte, d a dot.
fn push_tokens(text: &mut String, alloc: Global, list: &[Token]) -> Result<(), Fail> {
    for token in list {
        push_token(text, alloc, *token)?;
    }
    Ok(())
}

// A fault with its offset.
fn push_fault(text: &mut String, alloc: Global, fault: LexFault) -> Result<(), Fail> {
    match fault {
        LexFault::BadByte(n) => push_number(text, alloc, "bad ", n),
        LexFault::BlockComment(n) => push_number(text, alloc, "block ", n),
        LexFault::NoMemory => push_number(text, alloc, "memory", 0),
    }
}

// The tokens of a text, or its fault.
fn push_shown(text: &mut String, alloc: Global, bytes: &[u8]) -> Result<(), Fail> {
    match tokens(alloc, bytes) {
        Ok(list) => push_tokens(text, alloc, &list),
        Err(fault) => push_fault(text, alloc, fault),
    }
}

// What is shown of the bytes is what is wanted.
fn assert_shown(
    rt: &impl Abort,
    alloc: Global,
    at: &str,
    bytes: &[u8],
    want: &str,
) -> Result<(), Fail> {
    let mut text = String::new(alloc);
    push_shown(&mut text, alloc, bytes)?;
    assert_eq!(rt; text.as_str(), want, "at {at}");
    Ok(())
}

// The same of each row.
fn assert_rows(rt: &impl Abort, alloc: Global, rows: &str) -> Result<(), Fail> {
    for row in rows.split(';') {
        let (text, want) = row.split_once('|').unwrap_or((row, "no bar"));
        assert_shown(rt, alloc, text, text.as_bytes(), want)?;
    }
    Ok(())
}

#[test]
fn words_and_white_space(rt: HostRuntime) -> Result<(), Fail> {
    assert_rows(&rt, rt.alloc(), WORDS)
}

#[test]
fn special_bytes_and_backquotes(rt: HostRuntime) -> Result<(), Fail> {
    assert_rows(&rt, rt.alloc(), SPECIALS)
}

#[test]
fn comments(rt: HostRuntime) -> Result<(), Fail> {
    assert_rows(&rt, rt.alloc(), COMMENTS)
}

#[test]
fn refused_bytes(rt: HostRuntime) -> Result<(), Fail> {
    assert_rows(&rt, rt.alloc(), REFUSED)
}

// The same of a byte behind two letters.
fn assert_byte(rt: &impl Abort, alloc: Global, byte: u8, want: &str) -> Result<(), Fail> {
    assert_shown(rt, alloc, "a byte", [b'a', b'b', byte].as_slice(), want)
}

// Bytes that no text has, and three others, behind two letters.
#[test]
fn bytes_of_no_text(rt: HostRuntime) -> Result<(), Fail> {
    for row in BYTES.split(';') {
        let (byte, want) = row.split_once('|').unwrap_or((row, "no bar"));
        assert_byte(&rt, rt.alloc(), byte.parse::<u8>().unwrap_or(0), want)?;
    }
    Ok(())
}

// The number of the tokens of a text, or none at a fault.
fn count(alloc: Global, bytes: &[u8]) -> Option<usize> {
    match tokens(alloc, bytes) {
        Ok(list) => Some(list.len()),
        Err(_) => None,
    }
}

// The line 32,768 times.
fn long_text(alloc: Global, line: &str) -> Result<Vec<u8>, Fail> {
    let mut text = Vec::new(alloc);
    for _ in 0..32_768 {
        text.extend_from_slice(line.as_bytes())?;
    }
    Ok(text)
}

// The line 32,768 times has so many tokens.
fn assert_long(rt: &impl Abort, alloc: Global, line: &str, many: usize) -> Result<(), Fail> {
    let text = long_text(alloc, line)?;
    assert_eq!(rt; text.len(), 1_048_576, "at {line}");
    assert_eq!(rt; count(alloc, &text), Some(many), "at {line}");
    Ok(())
}

// A line of 32 bytes again and again up to 1 MiB, the longest text that the program reads.
#[test]
fn long_texts(rt: HostRuntime) -> Result<(), Fail> {
    for row in LINES.split(';') {
        let (line, many) = row.split_once('|').unwrap_or((row, ""));
        assert_long(&rt, rt.alloc(), line, many.parse::<usize>().unwrap_or(1))?;
    }
    Ok(())
}
