//! What a word is, behind the words before it.
ghost use Rattle.std.specs.Prelude.{◌≡◌, MatchOption, None, Some};
ghost use Rattle.fvn_cmd_words.specs.Words.{is_dashed};
ghost use Rattle.fvn_cmd_words.specs.inner.Reading.{number_of, name_of, opened, behind, set_to, joined_next, named_next, usual_next, next_of};

use crate::numbers::number;
use crate::options::OptionName;

// What is awaited: any word, the number of an option, or operands alone.
#[derive(Clone, Copy)]
pub(crate) enum Mode {
    Usual,
    Value(OptionName),
    Operands,
}

// What a word is: an operand, an option's number, what changes what is awaited, or wrong.
#[derive(Clone, Copy)]
pub(crate) enum Next {
    Operand,
    Set(OptionName, u64),
    To(Mode),
    Wrong,
}

// Whether the word begins with a dash and is longer.
fn is_dashed(word: &[u8]) -> bool
    ensures { result ≡ is_dashed word.now }
{
    if word.len() < 2 {
        return false;
    }
    word[0] == b'-'
}

// The option that the word spells.
fn name(word: &[u8]) -> Option<OptionName>
    ensures { result ≡ name_of word.now }
{
    if word == b"--levels".as_slice() {
        return Some(OptionName::Levels);
    }
    if word == b"--variants".as_slice() {
        return Some(OptionName::Variants);
    }
    if word == b"--steps".as_slice() {
        return Some(OptionName::Steps);
    }
    if word == b"--workers".as_slice() {
        return Some(OptionName::Workers);
    }
    None
}

// The option with `=` behind it.
fn opened(x: OptionName) -> &'static [u8]
    ensures { result.now ≡ opened x }
{
    match x {
        OptionName::Levels => b"--levels=",
        OptionName::Variants => b"--variants=",
        OptionName::Steps => b"--steps=",
        OptionName::Workers => b"--workers=",
    }
}

// What stands behind the option and `=`.
fn behind(word: &[u8], x: OptionName) -> Option<&[u8]>
    ensures { MatchOption result (behind x word.now ≡ None) (λ rest.
        behind x word.now ≡ Some rest.now) }
{
    word.strip_prefix(opened(x))
}

// The option set to the number that a word spells.
fn set(x: OptionName, word: &[u8]) -> Next
    ensures { result ≡ set_to x (number_of word.now) }
{
    match number(word) {
        Some(n) => Next::Set(x, n),
        None => Next::Wrong,
    }
}

// What a word is that has an option and its number in one.
fn joined(word: &[u8]) -> Next
    ensures { result ≡ joined_next word.now }
{
    if let Some(levels) = behind(word, OptionName::Levels) {
        return set(OptionName::Levels, levels);
    }
    if let Some(variants) = behind(word, OptionName::Variants) {
        return set(OptionName::Variants, variants);
    }
    if let Some(steps) = behind(word, OptionName::Steps) {
        return set(OptionName::Steps, steps);
    }
    if let Some(workers) = behind(word, OptionName::Workers) {
        return set(OptionName::Workers, workers);
    }
    Next::Wrong
}

// What a word that begins with a dash is, and is not `--`.
fn option(word: &[u8]) -> Next
    ensures { result ≡ named_next (name_of word.now) word.now }
{
    match name(word) {
        Some(x) => Next::To(Mode::Value(x)),
        None => joined(word),
    }
}

// What a word is where any is awaited.
fn usual_next(word: &[u8]) -> Next
    ensures { result ≡ usual_next word.now }
{
    if !is_dashed(word) {
        return Next::Operand;
    }
    if word == b"--".as_slice() {
        return Next::To(Mode::Operands);
    }
    option(word)
}

// What a word is.
pub(crate) fn next_of(mode: Mode, word: &[u8]) -> Next
    ensures { result ≡ next_of mode word.now }
{
    match mode {
        Mode::Usual => usual_next(word),
        Mode::Value(x) => set(x, word),
        Mode::Operands => Next::Operand,
    }
}
