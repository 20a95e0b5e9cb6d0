//! The command that a name, operands and options are.
ghost use Rattle.std.specs.Prelude.{◌≡◌, length, map, string_bytes, MatchOption, IfSome, None, Some};
ghost use Rattle.fvn_cmd_words.specs.Told.{IsSearchWithin};
ghost use Rattle.fvn_cmd_words.specs.inner.Reading.{work_of, reach_from, variants_from, vunify_from, verify_from, bare_with, command_with, command_with_two, command_alone, command_from, number_of, TellsAs};
ghost use Rattle.fvn_cmd_words.specs.inner.Keeping.{standing_in, operands_of, AreBelow};

use crate::command::Command;
use crate::limits::{LEAST_WORK, MOST_WORK};
use crate::numbers::number;
use crate::options::{OptionName, Settings, is_bare, is_steps_alone, setting};
use crate::reach::Reach;
use crate::reading::Places;
use std::string::String;

// How far to search, and with how many workers.
#[derive(Clone, Copy)]
struct Search {
    reach: Reach,
    workers: u64,
}

// How far to search, as the options tell.
fn search_set(set: Settings) -> Option<Search>
    ensures exact { MatchOption result (reach_from (standing_in set) ≡ None)
        (λ s. reach_from (standing_in set) ≡ Some (s.reach, s.workers)) }
    ensures within { IfSome result (λ s. IsSearchWithin s.reach s.workers) }
{
    let Some(levels) = setting(set, OptionName::Levels) else {
        return None;
    };
    let Some(kept) = setting(set, OptionName::Variants) else {
        return None;
    };
    let Some(steps) = setting(set, OptionName::Steps) else {
        return None;
    };
    let Some(workers) = setting(set, OptionName::Workers) else {
        return None;
    };
    let reach = Reach {
        levels: levels as u32,
        variants: kept as u32,
        steps,
    };
    Some(Search { reach, workers })
}

// `work` and its number.
fn work(word: &[u8]) -> Option<Command<'static>>
    ensures { TellsAs (work_of (number_of word.now)) result }
{
    let Some(n) = number(word) else {
        return None;
    };
    if n < LEAST_WORK {
        return None;
    }
    if MOST_WORK < n {
        return None;
    }
    Some(Command::Work(n))
}

// A search for variants of a term.
fn variants<'a>(word: &'a [u8], set: Settings) -> Option<Command<'a>>
    ensures { TellsAs (variants_from word.now (standing_in set)) result }
{
    match search_set(set) {
        None => None,
        Some(s) => Some(Command::Variants(word, s.reach, s.workers)),
    }
}

// A search for unifiers modulo the equations.
fn vunify<'a>(word: &'a [u8], set: Settings) -> Option<Command<'a>>
    ensures { TellsAs (vunify_from word.now (standing_in set)) result }
{
    match search_set(set) {
        None => None,
        Some(s) => Some(Command::Vunify(word, s.reach, s.workers)),
    }
}

// The command of this name with one operand and without options.
fn bare_with<'a>(name: &[u8], word: &'a [u8]) -> Option<Command<'a>>
    ensures { TellsAs (bare_with name.now word.now) result }
{
    if name == b"unify".as_slice() {
        return Some(Command::Unify(word));
    }
    if name == b"terminates".as_slice() {
        return Some(Command::Terminates(word));
    }
    if name == b"work".as_slice() {
        return work(word);
    }
    None
}

// The command of this name with one operand.
fn command_with<'a>(name: &[u8], word: &'a [u8], set: Settings) -> Option<Command<'a>>
    ensures { TellsAs (command_with name.now word.now (standing_in set)) result }
{
    if name == b"variants".as_slice() {
        return variants(word, set);
    }
    if name == b"vunify".as_slice() {
        return vunify(word, set);
    }
    if is_bare(set) {
        bare_with(name, word)
    } else {
        None
    }
}

// `verify` and its steps.
fn verify<'a>(problem: &'a [u8], bindings: &'a [u8], set: Settings) -> Option<Command<'a>>
    ensures { TellsAs (verify_from problem.now bindings.now (standing_in set)) result }
{
    if !is_steps_alone(set) {
        return None;
    }
    match setting(set, OptionName::Steps) {
        None => None,
        Some(steps) => Some(Command::Verify(problem, bindings, steps)),
    }
}

// The command of this name with two operands.
fn command_with_two<'a>(
    name: &[u8],
    problem: &'a [u8],
    bindings: &'a [u8],
    set: Settings,
) -> Option<Command<'a>>
    ensures { TellsAs (command_with_two name.now problem.now bindings.now (standing_in set))
        result }
{
    if name == b"verify".as_slice() {
        return verify(problem, bindings, set);
    }
    None
}

// The command of this name without operands.
fn command_alone(name: &[u8], set: Settings) -> Option<Command<'static>>
    ensures { TellsAs (command_alone name.now (standing_in set)) result }
{
    if name == b"check".as_slice() && is_bare(set) {
        return Some(Command::Check);
    }
    None
}

// The command of this name with the operands at these places.
pub(crate) fn command_at<'a>(
    name: &[u8],
    words: &'a [String],
    operands: Places,
    set: Settings,
) -> Option<Command<'a>>
    requires { AreBelow (length words.now) operands }
    ensures { TellsAs (command_from name.now (operands_of (map string_bytes words.now) operands)
        (standing_in set)) result }
{
    match operands {
        Places::Zero => command_alone(name, set),
        Places::One(i) => command_with(name, words[i].as_bytes(), set),
        Places::Two(i, j) => command_with_two(name, words[i].as_bytes(), words[j].as_bytes(), set),
    }
}
