//! Reading the words of the command line.
ghost use Rattle.std.specs.Prelude.{◌≡◌, ◌≤◌, length, map, string_bytes};
ghost use Rattle.fvn_cmd_words.specs.Told.{IsRead};
ghost use Rattle.fvn_cmd_words.specs.inner.Keeping.{with_place, taken, ClosedAs, ReadAs};

use crate::command::Command;
use crate::interpreting::command_at;
use crate::kinds::{Mode, Next, next_of};
use crate::options::{Settings, set_once};
use std::string::String;

// The places of operands among the words: no command has more than two.
#[derive(Clone, Copy)]
pub(crate) enum Places {
    Zero,
    One(usize),
    Two(usize, usize),
}

// What was read so far, and what is awaited.
#[derive(Clone, Copy)]
pub(crate) struct State {
    pub(crate) mode: Mode,
    pub(crate) operands: Places,
    pub(crate) set: Settings,
}

// One operand more; nothing for a third.
fn with_place(operands: Places, i: usize) -> Option<Places>
    ensures { result ≡ with_place i operands }
{
    match operands {
        Places::Zero => Some(Places::One(i)),
        Places::One(first) => Some(Places::Two(first, i)),
        Places::Two(_, _) => None,
    }
}

// The state behind one more word, which stands at this place; nothing where it is wrong, or one too many.
fn taken(state: State, i: usize, next: Next) -> Option<State>
    ensures { result ≡ taken next i state }
{
    let State {
        mode,
        operands,
        set,
    } = state;
    match next {
        Next::Operand => match with_place(operands, i) {
            None => None,
            Some(operands) => Some(State {
                mode,
                operands,
                set,
            }),
        },
        Next::Set(x, n) => match set_once(set, x, n) {
            None => None,
            Some(set) => Some(State {
                mode: Mode::Usual,
                operands,
                set,
            }),
        },
        Next::To(mode) => Some(State {
            mode,
            operands,
            set,
        }),
        Next::Wrong => None,
    }
}

// What was read, where the words end.
fn closed(state: State) -> Option<State>
    ensures { ClosedAs state result }
{
    match state.mode {
        Mode::Usual => Some(state),
        Mode::Value(_) => None,
        Mode::Operands => Some(state),
    }
}

// The operands and options behind the name; nothing where they are those of no command.
fn arguments_of(words: &[String]) -> Option<State>
    requires { 1 ≤ length words.now }
    ensures { ReadAs (map string_bytes words.now) result }
{
    let mut state = State {
        mode: Mode::Usual,
        operands: Places::Zero,
        set: Settings {
            levels: None,
            variants: None,
            steps: None,
            workers: None,
        },
    };
    for i in 1..words.len() {
        let now = next_of(state.mode, words[i].as_bytes());
        let more = taken(state, i, now);
        match more {
            None => return None,
            Some(other) => state = other,
        }
    }
    closed(state)
}

/// The command that the words are; nothing exactly where they are none.
pub fn read_command(words: &[String]) -> Option<Command<'_>>
    ensures { IsRead (map string_bytes words.now) result }
{
    if words.is_empty() {
        return None;
    }
    let read = arguments_of(words);
    match read {
        None => None,
        Some(state) => command_at(words[0].as_bytes(), words, state.operands, state.set),
    }
}
