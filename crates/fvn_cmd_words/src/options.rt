//! Options, and the numbers that they are set to.
ghost use Rattle.std.specs.Prelude.{◌≡◌, ◌≤◌, IfSome};
ghost use Rattle.fvn_cmd_words.specs.Words.{usual, most};
ghost use Rattle.fvn_cmd_words.specs.inner.Keeping.{told, with_set, set_once, is_bare_set, is_steps_alone, setting_in};
ghost use Rattle.fvn_cmd_words.specs.inner.Reading.{settled};

use crate::limits::{
    LEVELS, MOST_LEVELS, MOST_STEPS, MOST_VARIANTS, MOST_WORKERS, STEPS, USUAL_WORKERS, VARIANTS,
};

/// An option that takes a number.
#[derive(Debug, Clone, Copy, PartialEq, Eq)]
pub enum OptionName {
    Levels,
    Variants,
    Steps,
    Workers,
}

// The number that each option is set to, if it is.
#[derive(Clone, Copy)]
pub(crate) struct Settings {
    pub(crate) levels: Option<u64>,
    pub(crate) variants: Option<u64>,
    pub(crate) steps: Option<u64>,
    pub(crate) workers: Option<u64>,
}

// The number that it has where the words do not tell.
fn usual(x: OptionName) -> u64
    ensures { result ≡ usual x }
{
    match x {
        OptionName::Levels => LEVELS,
        OptionName::Variants => VARIANTS,
        OptionName::Steps => STEPS,
        OptionName::Workers => USUAL_WORKERS,
    }
}

// The greatest number that it takes.
fn most(x: OptionName) -> u64
    ensures { result ≡ most x }
{
    match x {
        OptionName::Levels => MOST_LEVELS,
        OptionName::Variants => MOST_VARIANTS,
        OptionName::Steps => MOST_STEPS,
        OptionName::Workers => MOST_WORKERS,
    }
}

// The number that the option is set to.
fn told(set: Settings, x: OptionName) -> Option<u64>
    ensures { result ≡ told x set }
{
    match x {
        OptionName::Levels => set.levels,
        OptionName::Variants => set.variants,
        OptionName::Steps => set.steps,
        OptionName::Workers => set.workers,
    }
}

// The settings with this one.
fn with_set(set: Settings, x: OptionName, n: u64) -> Settings
    ensures { result ≡ with_set x n set }
{
    let Settings {
        levels,
        variants,
        steps,
        workers,
    } = set;
    let number = Some(n);
    match x {
        OptionName::Levels => Settings {
            levels: number,
            variants,
            steps,
            workers,
        },
        OptionName::Variants => Settings {
            levels,
            variants: number,
            steps,
            workers,
        },
        OptionName::Steps => Settings {
            levels,
            variants,
            steps: number,
            workers,
        },
        OptionName::Workers => Settings {
            levels,
            variants,
            steps,
            workers: number,
        },
    }
}

// The settings with one more; nothing for the second of its name.
pub(crate) fn set_once(set: Settings, x: OptionName, n: u64) -> Option<Settings>
    ensures { result ≡ set_once x n set }
{
    match told(set, x) {
        Some(_) => None,
        None => Some(with_set(set, x, n)),
    }
}

// Whether no option is set.
pub(crate) fn is_bare(set: Settings) -> bool
    ensures { result ≡ is_bare_set set }
{
    if set.levels.is_some() {
        return false;
    }
    if set.variants.is_some() {
        return false;
    }
    if set.steps.is_some() {
        return false;
    }
    set.workers.is_none()
}

// Whether no other option than `--steps` is set.
pub(crate) fn is_steps_alone(set: Settings) -> bool
    ensures { result ≡ is_steps_alone set }
{
    if set.levels.is_some() {
        return false;
    }
    if set.variants.is_some() {
        return false;
    }
    set.workers.is_none()
}

// The number in its range; the usual one where none is told.
fn settled(x: OptionName, told: Option<u64>) -> Option<u64>
    ensures { result ≡ settled x told }
{
    match told {
        None => Some(usual(x)),
        Some(n) => {
            if n < 1 {
                return None;
            }
            if most(x) < n {
                return None;
            }
            Some(n)
        }
    }
}

// The number that the option has.
pub(crate) fn setting(set: Settings, x: OptionName) -> Option<u64>
    ensures exact { result ≡ setting_in x set }
    ensures range { IfSome result (λ n. (1 ≤ n) × (n ≤ most x)) }
{
    settled(x, told(set, x))
}
