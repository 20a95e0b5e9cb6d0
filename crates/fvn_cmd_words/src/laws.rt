//! The law of words, the contract of a function that does nothing.
ghost use Rattle.fvn_cmd_words.specs.Laws.{WordsAreOneCommand};

/// Words are at most one command.
pub fn words_are_one_command()
    ensures { WordsAreOneCommand }
{}
