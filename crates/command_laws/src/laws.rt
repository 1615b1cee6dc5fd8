//! What words that `clap` takes ask for.

ghost use Rattle.command_laws.specs.Asking.{TakenWordsAsk};

/// Where `clap` takes the words and finds a command in them, they ask for that command with all its names, but for `presolve` with equal
/// names for OUT and REC, `migrate` with equal names for REC and NEW, and `solve` with equal names for IN and SOL; and for `presolve` with a
/// name for RAY, but without `--dual`, or with the name of OUT or REC; and for `presolve`, `check` and `verify` with `--fixed` and `--opb`.
pub fn taken_words_of_a_command_ask_for_something()
    ensures { TakenWordsAsk }
{}
