//! The command line of the program `papilo` as one `clap` command with a subcommand for each command of the program, and what `clap` makes
//! of words. `--help` and `--version` are refused words.
#![tactic(auto)]

mod app;

pub use app::matches;
