//! The words that the program is started with: `explain IN [--fractions] [--fixed] [--opb] [--limit N] [--all] [--column NAME] [--row NAME]`.

use clap::builder::ValueParser;
use clap::error::ErrorKind;
use clap::{Arg, ArgAction, ArgMatches, Command};
use command_words::{InputFormat, MOST_RECORDS, PresolveOptions, Refusal};
use std::alloc::{AllocError, Global};

/// What is asked for.
#[derive(Clone, Copy)]
pub struct Words<'a> {
    /// The name of the program's text.
    pub input: &'a str,
    pub options: PresolveOptions,
    /// All that is refused or left is told by its names.
    pub all: bool,
    /// The column whose records are told.
    pub column: Option<&'a str>,
    /// The row whose records are told.
    pub row: Option<&'a str>,
}

// A word behind its name.
fn named<'a>(alloc: Global, id: &'a str) -> Arg<'a> {
    Arg::new(alloc, id).long(id).action(ArgAction::Set)
}

// An option that is given or not.
fn flag<'a>(alloc: Global, id: &'a str) -> Arg<'a> {
    Arg::new(alloc, id).long(id).action(ArgAction::SetTrue)
}

// IN and what presolve takes.
fn presolve_words<'a>(alloc: Global) -> Result<Command<'a>, AllocError> {
    let input = Arg::new(alloc, "in").action(ArgAction::Set).required(true);
    let limit = Arg::new(alloc, "limit")
        .long("limit")
        .value_parser(ValueParser::Unsigned(1, MOST_RECORDS));
    Command::new(alloc, "explain")
        .arg(input)?
        .arg(limit)?
        .arg(flag(alloc, "fractions"))?
        .arg(flag(alloc, "fixed"))?
        .arg(flag(alloc, "opb"))
}

// All words.
fn command<'a>(alloc: Global) -> Result<Command<'a>, AllocError> {
    presolve_words(alloc)?
        .arg(flag(alloc, "all"))?
        .arg(named(alloc, "column"))?
        .arg(named(alloc, "row"))
}

// Whether an option is given.
fn is_given(found: &ArgMatches, id: &str) -> bool {
    match found.get_str(id) {
        Some(text) => text == "true",
        None => false,
    }
}

// The format of IN that is given, or the free one; none where two are given.
fn format_in(found: &ArgMatches) -> Option<InputFormat> {
    match (is_given(found, "fixed"), is_given(found, "opb")) {
        (false, false) => Some(InputFormat::Free),
        (true, false) => Some(InputFormat::Fixed),
        (false, true) => Some(InputFormat::Opb),
        (true, true) => None,
    }
}

// The limit that is given, or the greatest.
fn limit_in(found: &ArgMatches) -> u64 {
    match found.get_str("limit") {
        Some(text) => text.parse::<u64>().unwrap_or(MOST_RECORDS),
        None => MOST_RECORDS,
    }
}

// What clap makes of the words.
fn matches<'a>(alloc: Global, words: &'a [String]) -> Result<ArgMatches<'a>, Refusal> {
    let Ok(command) = command(alloc) else {
        return Err(Refusal::NoMemory);
    };
    match command.try_get_matches_from(words) {
        Ok(found) => Ok(found),
        Err(error) => match error.kind() {
            ErrorKind::OutOfMemory => Err(Refusal::NoMemory),
            _ => Err(Refusal::Words),
        },
    }
}

/// What the words ask for; the first word is the program's own name.
///
/// # Errors
/// `Words` where `clap` does not take them or two formats are given, `NoMemory`.
pub fn read<'a>(alloc: Global, words: &'a [String]) -> Result<Words<'a>, Refusal> {
    let found = matches(alloc, words)?;
    let Some(input) = found.get_str("in") else {
        return Err(Refusal::Words);
    };
    let Some(format) = format_in(&found) else {
        return Err(Refusal::Words);
    };
    Ok(Words {
        input,
        options: PresolveOptions {
            dual: false,
            fractions: is_given(&found, "fractions"),
            format,
            limit: limit_in(&found),
            threads: 1,
            ordered: false,
        },
        all: is_given(&found, "all"),
        column: found.get_str("column"),
        row: found.get_str("row"),
    })
}
