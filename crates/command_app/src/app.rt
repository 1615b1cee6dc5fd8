// The command line, as a command of `clap`.
ghost use Rattle.std.specs.Prelude.{◌≡◌, ◌≢◌, [], Err, false, IfOk, OnOk, OnErr};
ghost use Rattle.clap.specs.Words.{app_of, kind_of, rule_of, subcommand_rows_of};
ghost use Rattle.clap.specs.declared.builder.command.Command.TheViews.{out-Command};
ghost use Rattle.command_app.specs.Line.{check_app, check_words, dual_app, faults, first_app, flag_rule, formats_app, found_in, gen_app, gen_words, is_taken, limited_app, line_app, migrate_app, needed_rule, name_rule, number_rule, ordered_app, postsolve_app, postsolve_words, presolve_app, presolve_words, ray_app, second_app, solve_app, solve_words, texts, third_app, threaded_app, verify_app, verify_words, word_rule};

use clap::builder::ValueParser;
use clap::error::ErrorKind;
use clap::{Arg, ArgAction, ArgMatches, Command, Error};
use command_words::{MOST_LINES, MOST_PIVOTS, MOST_RECORDS, MOST_SEED, MOST_THREADS, Refusal};
use std::alloc::{AllocError, Global};

// A word that has to stand.
fn word<'a>(alloc: Global, id: &'a str) -> Arg<'a>
    ensures rule { rule_of result ≡ word_rule id.entry.now }
    ensures local { result.global ≡ false }
{
    Arg::new(alloc, id).action(ArgAction::Set).required(true)
}

// A name, behind the option's own.
fn name<'a>(alloc: Global, id: &'a str) -> Arg<'a>
    ensures rule { rule_of result ≡ name_rule id.entry.now }
    ensures local { result.global ≡ false }
{
    Arg::new(alloc, id).long(id).action(ArgAction::Set)
}

// A number from `least` to `most` that has to stand.
fn needed<'a>(alloc: Global, id: &'a str, least: u64, most: u64) -> Arg<'a>
    ensures rule { rule_of result ≡ needed_rule id.entry.now least most }
    ensures local { result.global ≡ false }
{
    word(alloc, id).value_parser(ValueParser::Unsigned(least, most))
}

// A number from 1 to `most`, behind its name.
fn number<'a>(alloc: Global, id: &'a str, most: u64) -> Arg<'a>
    ensures rule { rule_of result ≡ number_rule id.entry.now most }
    ensures local { result.global ≡ false }
{
    Arg::new(alloc, id)
        .long(id)
        .value_parser(ValueParser::Unsigned(1, most))
}

// An option that is given or not.
fn flag<'a>(alloc: Global, id: &'a str) -> Arg<'a>
    ensures rule { rule_of result ≡ flag_rule id.entry.now }
    ensures local { result.global ≡ false }
{
    Arg::new(alloc, id).long(id).action(ArgAction::SetTrue)
}

#[tactic(auto, unfolding(crate::specs::Line::presolve_words))]
fn presolve_words<'a>(alloc: Global) -> Result<Command<'a>, AllocError>
    ensures app { IfOk result (λ command. app_of command ≡ presolve_words) }
    ensures local { IfOk result (λ command. (out-Command command).has_globals ≡ false) }
{
    Command::new(alloc, "presolve")
        .arg(word(alloc, "in"))?
        .arg(word(alloc, "out"))?
        .arg(word(alloc, "rec"))
}

#[tactic(auto, unfolding(crate::specs::Line::threaded_app))]
fn threaded<'a>(alloc: Global) -> Result<Command<'a>, AllocError>
    ensures app { IfOk result (λ command. app_of command ≡ threaded_app) }
    ensures local { IfOk result (λ command. (out-Command command).has_globals ≡ false) }
{
    presolve_words(alloc)?.arg(number(alloc, "threads", MOST_THREADS))
}

#[tactic(auto, unfolding(crate::specs::Line::limited_app))]
fn limited<'a>(alloc: Global) -> Result<Command<'a>, AllocError>
    ensures app { IfOk result (λ command. app_of command ≡ limited_app) }
    ensures local { IfOk result (λ command. (out-Command command).has_globals ≡ false) }
{
    threaded(alloc)?.arg(number(alloc, "limit", MOST_RECORDS))
}

#[tactic(auto, unfolding(crate::specs::Line::dual_app))]
fn with_dual<'a>(alloc: Global) -> Result<Command<'a>, AllocError>
    ensures app { IfOk result (λ command. app_of command ≡ dual_app) }
    ensures local { IfOk result (λ command. (out-Command command).has_globals ≡ false) }
{
    limited(alloc)?.arg(flag(alloc, "dual"))
}

#[tactic(auto, unfolding(crate::specs::Line::ordered_app))]
fn with_ordered<'a>(alloc: Global) -> Result<Command<'a>, AllocError>
    ensures app { IfOk result (λ command. app_of command ≡ ordered_app) }
    ensures local { IfOk result (λ command. (out-Command command).has_globals ≡ false) }
{
    with_dual(alloc)?.arg(flag(alloc, "ordered"))
}

#[tactic(auto, unfolding(crate::specs::Line::ray_app))]
fn with_ray<'a>(alloc: Global) -> Result<Command<'a>, AllocError>
    ensures app { IfOk result (λ command. app_of command ≡ ray_app) }
    ensures local { IfOk result (λ command. (out-Command command).has_globals ≡ false) }
{
    with_ordered(alloc)?.arg(name(alloc, "ray"))
}

#[tactic(auto, unfolding(crate::specs::Line::formats_app))]
fn with_formats<'a>(alloc: Global) -> Result<Command<'a>, AllocError>
    ensures app { IfOk result (λ command. app_of command ≡ formats_app) }
    ensures local { IfOk result (λ command. (out-Command command).has_globals ≡ false) }
{
    with_ray(alloc)?
        .arg(flag(alloc, "fractions"))?
        .arg(flag(alloc, "fixed"))
}

#[tactic(auto, unfolding(crate::specs::Line::presolve_app))]
fn presolve<'a>(alloc: Global) -> Result<Command<'a>, AllocError>
    ensures app { IfOk result (λ command. app_of command ≡ presolve_app) }
    ensures local { IfOk result (λ command. (out-Command command).has_globals ≡ false) }
{
    with_formats(alloc)?.arg(flag(alloc, "opb"))
}

#[tactic(auto, unfolding(crate::specs::Line::check_words))]
fn check_words<'a>(alloc: Global) -> Result<Command<'a>, AllocError>
    ensures app { IfOk result (λ command. app_of command ≡ check_words) }
    ensures local { IfOk result (λ command. (out-Command command).has_globals ≡ false) }
{
    Command::new(alloc, "check")
        .arg(word(alloc, "in"))?
        .arg(word(alloc, "sol"))?
        .arg(flag(alloc, "fixed"))
}

#[tactic(auto, unfolding(crate::specs::Line::check_app))]
fn check<'a>(alloc: Global) -> Result<Command<'a>, AllocError>
    ensures app { IfOk result (λ command. app_of command ≡ check_app) }
    ensures local { IfOk result (λ command. (out-Command command).has_globals ≡ false) }
{
    check_words(alloc)?
        .arg(flag(alloc, "opb"))?
        .arg(flag(alloc, "wide"))
}

#[tactic(auto, unfolding(crate::specs::Line::postsolve_words))]
fn postsolve_words<'a>(alloc: Global) -> Result<Command<'a>, AllocError>
    ensures app { IfOk result (λ command. app_of command ≡ postsolve_words) }
    ensures local { IfOk result (λ command. (out-Command command).has_globals ≡ false) }
{
    Command::new(alloc, "postsolve")
        .arg(word(alloc, "out"))?
        .arg(word(alloc, "rec"))?
        .arg(word(alloc, "sol"))
}

#[tactic(auto, unfolding(crate::specs::Line::postsolve_app))]
fn postsolve<'a>(alloc: Global) -> Result<Command<'a>, AllocError>
    ensures app { IfOk result (λ command. app_of command ≡ postsolve_app) }
    ensures local { IfOk result (λ command. (out-Command command).has_globals ≡ false) }
{
    postsolve_words(alloc)?
        .arg(word(alloc, "result"))?
        .arg(flag(alloc, "wide"))
}

#[tactic(auto, unfolding(crate::specs::Line::migrate_app))]
fn migrate<'a>(alloc: Global) -> Result<Command<'a>, AllocError>
    ensures app { IfOk result (λ command. app_of command ≡ migrate_app) }
    ensures local { IfOk result (λ command. (out-Command command).has_globals ≡ false) }
{
    Command::new(alloc, "migrate")
        .arg(word(alloc, "rec"))?
        .arg(word(alloc, "new"))
}

#[tactic(auto, unfolding(crate::specs::Line::verify_words))]
fn verify_words<'a>(alloc: Global) -> Result<Command<'a>, AllocError>
    ensures app { IfOk result (λ command. app_of command ≡ verify_words) }
    ensures local { IfOk result (λ command. (out-Command command).has_globals ≡ false) }
{
    Command::new(alloc, "verify")
        .arg(word(alloc, "in"))?
        .arg(word(alloc, "out"))?
        .arg(word(alloc, "rec"))
}

#[tactic(auto, unfolding(crate::specs::Line::verify_app))]
fn verify<'a>(alloc: Global) -> Result<Command<'a>, AllocError>
    ensures app { IfOk result (λ command. app_of command ≡ verify_app) }
    ensures local { IfOk result (λ command. (out-Command command).has_globals ≡ false) }
{
    verify_words(alloc)?
        .arg(flag(alloc, "fixed"))?
        .arg(flag(alloc, "opb"))
}

#[tactic(auto, unfolding(crate::specs::Line::solve_words))]
fn solve_words<'a>(alloc: Global) -> Result<Command<'a>, AllocError>
    ensures app { IfOk result (λ command. app_of command ≡ solve_words) }
    ensures local { IfOk result (λ command. (out-Command command).has_globals ≡ false) }
{
    Command::new(alloc, "solve")
        .arg(word(alloc, "in"))?
        .arg(word(alloc, "sol"))?
        .arg(number(alloc, "pivots", MOST_PIVOTS))
}

#[tactic(auto, unfolding(crate::specs::Line::solve_app))]
fn solve<'a>(alloc: Global) -> Result<Command<'a>, AllocError>
    ensures app { IfOk result (λ command. app_of command ≡ solve_app) }
    ensures local { IfOk result (λ command. (out-Command command).has_globals ≡ false) }
{
    solve_words(alloc)?.arg(flag(alloc, "fixed"))
}

#[tactic(auto, unfolding(crate::specs::Line::gen_words))]
fn generator_words<'a>(alloc: Global) -> Result<Command<'a>, AllocError>
    ensures app { IfOk result (λ command. app_of command ≡ gen_words) }
    ensures local { IfOk result (λ command. (out-Command command).has_globals ≡ false) }
{
    Command::new(alloc, "gen")
        .arg(needed(alloc, "seed", 0, MOST_SEED))?
        .arg(needed(alloc, "rows", 1, MOST_LINES))
}

#[tactic(auto, unfolding(crate::specs::Line::gen_app))]
fn generator<'a>(alloc: Global) -> Result<Command<'a>, AllocError>
    ensures app { IfOk result (λ command. app_of command ≡ gen_app) }
    ensures local { IfOk result (λ command. (out-Command command).has_globals ≡ false) }
{
    generator_words(alloc)?.arg(needed(alloc, "cols", 1, MOST_LINES))
}

#[tactic(auto, unfolding(crate::specs::Line::first_app))]
fn first<'a>(alloc: Global) -> Result<Command<'a>, AllocError>
    ensures app { IfOk result (λ command. app_of command ≡ first_app) }
    ensures local { IfOk result (λ command. (out-Command command).has_globals ≡ false) }
{
    let presolve = presolve(alloc)?;
    let check = check(alloc)?;
    Command::new(alloc, "papilo")
        .subcommand(presolve)?
        .subcommand(check)
}

#[tactic(auto, unfolding(crate::specs::Line::second_app))]
fn second<'a>(alloc: Global) -> Result<Command<'a>, AllocError>
    ensures app { IfOk result (λ command. app_of command ≡ second_app) }
    ensures local { IfOk result (λ command. (out-Command command).has_globals ≡ false) }
{
    let postsolve = postsolve(alloc)?;
    let migrate = migrate(alloc)?;
    first(alloc)?.subcommand(postsolve)?.subcommand(migrate)
}

#[tactic(auto, unfolding(crate::specs::Line::third_app))]
fn third<'a>(alloc: Global) -> Result<Command<'a>, AllocError>
    ensures app { IfOk result (λ command. app_of command ≡ third_app) }
    ensures local { IfOk result (λ command. (out-Command command).has_globals ≡ false) }
{
    let verify = verify(alloc)?;
    let solve = solve(alloc)?;
    second(alloc)?.subcommand(verify)?.subcommand(solve)
}

#[tactic(auto, unfolding(crate::specs::Line::line_app))]
fn line<'a>(alloc: Global) -> Result<Command<'a>, AllocError>
    ensures app { IfOk result (λ command. app_of command ≡ line_app) }
{
    let generator = generator(alloc)?;
    third(alloc)?.subcommand(generator)
}

/// What `clap` makes of the words, of which the first is the program's own name.
///
/// # Errors
/// `Words` where `clap` names a fault in them. `NoMemory`.
#[tactic(auto, using(crate::proofs::Simple::line_is_simple, crate::proofs::Simple::line_is_free), unfolding(crate::specs::Line::is_taken, crate::specs::Line::faults, crate::specs::Line::found_in))]
pub fn matches<'a>(alloc: Global, words: &'a [String]) -> Result<ArgMatches<'a>, Refusal>
    ensures rows { IfOk result (λ found. subcommand_rows_of found ≡ found_in (texts words.entry.now)) }
    ensures taken { OnOk result (faults (texts words.entry.now) ≡ []) }
    ensures faulty { result ≡ Err Refusal.Words → faults (texts words.entry.now) ≢ [] }
    ensures untaken { result ≡ Err Refusal.Words → is_taken (texts words.entry.now) ≡ false }
{
    let Ok(command) = line(alloc) else {
        return Err(Refusal::NoMemory);
    };
    match command.try_get_matches_from(words) {
        Ok(found) => Ok(found),
        Err(error) => Err(reason(&error)),
    }
}

fn reason(error: &Error) -> Refusal
    ensures { result ≡ Refusal.Words → kind_of error.now ≢ ErrorKind.OutOfMemory }
{
    match error.kind() {
        ErrorKind::OutOfMemory => Refusal::NoMemory,
        _ => Refusal::Words,
    }
}
