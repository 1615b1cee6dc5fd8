// What the words ask for.
ghost use Rattle.std.specs.Prelude.{◌≡◌, ◌≢◌, ◌≤◌, ◌⊎◌, ◌||◌, codes, is_some, IfSome, None, [], Some, Err, false, option_map, true, IfOk, OnOk};
ghost use Rattle.std.specs.Str.Parse.{digits_value, without_leading_plus};
ghost use Rattle.clap.specs.Words.{IsUnsignedIn, first_of, found_of, rows_of, subcommand_rows_of};
ghost use Rattle.command_words.specs.Names.{AreInRange, HasPlaceForRay, HasRange, IsSize, NamesDiffer};
ghost use Rattle.command_app.specs.Line.{faults, is_taken, texts};
ghost use Rattle.command_line.specs.Line.{asked, check_of, format_of, gen_of, has_no_place as no_place, is_on, migrate_of, needed_of, number_in, number_of, options_of, postsolve_of, presolve_of, request_of, selected, selected_in, solve_of, threads_of, verify_of};
ghost use Rattle.command_words.specs.Seen.{check_names_of, migrate_names_of, names_of, postsolve_names_of, seen, solve_names_of, verify_names_of};

use clap::ArgMatches;
use command_app::matches;
use command_words::{
    CheckWords, GenNumbers, InputFormat, MOST_LINES, MOST_PIVOTS, MOST_RECORDS, MOST_SEED,
    MOST_THREADS, MigrateWords, PostsolveWords, PresolveOptions, PresolveWords, Refusal, Request,
    SolveWords, USUAL_PIVOTS, VerifyWords,
};
use std::alloc::Global;

// The first value of a name.
fn value<'a>(found: &ArgMatches<'a>, id: &str) -> Option<&'a str>
    ensures { option_map (λ s. s.now) result ≡ first_of id.now (rows_of (found_of found.now)) }
{
    found.get_str(id)
}

// Whether an option is given.
fn is_given(found: &ArgMatches, id: &str) -> bool
    ensures { result ≡ is_on (first_of id.now (rows_of (found_of found.now))) }
{
    match value(found, id) {
        Some(text) => text == "true",
        None => false,
    }
}

// The value of a text of digits, where it is from `least` to `most`.
fn value_in(text: &str, least: u64, most: u64) -> Option<u64>
    ensures given { IfSome result (λ number. IsUnsignedIn least most text.now × (number ≡ digits_value 10 (without_leading_plus text.now))) }
    ensures none { result ≡ None → IsUnsignedIn least most text.now → ⊥ }
{
    match text.parse::<u64>() {
        Ok(number) => {
            if least <= number && number <= most {
                Some(number)
            } else {
                None
            }
        }
        Err(_) => None,
    }
}

// The number from `least` to `most` that a text says.
fn number_in(text: &str, least: u64, most: u64) -> Option<u64>
    ensures said { result ≡ number_in least most text.now }
    ensures within { IfSome result (λ number. (least ≤ number) × (number ≤ most)) }
{
    value_in(text, least, most)
}

// The number from `least` to `most` that is given.
fn needed(found: &ArgMatches, id: &str, least: u64, most: u64) -> Option<u64>
    ensures said { result ≡ needed_of least most (first_of id.now (rows_of (found_of found.now))) }
    ensures within { IfSome result (λ number. (least ≤ number) × (number ≤ most)) }
{
    let text = value(found, id)?;
    number_in(text, least, most)
}

// The number from 1 to `most` that is given behind a name, or else another.
fn number(found: &ArgMatches, id: &str, most: u64, other: u64) -> Option<u64>
    requires some { 1 ≤ other }
    requires few { other ≤ most }
    ensures said { result ≡ number_of most other (first_of id.now (rows_of (found_of found.now))) }
    ensures within { IfSome result (λ number. (1 ≤ number) × (number ≤ most)) }
{
    match value(found, id) {
        Some(text) => number_in(text, 1, most),
        None => Some(other),
    }
}

// The number of threads that is given, or one.
fn threads(found: &ArgMatches) -> Option<u32>
    ensures said { result ≡ threads_of (rows_of (found_of found.now)) }
    ensures within { IfSome result (λ threads. (1 ≤ threads) × (threads ≤ MOST_THREADS)) }
{
    let threads = number(found, "threads", MOST_THREADS, 1)?;
    Some(threads as u32)
}

// Whether a run has to be in order: that is asked for, or RAY is.
fn is_in_order(found: &ArgMatches) -> bool
    ensures { result ≡ (is_on (first_of (codes "ordered") (rows_of (found_of found.now))) || is_some (first_of (codes "ray") (rows_of (found_of found.now)))) }
{
    is_given(found, "ordered") || value(found, "ray").is_some()
}

// The format of IN that is given, or the free one; none where two are given.
fn input_format(found: &ArgMatches) -> Option<InputFormat>
    ensures { result ≡ format_of (rows_of (found_of found.now)) }
{
    match (is_given(found, "fixed"), is_given(found, "opb")) {
        (false, false) => Some(InputFormat::Free),
        (true, false) => Some(InputFormat::Fixed),
        (false, true) => Some(InputFormat::Opb),
        (true, true) => None,
    }
}

// Whether SOL's numbers may have any width.
fn is_wide(found: &ArgMatches) -> bool
    ensures { result ≡ is_on (first_of (codes "wide") (rows_of (found_of found.now))) }
{
    is_given(found, "wide")
}

// The options for `presolve`.
fn options(found: &ArgMatches) -> Option<PresolveOptions>
    ensures given { result ≡ options_of (rows_of (found_of found.now)) }
    ensures range { IfSome result AreInRange }
    ensures ordered { IfSome result (λ options. is_some (first_of (codes "ray") (rows_of (found_of found.now))) ≡ true → options.ordered ≡ true) }
{
    let format = input_format(found)?;
    let limit = number(found, "limit", MOST_RECORDS, MOST_RECORDS)?;
    let threads = threads(found)?;
    Some(PresolveOptions {
        dual: is_given(found, "dual"),
        fractions: is_given(found, "fractions"),
        format,
        limit,
        threads,
        ordered: is_in_order(found),
    })
}

// Whether RAY has no place: duals aren't asked for, or it is OUT or REC.
fn has_no_place(options: &PresolveOptions, output: &str, records: &str, ray: Option<&str>) -> bool
    ensures { result ≡ no_place options.now output.now records.now (option_map (λ name. name.now) ray.entry) }
{
    match ray {
        None => false,
        Some(ray) => !options.dual || ray == output || ray == records,
    }
}

// The names for `presolve`. OUT and REC may not be one name, and RAY needs a place of its own.
fn presolve<'a>(found: &ArgMatches<'a>) -> Option<PresolveWords<'a>>
    ensures names { option_map names_of result ≡ presolve_of (rows_of (found_of found.now)) }
    ensures differ { IfSome result (λ words. words.output.now ≢ words.records.now) }
    ensures place { IfSome result (λ words. IfSome words.ray (λ ray. HasPlaceForRay words.options words.output.now words.records.now ray.now)) }
    ensures range { IfSome result (λ words. AreInRange words.options) }
{
    let input = value(found, "in")?;
    let output = value(found, "out")?;
    let records = value(found, "rec")?;
    let ray = value(found, "ray");
    let options = options(found)?;
    if output == records || has_no_place(&options, output, records, ray) {
        return None;
    }
    Some(PresolveWords {
        input,
        output,
        records,
        ray,
        options,
    })
}

// The names and the options for `check`.
fn check<'a>(found: &ArgMatches<'a>) -> Option<CheckWords<'a>>
    ensures { option_map check_names_of result ≡ check_of (rows_of (found_of found.now)) }
{
    let input = value(found, "in")?;
    let solution = value(found, "sol")?;
    let format = input_format(found)?;
    Some(CheckWords {
        input,
        solution,
        format,
        wide: is_wide(found),
    })
}

// The names and the option for `postsolve`.
fn postsolve<'a>(found: &ArgMatches<'a>) -> Option<PostsolveWords<'a>>
    ensures { option_map postsolve_names_of result ≡ postsolve_of (rows_of (found_of found.now)) }
{
    let program = value(found, "out")?;
    let records = value(found, "rec")?;
    let solution = value(found, "sol")?;
    let result = value(found, "result")?;
    Some(PostsolveWords {
        program,
        records,
        solution,
        result,
        wide: is_wide(found),
    })
}

// The names for `migrate`. REC and NEW may not be one name.
fn migrate<'a>(found: &ArgMatches<'a>) -> Option<MigrateWords<'a>>
    ensures names { option_map migrate_names_of result ≡ migrate_of (rows_of (found_of found.now)) }
    ensures differ { IfSome result (λ words. words.records.now ≢ words.written.now) }
{
    let records = value(found, "rec")?;
    let written = value(found, "new")?;
    if records == written {
        return None;
    }
    Some(MigrateWords { records, written })
}

// The names for `verify`.
fn verify<'a>(found: &ArgMatches<'a>) -> Option<VerifyWords<'a>>
    ensures { option_map verify_names_of result ≡ verify_of (rows_of (found_of found.now)) }
{
    let input = value(found, "in")?;
    let output = value(found, "out")?;
    let records = value(found, "rec")?;
    let format = input_format(found)?;
    Some(VerifyWords {
        input,
        output,
        records,
        format,
    })
}

// The names and the number of pivots for `solve`. IN and SOL may not be one name.
fn solve<'a>(found: &ArgMatches<'a>) -> Option<SolveWords<'a>>
    ensures names { option_map solve_names_of result ≡ solve_of (rows_of (found_of found.now)) }
    ensures differ { IfSome result (λ words. words.input.now ≢ words.solution.now) }
    ensures range { IfSome result (λ words. (1 ≤ words.pivots) × (words.pivots ≤ MOST_PIVOTS)) }
{
    let input = value(found, "in")?;
    let solution = value(found, "sol")?;
    let pivots = number(found, "pivots", MOST_PIVOTS, USUAL_PIVOTS)?;
    if input == solution {
        return None;
    }
    Some(SolveWords {
        input,
        solution,
        pivots,
        fixed: is_given(found, "fixed"),
    })
}

// The numbers for `gen`.
fn generator(found: &ArgMatches) -> Option<GenNumbers>
    ensures given { result ≡ gen_of (rows_of (found_of found.now)) }
    ensures range { IfSome result IsSize }
{
    let seed = needed(found, "seed", 0, MOST_SEED)?;
    let rows = needed(found, "rows", 1, MOST_LINES)?;
    let columns = needed(found, "cols", 1, MOST_LINES)?;
    Some(GenNumbers {
        seed,
        rows: rows as u32,
        columns: columns as u32,
    })
}

// The command's name and what it was given.
fn command<'m, 'a>(found: &'m ArgMatches<'a>) -> Option<(&'a str, &'m ArgMatches<'a>)>
    ensures { option_map (λ p. (p.0.now, rows_of (found_of p.1.now))) result ≡ subcommand_rows_of found.now }
{
    found.subcommand()
}

// The command of this name, with its names.
fn named_request<'a>(name: &str, given: &ArgMatches<'a>) -> Option<Request<'a>>
    ensures named { option_map seen result ≡ request_of name.now (rows_of (found_of given.now)) }
    ensures differ { IfSome result (λ request. NamesDiffer (seen request)) }
    ensures range { IfSome result (λ request. HasRange (seen request)) }
{
    match name {
        "presolve" => Some(Request::Presolve(presolve(given)?)),
        "check" => Some(Request::Check(check(given)?)),
        "postsolve" => Some(Request::Postsolve(postsolve(given)?)),
        "migrate" => Some(Request::Migrate(migrate(given)?)),
        "verify" => Some(Request::Verify(verify(given)?)),
        "solve" => Some(Request::Solve(solve(given)?)),
        "gen" => Some(Request::Gen(generator(given)?)),
        _ => None,
    }
}

// The command with its names.
fn selected_request<'a>(found: &ArgMatches<'a>) -> Option<Request<'a>>
    ensures selected { option_map seen result ≡ selected_in (subcommand_rows_of found.now) }
    ensures differ { IfSome result (λ request. NamesDiffer (seen request)) }
    ensures range { IfSome result (λ request. HasRange (seen request)) }
{
    let (name, given) = command(found)?;
    named_request(name, given)
}

/// The command that the words ask for; the first word is the program's own name.
///
/// # Errors
/// `Words` where `clap` names a fault in them, as at a limit that is no number from 1 to `MOST_RECORDS`, a number of threads that is
/// none from 1 to `MOST_THREADS`, a number of pivots that is none from 1 to `MOST_PIVOTS`, or a number for `gen` that is not in its range;
/// or OUT and REC are equal words, or REC and NEW, or IN and SOL of `solve`; or RAY is asked for without `--dual`, or is OUT or REC; or
/// `--fixed` and `--opb` are both given. `NoMemory`.
pub fn read<'a>(alloc: Global, words: &'a [String]) -> Result<Request<'a>, Refusal>
    ensures asked { IfOk result (λ request. asked (texts words.entry.now) ≡ Some (seen request)) }
    ensures differ { IfOk result (λ request. NamesDiffer (seen request)) }
    ensures range { IfOk result (λ request. HasRange (seen request)) }
    ensures refused { result ≡ Err Refusal.Words → asked (texts words.entry.now) ≡ None }
    ensures taken { OnOk result (faults (texts words.entry.now) ≡ []) }
    ensures untaken { result ≡ Err Refusal.Words → (is_taken (texts words.entry.now) ≡ false) ⊎ (selected (texts words.entry.now) ≡ None) }
{
    let found = matches(alloc, words)?;
    match selected_request(&found) {
        Some(request) => Ok(request),
        None => Err(Refusal::Words),
    }
}
