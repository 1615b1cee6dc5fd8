//! What is said of the texts of a program and of a solution or a ray.

ghost use Rattle.std.specs.Prelude.{◌≡◌, ◌<◌, ◌≤◌, ◌^◌, ℕ, List, length, option_map, false, Some, None, IfOk, IfSome};
ghost use Rattle.file_ports.specs.Ports.{Moment};
ghost use Rattle.command_words.specs.Names.{CheckNames};
ghost use Rattle.endings.specs.declared.reads.TheConstants.{INPUT_LIMIT, SOLUTION_LIMIT};
ghost use Rattle.endings.specs.Moments.{Finds, Reads};
ghost use Rattle.endings.specs.Ending.{status_of, text_of};
ghost use Rattle.lp_model.specs.Meaning.{meaning};
ghost use Rattle.lp_model.specs.Optimality.{Continuous};
ghost use Rattle.lp_model.specs.Writable.{EntriesAscend};
ghost use Rattle.ray_text.specs.RayLines.{is_ray_text};
ghost use Rattle.exact_texts.specs.Kinds.{room_of, texts_of};
ghost use Rattle.check_command.specs.GivenTexts.{IsSolutionOf};
ghost use Rattle.check_command.specs.Checked.{SaysCheck, SaysSolution, check_form};

use crate::pair_verdict_text::pair_verdict_ending;
use crate::ray_judging::judge_ray_text;
use crate::verdict_text::verdict_ending;
use endings::{
    Ending, Form, ProgramError, fault_line, not_continuous_text, read_program, solution_fault_line,
};
use exact_numbers::Numbers;
use exact_texts::Textual;
use fractions::frac::Frac;
use lp_check::{first_not_continuous, judge_pair, judge_point};
use lp_model::Program;
use point_text::{PairOf, SolError, read_pair_of};
use ray_text::is_ray;
use std::alloc::{AllocError, Global};
use wide_numbers::Wide;

/// What is said of a point, by numbers of a kind.
fn judge_alone<T: Textual>(
    alloc: Global,
    program: &Program,
    point: &Numbers<T>,
) -> Result<Ending, AllocError>
    requires long { length point.now ≡ length program.now.columns }
    requires few { (length program.now.rows < 2 ^ 32) × (length program.now.columns < 2 ^ 32) }
    ensures { (name : List ℕ) → (before now : Moment) → Reads SOLUTION_LIMIT (before.told name) (λ text. IsSolutionOf T.texts.reading program.now text point.now None)
        → IfOk result (λ ending. SaysSolution T.room T.texts program.now name before now ending) }
{
    match judge_point(alloc, program, point.as_slice()) {
        Ok(verdict) => verdict_ending(alloc, program, verdict),
        Err(error) => Err(error),
    }
}

/// What is said of a point with duals, where no column has to be whole or is semi-continuous.
fn judge_continuous<T: Textual>(
    alloc: Global,
    program: &Program,
    point: &Numbers<T>,
    duals: &Numbers<T>,
) -> Result<Ending, AllocError>
    requires long { length point.now ≡ length program.now.columns }
    requires each { length duals.now ≡ length program.now.rows }
    requires few { (length program.now.rows < 2 ^ 32) × (length program.now.columns < 2 ^ 32) }
    requires ascends { EntriesAscend program.now }
    requires continuous { Continuous (meaning program.now) }
    ensures { (name : List ℕ) → (before now : Moment) → Reads SOLUTION_LIMIT (before.told name) (λ text. IsSolutionOf T.texts.reading program.now text point.now (Some duals.now))
        → IfOk result (λ ending. SaysSolution T.room T.texts program.now name before now ending) }
{
    match judge_pair(alloc, program, point.as_slice(), duals.as_slice()) {
        Ok(verdict) => pair_verdict_ending(alloc, program, verdict),
        Err(error) => Err(error),
    }
}

/// What is said of a point with duals. Where a column has to be whole or is semi-continuous, that is all that is said.
fn judge_with_duals<T: Textual>(
    alloc: Global,
    program: &Program,
    point: &Numbers<T>,
    duals: &Numbers<T>,
) -> Result<Ending, AllocError>
    requires long { length point.now ≡ length program.now.columns }
    requires each { length duals.now ≡ length program.now.rows }
    requires few { (length program.now.rows < 2 ^ 32) × (length program.now.columns < 2 ^ 32) }
    requires ascends { EntriesAscend program.now }
    ensures { (name : List ℕ) → (before now : Moment) → Reads SOLUTION_LIMIT (before.told name) (λ text. IsSolutionOf T.texts.reading program.now text point.now (Some duals.now))
        → IfOk result (λ ending. SaysSolution T.room T.texts program.now name before now ending) }
{
    match first_not_continuous(program) {
        Some(column) => Ok(Ending::Refused(not_continuous_text(alloc, program, column)?)),
        None => judge_continuous(alloc, program, point, duals),
    }
}

/// What is said of a point, with duals if there are any.
fn judge_given<T: Textual>(
    alloc: Global,
    program: &Program,
    pair: &PairOf<T>,
) -> Result<Ending, AllocError>
    requires long { length pair.now.point ≡ length program.now.columns }
    requires each { IfSome pair.now.duals (λ duals. length duals ≡ length program.now.rows) }
    requires few { (length program.now.rows < 2 ^ 32) × (length program.now.columns < 2 ^ 32) }
    requires ascends { EntriesAscend program.now }
    ensures { (name : List ℕ) → (before now : Moment) → Reads SOLUTION_LIMIT (before.told name) (λ text. IsSolutionOf T.texts.reading program.now text pair.now.point pair.now.duals)
        → IfOk result (λ ending. SaysSolution T.room T.texts program.now name before now ending) }
{
    match &pair.duals {
        Some(duals) => judge_with_duals(alloc, program, &pair.point, duals),
        None => judge_alone(alloc, program, &pair.point),
    }
}

/// What is said of a solution's text, by numbers of a kind.
fn judge_solution_text<T: Textual>(
    alloc: Global,
    program: &Program,
    text: &[u8],
) -> Result<Ending, AllocError>
    requires few { (length program.now.rows < 2 ^ 32) × (length program.now.columns < 2 ^ 32) }
    requires ascends { EntriesAscend program.now }
    requires starts { is_ray_text text.now ≡ false }
    ensures { (name : List ℕ) → (before now : Moment) → Finds SOLUTION_LIMIT name before now (Some text.now)
        → IfOk result (λ ending. SaysSolution T.room T.texts program.now name before now ending) }
{
    match read_pair_of::<T, Program>(alloc, text, program) {
        Ok(pair) => judge_given(alloc, program, &pair),
        Err(SolError::Fault(fault)) => {
            Ok(Ending::SolutionRefused(solution_fault_line(alloc, fault)?))
        }
        Err(SolError::NoMemory) => Err(AllocError),
    }
}

/// What is said of the text of a ray or of a solution, by numbers of a kind: its first line that is not blank says which of the two it
/// is. The numbers of a ray are fractions.
fn judge_text<T: Textual>(
    alloc: Global,
    program: &Program,
    text: &[u8],
) -> Result<Ending, AllocError>
    requires few { (length program.now.rows < 2 ^ 32) × (length program.now.columns < 2 ^ 32) }
    requires ascends { EntriesAscend program.now }
    ensures { (name : List ℕ) → (before now : Moment) → Finds SOLUTION_LIMIT name before now (Some text.now)
        → IfOk result (λ ending. SaysSolution T.room T.texts program.now name before now ending) }
{
    if is_ray(text) {
        judge_ray_text(alloc, program, text)
    } else {
        judge_solution_text::<T>(alloc, program, text)
    }
}

/// What is said of SOL's text, by numbers of a kind, none where it is longer than is read.
fn judge_solution<T: Textual>(
    alloc: Global,
    program: &Program,
    solution: Option<Vec<u8>>,
) -> Result<Ending, AllocError>
    requires few { (length program.now.rows < 2 ^ 32) × (length program.now.columns < 2 ^ 32) }
    requires ascends { EntriesAscend program.now }
    ensures { (name : List ℕ) → (before now : Moment) → Finds SOLUTION_LIMIT name before now (option_map (λ text. text.items) solution)
        → IfOk result (λ ending. SaysSolution T.room T.texts program.now name before now ending) }
{
    match solution {
        Some(text) => judge_text::<T>(alloc, program, &text),
        None => Ok(Ending::SolutionRefused(Vec::from_slice(alloc, b"error S6\n")?)),
    }
}

/// What is said of SOL's text, by numbers of any width if they are asked for.
fn judge_by_width(
    alloc: Global,
    program: &Program,
    solution: Option<Vec<u8>>,
    wide: bool,
) -> Result<Ending, AllocError>
    requires few { (length program.now.rows < 2 ^ 32) × (length program.now.columns < 2 ^ 32) }
    requires ascends { EntriesAscend program.now }
    ensures { (name : List ℕ) → (before now : Moment) → Finds SOLUTION_LIMIT name before now (option_map (λ text. text.items) solution)
        → IfOk result (λ ending. SaysSolution (room_of wide) (texts_of wide) program.now name before now ending) }
{
    if wide {
        judge_solution::<Wide>(alloc, program, solution)
    } else {
        judge_solution::<Frac>(alloc, program, solution)
    }
}

/// What is said of a program's text and of SOL's text. Where one is longer than is read, there is none.
pub fn judge(
    alloc: Global,
    input: Option<Vec<u8>>,
    solution: Option<Vec<u8>>,
    form: Form,
    wide: bool,
) -> Result<Ending, AllocError>
    requires { IfSome input (λ text. length text.items ≤ INPUT_LIMIT) }
    ensures { (names : CheckNames) → (before now : Moment) → form ≡ check_form names → wide ≡ names.wide
        → Finds INPUT_LIMIT names.input before now (option_map (λ text. text.items) input)
        → Finds SOLUTION_LIMIT names.solution before now (option_map (λ text. text.items) solution)
        → IfOk result (λ ending. SaysCheck names (status_of ending) (text_of ending) before now) }
{
    let Some(text) = input else {
        return Ok(Ending::Refused(Vec::from_slice(alloc, b"error M17\n")?));
    };
    match read_program(alloc, &text, form) {
        Ok(program) => judge_by_width(alloc, &program, solution, wide),
        Err(ProgramError::Fault(fault)) => Ok(Ending::Refused(fault_line(alloc, fault)?)),
        Err(ProgramError::NoMemory) => Err(AllocError),
    }
}
