//! What is made of IN's text.

ghost use Rattle.std.specs.Prelude.{◌≡◌, ◌≤◌, length, option_map, All, IfOk, IfSome, Some};
ghost use Rattle.fractions.specs.Lowest.{Fits};
ghost use Rattle.lp_model.specs.Names.{names_of_columns, names_of_rows};
ghost use Rattle.point_text.specs.PairText.{pair_text};
ghost use Rattle.file_ports.specs.Ports.{Moment};
ghost use Rattle.command_words.specs.Names.{SolveNames};
ghost use Rattle.endings.specs.Moments.{Finds};
ghost use Rattle.endings.specs.declared.reads.TheConstants.{INPUT_LIMIT};
ghost use Rattle.exact_simplex.specs.Answers.{IsAnswer, IsTrueOf};
ghost use Rattle.solve_command.specs.AnswerText.{optimal_text, past_text};
ghost use Rattle.solve_command.specs.Solving.{AnswersSo, HasRoom, IsMade, solve_form};

use crate::program::continuous_program;
use crate::refusal::Unsolved;
use endings::{Ending, Form};
use exact_simplex::{Solved, solve};
use fractions::frac::Frac;
use lp_model::{Pair, Program};
use point_text::write_pair;
use std::alloc::{AllocError, Global};

/// What is written to SOL, and what is printed.
#[derive(Drop)]
pub struct Texts {
    pub written: Vec<u8>,
    pub printed: Vec<u8>,
}

fn optimal_text(alloc: Global, cost: &Frac, pivots: u64) -> Result<Vec<u8>, AllocError>
    ensures { IfOk result (λ text. text.items ≡ optimal_text cost.now pivots) }
{
    let mut text = Vec::from_slice(alloc, b"optimal cost ")?;
    number_texts::push(&mut text, cost)?;
    let tail = format!(in alloc; "\npivots {pivots}\n")?;
    text.extend_from_slice(tail.as_bytes())?;
    Ok(text)
}

fn past_text(alloc: Global, pivot: u64) -> Result<Vec<u8>, AllocError>
    ensures { IfOk result (λ text. text.items ≡ past_text pivot) }
{
    let line = format!(in alloc; "past pivot {pivot}\n")?;
    Vec::from_slice(alloc, line.as_bytes())
}

/// A number has room. Says so, and does nothing.
fn number_fits(number: &Frac)
    ensures { Fits number.now }
{
    let _parts = number.parts();
}

/// Each number has room. Says so, and does nothing.
fn numbers_fit(numbers: &[Frac])
    ensures { All Fits numbers.now }
{
    for number in numbers {
        number_fits(number);
    }
}

/// The numbers of a pair have room. Says so, and does nothing.
fn pair_fits(pair: &Pair)
    ensures { HasRoom pair.now }
{
    numbers_fit(pair.point.as_slice());
    if let Some(duals) = &pair.duals {
        numbers_fit(duals.as_slice());
    }
}

/// The text of a point with its duals, and the lines of its cost and its pivots.
fn best_texts(
    alloc: Global,
    program: &Program,
    pair: &Pair,
    cost: &Frac,
    pivots: u64,
) -> Result<Texts, AllocError>
    requires point { length pair.now.point ≡ length program.now.columns }
    requires duals { IfSome pair.now.duals (λ y. length y ≡ length program.now.rows) }
    ensures written { IfOk result (λ texts. texts.written.items ≡ pair_text (names_of_columns program.now.columns) (names_of_rows program.now.rows) pair.now.point pair.now.duals) }
    ensures printed { IfOk result (λ texts. texts.printed.items ≡ optimal_text cost.now pivots) }
{
    let written = write_pair(alloc, program, pair)?;
    let printed = optimal_text(alloc, cost, pivots)?;
    Ok(Texts { written, printed })
}

/// What is made of an answer.
fn answered(alloc: Global, program: &Program, most: u64, solved: Solved) -> Result<Texts, Unsolved>
    requires answer { IsAnswer program.now most solved }
    requires right { IsTrueOf program.now solved }
    ensures { AnswersSo program.now most result }
{
    match solved {
        Solved::Optimal { pair, cost, pivots } => {
            pair_fits(&pair);
            Ok(best_texts(alloc, program, &pair, &cost, pivots)?)
        }
        Solved::Infeasible => Err(Unsolved::Ends(Ending::Infeasible)),
        Solved::Unbounded => Err(Unsolved::Ends(Ending::Unbounded)),
        Solved::Spent => Err(Unsolved::Ends(Ending::Spent)),
        Solved::Past { pivot } => Err(Unsolved::Ends(Ending::NoRoom(past_text(alloc, pivot)?))),
    }
}

/// Solves the program of what was found of IN, by so many pivots at most, and makes the texts of its best point.
pub fn solved_texts(
    alloc: Global,
    found: Option<Vec<u8>>,
    form: Form,
    pivots: u64,
) -> Result<Texts, Unsolved>
    requires { IfSome found (λ text. length text.items ≤ INPUT_LIMIT) }
    ensures { (names : SolveNames) → (before now : Moment) → form ≡ solve_form names → pivots ≡ names.pivots
        → Finds INPUT_LIMIT names.input before now (option_map (λ text. text.items) found) → IsMade names result before now }
{
    let program = continuous_program(alloc, found, form)?;
    let solved = solve(alloc, &program, pivots)?;
    answered(alloc, &program, pivots, solved)
}
