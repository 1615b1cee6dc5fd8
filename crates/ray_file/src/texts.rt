//! The texts of a ray, and of one whose numbers have no room.

ghost use Rattle.std.specs.Prelude.{◌≡◌, ◌<◌, ◌^◌, ℕ, length, true, All, IfOk, IsErrOf};
ghost use Rattle.fractions.specs.Lowest.{Fits};
ghost use Rattle.lp_model.specs.Meaning.{meaning};
ghost use Rattle.lp_model.specs.Optimality.{Continuous};
ghost use Rattle.lp_model.specs.Writable.{EntriesAscend};
ghost use Rattle.endings.specs.Forms.{numbers_in};
ghost use Rattle.endings.specs.ProgramTexts.{HasNoFault, program_in};
ghost use Rattle.presolve_model.specs.Meanings.{says_no_point};
ghost use Rattle.ray_file.specs.Telling.{past_lines, StopsAt, TellsRay};
ghost use Rattle.ray_text.specs.RayText.{HasRoom};
ghost use Rattle.run_rays.specs.Lifting.{IsEndOf};
ghost use Rattle.run_rays.specs.declared.of_run.RayError.TheVariants.{Past};

use endings::{Form, ProgramError, read_program};
use fractions::Numbers;
use fractions::frac::Frac;
use lp_model::Program;
use lp_rays::Ray;
use presolve_model::{Reduction, Verdict};
use ray_text::write_ray;
use run_rays::{RayError, ray};
use std::alloc::{AllocError, Global};

/// The program of a text that has no fault.
///
/// # Errors
/// Memory ran out.
fn program_of(alloc: Global, text: &[u8], form: Form) -> Result<Program, AllocError>
    requires few_bytes { length text.now < 2 ^ 32 }
    requires sound { HasNoFault form text.now }
    ensures program { IfOk result (λ program. program ≡ program_in form text.now) }
    ensures few { IfOk result (λ program. (length program.rows < 2 ^ 32) × (length program.columns < 2 ^ 32)) }
    ensures ascends { IfOk result (λ program. EntriesAscend program) }
{
    match read_program(alloc, text, form) {
        Ok(program) => Ok(program),
        Err(ProgramError::NoMemory) => Err(AllocError),
        Err(ProgramError::Fault(_)) => unreachable!(),
    }
}

/// A number has room. Says so, and does nothing.
fn number_fits(number: &Frac)
    ensures { Fits number.now }
{
    let _parts = number.parts();
}

/// Each number has room. Says so, and does nothing.
fn numbers_fit(numbers: &[Frac])
    ensures { All Fits numbers.now }
{
    for number in numbers {
        number_fits(number);
    }
}

/// Each weight of a ray has room. Says so, and does nothing.
fn ray_fits(ray: &Ray)
    ensures { HasRoom ray.now }
{
    numbers_fit(ray.lower_sides());
    numbers_fit(ray.upper_sides());
    numbers_fit(ray.lower_bounds());
    numbers_fit(ray.upper_bounds());
}

/// The text of the ray of a program.
///
/// # Errors
/// That of [`ray`].
fn text_of(
    alloc: Global,
    program: &Program,
    numbers: Numbers,
    history: &[Reduction],
    verdict: Verdict,
) -> Result<Vec<u8>, RayError>
    requires few_rows { length program.now.rows < 2 ^ 32 }
    requires few_columns { length program.now.columns < 2 ^ 32 }
    requires ascends { EntriesAscend program.now }
    requires continuous { Continuous (meaning program.now) }
    requires end { IsEndOf numbers program.now history.now verdict }
    requires infeasible { says_no_point verdict ≡ true }
    ensures told { IfOk result (λ told. TellsRay program.now history.now verdict told.items) }
    ensures past { (at : ℕ) → IsErrOf result (Past at) → StopsAt program.now history.now verdict at }
{
    let ray = ray(alloc, program, numbers, history, verdict)?;
    ray_fits(&ray);
    Ok(write_ray(alloc, program, &ray)?)
}

/// The text of the ray of a text's program, which has no feasible point, by the history and the verdict of its run.
///
/// # Errors
/// That of [`ray`].
pub fn text_of_ray(
    alloc: Global,
    text: &[u8],
    form: Form,
    history: &[Reduction],
    verdict: Verdict,
) -> Result<Vec<u8>, RayError>
    requires few_bytes { length text.now < 2 ^ 32 }
    requires sound { HasNoFault form text.now }
    requires continuous { Continuous (meaning (program_in form text.now)) }
    requires end { IsEndOf (numbers_in form) (program_in form text.now) history.now verdict }
    requires infeasible { says_no_point verdict ≡ true }
    ensures told { IfOk result (λ told. TellsRay (program_in form text.now) history.now verdict told.items) }
    ensures past { (at : ℕ) → IsErrOf result (Past at) → StopsAt (program_in form text.now) history.now verdict at }
{
    let program = program_of(alloc, text, form)?;
    text_of(alloc, &program, form.numbers(), history, verdict)
}

/// The lines that say that a program has no feasible point, and where a number of its ray has no room.
pub fn past_text(alloc: Global, at: usize) -> Result<Vec<u8>, AllocError>
    ensures { IfOk result (λ text. text.items ≡ past_lines at) }
{
    let mut text = Vec::from_slice(alloc, b"infeasible\n")?;
    let line = format!(in alloc; "ray past record {at}\n")?;
    text.extend_from_slice(line.as_bytes())?;
    Ok(text)
}
