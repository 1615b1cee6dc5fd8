//! The command `presolve IN OUT REC [--threads T] [--limit N] [--dual] [--ray RAY] [--fractions] [--ordered] [--fixed] [--opb]`.

ghost use Rattle.std.specs.Prelude.{◌≡◌, ◌≢◌, ◌<◌, ◌≤◌, ◌^◌, length, IfOk, IfSome, OnOk, OnErr};
ghost use Rattle.file_ports.specs.Ports.{Written};
ghost use Rattle.command_words.specs.Names.{HasPlaceForRay};
ghost use Rattle.command_words.specs.Seen.{names_of};
ghost use Rattle.command_words.specs.declared.words.TheConstants.{MOST_THREADS};
ghost use Rattle.endings.specs.Ending.{status_of, text_of};
ghost use Rattle.endings.specs.Moments.{IsQuiet, KeepsAllBut};
ghost use Rattle.presolve_command.specs.Presolved.{EndsPresolve, FailsBetween};
ghost use Rattle.presolve_command.specs.Proving.{EndsInfeasible};
ghost use Rattle.presolve_command.specs.Texts.{TextIsInfeasibleBy};

use crate::reduce::{NotReduced, Texts, reduce};
use command_words::PresolveWords;
use endings::{Ending, INPUT_LIMIT, fault_line, form_of};
use file_ports::{Failed, Files, ReadErr};
use presolve_report::presolve_rounds::{DecidedProgram, Onlooker};
use ray_file::{RayError, past_text, text_of_ray};
use std::alloc::{AllocError, Global};
use std::sync::Wait;
use std::thread::Threads;
use worker_gate::Gate;

// Writes the program's text, then the records' text.
fn write_both<F: Files>(
    output: &str,
    records: &str,
    texts: &Texts,
    files: &mut F,
) -> Result<(), Failed>
    requires { output.now ≢ records.now }
    ensures program { OnOk result (Written ((F.moment files.old).told output.now) ((F.moment files.new).told output.now) texts.now.program.items) }
    ensures records { OnOk result (Written ((F.moment files.old).told records.now) ((F.moment files.new).told records.now) texts.now.records.items) }
    ensures others { KeepsAllBut (F.moment files.old).told (F.moment files.new).told output.now records.now }
    ensures failed { OnErr result (FailsBetween output.now texts.now.program.items records.now (F.moment files.old) (F.moment files.new)) }
{
    files.write(output, &texts.program)?;
    files.write(records, &texts.records)
}

/// The ending of a run that found no feasible point of a text's program. Its ray is written, if that is asked for.
fn infeasible<F: Files>(
    alloc: Global,
    words: &PresolveWords<'_>,
    text: &[u8],
    decided: &DecidedProgram,
    files: &mut F,
) -> Result<Ending, AllocError>
    requires few_bytes { length text.now < 2 ^ 32 }
    requires decided { TextIsInfeasibleBy words.now.options text.now decided.now.history.items decided.now.verdict }
    requires placed { IfSome (names_of words.now).ray (HasPlaceForRay words.now.options words.now.output.now words.now.records.now) }
    ensures ends { IfOk result (λ e. EndsInfeasible words.now.options text.now (names_of words.now).ray e (F.moment files.old) (F.moment files.new)) }
    ensures no_memory { OnErr result (IsQuiet (F.moment files.old) (F.moment files.new)) }
{
    let Some(name) = words.ray else {
        return Ok(Ending::Infeasible);
    };
    let history = decided.history.as_slice();
    match text_of_ray(
        alloc,
        text,
        form_of(words.options),
        history,
        decided.verdict,
    ) {
        Ok(ray) => match files.write(name, &ray) {
            Ok(()) => Ok(Ending::Infeasible),
            Err(Failed) => Ok(Ending::WriteFault),
        },
        Err(RayError::Past { at }) => Ok(Ending::RayPast(past_text(alloc, at)?)),
        Err(RayError::NoMemory) => Err(AllocError),
    }
}

/// Reads a program, writes the reduced one and its records; or its ray, where it has no feasible point and a ray is asked for; nothing where
/// it has none of least cost, or duals are asked for and a column has to be whole or is semi-continuous. All that is written and printed is made before the first write.
/// The program's text is held for its ray alone. The gate is called by workers that race, and the onlooker is told of the rounds.
pub fn presolve<R: Threads + Wait + Sync, F: Files, G: Gate, O: Onlooker>(
    rt: &R,
    alloc: Global,
    words: &PresolveWords<'_>,
    files: &mut F,
    gate: &G,
    onlooker: &mut O,
) -> Result<Ending, AllocError>
    requires differ { words.now.output.now ≢ words.now.records.now }
    requires placed { IfSome (names_of words.now).ray (HasPlaceForRay words.now.options words.now.output.now words.now.records.now) }
    requires some_threads { 1 ≤ words.now.options.threads }
    requires few_threads { words.now.options.threads ≤ MOST_THREADS }
    ensures ends { IfOk result (λ e. EndsPresolve (names_of words.now) (status_of e) (text_of e) (F.moment files.old) (F.moment files.new)) }
    ensures no_memory { OnErr result (IsQuiet (F.moment files.old) (F.moment files.new)) }
{
    let mut text = match files.read(alloc, words.input, INPUT_LIMIT) {
        Ok(text) => text,
        Err(ReadErr::Failed) => return Ok(Ending::ReadFault),
        Err(ReadErr::TooLong) => {
            return Ok(Ending::Refused(Vec::from_slice(alloc, b"error M17\n")?));
        }
        Err(ReadErr::NoMemory) => return Err(AllocError),
    };
    let keeps = words.ray.is_some();
    let texts = match reduce(rt, alloc, &mut text, keeps, words.options, gate, onlooker) {
        Ok(texts) => texts,
        Err(NotReduced::Fault(fault)) => return Ok(Ending::Refused(fault_line(alloc, fault)?)),
        Err(NotReduced::NotContinuous(line)) => return Ok(Ending::Refused(line)),
        Err(NotReduced::Infeasible(decided)) => {
            if !keeps {
                return Ok(Ending::Infeasible);
            }
            return infeasible(alloc, words, &text, &decided, files);
        }
        Err(NotReduced::UnboundedOrInfeasible) => return Ok(Ending::UnboundedOrInfeasible),
        Err(NotReduced::NoMemory) => return Err(AllocError),
    };
    match write_both(words.output, words.records, &texts, files) {
        Ok(()) => Ok(Ending::Done(texts.report)),
        Err(Failed) => Ok(Ending::WriteFault),
    }
}
