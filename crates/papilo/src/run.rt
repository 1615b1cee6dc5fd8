//! The whole program, over files, a sink, a gate and an onlooker that its caller hands in.

ghost use Rattle.std.specs.Prelude.{◌≡◌, ◌≢◌, ◌≤◌, ◌⊎◌, ℕ, List};
ghost use Rattle.file_ports.specs.Ports.{Rose, Grown};
ghost use Rattle.command_app.specs.Line.{texts};
ghost use Rattle.command_line.specs.Line.{asked};
ghost use Rattle.endings.specs.Ending.{status_of, text_of};
ghost use Rattle.endings.specs.Moments.{IsQuiet};
ghost use Rattle.papilo.specs.Runs.{AreRefused, AreThere, Ends, IsQuietBut, IsUnwritten, KeepsUnasked, Prints, ray_asked};

use check_command::check;
use command_words::{Refusal, Request};
use endings::Ending;
use file_ports::{Files, Sink};
use gen_command::generate;
use migrate_command::migrate;
use postsolve_command::postsolve;
use presolve_command::presolve;
use presolve_command::presolve_rounds::Onlooker;
use solve_command::solve;
use std::alloc::Global;
use std::sync::Wait;
use std::thread::Threads;
use verify_command::verify;
use worker_gate::Gate;

// Does what the words ask for.
fn ending_of<R: Threads + Wait + Sync, F: Files, G: Gate, O: Onlooker>(
    rt: &R,
    alloc: Global,
    words: &[String],
    files: &mut F,
    gate: &G,
    onlooker: &mut O,
) -> Ending
    ensures ends { Ends (asked (texts words.now)) (status_of result) (text_of result) (F.moment files.old) (F.moment files.new) }
    ensures refused { status_of result ≡ 1 → AreRefused (texts words.now) }
{
    match command_line::read(alloc, words) {
        Ok(Request::Presolve(words)) => {
            presolve(rt, alloc, &words, files, gate, onlooker).unwrap_or(Ending::NoMemory)
        }
        Ok(Request::Check(words)) => check(alloc, &words, files).unwrap_or(Ending::NoMemory),
        Ok(Request::Postsolve(words)) => {
            postsolve(alloc, &words, files).unwrap_or(Ending::NoMemory)
        }
        Ok(Request::Migrate(words)) => migrate(alloc, &words, files).unwrap_or(Ending::NoMemory),
        Ok(Request::Verify(words)) => verify(alloc, &words, files).unwrap_or(Ending::NoMemory),
        Ok(Request::Solve(words)) => solve(alloc, &words, files).unwrap_or(Ending::NoMemory),
        Ok(Request::Gen(numbers)) => {
            generate(rt, alloc, numbers, onlooker).unwrap_or(Ending::NoMemory)
        }
        Err(Refusal::Words) => Ending::Usage,
        Err(Refusal::NoMemory) => Ending::NoMemory,
    }
}

/// Does what the words ask for, prints once, and answers the exit status. Workers that race call the gate, and the onlooker is
/// told of the rounds of a presolve.
pub fn run<R: Threads + Wait + Sync, F: Files, S: Sink, G: Gate, O: Onlooker>(
    rt: &R,
    alloc: Global,
    words: &[String],
    files: &mut F,
    out: &mut S,
    gate: &G,
    onlooker: &mut O,
) -> u8
    ensures ends { (status : ℕ) × (printed : List ℕ) × Ends (asked (texts words.now)) status printed (F.moment files.old) (F.moment files.new)
        × Prints result status printed (S.taken out.old) (S.taken out.new) (S.faults out.old) (S.faults out.new) }

    // What that says of the status.
    ensures answers { result ≢ 4 → (printed : List ℕ) × Ends (asked (texts words.now)) result printed (F.moment files.old) (F.moment files.new)
        × Grown (S.taken out.old) (S.taken out.new) printed }
    ensures unwritten { result ≡ 4 → IsUnwritten (asked (texts words.now)) (F.moment files.old) (F.moment files.new) ⊎ Rose (S.faults out.old) (S.faults out.new) }
    ensures refused { result ≡ 1 → AreRefused (texts words.now) }
    ensures known { (result ≤ 10) ⊎ (result ≡ 20) ⊎ (result ≡ 21) ⊎ (result ≡ 22) }

    // And of the files.
    ensures quiet { result ≢ 0 → result ≢ 4 → result ≢ 20 → IsQuiet (F.moment files.old) (F.moment files.new) }
    ensures infeasible { result ≡ 20 → IsQuietBut (ray_asked (asked (texts words.now))) (F.moment files.old) (F.moment files.new) }
    ensures unspent { result ≡ 5 → IsQuiet (F.moment files.old) (F.moment files.new) }
    ensures kept { KeepsUnasked (asked (texts words.now)) (F.moment files.old) (F.moment files.new) }
    ensures read { result ≢ 3 → result ≢ 4 → result ≢ 5 → AreThere (asked (texts words.now)) (F.moment files.old) }
{
    let ending = ending_of(rt, alloc, words, files, gate, onlooker);
    match out.put(ending.text()) {
        Ok(()) => ending.status(),
        Err(_) => 4,
    }
}
