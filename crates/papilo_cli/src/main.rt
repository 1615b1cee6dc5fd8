//! An exact presolver for linear and mixed-integer programs in the MPS format.
#![tactic(auto)]

mod counting;
mod progress;

use crate::counting::CountingGate;
use crate::progress::Progress;
use file_ports::{HostFiles, HostOut, Sink};
use papilo::run::run;
use std::io::{ErrorKind, IsTerminal};
use std::process::ExitCode;
use std::{env, io};

/// The words of the call. Where one of them is not UTF-8 they are none, and so they are refused.
fn words_of(rt: &HostRuntime) -> io::Result<Vec<String>> {
    match env::args(rt) {
        Ok(words) => Ok(words.collect(rt.alloc())?),
        Err(error) if error.kind() == ErrorKind::InvalidData => Ok(Vec::new(rt.alloc())),
        Err(error) => Err(error),
    }
}

fn main(rt: HostRuntime) -> ExitCode {
    let alloc = rt.alloc();
    let mut out = HostOut::new(io::writer(&rt));
    let Ok(words) = words_of(&rt) else {
        let _ = out.put(b"no memory\n");
        return ExitCode::from(5);
    };
    let mut files = HostFiles::new(&rt);
    let is_shown = rt.stderr().is_terminal();
    let gate = CountingGate::new(&rt, is_shown);
    let mut progress = Progress::new(&rt, is_shown);
    let status = run(
        &rt,
        alloc,
        &words,
        &mut files,
        &mut out,
        &gate,
        &mut progress,
    );
    ExitCode::from(status)
}
