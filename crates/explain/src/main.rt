//! A look inside a presolve: which rule did what, what was refused and why, and what became of a row or a column.
#![tactic(auto)]

use explain_command::answer;
use file_ports::{HostFiles, HostOut, Sink};
use std::io::{ErrorKind, IsTerminal};
use std::process::ExitCode;
use std::{env, io};

/// The words of the call. Where one of them is not UTF-8 they are none, and so they are refused.
fn words_of(rt: &HostRuntime) -> io::Result<Vec<String>> {
    match env::args(rt) {
        Ok(words) => Ok(words.collect(rt.alloc())?),
        Err(error) if error.kind() == ErrorKind::InvalidData => Ok(Vec::new(rt.alloc())),
        Err(error) => Err(error),
    }
}

fn main(rt: HostRuntime) -> ExitCode {
    let alloc = rt.alloc();
    let mut out = HostOut::new(io::writer(&rt));
    let Ok(words) = words_of(&rt) else {
        let _ = out.put(b"no memory\n");
        return ExitCode::from(5);
    };
    let mut files = HostFiles::new(&rt);
    let is_shown = rt.stderr().is_terminal();
    let told = answer(&rt, alloc, &words, &mut files, is_shown);
    match out.put(&told.text) {
        Ok(()) => ExitCode::from(told.status),
        Err(_) => ExitCode::from(4),
    }
}
