//! The files, faults and words of a case, and what runs of it print.

use crate::meeting::Meeting;
use anyhow::{Context, Result, ensure};
use case_parts::long_files::LongFiles;
use case_parts::shown;
use explain_command::answer;
use file_ports::{Files, Held, MemFiles, MemSink, names_differ};
use papilo::presolve_rounds::NoOnlooker;
use papilo::run::run;
use std::alloc::{AllocError, Global};
use std::sync::Wait;
use std::thread::Threads;
use worker_gate::OpenGate;

/// The most bytes that a run may print.
const PRINTED: u64 = 1_000_000;

/// Files in memory, the numbers of the calls that fail, and the words of the last run.
#[derive(Drop)]
pub struct Case {
    pub held: Vec<Held>,
    pub reads: Vec<u64>,
    pub writes: Vec<u64>,
    pub puts: Vec<u64>,
    /// Where all files are of one length, and nothing is told of them.
    pub long: Option<u64>,
    words: Vec<String>,
}

/// What stands before a text and after it, where it first stands in a whole one.
fn around<'a>(whole: &'a [u8], text: &[u8]) -> Option<(&'a [u8], &'a [u8])> {
    for place in 0..whole.len() {
        let (before, rest) = whole.split_at(place);
        if let Some(after) = rest.strip_prefix(text) {
            return Some((before, after));
        }
    }
    None
}

impl Case {
    pub fn new(alloc: Global) -> Case {
        Case {
            held: Vec::new(alloc),
            reads: Vec::new(alloc),
            writes: Vec::new(alloc),
            puts: Vec::new(alloc),
            long: None,
            words: Vec::new(alloc),
        }
    }

    /// Puts a file behind the others.
    pub fn put(
        &mut self,
        alloc: Global,
        name: &str,
        bytes: Option<Vec<u8>>,
        room: Option<u64>,
    ) -> Result<(), AllocError> {
        let name = String::from_str(alloc, name)?;
        self.held.push(Held { name, bytes, room })?;
        Ok(())
    }

    /// The place of a file.
    pub fn place(&self, name: &str) -> Result<usize> {
        self.held
            .iter()
            .position(|one| one.name.as_str() == name)
            .context("no such file")
    }

    /// The bytes of a file.
    pub fn bytes(&self, name: &str) -> Result<&[u8]> {
        self.bytes_at(self.place(name)?)
    }

    /// The bytes of the file at a place.
    pub fn bytes_at(&self, place: usize) -> Result<&[u8]> {
        let one = self.held.get(place).context("no such file")?;
        let bytes = one.bytes.as_ref().context("a file that is missing")?;
        Ok(bytes.as_slice())
    }

    /// Puts bytes behind those that a file holds.
    pub fn extend(&mut self, place: usize, bytes: &[u8]) -> Result<()> {
        let one = self.held.get_mut(place).context("no such file")?;
        let text = one.bytes.as_mut().context("a file that is missing")?;
        text.extend_from_slice(bytes)?;
        Ok(())
    }

    /// Leaves the first bytes of those that a file holds.
    pub fn cut(&mut self, place: usize, length: usize) -> Result<()> {
        let one = self.held.get_mut(place).context("no such file")?;
        let text = one.bytes.as_mut().context("a file that is missing")?;
        text.truncate(length);
        Ok(())
    }

    /// Puts a new text where an old one first stands in a file.
    pub fn alter(&mut self, alloc: Global, place: usize, old: &[u8], new: &[u8]) -> Result<()> {
        let whole = Vec::from_slice(alloc, self.bytes_at(place)?)?;
        let (before, after) = around(&whole, old).context("no such text")?;
        self.cut(place, 0)?;
        self.extend(place, before)?;
        self.extend(place, new)?;
        self.extend(place, after)
    }

    /// Takes the words of a run of a program.
    pub fn ask(&mut self, alloc: Global, program: &str, words: &str) -> Result<(), AllocError> {
        self.words.clear();
        self.words.push(String::from_str(alloc, program)?)?;
        for word in words.split_whitespace() {
            self.words.push(String::from_str(alloc, word)?)?;
        }
        Ok(())
    }

    /// The status of a run of the presolver over these files and this sink.
    fn status_of_run<T: Threads + Wait + Sync, F: Files>(
        &self,
        rt: &HostRuntime,
        threads: &T,
        files: &mut F,
        out: &mut MemSink,
    ) -> u8 {
        run(
            threads,
            rt.alloc(),
            &self.words,
            files,
            out,
            &OpenGate,
            &mut NoOnlooker,
        )
    }

    /// Runs the presolver on files that are too long to hold, and prints its status and its text.
    fn run_long<T: Threads + Wait + Sync>(
        &self,
        rt: &HostRuntime,
        threads: &T,
        length: u64,
    ) -> Result<()> {
        let mut files = LongFiles::new(length);
        let mut out = MemSink::new(rt.alloc(), PRINTED, &self.puts)?;
        let status = self.status_of_run(rt, threads, &mut files, &mut out);
        println!(rt; "status {status}")?;
        shown::text(rt, out.taken())
    }

    /// Runs the presolver, and prints its status, its text and the files that may be written.
    pub fn run<T: Threads + Wait + Sync>(&self, rt: &HostRuntime, threads: &T) -> Result<()> {
        if let Some(length) = self.long {
            return self.run_long(rt, threads, length);
        }
        let alloc = rt.alloc();
        ensure!(names_differ(&self.held), "a file named twice");
        let mut files = MemFiles::new(alloc, &self.held, &self.reads, &self.writes)?;
        let mut out = MemSink::new(alloc, PRINTED, &self.puts)?;
        let status = self.status_of_run(rt, threads, &mut files, &mut out);
        println!(rt; "status {status}")?;
        shown::text(rt, out.taken())?;
        for one in self.held.iter().filter(|one| one.room.is_some()) {
            let name = one.name.as_str();
            match files.bytes(name) {
                Some(bytes) => {
                    println!(rt; "{name}")?;
                    shown::text(rt, bytes)?;
                }
                None => println!(rt; "{name}: nothing told")?,
            }
        }
        Ok(())
    }

    /// Runs the presolver, and prints its status and its text in one line.
    pub fn run_in_a_line<T: Threads + Wait + Sync>(
        &self,
        rt: &HostRuntime,
        threads: &T,
    ) -> Result<()> {
        let alloc = rt.alloc();
        ensure!(names_differ(&self.held), "a file named twice");
        let mut files = MemFiles::new(alloc, &self.held, &self.reads, &self.writes)?;
        let mut out = MemSink::new(alloc, PRINTED, &self.puts)?;
        let status = self.status_of_run(rt, threads, &mut files, &mut out);
        print!(rt; "status {status}")?;
        shown::in_a_line(rt, out.taken())
    }

    /// Runs the presolver through a gate that holds a worker, and prints whether it met the other, how many proposals were answered in the first
    /// round, the status, and the text but the number of records.
    pub fn meet<T: Threads + Wait + Sync>(&self, rt: &HostRuntime, threads: &T) -> Result<()> {
        let alloc = rt.alloc();
        ensure!(names_differ(&self.held), "a file named twice");
        let gate = Meeting::new();
        let mut files = MemFiles::new(alloc, &self.held, &self.reads, &self.writes)?;
        let mut out = MemSink::new(alloc, PRINTED, &self.puts)?;
        let status = run(
            threads,
            alloc,
            &self.words,
            &mut files,
            &mut out,
            &gate,
            &mut NoOnlooker,
        );
        let met = if gate.has_met() { "met" } else { "not met" };
        let answered = gate.answered();
        println!(rt; "{met}, {answered} answered")?;
        println!(rt; "status {status}")?;
        shown::text_but(rt, out.taken(), b"records ")
    }

    /// Looks inside a presolve of files that are too long to hold, and prints the status and the text.
    fn explain_long(&self, rt: &HostRuntime, length: u64) -> Result<()> {
        let mut files = LongFiles::new(length);
        let told = answer(rt, rt.alloc(), &self.words, &mut files, false);
        let status = told.status;
        println!(rt; "status {status}")?;
        shown::text(rt, &told.text)
    }

    /// Looks inside a presolve, and prints the status and the text.
    pub fn explain(&self, rt: &HostRuntime) -> Result<()> {
        if let Some(length) = self.long {
            return self.explain_long(rt, length);
        }
        let alloc = rt.alloc();
        ensure!(names_differ(&self.held), "a file named twice");
        let mut files = MemFiles::new(alloc, &self.held, &self.reads, &self.writes)?;
        let told = answer(rt, alloc, &self.words, &mut files, false);
        let status = told.status;
        println!(rt; "status {status}")?;
        shown::text(rt, &told.text)
    }
}
