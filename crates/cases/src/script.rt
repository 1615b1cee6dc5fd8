//! The script, line by line.

use crate::request::Request;
use crate::runs::Case;
use anyhow::{Context, Result, anyhow};
use case_parts::{again, rule, scans, sums};
use fractions::Numbers;
use std::alloc::Global;
use std::fs;
use std::sync::Wait;
use std::thread::Threads;

/// What a line of text is taken for.
#[derive(Clone, Copy)]
enum Text {
    /// It is put behind the text of the file at this place.
    Of(usize),
    /// The last request, with the line behind the text of the file at this place.
    Each(usize),
    /// The last request, with the line's change made in the file at this place.
    Alter(usize),
    /// A number.
    Number,
    /// No text is expected.
    Nothing,
}

/// A script as far as it was read.
#[derive(Drop)]
pub struct Script<'a, T> {
    alloc: Global,
    /// What the presolver starts its threads with.
    threads: &'a T,
    case: Case,
    request: Request,
    /// What stands behind each line of `each`.
    tail: String,
    text: Text,
}

impl<'a, T: Threads + Wait + Sync> Script<'a, T> {
    pub fn new(alloc: Global, threads: &'a T) -> Script<'a, T> {
        Script {
            alloc,
            threads,
            case: Case::new(alloc),
            request: Request::Nothing,
            tail: String::new(alloc),
            text: Text::Nothing,
        }
    }

    /// Takes the next line.
    pub fn take(&mut self, rt: &HostRuntime, line: &str) -> Result<()> {
        if let Some(text) = line.strip_prefix('|') {
            return self.text(rt, text, "\n");
        }
        if let Some(text) = line.strip_prefix('>') {
            return self.text(rt, text, "");
        }
        if line.is_empty() || line.starts_with('#') {
            return Ok(());
        }
        let (verb, rest) = line.split_once(' ').unwrap_or((line, ""));
        self.command(rt, verb, rest)
    }

    fn command(&mut self, rt: &HostRuntime, verb: &str, rest: &str) -> Result<()> {
        self.text = Text::Nothing;
        match verb {
            "case" => self.begin_case(rt, rest),
            "file" => self.file(rest, None),
            "hold" => self.hold(rest),
            "folder" => self.folder(rt, rest),
            "long" => self.long(rest),
            "room" => self.room(rest),
            "fail" => self.fail(rest),
            "run" => self.run(rt, "papilo", rest, Request::Run),
            "meet" => self.run(rt, "papilo", rest, Request::Meet),
            "explain" => self.run(rt, "papilo-explain", rest, Request::Explain),
            "each" => self.each(rest),
            "alter" => self.alter(rest),
            "begin" => self.beginnings(rt, rest),
            "program" => self.program(rt, rest),
            "look" => self.look(rt, rest),
            "records" => self.records(rt, rest),
            "rule" => self.rule(rt, rest),
            "scan" => self.scan(rt, rest),
            "sums" => self.sums(rt, rest),
            "numbers" => {
                self.text = Text::Number;
                Ok(())
            }
            _ => Err(anyhow!("an unknown word {verb}")),
        }
    }

    fn begin_case(&mut self, rt: &HostRuntime, title: &str) -> Result<()> {
        self.case = Case::new(self.alloc);
        println!(rt; "== {title}")?;
        Ok(())
    }

    fn file(&mut self, name: &str, room: Option<u64>) -> Result<()> {
        let place = self.case.held.len();
        let bytes = Vec::new(self.alloc);
        self.case.put(self.alloc, name, Some(bytes), room)?;
        self.text = Text::Of(place);
        Ok(())
    }

    fn hold(&mut self, rest: &str) -> Result<()> {
        let (name, room) = rest.split_once(' ').context("a name and a number")?;
        self.file(name, Some(room.parse::<u64>()?))
    }

    fn folder(&mut self, rt: &HostRuntime, rest: &str) -> Result<()> {
        let (name, path) = rest.split_once(' ').context("a name and a path")?;
        let bytes = fs::read(rt, path)?;
        self.case.put(self.alloc, name, Some(bytes), None)?;
        Ok(())
    }

    fn long(&mut self, rest: &str) -> Result<()> {
        self.case.long = Some(rest.parse::<u64>()?);
        Ok(())
    }

    fn room(&mut self, rest: &str) -> Result<()> {
        let (name, room) = rest.split_once(' ').context("a name and a number")?;
        let room = room.parse::<u64>()?;
        self.case.put(self.alloc, name, None, Some(room))?;
        Ok(())
    }

    fn fail(&mut self, rest: &str) -> Result<()> {
        let (which, number) = rest.split_once(' ').context("a kind and a number")?;
        let number = number.parse::<u64>()?;
        let calls = match which {
            "reads" => &mut self.case.reads,
            "writes" => &mut self.case.writes,
            "puts" => &mut self.case.puts,
            _ => return Err(anyhow!("an unknown call {which}")),
        };
        calls.push(number)?;
        Ok(())
    }

    fn run(
        &mut self,
        rt: &HostRuntime,
        program: &str,
        words: &str,
        request: Request,
    ) -> Result<()> {
        println!(rt; "$ {words}")?;
        self.case.ask(self.alloc, program, words)?;
        self.request = request;
        self.request.answer(rt, self.threads, &self.case)
    }

    fn each(&mut self, rest: &str) -> Result<()> {
        let (name, tail) = rest.split_once(' ').unwrap_or((rest, ""));
        self.tail = String::from_str(self.alloc, tail)?;
        self.text = Text::Each(self.case.place(name)?);
        Ok(())
    }

    fn alter(&mut self, name: &str) -> Result<()> {
        self.text = Text::Alter(self.case.place(name)?);
        Ok(())
    }

    /// The last request, with each proper beginning of a text, from the longest on.
    fn beginnings(&mut self, rt: &HostRuntime, name: &str) -> Result<()> {
        let place = self.case.place(name)?;
        let length = self.case.bytes(name)?.len();
        for less in 0..length {
            let left = length - less - 1;
            self.case.cut(place, left)?;
            print!(rt; "{left}: ")?;
            self.request
                .answer_of_beginning(rt, self.threads, &self.case)?;
        }
        Ok(())
    }

    fn program(&mut self, rt: &HostRuntime, rest: &str) -> Result<()> {
        let (name, form) = rest.split_once(' ').context("a name and a form")?;
        let place = self.case.place(name)?;
        self.request = Request::Program(place, again::form(form)?);
        self.request.answer(rt, self.threads, &self.case)
    }

    fn look(&mut self, rt: &HostRuntime, rest: &str) -> Result<()> {
        let (name, form) = rest.split_once(' ').context("a name and a form")?;
        let place = self.case.place(name)?;
        self.request = Request::Look(place, again::form(form)?);
        self.request.answer(rt, self.threads, &self.case)
    }

    fn records(&mut self, rt: &HostRuntime, name: &str) -> Result<()> {
        self.request = Request::Records(self.case.place(name)?);
        self.request.answer(rt, self.threads, &self.case)
    }

    fn rule(&mut self, rt: &HostRuntime, rest: &str) -> Result<()> {
        let (name, words) = rest.split_once(' ').context("a name and a reduction")?;
        println!(rt; "{words}")?;
        self.request = Request::Rule(self.case.place(name)?, rule::reduction(words)?);
        self.request.answer(rt, self.threads, &self.case)
    }

    fn scan(&mut self, rt: &HostRuntime, rest: &str) -> Result<()> {
        let (name, bound) = rest.split_once(' ').unwrap_or((rest, ""));
        let place = self.case.place(name)?;
        scans::scanned(rt, self.case.bytes_at(place)?, bound)
    }

    fn sums(&mut self, rt: &HostRuntime, rest: &str) -> Result<()> {
        let (name, edits) = rest.split_once(' ').context("a name and edits")?;
        let place = self.case.place(name)?;
        sums::mended(rt, self.case.bytes_at(place)?, edits)
    }

    fn text(&mut self, rt: &HostRuntime, text: &str, end: &str) -> Result<()> {
        match self.text {
            Text::Of(place) => {
                self.case.extend(place, text.as_bytes())?;
                self.case.extend(place, end.as_bytes())
            }
            Text::Each(place) => self.answer_with(rt, place, text, end),
            Text::Alter(place) => self.answer_altered(rt, place, text),
            Text::Number => number(rt, text),
            Text::Nothing => Err(anyhow!("a text of no file")),
        }
    }

    /// The last request, with a line and the tail behind a text, which stays as it was.
    fn answer_with(&mut self, rt: &HostRuntime, place: usize, text: &str, end: &str) -> Result<()> {
        let length = self.case.bytes_at(place)?.len();
        self.case.extend(place, text.as_bytes())?;
        self.case.extend(place, end.as_bytes())?;
        self.case.extend(place, self.tail.as_bytes())?;
        print!(rt; "{text}: ")?;
        self.request.answer(rt, self.threads, &self.case)?;
        self.case.cut(place, length)
    }

    /// The last request, with a new text where an old one first stands in a file, which stays as it was.
    fn answer_altered(&mut self, rt: &HostRuntime, place: usize, text: &str) -> Result<()> {
        let (old, new) = text.split_once(" => ").context("an old and a new text")?;
        let kept = Vec::from_slice(self.alloc, self.case.bytes_at(place)?)?;
        let old = folded(self.alloc, old)?;
        let new = folded(self.alloc, new)?;
        self.case.alter(self.alloc, place, &old, &new)?;
        print!(rt; "{text}: ")?;
        self.request
            .answer_of_beginning(rt, self.threads, &self.case)?;
        self.case.cut(place, 0)?;
        self.case.extend(place, &kept)
    }
}

/// A text in which `|` stands for the end of a line.
fn folded(alloc: Global, text: &str) -> Result<Vec<u8>> {
    let mut bytes = Vec::new(alloc);
    for byte in text.as_bytes() {
        bytes.push(if *byte == b'|' { b'\n' } else { *byte })?;
    }
    Ok(bytes)
}

/// Prints a word, and what it is as a decimal number and as a fraction.
fn number(rt: &HostRuntime, word: &str) -> Result<()> {
    print!(rt; "{word}: ")?;
    again::number(rt, word, Numbers::Decimal)?;
    print!(rt; ", ")?;
    again::number(rt, word, Numbers::Fractions)?;
    println!(rt; "")?;
    Ok(())
}
