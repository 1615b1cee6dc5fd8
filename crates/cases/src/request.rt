//! What is asked of the files of a case.

use crate::runs::Case;
use anyhow::{Result, anyhow};
use case_parts::{again, rule};
use endings::Form;
use presolve_model::Reduction;
use std::sync::Wait;
use std::thread::Threads;

/// A request; files are named by their places.
#[derive(Clone, Copy)]
pub enum Request {
    Nothing,
    /// A run of the presolver with the case's words.
    Run,
    /// The same through a gate that holds a worker until another was met.
    Meet,
    /// A look inside a presolve with the case's words.
    Explain,
    /// The program of a text, written.
    Program(usize, Form),
    /// A look at the first fault of a text.
    Look(usize, Form),
    /// The records of a text, written.
    Records(usize),
    /// A reduction of the program of a text, by itself.
    Rule(usize, Reduction),
}

impl Request {
    /// Prints the answer.
    pub fn answer<T: Threads + Wait + Sync>(
        &self,
        rt: &HostRuntime,
        threads: &T,
        case: &Case,
    ) -> Result<()> {
        match *self {
            Request::Nothing => Err(anyhow!("nothing is asked")),
            Request::Run => case.run(rt, threads),
            Request::Meet => case.meet(rt, threads),
            Request::Explain => case.explain(rt),
            Request::Program(place, form) => again::program(rt, case.bytes_at(place)?, form),
            Request::Look(place, form) => again::look(rt, case.bytes_at(place)?, form),
            Request::Records(place) => again::records(rt, case.bytes_at(place)?),
            Request::Rule(place, reduction) => rule::applied(rt, case.bytes_at(place)?, reduction),
        }
    }

    /// Prints the answer, that of a run in one line.
    pub fn answer_of_beginning<T: Threads + Wait + Sync>(
        &self,
        rt: &HostRuntime,
        threads: &T,
        case: &Case,
    ) -> Result<()> {
        match *self {
            Request::Run => case.run_in_a_line(rt, threads),
            _ => self.answer(rt, threads, case),
        }
    }
}
