//! The commands of the program `papilo`, with the names and options that each is given: what the words of a command line ask for.
#![tactic(auto)]

mod words;

pub use words::{
    CheckWords, GenNumbers, InputFormat, MOST_LINES, MOST_PIVOTS, MOST_RECORDS, MOST_SEED,
    MOST_THREADS, MigrateWords, PostsolveWords, PresolveOptions, PresolveWords, Refusal, Request,
    SolveWords, USUAL_PIVOTS, VerifyWords,
};
