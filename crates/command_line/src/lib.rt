//! The words that the program `papilo` is started with, read by `clap`.
//!
//! `read` says which command they ask for. Beyond what `clap` refuses, equal names for OUT and REC are refused here, and for REC and
//! NEW. `--help` and `--version` are refused words too.
#![tactic(auto)]

mod reading;

pub use reading::read;
