//! Files and a sink as a program sees them: what they hold, where it is told, and counts of their faults.
//!
//! A program over the traits `Files` and `Sink` runs over the system's files and standard output (`HostFiles`, `HostOut`), and over
//! lists in memory whose calls fail where a test wants it (`MemFiles`, `MemSink`).
#![tactic(auto)]

mod entry;
mod files;
mod host;
mod memory_files;
mod memory_sink;
mod replacing;
mod sink;

pub use entry::{Held, names_differ};
pub use files::{Failed, Files, ReadErr};
pub use host::{HostFiles, HostOut};
pub use memory_files::MemFiles;
pub use memory_sink::MemSink;
pub use sink::Sink;
