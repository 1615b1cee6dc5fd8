//! Points as text: a line for each column, with its name and its value. Duals follow their own line, a line for each row.
#![tactic(auto)]

mod faults;
mod laws;
mod pair_reading;
mod pair_writing;
mod pairs;
mod reading;
mod solution_lines;
mod values;
mod writing;

pub use faults::{SolError, SolFaultKind};
pub use laws::{
    values_are_given, written_pair_is_read, written_pair_is_read_in_kind, written_solution_is_read,
};
pub use pair_reading::{read_pair, read_pair_of};
pub use pair_writing::{write_pair, write_pair_of};
pub use pairs::PairOf;
