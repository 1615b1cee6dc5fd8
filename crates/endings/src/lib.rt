//! How a command ends, and what its ending says of the files.
//!
//! An [`Ending`] holds the status and the printed text. `specs/` says what files tell before and after a command, and what it is to
//! name a fault of a text that a file holds.
#![tactic(auto)]

mod continuity;
mod ending;
mod faults;
mod forms;
mod reads;

pub use continuity::{not_continuous_text, push_column};
pub use ending::Ending;
pub use faults::{fault_line, solution_fault_line};
pub use forms::{
    Form, ProgramError, ProgramFault, form_of, form_with, fractions_form, read_program,
};
pub use reads::{INPUT_LIMIT, SOLUTION_LIMIT, Unread, read_within};
