//! Cases of the whole presolver as data: a script on standard input says what files hold in memory and what the program is asked, and
//! status, printed text and files are printed for each run.
//!
//! A line of the script begins with one of these words:
//! - `case TITLE`: a new case; no file, no fault and no word of the one before stays
//! - `file NAME`: a file that may not be written; the lines that follow are its text
//! - `folder NAME PATH`: the same, with the bytes of a file of the folder that the program runs in
//! - `long N`: all files have N bytes, which are more than memory takes; nothing is told of them, and none can be written
//! - `room NAME N`: a file that is missing and takes up to N bytes
//! - `hold NAME N`: a file that holds the lines that follow and takes up to N bytes in their place
//! - `fail reads N`, `fail writes N`, `fail puts N`: the Nth call fails
//! - `run WORD ..`: runs the presolver with these words
//! - `meet WORD ..`: the same, where a gate holds the worker of the first task until the second one was answered; tells whether it was, and how
//!   many proposals were answered in the first round
//! - `explain WORD ..`: looks inside a presolve, with these words of `papilo-explain`
//! - `program NAME FORMAT NUMBERS`, `program NAME opb`: reads the program of a file's text, and writes it
//! - `look NAME FORMAT NUMBERS`, `look NAME opb`: shows the first fault of a file's text, with its field marked
//! - `records NAME`: reads the records of a file's text, and writes them in the second version
//! - `rule NAME WORD ..`: applies the reduction that the words name, as a record names it, to the program of a file's text, by itself
//! - `scan NAME [J SIDE N]`: tells what is enabled on the problem of a file's text, rule by rule, where that bound was tightened N times
//! - `sums NAME EDIT; ..`: makes edits, one after the other, of the problem of a file's text, and tells its rows' sums before the first and
//!   after each: `bounds J L U`, `sides I L U`, `entry I J A`, `row I` or `column J`, by ids, `-` for no end
//! - `each NAME TAIL`: the last of these again for each line that follows, as if the line, and then the tail, stood behind the
//!   text of that file
//! - `alter NAME`: the last of these again for each line `OLD => NEW` that follows, with NEW where OLD first stands in the text of that file, `|`
//!   for the end of a line; of a run the status and what is printed, in one line
//! - `begin NAME`: the last of these again for each proper beginning of the text of that file, from the longest on; of a run the length, the
//!   status and what is printed, in one line
//! - `numbers`: reads each line that follows as a number, decimal and as a fraction, and writes it
//!
//! A line of text has `|` in front, or `>` where no line feed ends it. Lines that begin with `#`, and empty ones, are for the reader.
#![tactic(auto)]

mod meeting;
mod request;
mod runs;
mod script;

use anyhow::Result;
use script::Script;

fn main(rt: HostRuntime) -> Result<()> {
    let mut script = Script::new(rt.alloc(), &rt);
    for line in rt.lines(rt.alloc()) {
        let line = line?;
        script.take(&rt, line.as_str())?;
    }
    Ok(())
}
