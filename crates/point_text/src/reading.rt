//! The reading of the lines of a solution.

ghost use Rattle.std.specs.Prelude.{◌≡◌, ◌+◌, ◌<◌, ◌^◌, length, []};
ghost use Rattle.point_text.specs.Holding.{held, Holds, TookAll};
ghost use Rattle.point_text.specs.PairText.{silent};

use crate::faults::SolError;
use crate::solution_lines::split_line;
use crate::values::Values;
use exact_texts::Textual;
use std::alloc::Global;
use text_lines::{Fault, first_line};

/// Takes in the lines of a text that follows so many lines.
pub fn take_lines<T: Textual>(
    alloc: Global,
    values: &mut Values<T>,
    text: &[u8],
    lines_before: u64,
) -> Result<(), SolError>
    requires len { length values.old.numbers.items ≡ length values.old.table }
    requires holds { Holds T.texts.reading [] (held T.number values.old) }
    requires few { lines_before + length text.now < 2 ^ 64 }
    ensures took { TookAll T.texts.reading values.old.table (silent lines_before) text.now result (held T.number values.new) }
    ensures len { length values.new.numbers.items ≡ length values.new.table }
    ensures table { values.new.table ≡ values.old.table }
{
    let mut fields = Vec::new(alloc);
    let mut rest = text;
    let mut number: u64 = lines_before;
    while !rest.is_empty() {
        let (line, after) = first_line(rest);
        number += 1;
        let said = split_line(&mut fields, line)?;
        if let Err(kind) = values.take_line(alloc, said)? {
            return Err(SolError::Fault(Fault { kind, line: number }));
        }
        rest = after;
    }
    Ok(())
}
