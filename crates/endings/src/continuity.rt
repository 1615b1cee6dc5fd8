//! The line that names a column that has to be whole or is semi-continuous.

ghost use Rattle.std.specs.Prelude.{◌≡◌, ◌++◌, IfOk, OnOk};
ghost use Rattle.endings.specs.Continuity.{not_continuous_text};
ghost use Rattle.endings.specs.ProgramTexts.{column_text};

use lp_model::{Labels, Program};
use std::alloc::{AllocError, Global};

/// Appends the name of a column, if there is one of this id.
pub fn push_column(out: &mut Vec<u8>, program: &Program, id: u32) -> Result<(), AllocError>
    ensures { OnOk result (out.new.items ≡ out.old.items ++ column_text program.now id) }
{
    if (id as usize) < program.column_count() {
        out.extend_from_slice(program.column_name(id as usize).as_bytes())?;
    }
    Ok(())
}

/// The line that names a column that has to be whole or is semi-continuous, where none may be.
pub fn not_continuous_text(
    alloc: Global,
    program: &Program,
    column: u32,
) -> Result<Vec<u8>, AllocError>
    ensures { IfOk result (λ text. text.items ≡ not_continuous_text program.now column) }
{
    let mut text = Vec::new(alloc);
    text.extend_from_slice(b"not continuous: ")?;
    push_column(&mut text, program, column)?;
    text.push(b'\n')?;
    Ok(text)
}
