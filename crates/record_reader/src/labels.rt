//! The lines of labels.

ghost use Rattle.std.specs.Prelude.{◌≡◌, IfOk};
ghost use Rattle.record_reader.specs.Labels.{label_named, label_of};

use crate::line_parts::{behind, front};
use lp_model::{Name, is_name};
use std::alloc::{AllocError, Global};
use undo_records::Label;

/// A label with a name, if it is one.
fn label_named(alloc: Global, live: bool, name: &[u8]) -> Result<Option<Label>, AllocError>
    ensures { IfOk result (λ label. label ≡ label_named live name.now) }
{
    if !is_name(name) {
        return Ok(None);
    }
    let name = Name::from_slice(alloc, name)?;
    Ok(Some(Label { name, live }))
}

/// The label that a line is.
pub fn label_of(alloc: Global, line: &[u8]) -> Result<Option<Label>, AllocError>
    ensures { IfOk result (λ label. label ≡ label_of line.now) }
{
    if front(line, 5) == b"live ".as_slice() {
        return label_named(alloc, true, behind(line, 5));
    }
    if front(line, 5) == b"gone ".as_slice() {
        return label_named(alloc, false, behind(line, 5));
    }
    Ok(None)
}
