//! A look at a fault of an OPB text, as it is printed.

use crate::look::push_line;
use crate::places::line_at;
use opb_text::OpbFaultKind;
use std::alloc::{AllocError, Global};
use text_lines::Fault;

/// What to know about a fault.
fn sentence_of(kind: OpbFaultKind) -> &'static str {
    match kind {
        OpbFaultKind::BadToken => {
            "A word here is none of min:, >=, =, ;, a whole number, x1 and ~x1. Words stand apart: >= 1, and not >=1."
        }
        OpbFaultKind::NumberPast => {
            "A number, or a sum of the statement that ends here, is past what is exact here."
        }
        OpbFaultKind::Product => "A literal stands right behind a literal: products are not taken.",
        OpbFaultKind::NoEnd => "The text ends inside a statement. Was it cut off?",
        OpbFaultKind::BadStatement => {
            "A word stands where it may not. A constraint is terms, >= or =, a whole number and ;, and min: is first."
        }
    }
}

/// Puts a look at a fault of `bytes` behind a text: the line, and a sentence.
///
/// # Errors
/// Memory ran out.
pub fn push_opb_look(
    alloc: Global,
    text: &mut Vec<u8>,
    bytes: &[u8],
    fault: Fault<OpbFaultKind>,
) -> Result<(), AllocError> {
    if let Some(line) = line_at(bytes, fault.line as u64) {
        push_line(alloc, text, &line)?;
    }
    text.extend_from_slice(sentence_of(fault.kind).as_bytes())?;
    text.push(b'\n')?;
    Ok(())
}
