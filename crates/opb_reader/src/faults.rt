//! Why a text gives no program, and what is wrong with a line.

ghost use Rattle.std.specs.Prelude.{◌≡◌, Some};
ghost use Rattle.opb_text.specs.Faults.{least};
ghost use Rattle.opb_text.specs.Words.{words_of};
ghost use Rattle.opb_reader.specs.Later.{later_fault};
ghost use Rattle.opb_reader.specs.declared.faults.OpbError.TheVariants.{NoMemory};

use opb_text::OpbFaultKind;
use opb_tokens::{first_word, read_token};
use std::alloc::{AllocError, Global};
use text_lines::Fault;

/// Why a text gives no program.
#[derive(Clone, Copy, Debug, PartialEq, Eq)]
pub enum OpbError {
    /// The first fault by line, and at one line the one with the lowest number. The line of a missing end is one past the last.
    Fault(Fault<OpbFaultKind>),
    /// Want of memory.
    NoMemory,
}

impl From<AllocError> for OpbError {
    ghost from_gives = { λ _ e. e ≡ NoMemory };

    fn from(_e: AllocError) -> OpbError {
        OpbError::NoMemory
    }
}

/// Of two faults, where there is a second one, that with the lower number.
fn least(kind: OpbFaultKind, other: Option<OpbFaultKind>) -> OpbFaultKind
    ensures { Some result ≡ least (Some kind) other }
{
    match other {
        Some(other) => kind.lesser(other),
        None => kind,
    }
}

/// The fault of a line with the lowest number, where one is found, and behind it tokens are looked at by themselves. `line` is what is left of
/// it, and no comment.
pub fn least_fault(found: OpbFaultKind, after_literal: bool, line: &[u8]) -> OpbFaultKind
    ensures { Some result ≡ least (Some found) (later_fault after_literal (words_of line.now)) }
{
    let mut kind = found;
    let mut is_after = after_literal;
    let mut rest = line;
    while let Some((word, more)) = first_word(rest) {
        let token = read_token(word);
        kind = least(kind, token.fault(is_after));
        is_after = token.is_literal();
        rest = more;
    }
    kind
}
