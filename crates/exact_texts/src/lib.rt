//! The texts of exact numbers of a kind: how they are read and how they are written.
//!
//! A [`Frac`] is read from any text whose number has room in it. Numbers of other widths may be read from longer texts, and are written with
//! what digits they have.
#![tactic(auto)]

ghost use Rattle.std.specs.Prelude.{◌≡◌, ◌++◌, IfOk, OnErr, OnOk};
ghost use Rattle.exact_texts.specs.Texts.{IsField, Texts, ReadsAgain, result_by};

mod words;

use exact_numbers::Exact;
use number_texts::ReadNumber;
use std::alloc::{AllocError, Global};

/// Exact numbers that have texts.
pub trait Textual: Exact {
    /// How they are read and written.
    ghost texts: { Texts };

    /// The number that a text means, or why it means none.
    ///
    /// # Errors
    /// Where memory is short.
    fn read(alloc: Global, text: &[u8]) -> Result<Result<Self, ReadNumber>, AllocError>
        ensures value { IfOk result (λ read. result_by Self.number read ≡ texts.reading text.now) }
        ensures kept { IfOk result (λ read. IfOk read (λ r. Self.room.number (Self.number r))) };

    /// Appends the text of the number.
    ///
    /// # Errors
    /// Where memory is short; then the bytes are those that were there.
    fn push(&self, alloc: Global, out: &mut Vec<u8>) -> Result<(), AllocError>
        ensures text { OnOk result (out.new.items ≡ out.old.items ++ texts.writing (Self.number self.now)) }
        ensures unchanged { OnErr result (out.new.items ≡ out.old.items) };

    /// Tells that the number has room in its kind.
    fn has_room(&self)
        ensures { Self.room.number (Self.number self.now) };

    /// A law: what is written of a number is read as that number, where it is short enough to be read.
    fn reads_again()
        ensures { ReadsAgain texts };

    /// A law: what is written of such a number is one field of a line, with no blank and no control character.
    fn is_field()
        ensures { IsField texts };
}
