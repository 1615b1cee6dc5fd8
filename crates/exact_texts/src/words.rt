//! The texts of fractions of 127 bits, and of numbers of any width.

ghost use Rattle.std.specs.Prelude.{◌≡◌};
ghost use Rattle.fractions.specs.Lowest.{Fits};

use crate::Textual;
use fractions::frac::Frac;
use number_texts::{Numbers, ReadNumber};
use std::alloc::{AllocError, Global};
use wide_numbers::Wide;

/// The number once more. Says that it has room.
fn kept(number: Frac) -> Frac
    ensures same { result ≡ number }
    ensures fits { Fits result }
{
    let _parts = number.parts();
    number
}

impl Textual for Frac {
    ghost use Rattle.exact_texts.specs.Texts.{frac_texts};

    ghost texts = { frac_texts };

    fn read(alloc: Global, text: &[u8]) -> Result<Result<Frac, ReadNumber>, AllocError> {
        match number_texts::read(text, Numbers::Fractions) {
            Ok(number) => Ok(Ok(kept(number))),
            Err(reason) => Ok(Err(reason)),
        }
    }

    fn push(&self, alloc: Global, out: &mut Vec<u8>) -> Result<(), AllocError> {
        number_texts::push(out, self)
    }

    fn has_room(&self) {
        let _kept = kept(*self);
    }

    fn reads_again() {}

    fn is_field() {}
}

impl Textual for Wide {
    ghost use Rattle.exact_texts.specs.Kinds.{wide_texts};

    ghost texts = { wide_texts };

    fn read(alloc: Global, text: &[u8]) -> Result<Result<Wide, ReadNumber>, AllocError> {
        wide_texts::read(alloc, text)
    }

    fn push(&self, alloc: Global, out: &mut Vec<u8>) -> Result<(), AllocError> {
        wide_texts::push(alloc, out, self)
    }

    fn has_room(&self) {}

    fn reads_again() {
        wide_texts::wide_text_is_alike();
    }

    fn is_field() {
        wide_texts::wide_text_is_field();
    }
}
