//! Cards: a space before each word, and a line feed at the end.

ghost use Rattle.std.specs.Prelude.{◌≡◌, ◌++◌, ◌∷◌, [], OnOk};
ghost use Rattle.number_texts.specs.Written.{written};
ghost use Rattle.mps_writer.specs.Cards.{card};
ghost use Rattle.mps_writer.specs.Sections.{bound_card, bound_at_card, infinite_bound_card};

use fractions::frac::Frac;
use std::alloc::AllocError;

/// Appends a word of a card.
fn push_word(out: &mut Vec<u8>, word: &[u8]) -> Result<(), AllocError>
    ensures { OnOk result (out.new.items ≡ out.old.items ++ 32 ∷ word.now) }
{
    out.push(b' ')?;
    out.extend_from_slice(word)
}

/// Appends the value at a card's end.
fn push_value(out: &mut Vec<u8>, value: &Frac) -> Result<(), AllocError>
    ensures { OnOk result (out.new.items ≡ out.old.items ++ 32 ∷ (written value.now ++ 10 ∷ [])) }
{
    out.push(b' ')?;
    number_texts::push(out, value)?;
    out.extend_from_slice(b"\n")
}

/// Appends a card of two words.
pub fn push_card(out: &mut Vec<u8>, first: &[u8], second: &[u8]) -> Result<(), AllocError>
    ensures { OnOk result (out.new.items ≡ out.old.items ++ card (first.now ∷ second.now ∷ [])) }
{
    push_word(out, first)?;
    push_word(out, second)?;
    out.extend_from_slice(b"\n")
}

/// Appends a card of two words and a value.
pub fn push_value_card(
    out: &mut Vec<u8>,
    first: &[u8],
    second: &[u8],
    value: &Frac,
) -> Result<(), AllocError>
    ensures { OnOk result (out.new.items ≡ out.old.items ++ card (first.now ∷ second.now ∷ written value.now ∷ [])) }
{
    push_word(out, first)?;
    push_word(out, second)?;
    push_value(out, value)
}

/// Appends a bound without a value.
pub fn push_bound(out: &mut Vec<u8>, kind: &[u8], column: &[u8]) -> Result<(), AllocError>
    ensures { OnOk result (out.new.items ≡ out.old.items ++ bound_card kind.now column.now) }
{
    push_word(out, kind)?;
    push_card(out, b"BND", column)
}

/// Appends a bound with its value.
pub fn push_bound_at(
    out: &mut Vec<u8>,
    kind: &[u8],
    column: &[u8],
    value: &Frac,
) -> Result<(), AllocError>
    ensures { OnOk result (out.new.items ≡ out.old.items ++ bound_at_card kind.now column.now value.now) }
{
    push_word(out, kind)?;
    push_value_card(out, b"BND", column, value)
}

/// Appends a bound that is infinite, with the word for it.
pub fn push_infinite_bound(out: &mut Vec<u8>, kind: &[u8], column: &[u8]) -> Result<(), AllocError>
    ensures { OnOk result (out.new.items ≡ out.old.items ++ infinite_bound_card kind.now column.now) }
{
    push_word(out, kind)?;
    push_word(out, b"BND")?;
    push_card(out, column, b"inf")
}
