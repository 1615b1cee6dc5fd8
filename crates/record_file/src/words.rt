//! The words of a line, each behind a space.

ghost use Rattle.std.specs.Prelude.{◌≡◌, ◌++◌, ◌∷◌, [], codes, map, OnOk};
ghost use Rattle.std.specs.Fmt.{decimal};
ghost use Rattle.record_file.specs.Words.{ratio_word, lower_word, upper_word, letter_word, side_word, bound_word, fate_word, list_words, kind_word, part_words};
ghost use Rattle.record_file.specs.Onto.{words_onto};

use fractions::ext::Ext;
use fractions::frac::Frac;
use lp_model::Term;
use number_texts::naturals::{MOST_DIGITS, push_natural, put_digits};
use problem_model::Part;
use std::alloc::AllocError;
use undo_records::{RowFate, Side};

/// Appends a number of 64 bits. Room is made once for all its digits.
#[tactic(auto, using(number_texts::proofs::DigitLaws::digits_laws))]
pub fn push_number(out: &mut Vec<u8>, number: u64) -> Result<(), AllocError>
    ensures { OnOk result (out.new.items ≡ out.old.items ++ 32 ∷ decimal number) }
{
    out.reserve(1 + MOST_DIGITS)?;
    out.push_reserved(b' ');
    put_digits(out, number);
    Ok(())
}

/// Appends a count.
pub fn push_count(out: &mut Vec<u8>, count: usize) -> Result<(), AllocError>
    ensures { OnOk result (out.new.items ≡ out.old.items ++ 32 ∷ decimal count) }
{
    push_number(out, count as u64)
}

/// Appends the id of a row or a column.
pub fn push_id(out: &mut Vec<u8>, id: u32) -> Result<(), AllocError>
    ensures { OnOk result (out.new.items ≡ out.old.items ++ 32 ∷ decimal id) }
{
    push_number(out, id as u64)
}

/// Appends a number as `n` or `n/d`.
pub fn push_ratio(out: &mut Vec<u8>, number: &Frac) -> Result<(), AllocError>
    ensures { OnOk result (out.new.items ≡ out.old.items ++ 32 ∷ ratio_word number.now) }
{
    let parts = number.parts();
    out.push(b' ')?;
    if parts.num.is_negative() {
        out.push(b'-')?;
    }
    push_natural(out, parts.num.size())?;
    if parts.den != 1 {
        out.push(b'/')?;
        push_natural(out, parts.den)?;
    }
    Ok(())
}

/// Appends a lower bound.
pub fn push_lower(out: &mut Vec<u8>, bound: Ext) -> Result<(), AllocError>
    ensures { OnOk result (out.new.items ≡ out.old.items ++ 32 ∷ lower_word bound) }
{
    match bound.number() {
        None => out.extend_from_slice(b" -inf"),
        Some(number) => push_ratio(out, &number),
    }
}

/// Appends an upper bound.
pub fn push_upper(out: &mut Vec<u8>, bound: Ext) -> Result<(), AllocError>
    ensures { OnOk result (out.new.items ≡ out.old.items ++ 32 ∷ upper_word bound) }
{
    match bound.number() {
        None => out.extend_from_slice(b" inf"),
        Some(number) => push_ratio(out, &number),
    }
}

/// Appends which of two bounds one is, and the bound.
pub fn push_bound(out: &mut Vec<u8>, side: Side, bound: Ext) -> Result<(), AllocError>
    ensures { OnOk result (out.new.items ≡ words_onto out.old.items (side_word side ∷ bound_word side bound ∷ [])) }
{
    match side {
        Side::Lower => {
            out.extend_from_slice(b" lower")?;
            push_lower(out, bound)
        }
        Side::Upper => {
            out.extend_from_slice(b" upper")?;
            push_upper(out, bound)
        }
    }
}

/// Appends a side of a row.
pub fn push_side(out: &mut Vec<u8>, side: Side) -> Result<(), AllocError>
    ensures { OnOk result (out.new.items ≡ out.old.items ++ 32 ∷ letter_word side) }
{
    match side {
        Side::Lower => out.extend_from_slice(b" L"),
        Side::Upper => out.extend_from_slice(b" U"),
    }
}

/// Appends what became of a row.
pub fn push_fate(out: &mut Vec<u8>, fate: RowFate) -> Result<(), AllocError>
    ensures { OnOk result (out.new.items ≡ out.old.items ++ 32 ∷ fate_word fate) }
{
    match fate {
        RowFate::Kept => out.extend_from_slice(b" keep"),
        RowFate::Dropped => out.extend_from_slice(b" drop"),
    }
}

/// Appends how many terms there are, and each with its id and its value.
pub fn push_terms(out: &mut Vec<u8>, terms: &[Term]) -> Result<(), AllocError>
    ensures { OnOk result (out.new.items ≡ words_onto out.old.items (list_words terms.now)) }
{
    push_count(out, terms.len())?;
    let mut rest = terms;
    while let [term, after @ ..] = rest {
        push_id(out, term.id)?;
        push_ratio(out, &term.value)?;
        rest = after;
    }
    Ok(())
}

/// The word with which the line of a part begins, and the kind of the part.
fn opening_of(part: Part) -> &'static [u8]
    ensures { result.now ≡ codes "part" ++ 32 ∷ kind_word part }
{
    match part {
        Part::Row(_) => b"part row",
        Part::Sides(_) => b"part sides",
        Part::Col(_) => b"part col",
        Part::Bounds(_) => b"part bounds",
    }
}

/// The row or the column of a part.
fn id_of(part: Part) -> u32
    ensures { kind_word part ∷ decimal result ∷ [] ≡ part_words part }
{
    match part {
        Part::Row(id) | Part::Sides(id) | Part::Col(id) | Part::Bounds(id) => id,
    }
}

/// Appends the word with which the line of a part begins, the kind of the part, and the id of its row or column.
pub fn push_part(out: &mut Vec<u8>, part: Part) -> Result<(), AllocError>
    ensures { OnOk result (out.new.items ≡ words_onto (out.old.items ++ codes "part") (part_words part)) }
{
    out.extend_from_slice(opening_of(part))?;
    push_id(out, id_of(part))?;
    Ok(())
}
