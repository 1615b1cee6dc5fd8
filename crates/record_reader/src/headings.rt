//! The lines that are neither labels nor records.

ghost use Rattle.std.specs.Prelude.{◌≡◌, ◌^◌, ◌<◌, ◌≤◌, ◌-◌, ◌==◌, not, length, IfOk, IsTrue, Ok, Err, Some, None, take, drop, slice_index_or};
ghost use Rattle.std.specs.Option.{option_map};
ghost use Rattle.fractions.specs.declared.Numbers.TheVariants.{Fractions};
ghost use Rattle.number_texts.specs.Form.{cut, is_slash, is_point};
ghost use Rattle.number_texts.specs.Read.{read_of};
ghost use Rattle.record_fields.specs.Ratios.{is_least, unsigned_part};
ghost use Rattle.record_fields.specs.Words.{is_plain};
ghost use Rattle.record_reader.specs.Headings.{version_of, sense_of, duals_of, counted, count_of, are_decimals, point_form, slash_form, has_written_form, offset_by, offset_of, is_end};
ghost use Rattle.record_reader.specs.Results.{IsNumber};

use crate::line_parts::{behind, front};
use fractions::frac::Frac;
use lp_model::Sense;
use number_texts::form::{cut_point, cut_slash, is_digits, number};
use number_texts::{Numbers, ReadNumber, read, write};
use record_fields::faults::LineFault;
use record_fields::ids::is_plain;
use record_values::TextVersion;
use record_words::LineError;
use std::alloc::Global;

/// The version that a header names.
pub fn version_of(line: &[u8]) -> Option<TextVersion>
    ensures { result ≡ version_of line.now }
{
    if line == b"papilo-records 1".as_slice() {
        return Some(TextVersion::First);
    }
    if line == b"papilo-records 2".as_slice() {
        return Some(TextVersion::Second);
    }
    None
}

/// The sense that a line tells.
pub fn sense_of(line: &[u8]) -> Option<Sense>
    ensures { result ≡ sense_of line.now }
{
    if line == b"sense min".as_slice() {
        return Some(Sense::Min);
    }
    if line == b"sense max".as_slice() {
        return Some(Sense::Max);
    }
    None
}

/// Whether the records undo duals too, as a line tells.
pub fn duals_of(line: &[u8]) -> Option<bool>
    ensures { result ≡ duals_of line.now }
{
    if line == b"duals no".as_slice() {
        return Some(false);
    }
    if line == b"duals yes".as_slice() {
        return Some(true);
    }
    None
}

/// Whether a line is the end.
pub fn is_end(line: &[u8]) -> bool
    ensures { result ≡ is_end line.now }
{
    line == b"end".as_slice()
}

/// How many lines digits announce.
pub fn counted(digits: &[u8]) -> u64
    requires { IsTrue (is_plain digits.now) }
    ensures { result ≡ counted digits.now }
{
    match number(digits, 1 << 64) {
        Some(count) => count as u64,
        None => u64::MAX,
    }
}

/// The number behind a heading and its space.
pub fn count_of(heading: &[u8], line: &[u8]) -> Option<u64>
    ensures { result ≡ count_of heading.now line.now }
{
    let digits = behind(line, heading.len());
    if front(line, heading.len()) != heading || !is_plain(digits) {
        return None;
    }
    Some(counted(digits))
}

/// Whether digits end with one that is not 0.
fn are_decimals(digits: &[u8]) -> bool
    ensures { result ≡ are_decimals digits.now }
{
    is_digits(digits) && digits[digits.len() - 1] != b'0'
}

/// Whether an unsigned text is whole, or has decimals, as numbers are written.
fn point_form(text: &[u8]) -> bool
    ensures { result ≡ point_form (cut is_point text.now) }
{
    match cut_point(text) {
        (digits, None) => is_plain(digits),
        (digits, Some(decimals)) => is_plain(digits) && are_decimals(decimals),
    }
}

/// Whether digits are a number of at least some size, without leading zeros.
fn is_least(digits: &[u8], size: u128) -> bool
    requires positive { 0 < size }
    requires small { size ≤ 2 ^ 127 }
    ensures { result ≡ is_least size digits.now }
{
    if !is_plain(digits) {
        return false;
    }
    match number(digits, size) {
        Some(_) => false,
        None => true,
    }
}

/// Whether an unsigned text has the form in which numbers are written.
fn slash_form(text: &[u8]) -> bool
    ensures { result ≡ slash_form (cut is_slash text.now) }
{
    match cut_slash(text) {
        (number, None) => point_form(number),
        (over, Some(under)) => is_least(over, 1) && is_least(under, 2),
    }
}

/// Whether a text has the form in which numbers are written.
fn has_written_form(text: &[u8]) -> bool
    ensures { result ≡ has_written_form text.now }
{
    match text {
        [b'-', rest @ ..] => slash_form(rest),
        _ => slash_form(text),
    }
}

/// The number of an offset, which is a number as it is written.
fn offset_number(alloc: Global, text: &[u8]) -> Result<Frac, LineError>
    ensures { IsNumber (offset_by text.now (read_of Fractions text.now)) result }
{
    match read(text, Numbers::Fractions) {
        Ok(number) => {
            let written = write(alloc, &number)?;
            if text == written.as_slice() {
                Ok(number)
            } else {
                Err(LineError::Fault(LineFault::BadLine))
            }
        }
        Err(ReadNumber::NotNumber) => Err(LineError::Fault(LineFault::BadLine)),
        Err(ReadNumber::NumberPast) => {
            if has_written_form(text) {
                Err(LineError::Fault(LineFault::NumberPast))
            } else {
                Err(LineError::Fault(LineFault::BadLine))
            }
        }
    }
}

/// The offset that a line tells.
pub fn offset_of(alloc: Global, line: &[u8]) -> Result<Frac, LineError>
    ensures { IsNumber (offset_of line.now) result }
{
    if front(line, 7) == b"offset ".as_slice() {
        offset_number(alloc, behind(line, 7))
    } else {
        Err(LineError::Fault(LineFault::BadLine))
    }
}
