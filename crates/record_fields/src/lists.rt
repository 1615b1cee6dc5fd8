//! Lists in records.

ghost use Rattle.std.specs.Prelude.{◌≡◌, true, None, IfOk, map};
ghost use Rattle.std.specs.Option.{option_map, ForSome};
ghost use Rattle.std.specs.List.{list_any};
ghost use Rattle.record_fields.specs.Words.{is_plain, same_id};
ghost use Rattle.record_fields.specs.Lists.{pairs_of, pair_fault, pairs_fault, has_count, list_fault, term_of, list_of, is_listed};
ghost use Rattle.record_fields.specs.Views.{words_left};

use crate::faults::{LineFault, lower, unless};
use crate::ids::{comes_after, id_fault, id_in, is_plain, same_id};
use crate::ratios::{entry_fault, number_in};
use crate::words::{Pair, Words, next_pair, next_word, pair_room, word_count};
use lp_model::{Term, Terms};
use number_texts::form::number;
use std::alloc::{AllocError, Global};

/// What is wrong with a pair behind an id.
fn pair_fault(before: Option<&[u8]>, pair: Pair<'_>) -> Option<LineFault>
    requires before { ForSome before (λ s. is_plain s.now ≡ true) }
    requires id { is_plain pair.id.now ≡ true }
    ensures { result ≡ pair_fault (option_map (λ s. s.now) before.entry) (pair.entry.id.now, pair.entry.value.now) }
{
    let words = lower(id_fault(pair.id), entry_fault(pair.value));
    lower(
        words,
        unless(comes_after(before, pair.id), LineFault::BadLine),
    )
}

/// What is wrong with pairs.
#[tactic(auto, using(crate::proofs::FaultLaws::lower_lower, crate::proofs::FaultLaws::lower_none_is, crate::proofs::FaultLaws::lower_bad))]
fn pairs_fault(words: Words<'_>) -> Option<LineFault>
    ensures { result ≡ pairs_fault None (pairs_of (words_left words.entry)) }
{
    let mut rest = words;
    let mut before = None;
    let mut found = None;
    while let Some(pair) = next_pair(&mut rest) {
        if !is_plain(pair.id) {
            return Some(LineFault::BadLine);
        }
        found = lower(found, pair_fault(before, pair));
        before = Some(pair.id);
    }
    found
}

/// Whether a word says how many pairs are left.
fn has_count(word: &[u8], words: &Words<'_>) -> bool
    ensures { result ≡ has_count word.now (words_left words.now) }
{
    if !is_plain(word) {
        return false;
    }
    let left = word_count(words);
    match number(word, 1 << 64) {
        Some(count) => count + count == left,
        None => false,
    }
}

/// What is wrong with a list.
pub fn list_fault(words: Words<'_>) -> Option<LineFault>
    ensures { result ≡ list_fault (words_left words.entry) }
{
    let mut rest = words;
    let count = next_word(&mut rest);
    lower(
        unless(has_count(count, &rest), LineFault::BadLine),
        pairs_fault(rest),
    )
}

/// The terms of a list.
pub fn list_in(alloc: Global, words: Words<'_>) -> Result<Terms, AllocError>
    ensures { IfOk result (λ terms. terms ≡ list_of (words_left words.entry)) }
{
    let mut rest = words;
    next_word(&mut rest);
    let mut terms = Vec::with_capacity(alloc, pair_room(&rest))?;
    while let Some(pair) = next_pair(&mut rest) {
        terms.push(Term {
            id: id_in(pair.id),
            value: number_in(pair.value),
        })?;
    }
    Ok(Terms::new(terms))
}

/// Whether a list has an id.
pub fn is_listed(id: &[u8], words: Words<'_>) -> bool
    ensures { result ≡ is_listed id.now (words_left words.entry) }
{
    let mut rest = words;
    next_word(&mut rest);
    while let Some(pair) = next_pair(&mut rest) {
        if same_id(pair.id, id) {
            return true;
        }
    }
    false
}
