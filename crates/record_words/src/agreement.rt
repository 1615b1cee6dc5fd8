//! What is asked of a rule's words together.

ghost use Rattle.std.specs.Prelude.{◌≡◌, zero, suc};
ghost use Rattle.record_words.specs.Undos.{agree, form_fault, word, differ, is_left_out};
ghost use Rattle.record_fields.specs.Words.{skip};
ghost use Rattle.record_fields.specs.Views.{words_left};

use crate::rules::fields_of;
use record_fields::faults::{LineFault, lower, unless};
use record_fields::fields::fields_fault;
use record_fields::ids::same_id;
use record_fields::lists::is_listed;
use record_fields::words::{Words, next_word};
use record_values::Rule;

/// The words behind so many.
fn skip(count: usize, words: Words<'_>) -> Words<'_>
    ensures { words_left result ≡ skip count (words_left words.entry) }
{
    let mut rest = words;
    for _ in 0..count {
        next_word(&mut rest);
    }
    rest
}

/// The word behind so many.
pub fn word<'a>(count: usize, words: Words<'a>) -> &'a [u8]
    ensures { result.now ≡ word count (words_left words.entry) }
{
    let mut rest = skip(count, words);
    next_word(&mut rest)
}

/// Whether two ids differ.
fn differ(first: usize, second: usize, words: Words<'_>) -> bool
    ensures { result ≡ differ first second (words_left words.entry) }
{
    !same_id(word(first, words), word(second, words))
}

/// Whether the list behind so many words has not the id.
fn is_left_out(id: usize, list: usize, words: Words<'_>) -> bool
    ensures { result ≡ is_left_out id list (words_left words.entry) }
{
    !is_listed(word(id, words), skip(list, words))
}

/// Whether a rule's words agree: ids that must differ, and lists that must or must not have an id.
fn agree(rule: Rule, words: Words<'_>) -> bool
    ensures { result ≡ agree rule (words_left words.entry) }
{
    match rule {
        Rule::K8 => is_listed(word(1, words), skip(4, words)),
        Rule::K11 => differ(1, 2, words),
        Rule::K12 => differ(1, 2, words) && is_left_out(0, 9, words),
        Rule::K13 => is_left_out(0, 5, words),
        Rule::K14 => is_left_out(0, 9, words),
        Rule::K15 | Rule::K16 => differ(0, 1, words),
        _ => true,
    }
}

/// What is wrong with a rule's words by themselves.
#[tactic(auto, unfolding(crate::specs::Undos::form_fault))]
pub fn form_fault(rule: Rule, words: Words<'_>) -> Option<LineFault>
    ensures { result ≡ form_fault rule (words_left words.entry) }
{
    lower(
        fields_fault(fields_of(rule), words),
        unless(agree(rule, words), LineFault::BadLine),
    )
}
