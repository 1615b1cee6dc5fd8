//! The record that a rule's words are.

ghost use Rattle.std.specs.Prelude.{◌≡◌, IfOk};
ghost use Rattle.record_words.specs.Undos.{undo_of, HasIdsAlone};
ghost use Rattle.record_fields.specs.Words.{first, others, id_of};
ghost use Rattle.record_fields.specs.Ratios.{ratio_of};
ghost use Rattle.record_fields.specs.Ends.{end_of};
ghost use Rattle.record_fields.specs.Lists.{list_of};
ghost use Rattle.record_values.specs.declared.rule.Rule.TheVariants.{K2, K3, K7, K8, K12, K13, K14, K15, K16};
ghost use Rattle.record_fields.specs.Views.{words_left};

use record_fields::ends::{bound_of, end_in, fate_of, letter_of};
use record_fields::ids::id_in;
use record_fields::lists::list_in;
use record_fields::ratios::number_in;
use record_fields::words::{Words, next_word};
use record_values::Rule;
use std::alloc::{AllocError, Global};
use undo_records::{
    BoundTightening, CoefficientTightening, ColumnRecord, DominatedColumn, DoubletonEquation,
    EndApart, FixedColumn, ForcingRow, FreeColumnSingleton, KeptEnd, KeptNumber, NumberApart,
    ParallelColumns, ParallelRows, RowFate, RowRecord, SharedTerms, Side, SingletonRow,
    SlackColumnSingleton, TermsApart, Undo,
};

/// The next word as an id.
fn next_id(words: &mut Words<'_>) -> u32
    ensures value { result ≡ id_of (first (words_left words.old)) }
    ensures left { words_left words.new ≡ others (words_left words.old) }
{
    id_in(next_word(words))
}

/// The next word as a number that is kept.
fn next_number(alloc: Global, words: &mut Words<'_>) -> Result<KeptNumber, AllocError>
    ensures value { IfOk result (λ kept. kept ≡ ratio_of (first (words_left words.old))) }
    ensures left { words_left words.new ≡ others (words_left words.old) }
{
    KeptNumber::new(alloc, number_in(next_word(words)))
}

/// The next word as an end that is kept.
fn next_end(alloc: Global, words: &mut Words<'_>) -> Result<KeptEnd, AllocError>
    ensures value { IfOk result (λ kept. kept ≡ end_of (first (words_left words.old))) }
    ensures left { words_left words.new ≡ others (words_left words.old) }
{
    KeptEnd::new(alloc, end_in(next_word(words)))
}

/// The next word as a number that is kept apart.
fn number_apart(alloc: Global, words: &mut Words<'_>) -> Result<NumberApart, AllocError>
    ensures value { IfOk result (λ apart. apart ≡ ratio_of (first (words_left words.old))) }
    ensures left { words_left words.new ≡ others (words_left words.old) }
{
    NumberApart::new(alloc, number_in(next_word(words)))
}

/// The next word as an end that is kept apart.
fn end_apart(alloc: Global, words: &mut Words<'_>) -> Result<EndApart, AllocError>
    ensures value { IfOk result (λ apart. apart ≡ end_of (first (words_left words.old))) }
    ensures left { words_left words.new ≡ others (words_left words.old) }
{
    EndApart::new(alloc, end_in(next_word(words)))
}

/// The terms of a list, kept apart.
fn list_apart(alloc: Global, words: Words<'_>) -> Result<TermsApart, AllocError>
    ensures { IfOk result (λ terms. terms ≡ list_of (words_left words.entry)) }
{
    let terms = list_in(alloc, words)?;
    TermsApart::new(alloc, terms)
}

/// The terms of a list, for several owners.
fn list_shared(alloc: Global, words: Words<'_>) -> Result<SharedTerms, AllocError>
    ensures { IfOk result (λ terms. terms ≡ list_of (words_left words.entry)) }
{
    let terms = list_in(alloc, words)?;
    SharedTerms::new(alloc, terms)
}

/// The record of a row with one entry.
fn singleton_row(alloc: Global, words: Words<'_>) -> Result<Undo, AllocError>
    ensures { IfOk result (λ undo. undo ≡ undo_of K2 (words_left words.entry)) }
{
    let mut rest = words;
    Ok(Undo::SingletonRow(SingletonRow {
        row: next_id(&mut rest),
        column: next_id(&mut rest),
        value: next_number(alloc, &mut rest)?,
        lower: next_end(alloc, &mut rest)?,
        upper: next_end(alloc, &mut rest)?,
    }))
}

/// The record of a fixed column.
fn fixed_column(alloc: Global, words: Words<'_>) -> Result<Undo, AllocError>
    ensures { IfOk result (λ undo. undo ≡ undo_of K3 (words_left words.entry)) }
{
    let mut rest = words;
    Ok(Undo::FixedColumn(FixedColumn {
        column: next_id(&mut rest),
        value: next_number(alloc, &mut rest)?,
        cost: next_number(alloc, &mut rest)?,
        entries: list_in(alloc, rest)?,
    }))
}

/// The record of a forcing row.
fn forcing_row(alloc: Global, words: Words<'_>) -> Result<Undo, AllocError>
    ensures { IfOk result (λ undo. undo ≡ undo_of K7 (words_left words.entry)) }
{
    let mut rest = words;
    Ok(Undo::ForcingRow(ForcingRow {
        row: next_id(&mut rest),
        side: letter_of(next_word(&mut rest)).unwrap_or(Side::Lower),
        entries: list_in(alloc, rest)?,
    }))
}

/// The record of a bound that was tightened.
fn bound_tightening(alloc: Global, words: Words<'_>) -> Result<Undo, AllocError>
    ensures { IfOk result (λ undo. undo ≡ undo_of K8 (words_left words.entry)) }
{
    let mut rest = words;
    Ok(Undo::BoundTightening(BoundTightening {
        row: next_id(&mut rest),
        column: next_id(&mut rest),
        side: bound_of(next_word(&mut rest)).unwrap_or(Side::Lower),
        bound: next_end(alloc, &mut rest)?,
        entries: list_shared(alloc, rest)?,
    }))
}

/// The record of an equation of two columns.
fn doubleton_equation(alloc: Global, words: Words<'_>) -> Result<Undo, AllocError>
    ensures { IfOk result (λ undo. undo ≡ undo_of K12 (words_left words.entry)) }
{
    let mut rest = words;
    Ok(Undo::DoubletonEquation(DoubletonEquation {
        row: next_id(&mut rest),
        column: next_id(&mut rest),
        kept: next_id(&mut rest),
        value: number_apart(alloc, &mut rest)?,
        kept_value: number_apart(alloc, &mut rest)?,
        equal: number_apart(alloc, &mut rest)?,
        lower: end_apart(alloc, &mut rest)?,
        upper: end_apart(alloc, &mut rest)?,
        cost: number_apart(alloc, &mut rest)?,
        entries: list_apart(alloc, rest)?,
    }))
}

/// The record of a free column singleton.
fn free_column_singleton(alloc: Global, words: Words<'_>) -> Result<Undo, AllocError>
    ensures { IfOk result (λ undo. undo ≡ undo_of K13 (words_left words.entry)) }
{
    let mut rest = words;
    Ok(Undo::FreeColumnSingleton(FreeColumnSingleton {
        column: next_id(&mut rest),
        row: next_id(&mut rest),
        value: number_apart(alloc, &mut rest)?,
        at: number_apart(alloc, &mut rest)?,
        price: number_apart(alloc, &mut rest)?,
        entries: list_in(alloc, rest)?,
    }))
}

/// The record of a slack column singleton.
fn slack_column_singleton(alloc: Global, words: Words<'_>) -> Result<Undo, AllocError>
    ensures { IfOk result (λ undo. undo ≡ undo_of K14 (words_left words.entry)) }
{
    let mut rest = words;
    Ok(Undo::SlackColumnSingleton(SlackColumnSingleton {
        column: next_id(&mut rest),
        row: next_id(&mut rest),
        value: number_apart(alloc, &mut rest)?,
        price: number_apart(alloc, &mut rest)?,
        lower_side: end_apart(alloc, &mut rest)?,
        upper_side: end_apart(alloc, &mut rest)?,
        lower: end_apart(alloc, &mut rest)?,
        upper: end_apart(alloc, &mut rest)?,
        fate: fate_of(next_word(&mut rest)).unwrap_or(RowFate::Kept),
        entries: list_apart(alloc, rest)?,
    }))
}

/// The record of parallel rows.
fn parallel_rows(alloc: Global, words: Words<'_>) -> Result<Undo, AllocError>
    ensures { IfOk result (λ undo. undo ≡ undo_of K15 (words_left words.entry)) }
{
    let mut rest = words;
    Ok(Undo::ParallelRows(ParallelRows {
        row: next_id(&mut rest),
        kept: next_id(&mut rest),
        factor: number_apart(alloc, &mut rest)?,
        lower: end_apart(alloc, &mut rest)?,
        upper: end_apart(alloc, &mut rest)?,
        entries: list_shared(alloc, rest)?,
    }))
}

/// The record of parallel columns.
fn parallel_columns(alloc: Global, words: Words<'_>) -> Result<Undo, AllocError>
    ensures { IfOk result (λ undo. undo ≡ undo_of K16 (words_left words.entry)) }
{
    let mut rest = words;
    Ok(Undo::ParallelColumns(ParallelColumns {
        column: next_id(&mut rest),
        kept: next_id(&mut rest),
        factor: number_apart(alloc, &mut rest)?,
        lower: end_apart(alloc, &mut rest)?,
        upper: end_apart(alloc, &mut rest)?,
        kept_lower: end_apart(alloc, &mut rest)?,
        kept_upper: end_apart(alloc, &mut rest)?,
    }))
}

/// The record of a rule that has ids alone.
fn ids_alone(rule: Rule, words: Words<'_>) -> Undo
    requires { HasIdsAlone rule }
    ensures { result ≡ undo_of rule (words_left words.entry) }
{
    let mut rest = words;
    let first = next_id(&mut rest);
    let second = next_id(&mut rest);
    let third = next_id(&mut rest);
    match rule {
        Rule::K1 => Undo::EmptyRow(RowRecord { row: first }),
        Rule::K4 => Undo::RoundedBounds(ColumnRecord { column: first }),
        Rule::K5 => Undo::RedundantRow(RowRecord { row: first }),
        Rule::K6 => Undo::RedundantSide(RowRecord { row: first }),
        Rule::K9 => Undo::CoefficientTightening(CoefficientTightening {
            row: first,
            column: second,
        }),
        Rule::K10 => Undo::DualFixing(ColumnRecord { column: first }),
        Rule::K11 => Undo::DominatedColumn(DominatedColumn {
            row: first,
            better: second,
            column: third,
        }),
        _ => Undo::EmptyColumn(ColumnRecord { column: first }),
    }
}

/// The record that a rule's words are. Words that are not of the form stand for others.
pub fn undo_in(alloc: Global, rule: Rule, words: Words<'_>) -> Result<Undo, AllocError>
    ensures { IfOk result (λ undo. undo ≡ undo_of rule (words_left words.entry)) }
{
    match rule {
        Rule::K2 => singleton_row(alloc, words),
        Rule::K3 => fixed_column(alloc, words),
        Rule::K7 => forcing_row(alloc, words),
        Rule::K8 => bound_tightening(alloc, words),
        Rule::K12 => doubleton_equation(alloc, words),
        Rule::K13 => free_column_singleton(alloc, words),
        Rule::K14 => slack_column_singleton(alloc, words),
        Rule::K15 => parallel_rows(alloc, words),
        Rule::K16 => parallel_columns(alloc, words),
        other => Ok(ids_alone(other, words)),
    }
}
