//! Words of one card.

ghost use Rattle.std.specs.Prelude.{◌≡◌, IfOk, OnOk};
ghost use Rattle.names.specs.Names.{place};
ghost use Rattle.std.specs.List.{list_any};
ghost use Rattle.mps_profile.specs.Words.{kind_named};
ghost use Rattle.mps_profile.specs.Rows.{is_free};
ghost use Rattle.mps_profile.specs.Columns.{is_start, joined, column_place};
ghost use Rattle.mps_profile.specs.CardFaults.{fits_run, is_split};

use mps_profile::row_kinds::{RowKind, row_kind};
use names::{Named, Names};
use std::alloc::{AllocError, Global};

/// The type of rows that a word names.
pub(crate) fn kind_named(word: &[u8]) -> Option<RowKind>
    ensures { result ≡ kind_named word.now }
{
    row_kind(word).ok()
}

/// Whether rows of a type are N rows.
pub(crate) fn is_free(kind: RowKind) -> bool
    ensures { result ≡ is_free kind }
{
    matches!(kind, RowKind::Free)
}

/// Whether one of some rows is an N row.
pub(crate) fn any_free(kinds: &[RowKind]) -> bool
    ensures { result ≡ list_any is_free kinds.now }
{
    kinds.iter().any(|kind| is_free(*kind))
}

/// Whether a marker starts a run.
pub(crate) fn is_start(word: &[u8]) -> bool
    ensures { result ≡ is_start word.now }
{
    word == b"'INTORG'".as_slice()
}

/// Whether a marker starts a run where none is open, or ends an open one.
pub(crate) fn fits_run(run: bool, word: &[u8]) -> bool
    ensures { result ≡ fits_run run word.now }
{
    if is_start(word) {
        !run
    } else {
        word == b"'INTEND'".as_slice() && run
    }
}

/// Where a card's column stands among the columns.
#[derive(Clone, Copy)]
pub(crate) struct Entered {
    /// The place that it had before the card.
    pub known: Option<usize>,
    /// Its place.
    pub column: usize,
}

/// Takes in the column of a card.
pub(crate) fn enter(columns: &mut Names, alloc: Global, name: &[u8]) -> Result<Entered, AllocError>
    ensures known { IfOk result (λ entered. entered.known ≡ place name.now columns.old) }
    ensures column { IfOk result (λ entered. entered.column ≡ column_place name.now columns.old) }
    ensures columns { OnOk result (columns.new ≡ joined name.now columns.old) }
{
    match columns.insert(alloc, name)? {
        Named::Known(column) => Ok(Entered {
            known: Some(column),
            column,
        }),
        Named::Fresh(column) => Ok(Entered {
            known: None,
            column,
        }),
    }
}

/// Whether a column that was named before is not the one that is going on.
pub(crate) fn is_split(known: Option<usize>, current: Option<usize>) -> bool
    ensures { result ≡ is_split known current }
{
    match (known, current) {
        (None, _) => false,
        (Some(_), None) => true,
        (Some(column), Some(going)) => going != column,
    }
}
