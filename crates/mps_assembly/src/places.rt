//! What tables have at a place. Past its end a table has nothing.

ghost use Rattle.std.specs.Prelude.{◌≡◌, None, false, slice_index_or};
ghost use Rattle.mps_profile.specs.Texts.{field};
ghost use Rattle.mps_profile.specs.Program.{kind_at};

use mps_profile::row_kinds::RowKind;
use names::Names;

/// The name at a place; past the end it is empty.
pub fn name_at(names: &Names, place: usize) -> &[u8]
    ensures { result.now ≡ field names.now place }
{
    if place < names.len() {
        names.name(place)
    } else {
        &[]
    }
}

/// The type of a row; past the end it is that of an N row.
pub fn kind_at(kinds: &[RowKind], place: usize) -> RowKind
    ensures { result ≡ kind_at kinds.now place }
{
    match kinds.get(place) {
        Some(kind) => *kind,
        None => RowKind::Free,
    }
}

/// The value at a place, where there is one.
pub fn value_at<T: Copy>(values: &[Option<T>], place: usize) -> Option<T>
    ensures { result ≡ slice_index_or values.now place None }
{
    match values.get(place) {
        Some(value) => *value,
        None => None,
    }
}

/// Whether a place is marked.
pub fn mark_at(marks: &[bool], place: usize) -> bool
    ensures { result ≡ slice_index_or marks.now place false }
{
    match marks.get(place) {
        Some(mark) => *mark,
        None => false,
    }
}
