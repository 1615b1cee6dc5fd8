//! Changes.

use problem_model::Edit;
use undo_pairs::undo_records::Undo;

/// What a rule does to a problem, and how it is undone.
#[derive(Drop)]
pub struct Change {
    pub edits: Vec<Edit>,
    pub undo: Undo,
}
