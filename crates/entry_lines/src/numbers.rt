//! How often parts have changed.

ghost use Rattle.std.specs.Prelude.{◌≡◌, ◌<◌, length, slice_set};
ghost use Rattle.problem_model.specs.Matrices.{line_at};

use problem_model::Line;

/// How often a line has changed. One past the last never has.
pub fn line_changes(lines: &[Line], k: u32) -> u64
    ensures { result ≡ (line_at lines.now k).changes }
{
    match lines.get(k as usize) {
        Some(line) => line.changes,
        None => 0,
    }
}

/// Says how often a line has changed.
pub fn number_line(lines: &mut Vec<Line>, k: u32, changes: u64)
    requires { k < length lines.old.items }
    ensures { lines.new.items ≡ slice_set lines.old.items k (record (line_at lines.old.items k) { changes = changes }) }
{
    let line = &mut lines[k as usize];
    line.changes = changes;
}
